// What a request does: a decision on the store as it is.
#![tactic(auto)]

ghost use Rattle.std.specs.Prelude.{cond, ◌≡◌, ◌≤◌, eqb, IfSome};
ghost use Rattle.std.proofs.Math.Option.{some, map};
ghost use Rattle.plan.specs.Plans.{stores_of};
ghost use Rattle.messages.specs.View.{schedule_request_of, request_of, reply_of, request_count, reply_count};
ghost use Rattle.actions.specs.Act.{effect_of, effect, get_listed, get_effect, set_listed, set_effect, power_read_effect, power_control_effect, date_write_effect, schedule_read_effect, schedule_write_effect, schedule_enable_effect, schedule_effect, is_erase, item_of, says, replies, begins};
ghost use Rattle.store.specs.Settings.{setting_at, Listed};
ghost use Rattle.store.specs.Contents.{tag_stores};
ghost use Rattle.wire.specs.Digits.{found, octets_of};
ghost use Rattle.messages.specs.Message.Reply.{set_reply, item_reply, tag_write_reply};
ghost use Rattle.actions.specs.View.{identity_of};
ghost use Rattle.actions.specs.Inner.{Decides, StoreInRange, ItemsFit};

use messages::message::{
    Date, DateAnswer, Item, Parameter, PowerMode, Reply, Request, ScheduleAnswer, ScheduleRequest,
    Status,
};
use plan::Plan;
use schedule::{numbers, programs};
use store::settings::Row;
use store::{contents, settings};
use wire::digits::Octets;

// The erase's page and code.
pub const ERASE_PAGE: u8 = 0xF0;

pub const ERASE_CODE: u8 = 0x01;

// What a board is given at its start: its ID, its serial number and its model. Any counts may stand in it.
#[derive(Clone, Copy)]
pub struct Identity {
    pub id: u8,
    pub serial: Octets,
    pub model: Octets,
}

// A reply, or the beginning of an erase.
#[derive(Clone, Copy)]
pub enum Effect {
    Replies(Reply),
    Begins,
}

// What a request does: its effect, and what it stores.
#[derive(Clone, Copy)]
pub struct Decision {
    pub effect: Effect,
    pub plan: Plan,
}

// What a packet's text does: the request in it, or NULL.
pub fn decide(identity: Identity, asked: Option<Request>, store: &[u8]) -> Decision
    requires store_in_range { StoreInRange store.now }
    requires items_fit { ItemsFit identity }
    requires asked_few { IfSome asked (λ r. request_count r ≤ 16) }
    ensures { Decides result (effect (identity_of identity) store.now (map request_of (found asked))) }
{
    match asked {
        Some(request) => decide_request(identity, request, store),
        None => unchanged(Reply::Null),
    }
}

// What a request does.
#[tactic(auto, unfolding(crate::specs::Act::effect_of))]
fn decide_request(identity: Identity, request: Request, store: &[u8]) -> Decision
    requires store_in_range { StoreInRange store.now }
    requires items_fit { ItemsFit identity }
    requires request_few { request_count request ≤ 16 }
    ensures { Decides result (effect_of (identity_of identity) store.now (request_of request)) }
{
    match request {
        Request::Get { page, code } => get(page, code, store),
        Request::Set { page, code, value } => set(page, code, value, store),
        Request::PowerRead => power_read(store),
        Request::PowerControl(mode) => power_control(mode, store),
        Request::DateRead => unchanged(Reply::Date(DateAnswer::Read(contents::date_of(store)))),
        Request::DateWrite(date) => date_write(date, store),
        Request::ItemRead(item) => item_read(identity, item, store),
        Request::TagWrite(tag) => tag_write(tag, store),
        Request::Schedule(request) => schedule(request, store),
    }
}

// A reply that stores nothing.
fn unchanged(reply: Reply) -> Decision
    requires { reply_count reply ≤ 16 }
    ensures { Decides result (says (reply_of reply)) }
{
    changed(reply, Plan::empty())
}

// A reply with what its request stores.
fn changed(reply: Reply, plan: Plan) -> Decision
    requires { reply_count reply ≤ 16 }
    ensures { Decides result (replies (reply_of reply) (stores_of plan)) }
{
    Decision {
        effect: Effect::Replies(reply),
        plan,
    }
}

// Get: the erase, or what is listed.
#[tactic(auto, unfolding(crate::specs::Act::get_effect))]
fn get(page: u8, code: u8, store: &[u8]) -> Decision
    requires { StoreInRange store.now }
    ensures { Decides result (get_effect store.now page code) }
{
    if is_erase(page, code) {
        return unchanged(Reply::Got(Status::Acknowledged, parameter(page, code, 1, 1, 0)));
    }
    get_listed(page, code, store)
}

// Get of a setting, or of a pair that is not listed.
#[tactic(auto, using(crate::proofs::Laws::row_listed))]
fn get_listed(page: u8, code: u8, store: &[u8]) -> Decision
    requires { StoreInRange store.now }
    ensures { Decides result (says (get_listed store.now page code (setting_at page code))) }
{
    let Some(row) = settings::setting_at(page, code) else {
        return unchanged(Reply::Got(Status::Refused, parameter(page, code, 0, 0, 0)));
    };
    let value = row.current(store);
    unchanged(Reply::Got(
        Status::Acknowledged,
        parameter(page, code, 0, row.largest, value),
    ))
}

// Set: the erase, or what is listed.
#[tactic(auto, using(crate::proofs::Laws::row_listed), unfolding(crate::specs::Act::set_effect))]
fn set(page: u8, code: u8, value: u16, store: &[u8]) -> Decision
    requires { StoreInRange store.now }
    ensures { Decides result (set_effect store.now page code value) }
{
    if is_erase(page, code) {
        return set_erase(page, code, value);
    }
    let Some(row) = settings::setting_at(page, code) else {
        return unchanged(Reply::Set(Status::Refused, parameter(page, code, 0, 0, value)));
    };
    set_listed(page, code, value, row, store)
}

// Set of a setting: accepted where the power is on and the value is one of the setting's.
fn set_listed(page: u8, code: u8, value: u16, row: Row, store: &[u8]) -> Decision
    requires store_in_range { StoreInRange store.now }
    requires listed { Listed row }
    ensures { Decides result (set_listed store.now page code value (some row)) }
{
    let shown = parameter(page, code, 0, row.largest, value);
    if !contents::is_on(store) {
        return unchanged(Reply::Set(Status::Refused, shown));
    }
    if !row.values.accepts(value) {
        return unchanged(Reply::Set(Status::Refused, shown));
    }
    changed(
        Reply::Set(Status::Acknowledged, shown),
        row.stores(store, value),
    )
}

// Set of the erase: 1 begins it.
fn set_erase(page: u8, code: u8, value: u16) -> Decision
    ensures { Decides result (cond (eqb value 1) begins (says (set_reply 1 page code 1 1 value))) }
{
    if value != 1 {
        return unchanged(Reply::Set(Status::Refused, parameter(page, code, 1, 1, value)));
    }
    Decision {
        effect: Effect::Begins,
        plan: Plan::empty(),
    }
}

// The power status: on, or standby.
#[tactic(auto, unfolding(crate::specs::Act::power_read_effect))]
fn power_read(store: &[u8]) -> Decision
    requires { StoreInRange store.now }
    ensures { Decides result (power_read_effect store.now) }
{
    let mode = if contents::is_on(store) {
        PowerMode::On
    } else {
        PowerMode::Standby
    };
    unchanged(Reply::PowerStatus(Status::Acknowledged, mode))
}

// Power control: mode 1 is on, 4 standby.
#[tactic(auto, unfolding(crate::specs::Act::power_control_effect))]
fn power_control(mode: u16, store: &[u8]) -> Decision
    requires { StoreInRange store.now }
    ensures { Decides result (power_control_effect store.now mode) }
{
    let on = match mode {
        1 => 1,
        4 => 0,
        _ => return unchanged(Reply::PowerControl(Status::Refused, mode)),
    };
    changed(
        Reply::PowerControl(Status::Acknowledged, mode),
        contents::power_stores(store, on),
    )
}

// A date write.
#[tactic(auto, unfolding(crate::specs::Act::date_write_effect))]
fn date_write(date: Date, store: &[u8]) -> Decision
    requires { StoreInRange store.now }
    ensures { Decides result (date_write_effect store.now date) }
{
    if !calendar::is_accepted(date) {
        return unchanged(Reply::Date(DateAnswer::Written(Status::Refused, date)));
    }
    changed(
        Reply::Date(DateAnswer::Written(Status::Acknowledged, date)),
        contents::date_stores(store, date),
    )
}

// Serial number, model, tag or former tag.
#[tactic(auto, using(crate::proofs::Laws::tag_few, crate::proofs::Laws::former_few))]
fn item_read(identity: Identity, item: Item, store: &[u8]) -> Decision
    requires store_in_range { StoreInRange store.now }
    requires count_bound { ItemsFit identity }
    ensures { Decides result (says (item_reply item (item_of (identity_of identity) store.now item))) }
{
    let held = match item {
        Item::Serial => identity.serial,
        Item::Model => identity.model,
        Item::Tag => contents::tag_of(store),
        Item::FormerTag => contents::former_tag_of(store),
    };
    unchanged(Reply::Item(item, held))
}

// A tag write.
fn tag_write(tag: Octets, store: &[u8]) -> Decision
    requires { StoreInRange store.now × (tag.count ≤ 16) }
    ensures { Decides result (replies (tag_write_reply 0 (octets_of tag)) (tag_stores store.now (octets_of tag))) }
{
    changed(
        Reply::TagWritten(Status::Acknowledged, tag),
        contents::tag_stores(store, &tag.bytes[..tag.count as usize]),
    )
}

// A program read, written, or enabled and disabled.
#[tactic(auto, unfolding(crate::specs::Act::schedule_effect))]
fn schedule(request: ScheduleRequest, store: &[u8]) -> Decision
    requires { StoreInRange store.now }
    ensures { Decides result (schedule_effect store.now (schedule_request_of request)) }
{
    match request {
        ScheduleRequest::Read(program) => schedule_read(program, store),
        ScheduleRequest::Write(numbers) => schedule_write(numbers, store),
        ScheduleRequest::Enable(program, enable) => schedule_enable(program, enable, store),
    }
}

// The program's numbers, or NULL where there is no such program.
#[tactic(auto, unfolding(crate::specs::Act::schedule_read_effect))]
fn schedule_read(program: u8, store: &[u8]) -> Decision
    requires { StoreInRange store.now }
    ensures { Decides result (schedule_read_effect store.now program) }
{
    if 6 < program {
        return unchanged(Reply::Null);
    }
    let numbers = numbers::shown_program(store, program as usize);
    unchanged(Reply::Schedule(ScheduleAnswer::Read(numbers)))
}

// A schedule write; its numbers come back as they were sent.
#[tactic(auto, unfolding(crate::specs::Act::schedule_write_effect))]
fn schedule_write(numbers: [u8; 16], store: &[u8]) -> Decision
    requires { StoreInRange store.now }
    ensures { Decides result (schedule_write_effect store.now numbers) }
{
    if !numbers::is_accepted(numbers) {
        return unchanged(Reply::Schedule(ScheduleAnswer::Written(Status::Refused, numbers)));
    }
    let fields = numbers::kept_fields(numbers);
    changed(
        Reply::Schedule(ScheduleAnswer::Written(Status::Acknowledged, numbers)),
        programs::program_stores(store, numbers[0] as usize, fields),
    )
}

// A program enabled (1) or disabled (0).
#[tactic(auto, unfolding(crate::specs::Act::schedule_enable_effect))]
fn schedule_enable(program: u8, enable: u8, store: &[u8]) -> Decision
    requires { StoreInRange store.now }
    ensures { Decides result (schedule_enable_effect store.now program enable) }
{
    let refused = Reply::Schedule(ScheduleAnswer::Enabled(Status::Refused, program, enable));
    if 6 < program || 1 < enable {
        return unchanged(refused);
    }
    changed(
        Reply::Schedule(ScheduleAnswer::Enabled(Status::Acknowledged, program, enable)),
        programs::enable_stores(store, program as usize, u16::from(enable)),
    )
}

fn is_erase(page: u8, code: u8) -> bool
    ensures { result ≡ is_erase page code }
{
    page == ERASE_PAGE && code == ERASE_CODE
}

fn parameter(page: u8, code: u8, operation: u8, largest: u16, value: u16) -> Parameter
    ensures { result ≡ record { page = page; code = code; operation = operation; largest = largest; value = value } }
{
    Parameter {
        page,
        code,
        operation,
        largest,
        value,
    }
}
