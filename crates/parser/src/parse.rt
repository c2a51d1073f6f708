// What a board finds in the text of a packet: a request, or none.
ghost use Rattle.std.specs.Prelude.{◌≡◌, IfSome};
ghost use Rattle.std.proofs.Math.Option.{map};
ghost use Rattle.wire.specs.Digits.{found, octets_in};
ghost use Rattle.messages.specs.Message.Request.{date_write, tag_write};
ghost use Rattle.messages.specs.Read.{request_in, command_in, get_in, set_in, power_control_in, schedule_read_in, schedule_write_in, schedule_enable_in, value_command_in, date_in};
ghost use Rattle.messages.specs.View.{request_of, ExactRequest};

use messages::message::{Item, Request, ScheduleRequest};
use wire::{digits, packet};

// The request in the text of a packet of a type.
#[tactic(auto, unfolding(messages::specs::Read::request_in))]
pub fn parse_request(kind: u8, text: &[u8]) -> Option<Request>
    ensures request { map request_of (found result) ≡ request_in kind text.now }
    ensures exact { IfSome result ExactRequest }
{
    if kind == packet::TYPE_C {
        return parse_get(text);
    }
    if kind == packet::TYPE_E {
        return parse_set(text);
    }
    if kind != packet::TYPE_A {
        return None;
    }
    if text_fields::begins_with(b"F011", text) {
        return parse_tag_write(&text[4..]);
    }
    if text_fields::begins_with(b"C222", text) {
        return parse_schedule_write(&text[4..]);
    }
    parse_command(text)
}

// Type C: page and code.
#[tactic(auto, unfolding(messages::specs::Read::get_in))]
fn parse_get(text: &[u8]) -> Option<Request>
    ensures request { map request_of (found result) ≡ get_in text.now }
    ensures exact { IfSome result ExactRequest }
{
    if text.len() != 4 {
        return None;
    }
    let page = digits::two_at(text, 0)?;
    let code = digits::two_at(text, 2)?;
    Some(Request::Get { page, code })
}

// Type E: page, code and value.
#[tactic(auto, unfolding(messages::specs::Read::set_in))]
fn parse_set(text: &[u8]) -> Option<Request>
    ensures request { map request_of (found result) ≡ set_in text.now }
    ensures exact { IfSome result ExactRequest }
{
    if text.len() != 8 {
        return None;
    }
    let page = digits::two_at(text, 0)?;
    let code = digits::two_at(text, 2)?;
    let value = digits::four_at(text, 4)?;
    Some(Request::Set { page, code, value })
}

// The tag behind F011.
fn parse_tag_write(text: &[u8]) -> Option<Request>
    ensures request { map request_of (found result) ≡ map tag_write (octets_in text.now) }
    ensures exact { IfSome result ExactRequest }
{
    let tag = digits::octets_in(text)?;
    Some(Request::TagWrite(tag))
}

// The sixteen numbers behind C222.
fn parse_schedule_write(text: &[u8]) -> Option<Request>
    ensures request { map request_of (found result) ≡ schedule_write_in text.now }
    ensures exact { IfSome result ExactRequest }
{
    let numbers = text_fields::numbers_in(text)?;
    Some(Request::Schedule(ScheduleRequest::Write(numbers)))
}

// Type A, but for the requests that carry bytes.
#[tactic(auto, unfolding(messages::specs::Read::command_in))]
fn parse_command(text: &[u8]) -> Option<Request>
    ensures request { map request_of (found result) ≡ command_in text.now }
    ensures exact { IfSome result ExactRequest }
{
    if text_fields::is_name(b"01D6", text) {
        return Some(Request::PowerRead);
    }
    if text_fields::is_name(b"C211", text) {
        return Some(Request::DateRead);
    }
    if text_fields::is_name(b"C216", text) {
        return Some(Request::ItemRead(Item::Serial));
    }
    if text_fields::is_name(b"C217", text) {
        return Some(Request::ItemRead(Item::Model));
    }
    if text_fields::is_name(b"F010", text) {
        return Some(Request::ItemRead(Item::Tag));
    }
    if text_fields::is_name(b"F012", text) {
        return Some(Request::ItemRead(Item::FormerTag));
    }
    parse_value_command(text)
}

// Type A, the requests that carry a value behind their name.
fn parse_value_command(text: &[u8]) -> Option<Request>
    ensures request { map request_of (found result) ≡ value_command_in text.now }
    ensures exact { IfSome result ExactRequest }
{
    if text_fields::begins_with(b"C203D6", text) {
        return parse_power_control(&text[6..]);
    }
    if text_fields::begins_with(b"C212", text) {
        return parse_date_write(&text[4..]);
    }
    if text_fields::begins_with(b"C221", text) {
        return parse_schedule_read(&text[4..]);
    }
    if text_fields::begins_with(b"C215", text) {
        return parse_schedule_enable(&text[4..]);
    }
    None
}

// The mode behind C203D6.
#[tactic(auto, unfolding(messages::specs::Read::power_control_in))]
fn parse_power_control(text: &[u8]) -> Option<Request>
    ensures request { map request_of (found result) ≡ power_control_in text.now }
    ensures exact { IfSome result ExactRequest }
{
    if text.len() != 4 {
        return None;
    }
    let mode = digits::four_at(text, 0)?;
    Some(Request::PowerControl(mode))
}

// The date behind C212.
fn parse_date_write(text: &[u8]) -> Option<Request>
    ensures request { map request_of (found result) ≡ map date_write (date_in text.now) }
    ensures exact { IfSome result ExactRequest }
{
    let date = text_fields::date_in(text)?;
    Some(Request::DateWrite(date))
}

// The program behind C221.
#[tactic(auto, unfolding(messages::specs::Read::schedule_read_in))]
fn parse_schedule_read(text: &[u8]) -> Option<Request>
    ensures request { map request_of (found result) ≡ schedule_read_in text.now }
    ensures exact { IfSome result ExactRequest }
{
    if text.len() != 2 {
        return None;
    }
    let program = digits::two_at(text, 0)?;
    Some(Request::Schedule(ScheduleRequest::Read(program)))
}

// The program and the enable behind C215.
#[tactic(auto, unfolding(messages::specs::Read::schedule_enable_in))]
fn parse_schedule_enable(text: &[u8]) -> Option<Request>
    ensures request { map request_of (found result) ≡ schedule_enable_in text.now }
    ensures exact { IfSome result ExactRequest }
{
    if text.len() != 4 {
        return None;
    }
    let program = digits::two_at(text, 0)?;
    let enable = digits::two_at(text, 2)?;
    Some(Request::Schedule(ScheduleRequest::Enable(program, enable)))
}
