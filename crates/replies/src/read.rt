// What the station finds in the text of a packet: a reply, or none of its type.
ghost use Rattle.std.specs.Prelude.{◌≡◌, ℕ, IfOk};
ghost use Rattle.std.proofs.Math.Option.{map};
ghost use Rattle.wire.specs.Digits.{octets_in};
ghost use Rattle.messages.specs.Message as message;
ghost use Rattle.messages.specs.Message.Reply.{date_read_reply, item_reply};
ghost use Rattle.messages.specs.View.{ExactReply};
ghost use Rattle.messages.specs.Read.{reply_in, command_reply_in, plain_reply_in, parameter_in, power_read_reply_in, power_control_reply_in, date_write_reply_in, tag_write_reply_in, schedule_read_reply_in, schedule_write_reply_in, schedule_enable_reply_in, date_in};
ghost use Rattle.replies.specs.View.{reading, reading_as, or_refused, said_by};

use messages::message::{DateAnswer, Item, Parameter, Reply, ScheduleAnswer, Status};
use wire::refusal::Refusal;
use wire::{digits, packet};

// The reply in the text of a packet of a type, or refusal 35.
#[tactic(auto, unfolding(messages::specs::Read::reply_in))]
pub fn read_reply(kind: u8, text: &[u8]) -> Result<Reply, Refusal>
    ensures reply { reading result ≡ or_refused (reply_in kind text.now) }
    ensures exact { IfOk result ExactReply }
{
    if kind == packet::TYPE_D {
        let (status, parameter) = read_parameter(text)?;
        return Ok(Reply::Got(status, parameter));
    }
    if kind == packet::TYPE_F {
        let (status, parameter) = read_parameter(text)?;
        return Ok(Reply::Set(status, parameter));
    }
    if kind == packet::TYPE_B {
        return read_command_reply(text);
    }
    Err(Refusal::ReplyMessage)
}

// Types D and F: result, page, code, operation type, max and value.
#[tactic(auto, unfolding(messages::specs::Read::parameter_in))]
fn read_parameter(text: &[u8]) -> Result<(Status, Parameter), Refusal>
    ensures { (reply : ℕ → ℕ → ℕ → ℕ → ℕ → ℕ → message.Reply) → reading_as (said_by reply) result ≡ or_refused (parameter_in reply text.now) }
{
    if text.len() != 16 {
        return Err(Refusal::ReplyMessage);
    }
    let Some(status) = text_fields::status_at(text, 0) else {
        return Err(Refusal::ReplyMessage);
    };
    let Some(page) = digits::two_at(text, 2) else {
        return Err(Refusal::ReplyMessage);
    };
    let Some(code) = digits::two_at(text, 4) else {
        return Err(Refusal::ReplyMessage);
    };
    let Some(operation) = text_fields::flag_at(text, 6) else {
        return Err(Refusal::ReplyMessage);
    };
    let Some(largest) = digits::four_at(text, 8) else {
        return Err(Refusal::ReplyMessage);
    };
    let Some(value) = digits::four_at(text, 12) else {
        return Err(Refusal::ReplyMessage);
    };
    let parameter = Parameter {
        page,
        code,
        operation,
        largest,
        value,
    };
    Ok((status, parameter))
}

// Type B.
#[tactic(auto, unfolding(messages::specs::Read::command_reply_in))]
fn read_command_reply(text: &[u8]) -> Result<Reply, Refusal>
    ensures reply { reading result ≡ or_refused (command_reply_in text.now) }
    ensures exact { IfOk result ExactReply }
{
    if text_fields::begins_with(b"C316", text) {
        return read_item_reply(Item::Serial, &text[4..]);
    }
    if text_fields::begins_with(b"C317", text) {
        return read_item_reply(Item::Model, &text[4..]);
    }
    if text_fields::begins_with(b"F110", text) {
        return read_item_reply(Item::Tag, &text[4..]);
    }
    if text_fields::begins_with(b"F112", text) {
        return read_item_reply(Item::FormerTag, &text[4..]);
    }
    if text_fields::begins_with(b"F111", text) {
        return read_tag_write_reply(&text[4..]);
    }
    if text_fields::begins_with(b"C321", text) {
        return read_schedule_read_reply(&text[4..]);
    }
    if text_fields::begins_with(b"C322", text) {
        return read_schedule_write_reply(&text[4..]);
    }
    read_plain_reply(text)
}

// Type B, replies without bytes.
#[tactic(auto, unfolding(messages::specs::Read::plain_reply_in))]
fn read_plain_reply(text: &[u8]) -> Result<Reply, Refusal>
    ensures reply { reading result ≡ or_refused (plain_reply_in text.now) }
    ensures exact { IfOk result ExactReply }
{
    if text_fields::is_name(b"BE", text) {
        return Ok(Reply::Null);
    }
    if text_fields::begins_with(b"C311", text) {
        return read_date_read_reply(&text[4..]);
    }
    if text_fields::begins_with(b"C312", text) {
        return read_date_write_reply(&text[4..]);
    }
    if text_fields::begins_with(b"C315", text) {
        return read_schedule_enable_reply(&text[4..]);
    }
    if text_fields::begins_with(b"02", text) {
        return read_power_read_reply(&text[2..]);
    }
    read_power_control_reply(text)
}

// The bytes behind the name of an item.
fn read_item_reply(item: Item, text: &[u8]) -> Result<Reply, Refusal>
    ensures reply { reading result ≡ or_refused (map (item_reply item) (octets_in text.now)) }
    ensures exact { IfOk result ExactReply }
{
    let Some(octets) = digits::octets_in(text) else {
        return Err(Refusal::ReplyMessage);
    };
    Ok(Reply::Item(item, octets))
}

// Status and tag behind F111.
#[tactic(auto, unfolding(messages::specs::Read::tag_write_reply_in))]
fn read_tag_write_reply(text: &[u8]) -> Result<Reply, Refusal>
    ensures reply { reading result ≡ or_refused (tag_write_reply_in text.now) }
    ensures exact { IfOk result ExactReply }
{
    if text.len() < 2 {
        return Err(Refusal::ReplyMessage);
    }
    let Some(status) = text_fields::status_at(text, 0) else {
        return Err(Refusal::ReplyMessage);
    };
    let Some(tag) = digits::octets_in(&text[2..]) else {
        return Err(Refusal::ReplyMessage);
    };
    Ok(Reply::TagWritten(status, tag))
}

// The sixteen numbers behind C321.
fn read_schedule_read_reply(text: &[u8]) -> Result<Reply, Refusal>
    ensures reply { reading result ≡ or_refused (schedule_read_reply_in text.now) }
    ensures exact { IfOk result ExactReply }
{
    let Some(numbers) = text_fields::numbers_in(text) else {
        return Err(Refusal::ReplyMessage);
    };
    Ok(Reply::Schedule(ScheduleAnswer::Read(numbers)))
}

// Status and the sixteen numbers behind C322.
#[tactic(auto, unfolding(messages::specs::Read::schedule_write_reply_in))]
fn read_schedule_write_reply(text: &[u8]) -> Result<Reply, Refusal>
    ensures reply { reading result ≡ or_refused (schedule_write_reply_in text.now) }
    ensures exact { IfOk result ExactReply }
{
    if text.len() != 34 {
        return Err(Refusal::ReplyMessage);
    }
    let Some(status) = text_fields::status_at(text, 0) else {
        return Err(Refusal::ReplyMessage);
    };
    let Some(numbers) = text_fields::numbers_in(&text[2..]) else {
        return Err(Refusal::ReplyMessage);
    };
    Ok(Reply::Schedule(ScheduleAnswer::Written(status, numbers)))
}

// The date behind C311.
fn read_date_read_reply(text: &[u8]) -> Result<Reply, Refusal>
    ensures reply { reading result ≡ or_refused (map date_read_reply (date_in text.now)) }
    ensures exact { IfOk result ExactReply }
{
    let Some(date) = text_fields::date_in(text) else {
        return Err(Refusal::ReplyMessage);
    };
    Ok(Reply::Date(DateAnswer::Read(date)))
}

// Status and date behind C312.
#[tactic(auto, unfolding(messages::specs::Read::date_write_reply_in))]
fn read_date_write_reply(text: &[u8]) -> Result<Reply, Refusal>
    ensures reply { reading result ≡ or_refused (date_write_reply_in text.now) }
    ensures exact { IfOk result ExactReply }
{
    if text.len() != 16 {
        return Err(Refusal::ReplyMessage);
    }
    let Some(status) = text_fields::status_at(text, 0) else {
        return Err(Refusal::ReplyMessage);
    };
    let Some(date) = text_fields::date_in(&text[2..]) else {
        return Err(Refusal::ReplyMessage);
    };
    Ok(Reply::Date(DateAnswer::Written(status, date)))
}

// Status, the program and the enable behind C315.
#[tactic(auto, unfolding(messages::specs::Read::schedule_enable_reply_in))]
fn read_schedule_enable_reply(text: &[u8]) -> Result<Reply, Refusal>
    ensures reply { reading result ≡ or_refused (schedule_enable_reply_in text.now) }
    ensures exact { IfOk result ExactReply }
{
    if text.len() != 6 {
        return Err(Refusal::ReplyMessage);
    }
    let Some(status) = text_fields::status_at(text, 0) else {
        return Err(Refusal::ReplyMessage);
    };
    let Some(program) = digits::two_at(text, 2) else {
        return Err(Refusal::ReplyMessage);
    };
    let Some(enable) = digits::two_at(text, 4) else {
        return Err(Refusal::ReplyMessage);
    };
    let answer = ScheduleAnswer::Enabled(status, program, enable);
    Ok(Reply::Schedule(answer))
}

// Status, D6 00 0004 and mode behind 02.
#[tactic(auto, unfolding(messages::specs::Read::power_read_reply_in))]
fn read_power_read_reply(text: &[u8]) -> Result<Reply, Refusal>
    ensures reply { reading result ≡ or_refused (power_read_reply_in text.now) }
    ensures exact { IfOk result ExactReply }
{
    if text.len() != 14 {
        return Err(Refusal::ReplyMessage);
    }
    let Some(status) = text_fields::status_at(text, 0) else {
        return Err(Refusal::ReplyMessage);
    };
    if !text_fields::begins_with(b"D6000004", &text[2..]) {
        return Err(Refusal::ReplyMessage);
    }
    let Some(mode) = text_fields::mode_at(text, 10) else {
        return Err(Refusal::ReplyMessage);
    };
    Ok(Reply::PowerStatus(status, mode))
}

// Status, C203D6 and mode.
#[tactic(auto, unfolding(messages::specs::Read::power_control_reply_in))]
fn read_power_control_reply(text: &[u8]) -> Result<Reply, Refusal>
    ensures reply { reading result ≡ or_refused (power_control_reply_in text.now) }
    ensures exact { IfOk result ExactReply }
{
    if text.len() != 12 {
        return Err(Refusal::ReplyMessage);
    }
    let Some(status) = text_fields::status_at(text, 0) else {
        return Err(Refusal::ReplyMessage);
    };
    if !text_fields::begins_with(b"C203D6", &text[2..]) {
        return Err(Refusal::ReplyMessage);
    }
    let Some(mode) = digits::four_at(text, 8) else {
        return Err(Refusal::ReplyMessage);
    };
    Ok(Reply::PowerControl(status, mode))
}
