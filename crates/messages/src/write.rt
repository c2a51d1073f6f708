// The texts of requests and replies.
ghost use Rattle.std.specs.Prelude.{◌++◌, ◌≡◌, ◌+◌, ◌≤◌, length};
ghost use Rattle.std.proofs.Math.Seq.{paste};
ghost use Rattle.wire.specs.Digits.{two, four, hex_of, octets_of};
ghost use Rattle.messages.specs.Text.{power_control_name, power_read_reply_name, power_read_reply_fixed, date_write_reply_name, schedule_read_name, schedule_enable_name, schedule_enable_reply_name, item_read_name, item_reply_name, date_text, parameter_text, schedule_text, schedule_reply_text, request_type, request_text, reply_type, reply_text};
ghost use Rattle.wire.specs.Packet.{type_a, type_b, type_c, type_e};
ghost use Rattle.messages.specs.View.{request_of, reply_of, status_number, mode_number, date_answer_of, schedule_request_of, schedule_answer_of, reply_count};
ghost use Rattle.messages.specs.Inner.{Writes};

use crate::message::{
    Date, DateAnswer, Item, Parameter, PowerMode, Reply, Request, ScheduleAnswer, ScheduleRequest,
    Status,
};
use wire::digits::Octets;
use wire::{digits, packet};

// The type of a message and the length of its text, which lies in the array that the caller lent, since there is no heap.
#[derive(Clone, Copy)]
pub struct Written {
    pub kind: u8,
    pub length: usize,
}

// Writes the text of a request.
pub fn request_text(request: Request, text: &mut [u8; 62]) -> Written
    ensures text { Writes (request_type (request_of request)) (request_text (request_of request)) result text.old text.new }
    ensures length { (2 ≤ result.length) × (result.length ≤ 36) }
{
    match request {
        Request::Get { page, code } => put_get(page, code, text),
        Request::Set { page, code, value } => put_set(page, code, value, text),
        Request::PowerRead => put_name(packet::TYPE_A, b"01D6", text),
        Request::PowerControl(mode) => put_power_control(mode, text),
        Request::DateRead => put_name(packet::TYPE_A, b"C211", text),
        Request::DateWrite(date) => put_named_date(packet::TYPE_A, b"C212", date, text),
        Request::ItemRead(item) => put_name(packet::TYPE_A, &item_read_name(item), text),
        Request::TagWrite(tag) => put_named_octets(packet::TYPE_A, b"F011", tag, text),
        Request::Schedule(asked) => put_schedule(asked, text),
    }
}

// Writes the text of a reply.
pub fn reply_text(reply: Reply, text: &mut [u8; 62]) -> Written
    requires { reply_count reply ≤ 16 }
    ensures text { Writes (reply_type (reply_of reply)) (reply_text (reply_of reply)) result text.old text.new }
    ensures length { (2 ≤ result.length) × (result.length ≤ 38) }
{
    match reply {
        Reply::Null => put_name(packet::TYPE_B, b"BE", text),
        Reply::Got(status, parameter) => put_parameter(packet::TYPE_D, status, parameter, text),
        Reply::Set(status, parameter) => put_parameter(packet::TYPE_F, status, parameter, text),
        Reply::PowerStatus(status, mode) => put_power_read_reply(status, mode, text),
        Reply::PowerControl(status, mode) => put_power_control_reply(status, mode, text),
        Reply::Date(answer) => put_date_reply(answer, text),
        Reply::Item(item, octets) => {
            put_named_octets(packet::TYPE_B, &item_reply_name(item), octets, text)
        }
        Reply::TagWritten(status, tag) => {
            put_status_and_bytes(b"F111", status, &tag.bytes[..tag.count as usize], text)
        }
        Reply::Schedule(answer) => put_schedule_reply(answer, text),
    }
}

// A name alone.
fn put_name(kind: u8, name: &[u8], text: &mut [u8; 62]) -> Written
    requires { length name.now ≤ 62 }
    ensures { Writes kind name.now result text.old text.new }
{
    digits::put_bytes(text, 0, name);
    Written {
        kind,
        length: name.len(),
    }
}

// A name and bytes behind it, two digits each.
fn put_named_bytes(kind: u8, name: &[u8; 4], bytes: &[u8], text: &mut [u8; 62]) -> Written
    requires { length bytes.now ≤ 16 }
    ensures { Writes kind (name.now ++ hex_of bytes.now) result text.old text.new }
{
    digits::put_bytes(text, 0, name);
    digits::put_hex(text, 4, bytes);
    Written {
        kind,
        length: 4 + 2 * bytes.len(),
    }
}

// A name, and behind it the bytes that are counted; where more are counted than there are, those that there are.
fn put_named_octets(kind: u8, name: &[u8; 4], octets: Octets, text: &mut [u8; 62]) -> Written
    ensures { Writes kind (name.now ++ hex_of (octets_of octets)) result text.old text.new }
{
    let count = usize::from(octets.count).min(octets.bytes.len());
    put_named_bytes(kind, name, &octets.bytes[..count], text)
}

// A name and a date behind it.
fn put_named_date(kind: u8, name: &[u8; 4], date: Date, text: &mut [u8; 62]) -> Written
    ensures { Writes kind (name.now ++ date_text date) result text.old text.new }
{
    digits::put_bytes(text, 0, name);
    put_date(date, 4, text);
    Written { kind, length: 18 }
}

// Page and code.
fn put_get(page: u8, code: u8, text: &mut [u8; 62]) -> Written
    ensures { Writes type_c (two page ++ two code) result text.old text.new }
{
    digits::put_two(text, 0, page);
    digits::put_two(text, 2, code);
    Written {
        kind: packet::TYPE_C,
        length: 4,
    }
}

// Page, code and value.
fn put_set(page: u8, code: u8, value: u16, text: &mut [u8; 62]) -> Written
    ensures { Writes type_e (two page ++ (two code ++ four value)) result text.old text.new }
{
    digits::put_two(text, 0, page);
    digits::put_two(text, 2, code);
    digits::put_four(text, 4, value);
    Written {
        kind: packet::TYPE_E,
        length: 8,
    }
}

// Result, page, code, operation type, max and value.
fn put_parameter(kind: u8, status: Status, parameter: Parameter, text: &mut [u8; 62]) -> Written
    ensures { Writes kind (parameter_text (status_number status) parameter.page parameter.code parameter.operation parameter.largest parameter.value) result text.old text.new }
{
    digits::put_two(text, 0, status.number());
    digits::put_two(text, 2, parameter.page);
    digits::put_two(text, 4, parameter.code);
    digits::put_two(text, 6, parameter.operation);
    digits::put_four(text, 8, parameter.largest);
    digits::put_four(text, 12, parameter.value);
    Written { kind, length: 16 }
}

// C203D6 and the mode.
fn put_power_control(mode: u16, text: &mut [u8; 62]) -> Written
    ensures { Writes type_a (power_control_name ++ four mode) result text.old text.new }
{
    digits::put_bytes(text, 0, b"C203D6");
    digits::put_four(text, 6, mode);
    Written {
        kind: packet::TYPE_A,
        length: 10,
    }
}

// 02, status, D6, 00, 0004 and the mode.
fn put_power_read_reply(status: Status, mode: PowerMode, text: &mut [u8; 62]) -> Written
    ensures { Writes type_b (power_read_reply_name ++ (two (status_number status) ++ (power_read_reply_fixed ++ four (mode_number mode)))) result text.old text.new }
{
    digits::put_bytes(text, 0, b"02");
    digits::put_two(text, 2, status.number());
    digits::put_bytes(text, 4, b"D6000004");
    digits::put_four(text, 12, mode.number());
    Written {
        kind: packet::TYPE_B,
        length: 16,
    }
}

// Status, C203D6 and the mode.
fn put_power_control_reply(status: Status, mode: u16, text: &mut [u8; 62]) -> Written
    ensures { Writes type_b (two (status_number status) ++ (power_control_name ++ four mode)) result text.old text.new }
{
    digits::put_two(text, 0, status.number());
    digits::put_bytes(text, 2, b"C203D6");
    digits::put_four(text, 8, mode);
    Written {
        kind: packet::TYPE_B,
        length: 12,
    }
}

// C311 and the date, or C312, status and the date.
fn put_date_reply(answer: DateAnswer, text: &mut [u8; 62]) -> Written
    ensures { Writes type_b (reply_text (date_answer_of answer)) result text.old text.new }
{
    match answer {
        DateAnswer::Read(date) => put_named_date(packet::TYPE_B, b"C311", date, text),
        DateAnswer::Written(status, date) => put_date_write_reply(status, date, text),
    }
}

// C312, status and the date.
fn put_date_write_reply(status: Status, date: Date, text: &mut [u8; 62]) -> Written
    ensures { Writes type_b (date_write_reply_name ++ (two (status_number status) ++ date_text date)) result text.old text.new }
{
    digits::put_bytes(text, 0, b"C312");
    digits::put_two(text, 4, status.number());
    put_date(date, 6, text);
    Written {
        kind: packet::TYPE_B,
        length: 20,
    }
}

// A name, a status and bytes behind them, two digits each.
fn put_status_and_bytes(
    name: &[u8; 4],
    status: Status,
    bytes: &[u8],
    text: &mut [u8; 62],
) -> Written
    requires { length bytes.now ≤ 16 }
    ensures { Writes type_b (name.now ++ (two (status_number status) ++ hex_of bytes.now)) result text.old text.new }
{
    digits::put_bytes(text, 0, name);
    digits::put_two(text, 4, status.number());
    digits::put_hex(text, 6, bytes);
    Written {
        kind: packet::TYPE_B,
        length: 6 + 2 * bytes.len(),
    }
}

// C221 and the program, C222 and the sixteen numbers, or C215, the program and the enable.
fn put_schedule(request: ScheduleRequest, text: &mut [u8; 62]) -> Written
    ensures text { Writes type_a (schedule_text (schedule_request_of request)) result text.old text.new }
    ensures length { (6 ≤ result.length) × (result.length ≤ 36) }
{
    match request {
        ScheduleRequest::Read(program) => put_schedule_read(program, text),
        ScheduleRequest::Write(numbers) => {
            put_named_bytes(packet::TYPE_A, b"C222", &numbers, text)
        }
        ScheduleRequest::Enable(program, enable) => put_schedule_enable(program, enable, text),
    }
}

// C221 and the program.
fn put_schedule_read(program: u8, text: &mut [u8; 62]) -> Written
    ensures { Writes type_a (schedule_read_name ++ two program) result text.old text.new }
{
    digits::put_bytes(text, 0, b"C221");
    digits::put_two(text, 4, program);
    Written {
        kind: packet::TYPE_A,
        length: 6,
    }
}

// C215, the program and the enable.
fn put_schedule_enable(program: u8, enable: u8, text: &mut [u8; 62]) -> Written
    ensures { Writes type_a (schedule_enable_name ++ (two program ++ two enable)) result text.old text.new }
{
    digits::put_bytes(text, 0, b"C215");
    digits::put_two(text, 4, program);
    digits::put_two(text, 6, enable);
    Written {
        kind: packet::TYPE_A,
        length: 8,
    }
}

// C321 and the sixteen numbers, C322, status and the sixteen numbers, or C315, status, the program and the enable.
fn put_schedule_reply(answer: ScheduleAnswer, text: &mut [u8; 62]) -> Written
    ensures text { Writes type_b (schedule_reply_text (schedule_answer_of answer)) result text.old text.new }
    ensures length { (10 ≤ result.length) × (result.length ≤ 38) }
{
    match answer {
        ScheduleAnswer::Read(numbers) => {
            put_named_bytes(packet::TYPE_B, b"C321", &numbers, text)
        }
        ScheduleAnswer::Written(status, numbers) => {
            put_status_and_bytes(b"C322", status, &numbers, text)
        }
        ScheduleAnswer::Enabled(status, program, enable) => {
            put_schedule_enable_reply(status, program, enable, text)
        }
    }
}

// C315, status, the program and the enable.
fn put_schedule_enable_reply(
    status: Status,
    program: u8,
    enable: u8,
    text: &mut [u8; 62],
) -> Written
    ensures { Writes type_b (schedule_enable_reply_name ++ (two (status_number status) ++ (two program ++ two enable))) result text.old text.new }
{
    digits::put_bytes(text, 0, b"C315");
    digits::put_two(text, 4, status.number());
    digits::put_two(text, 6, program);
    digits::put_two(text, 8, enable);
    Written {
        kind: packet::TYPE_B,
        length: 10,
    }
}

// The seven fields of a date from a place on.
fn put_date(date: Date, at: usize, text: &mut [u8; 62])
    requires { at + 14 ≤ 62 }
    ensures { text.new ≡ paste text.old at (date_text date) 14 }
{
    digits::put_two(text, at, date.year);
    digits::put_two(text, at + 2, date.month);
    digits::put_two(text, at + 4, date.day);
    digits::put_two(text, at + 6, date.weekday);
    digits::put_two(text, at + 8, date.hour);
    digits::put_two(text, at + 10, date.minute);
    digits::put_two(text, at + 12, date.daylight);
}

fn item_read_name(item: Item) -> [u8; 4]
    ensures { result ≡ item_read_name item }
{
    match item {
        Item::Serial => *b"C216",
        Item::Model => *b"C217",
        Item::Tag => *b"F010",
        Item::FormerTag => *b"F012",
    }
}

fn item_reply_name(item: Item) -> [u8; 4]
    ensures { result ≡ item_reply_name item }
{
    match item {
        Item::Serial => *b"C316",
        Item::Model => *b"C317",
        Item::Tag => *b"F110",
        Item::FormerTag => *b"F112",
    }
}
