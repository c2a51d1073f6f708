// The reader for C: the result is the kind of the reply or the refusal; numbers and bytes go to lent places. Refused, nothing is written.
ghost use Rattle.std.specs.Prelude.{[], ◌∷◌, ◌≡◌, ◌≤◌, length};
ghost use Rattle.wire.specs.Digits.{octets_of};
ghost use Rattle.messages.specs.Message.{reply_bytes};
ghost use Rattle.messages.specs.View.{status_number, date_answer_of, schedule_answer_of, reply_of, ExactReply};
ghost use Rattle.station.specs.Read.{reply_size};
ghost use Rattle.station_c.specs.Read.{read_into, ReadsForC, reply_kind, item_kind, schedule_kind, numbers_of, schedule_numbers, date_numbers};
ghost use Rattle.station_c.specs.Inner.{listing};

use messages::message::{Date, DateAnswer, Item, Parameter, Reply, ScheduleAnswer, Status};
use station::read;
use wire::digits::Octets;
use wire::refusal::Refusal;

// A reply as its kind and its numbers, the sender's ID first: the first of the array, as many as count says, since there is no heap. Kinds are numbers
// because C is told numbers.
#[derive(Clone, Copy)]
pub struct Listed {
    pub kind: u8,
    pub count: usize,
    pub numbers: [u16; 9],
}

impl Listed {
    // The sender's ID and the numbers behind it.
    fn of(kind: u8, id: u16, numbers: &[u16]) -> Self
        requires { length numbers.now ≤ 8 }
        ensures { result ≡ listing kind (id ∷ numbers.now) }
    {
        let mut all = [id, 0, 0, 0, 0, 0, 0, 0, 0];
        let count = numbers.len() + 1;
        all[1..count].copy_from_slice(numbers);
        Listed {
            kind,
            count,
            numbers: all,
        }
    }
}

#[tactic(auto, unfolding(crate::specs::Read::read_into, wire::specs::Packet::over))]
#[unsafe(no_mangle)]
pub extern "C" fn station_read(
    packet: &[u8],
    numbers: &mut [u16],
    bytes: &mut [u8],
    count: &mut usize,
) -> u8
    ensures { ReadsForC (read_into (length numbers.old) (length bytes.old) packet.now) result numbers.old numbers.new bytes.old bytes.new count.old count.new }
{
    if numbers.len() < 9 || bytes.len() < 16 {
        return Refusal::ShortBuffer.number();
    }
    let reading = read::read_packet(packet);
    match reading.answer {
        Err(refusal) => refusal.number(),
        Ok(reply) => {
            let list = list_reply(reading.sender, reply);
            numbers[..list.count].copy_from_slice(&list.numbers[..list.count]);
            let held = reply_bytes(reply);
            let n = held.count as usize;
            // Most replies have no bytes, and a copy of none would still be a call.
            if n > 0 {
                bytes[..n].copy_from_slice(&held.bytes[..n]);
            }
            *count = n;
            list.kind
        }
    }
}

// How many bytes a packet has whose first bytes these are; 0 where that can't be told.
#[unsafe(no_mangle)]
pub extern "C" fn station_reply_size(first: &[u8]) -> usize
    ensures { result ≡ reply_size first.now }
{
    read::reply_size(first)
}

// A reply from a sender as a list of numbers. C is told its kind as a number, which stands in its case.
fn list_reply(sender: u8, reply: Reply) -> Listed
    ensures list { result ≡ listing (reply_kind (reply_of reply)) (sender ∷ numbers_of (reply_of reply)) }
    ensures few { result.count ≤ 9 }
{
    let id = sender as u16;
    match reply {
        Reply::Null => Listed::of(101, id, &[]),
        Reply::Got(status, p) => Listed::of(102, id, &parameter_numbers(status, p)),
        Reply::Set(status, p) => Listed::of(103, id, &parameter_numbers(status, p)),
        Reply::PowerStatus(status, mode) => {
            Listed::of(104, id, &[status.number() as u16, mode.number()])
        }
        Reply::PowerControl(status, mode) => Listed::of(105, id, &[status.number() as u16, mode]),
        Reply::Date(answer) => list_date(id, answer),
        Reply::Item(item, _) => Listed::of(item_kind(item), id, &[]),
        Reply::TagWritten(status, _) => Listed::of(112, id, &[status.number() as u16]),
        Reply::Schedule(answer) => list_schedule(id, answer),
    }
}

// The bytes of a serial number, a model or a tag, or the sixteen numbers of the program that was read or written.
fn reply_bytes(reply: Reply) -> Octets
    requires { ExactReply reply }
    ensures bytes { octets_of result ≡ reply_bytes (reply_of reply) }
    ensures count { result.count ≡ length (reply_bytes (reply_of reply)) }
{
    match reply {
        Reply::Item(_, held) => held,
        Reply::TagWritten(_, tag) => tag,
        Reply::Schedule(ScheduleAnswer::Read(numbers) | ScheduleAnswer::Written(_, numbers)) =>
            Octets {
                bytes: numbers,
                count: 16,
            },
        _ => Octets::of(b""),
    }
}

// Result, page, code, operation type, max, value.
fn parameter_numbers(status: Status, p: Parameter) -> [u16; 6]
    ensures { result ≡ status_number status ∷ p.page ∷ p.code ∷ p.operation ∷ p.largest ∷ p.value ∷ [] }
{
    [
        status.number() as u16,
        p.page as u16,
        p.code as u16,
        p.operation as u16,
        p.largest,
        p.value,
    ]
}

// The seven fields of a date, behind a status where it was written.
fn list_date(id: u16, answer: DateAnswer) -> Listed
    ensures list { result ≡ listing (reply_kind (date_answer_of answer)) (id ∷ numbers_of (date_answer_of answer)) }
    ensures few { result.count ≤ 9 }
{
    match answer {
        DateAnswer::Read(date) => Listed::of(106, id, &date_numbers(date)),
        DateAnswer::Written(status, date) => {
            let mut numbers = [0u16; 8];
            numbers[0] = status.number() as u16;
            numbers[1..].copy_from_slice(&date_numbers(date));
            Listed::of(107, id, &numbers)
        }
    }
}

fn date_numbers(d: Date) -> [u16; 7]
    ensures { result ≡ date_numbers d }
{
    [
        d.year as u16,
        d.month as u16,
        d.day as u16,
        d.weekday as u16,
        d.hour as u16,
        d.minute as u16,
        d.daylight as u16,
    ]
}

// A status where a program was written or was to be enabled or disabled, and then the program and the enable.
fn list_schedule(id: u16, answer: ScheduleAnswer) -> Listed
    ensures list { result ≡ listing (schedule_kind (schedule_answer_of answer)) (id ∷ schedule_numbers (schedule_answer_of answer)) }
    ensures few { result.count ≤ 9 }
{
    match answer {
        ScheduleAnswer::Read(_) => Listed::of(113, id, &[]),
        ScheduleAnswer::Written(status, _) => Listed::of(114, id, &[status.number() as u16]),
        ScheduleAnswer::Enabled(status, program, enable) => {
            let numbers = [status.number() as u16, program as u16, enable as u16];
            Listed::of(115, id, &numbers)
        }
    }
}

fn item_kind(item: Item) -> u8
    ensures { result ≡ item_kind item }
{
    match item {
        Item::Serial => 108,
        Item::Model => 109,
        Item::Tag => 110,
        Item::FormerTag => 111,
    }
}
