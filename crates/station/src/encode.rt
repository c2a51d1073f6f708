// Requests written as packets into a lent buffer.
ghost use Rattle.std.specs.Prelude.{◌∷◌, ◌++◌, ◌≡◌, length, replicate};
ghost use Rattle.wire.specs.Digits.{found};
ghost use Rattle.messages.specs.Message as message;
ghost use Rattle.messages.specs.Text.{request_type, request_text};
ghost use Rattle.messages.specs.View.{request_of, schedule_request_of};
ghost use Rattle.station.specs.Encode.{address_in, is_schedule_in_range, is_in_range, encoding_of, encoding, Encodes};

use messages::message::{Request, ScheduleRequest};
use messages::write;
use schedule::numbers;
use wire::digits::Octets;
use wire::packet;
use wire::refusal::Refusal;

// One monitor, or all.
#[derive(Clone, Copy)]
pub enum Destination {
    Id(u16),
    All,
}

// The least and the largest ID, and the number that an ID's address is counted from, as wide as a destination's number.
const LEAST_ID: u16 = packet::LEAST_ID as u16;

const MOST_ID: u16 = packet::MOST_ID as u16;

const ADDRESS_BASE: u16 = packet::ADDRESS_BASE as u16;

// Any request: the length of its packet, or why there is none.
pub fn encode_request(dest: Destination, request: Request, out: &mut [u8]) -> Result<usize, Refusal>
    ensures { Encodes (encoding (length out.old) dest (request_of request)) result out.old out.new }
{
    encode(dest, request, is_in_range(request), out)
}

// A tag of more than 16 bytes is not in range: it is refused, and which request is passed for it makes no difference.
pub fn encode_tag_write(dest: Destination, tag: &[u8], out: &mut [u8]) -> Result<usize, Refusal>
    ensures { Encodes (encoding (length out.old) dest (message.tag_write tag.now)) result out.old out.new }
{
    if 16 < tag.len() {
        return encode(dest, Request::PowerRead, false, out);
    }
    encode_request(dest, Request::TagWrite(Octets::of(tag)), out)
}

// The seven fields of a program: ON_HOUR, ON_MIN, OFF_HOUR, OFF_MIN, INPUT, WEEK, FL. The eight reserved numbers behind them are sent as zeros.
pub fn encode_schedule_write(
    dest: Destination,
    program: u8,
    fields: [u8; 7],
    out: &mut [u8],
) -> Result<usize, Refusal>
    ensures { Encodes (encoding (length out.old) dest (message.schedule (message.schedule_write (program ∷ (fields ++ replicate 8 0))))) result out.old out.new }
{
    let numbers = sent_numbers(program, fields);
    encode_request(
        dest,
        Request::Schedule(ScheduleRequest::Write(numbers)),
        out,
    )
}

// Whether the values of a request are in their ranges.
fn is_in_range(request: Request) -> bool
    ensures { result ≡ is_in_range (request_of request) }
{
    match request {
        Request::PowerControl(mode) => (mode == 1) | (mode == 4),
        Request::DateWrite(date) => calendar::is_accepted(date),
        Request::Schedule(asked) => is_schedule_in_range(asked),
        _ => true,
    }
}

// Programs 0 to 6, numbers that a schedule write accepts, enable 0 or 1.
fn is_schedule_in_range(request: ScheduleRequest) -> bool
    ensures { result ≡ is_schedule_in_range (schedule_request_of request) }
{
    match request {
        ScheduleRequest::Read(program) => program <= 6,
        ScheduleRequest::Write(numbers) => numbers::is_accepted(numbers),
        ScheduleRequest::Enable(program, enable) => (program <= 6) & (enable <= 1),
    }
}

// The sixteen numbers of a schedule write: the program, its fields and eight zeros.
fn sent_numbers(program: u8, fields: [u8; 7]) -> [u8; 16]
    ensures { result ≡ program ∷ (fields ++ replicate 8 0) }
{
    let mut numbers = [0u8; 16];
    numbers[0] = program;
    numbers[1..8].copy_from_slice(&fields);
    numbers
}

// Every request: refusals in their order, and the packet. What is not in range is refused whatever the request, so no request is left out of the call.
#[tactic(auto, unfolding(crate::specs::Encode::encoding_of))]
fn encode(
    dest: Destination,
    request: Request,
    in_range: bool,
    out: &mut [u8],
) -> Result<usize, Refusal>
    ensures { Encodes (encoding_of (length out.old) dest in_range (request_type (request_of request)) (request_text (request_of request))) result out.old out.new }
{
    if out.len() < packet::LEAST_BUFFER {
        return Err(Refusal::ShortBuffer);
    }
    let address = address_of(dest).ok_or(Refusal::MonitorId)?;
    if !in_range {
        return Err(Refusal::Value);
    }
    let mut text = [0u8; 62];
    let written = write::request_text(request, &mut text);
    let text = &text[..written.length];
    Ok(packet::put_packet(out, address, packet::ZERO_BYTE, written.kind, text))
}

// The address of a destination; a number that is no monitor's ID has none.
fn address_of(dest: Destination) -> Option<u8>
    ensures { found result ≡ address_in dest }
{
    match dest {
        Destination::Id(id) if (LEAST_ID <= id) & (id <= MOST_ID) => {
            Some((ADDRESS_BASE + id) as u8)
        }
        Destination::Id(_) => None,
        Destination::All => Some(packet::ALL_ADDRESS),
    }
}
