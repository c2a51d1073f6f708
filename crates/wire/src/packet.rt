// A packet, written into a lent buffer and judged.
ghost use Rattle.std.specs.Prelude.{◌≡◌, ◌≤◌, length};
ghost use Rattle.wire.specs.Packet.{xor_of, packet, over, size, check_code};
ghost use Rattle.wire.specs.Judge.{verdict, is_request_type, is_length, header_verdict, ends_in_return, has_check_code, is_message, packet_verdict};
ghost use Rattle.wire.specs.Inner.{Whole, Fits, header};

use crate::digits;
use crate::refusal::Refusal;

pub const SOH: u8 = 0x01;

pub const STX: u8 = 0x02;

pub const ETX: u8 = 0x03;

pub const CR: u8 = 0x0D;

// '0': the reserved byte, and the station's address.
pub const ZERO_BYTE: u8 = 0x30;

// ALL, the destination that every monitor takes.
pub const ALL_ADDRESS: u8 = 0x2A;

// Monitor IDs.
pub const LEAST_ID: u8 = 1;

pub const MOST_ID: u8 = 8;

// A monitor's address is its ID past this.
pub const ADDRESS_BASE: u8 = 0x40;

// The types: a command and its reply, Get and its reply, Set and its reply.
pub const TYPE_A: u8 = 0x41;

pub const TYPE_B: u8 = 0x42;

pub const TYPE_C: u8 = 0x43;

pub const TYPE_D: u8 = 0x44;

pub const TYPE_E: u8 = 0x45;

pub const TYPE_F: u8 = 0x46;

// What L may be, and how many bytes a packet has besides.
const LEAST_L: u8 = 4;

const MOST_L: u8 = 64;

const BESIDES: usize = 9;

// The least and the most bytes of a packet.
pub const LEAST_PACKET: usize = 13;

pub const MOST_PACKET: usize = 73;

// The least bytes of a lent buffer for a packet.
pub const LEAST_BUFFER: usize = 64;

// Writes a whole packet at the start of a buffer; its length.
pub fn put_packet(out: &mut [u8], dest: u8, source: u8, kind: u8, text: &[u8]) -> usize
    requires { Fits text.now out.old }
    ensures { (result ≡ length (packet dest source kind text.now)) × (out.new ≡ over (packet dest source kind text.now) out.old) }
{
    let n = text.len();
    put_header(out, dest, source, kind, n);
    digits::put_bytes(out, 8, text);
    out[n + 8] = ETX;
    let code = xor_of(&out[1..n + 9]);
    out[n + 9] = code;
    out[n + 10] = CR;
    n + 11
}

// Writes the header of a packet whose text has n bytes, and STX.
fn put_header(out: &mut [u8], dest: u8, source: u8, kind: u8, n: usize)
    requires { (n ≤ 62) × (8 ≤ length out.old) }
    ensures { out.new ≡ over (header dest source kind n) out.old }
{
    let head = [SOH, ZERO_BYTE, dest, source, kind];
    digits::put_bytes(out, 0, &head);
    digits::put_two(out, 5, (n + 2) as u8);
    out[7] = STX;
}

// How many bytes the packet has whose first seven or more are held; 0 for bad length digits, as in the definition `size`, from which every place in a
// packet is counted.
pub fn size(held: &[u8]) -> usize
    requires { 7 ≤ length held.now }
    ensures { result ≡ size held.now }
{
    match digits::two_at(held, 5) {
        Some(l) => l as usize + BESIDES,
        None => 0,
    }
}

// Refusals 2, 3 and 4 of a header.
pub fn judge_header(held: &[u8]) -> Result<(), Refusal>
    requires { 7 ≤ length held.now }
    ensures { verdict result ≡ header_verdict held.now }
{
    let reserved = held[1] == ZERO_BYTE;
    let from_station = held[3] == ZERO_BYTE;
    let typed = is_request_type(held[4]);
    let sized = is_length(held);
    if !reserved {
        return Err(Refusal::Header);
    }
    if !from_station {
        return Err(Refusal::Header);
    }
    if !typed {
        return Err(Refusal::MessageType);
    }
    if !sized {
        return Err(Refusal::Length);
    }
    Ok(())
}

// Refusals 5, 6 and 7 of a packet that has all its bytes.
pub fn judge_packet(p: &[u8]) -> Result<(), Refusal>
    requires { Whole p.now }
    ensures { verdict result ≡ packet_verdict p.now }
{
    let returned = ends_in_return(p);
    let checked = has_check_code(p);
    let message = is_message(p);
    if !returned {
        return Err(Refusal::NoReturn);
    }
    if !checked {
        return Err(Refusal::CheckCode);
    }
    if !message {
        return Err(Refusal::Message);
    }
    Ok(())
}

// The last byte is CR.
pub fn ends_in_return(p: &[u8]) -> bool
    requires { Whole p.now }
    ensures { result ≡ ends_in_return p.now }
{
    p[p.len() - 1] == CR
}

// The byte before it is the check code.
pub fn has_check_code(p: &[u8]) -> bool
    requires { Whole p.now }
    ensures { result ≡ has_check_code p.now }
{
    p[p.len() - 2] == check_code(p)
}

// The message begins with STX and ends with ETX.
pub fn is_message(p: &[u8]) -> bool
    requires { Whole p.now }
    ensures { result ≡ is_message p.now }
{
    (p[7] == STX) & (p[p.len() - 3] == ETX)
}

// The check code that a packet should have.
pub fn check_code(p: &[u8]) -> u8
    requires { Whole p.now }
    ensures { result ≡ check_code p.now }
{
    let n = p.len();
    xor_of(&p[1..n - 2])
}

// The length digits in a header are digits and give 4 to 64.
pub fn is_length(held: &[u8]) -> bool
    requires { 7 ≤ length held.now }
    ensures { result ≡ is_length held.now }
{
    match digits::two_at(held, 5) {
        Some(l) => (LEAST_L <= l) & (l <= MOST_L),
        None => false,
    }
}

// The type is that of a request: A, C or E.
fn is_request_type(kind: u8) -> bool
    ensures { result ≡ is_request_type kind }
{
    matches!(kind, TYPE_A | TYPE_C | TYPE_E)
}

// The exclusive or of all bytes.
fn xor_of(s: &[u8]) -> u8
    ensures { result ≡ xor_of s.now }
{
    let mut x: u8 = 0;
    for b in s {
        x ^= *b;
    }
    x
}
