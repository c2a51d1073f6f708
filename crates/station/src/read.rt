// A reply read from one whole packet.
ghost use Rattle.std.specs.Prelude.{true, ◌≡◌, ◌≤◌, length, get_or, IfOk};
ghost use Rattle.wire.specs.Packet.{address_base, least_packet};
ghost use Rattle.wire.specs.Judge.{verdict};
ghost use Rattle.wire.specs.Inner.{Whole};
ghost use Rattle.messages.specs.View.{ExactReply};
ghost use Rattle.station.specs.Read.{is_reply_header, is_reply_type, is_whole_length, reply_size, reply_verdict, read_packet, ReadsPacket};
ghost use Rattle.station.specs.Inner.{sent_reading};

use messages::message::Reply;
use replies::read;
use wire::packet;
use wire::refusal::Refusal;

// The addresses of the monitors, from the least ID's to the largest ID's.
const LEAST_SOURCE: u8 = packet::ADDRESS_BASE + packet::LEAST_ID;

const MOST_SOURCE: u8 = packet::ADDRESS_BASE + packet::MOST_ID;

// What was read, and the sender's ID. It stands beside the answer since the clause `sender` speaks of a refused packet's sender too.
#[derive(Clone, Copy)]
pub struct PacketReading {
    pub answer: Result<Reply, Refusal>,
    pub sender: u8,
}

// Reads one whole packet.
pub fn read_packet(p: &[u8]) -> PacketReading
    ensures { ReadsPacket result (read_packet p.now) }
{
    match read_reply(p) {
        Ok((sender, reply)) => PacketReading {
            answer: Ok(reply),
            sender,
        },
        Err(refusal) => PacketReading {
            answer: Err(refusal),
            sender: 0,
        },
    }
}

// How many bytes a packet has whose first bytes these are; 0 where that can't be told, as in the definition and as C is told.
#[tactic(auto, unfolding(crate::specs::Read::reply_size))]
pub fn reply_size(first: &[u8]) -> usize
    ensures { result ≡ reply_size first.now }
{
    if 7 <= first.len() && packet::is_length(first) {
        packet::size(first)
    } else {
        0
    }
}

// The reply in one whole packet, with its sender's ID.
#[tactic(auto, unfolding(crate::specs::Read::read_packet, crate::specs::Read::reply_in_message))]
fn read_reply(p: &[u8]) -> Result<(u8, Reply), Refusal>
    ensures reading { sent_reading result ≡ read_packet p.now }
    ensures exact { IfOk result (λ r. ExactReply r.1) }
{
    judge_reply(p)?;
    if !packet::is_message(p) {
        return Err(Refusal::ReplyMessage);
    }
    let reply = read::read_reply(p[4], &p[8..p.len() - 3])?;
    Ok((p[3] - packet::ADDRESS_BASE, reply))
}

// Refusals 30 to 34 of a packet.
#[tactic(auto, unfolding(crate::specs::Read::reply_verdict))]
fn judge_reply(p: &[u8]) -> Result<(), Refusal>
    ensures verdict { verdict result ≡ reply_verdict p.now }
    ensures whole { IfOk result (λ u. Whole p.now) }
    ensures source { IfOk result (λ u. address_base ≤ get_or p.now 3 0) }
{
    if p.len() < packet::LEAST_PACKET {
        return Err(Refusal::ReplyShort);
    }
    if !is_reply_header(p) {
        return Err(Refusal::ReplyHeader);
    }
    if !is_whole_length(p) {
        return Err(Refusal::ReplyLength);
    }
    if !packet::ends_in_return(p) {
        return Err(Refusal::ReplyNoReturn);
    }
    if !packet::has_check_code(p) {
        return Err(Refusal::ReplyCheckCode);
    }
    Ok(())
}

// SOH, the reserved byte and the station's address; a source A to H; a type B, D or F.
#[tactic(auto, unfolding(crate::specs::Read::is_reply_header))]
fn is_reply_header(p: &[u8]) -> bool
    requires { least_packet ≤ length p.now }
    ensures value { result ≡ is_reply_header p.now }
    ensures source { result ≡ true → address_base ≤ get_or p.now 3 0 }
{
    let start = p[0] == packet::SOH;
    let reserved = p[1] == packet::ZERO_BYTE;
    let to_station = p[2] == packet::ZERO_BYTE;
    let source = p[3];
    let from_monitor = (LEAST_SOURCE <= source) & (source <= MOST_SOURCE);
    let typed = is_reply_type(p[4]);
    start & reserved & to_station & from_monitor & typed
}

fn is_reply_type(kind: u8) -> bool
    ensures { result ≡ is_reply_type kind }
{
    matches!(kind, packet::TYPE_B | packet::TYPE_D | packet::TYPE_F)
}

// The length digits give the packet's own length.
#[tactic(auto, unfolding(crate::specs::Read::is_whole_length))]
fn is_whole_length(p: &[u8]) -> bool
    requires { least_packet ≤ length p.now }
    ensures value { result ≡ is_whole_length p.now }
    ensures whole { result ≡ true → Whole p.now }
{
    packet::is_length(p) && packet::size(p) == p.len()
}
