// What a good packet stores, as a plan, and the reply that it gets.
#![tactic(auto)]

ghost use Rattle.std.specs.Prelude.{[], ◌∷◌, ◌≡◌, ◌≤◌, length, get_or, take, IfSome};
ghost use Rattle.wire.specs.Inner.{Whole};
ghost use Rattle.wire.specs.Packet.{most_id, least_buffer, over, packet_text};
ghost use Rattle.plan.specs.Stores.{entry};
ghost use Rattle.plan.specs.Plans.{stores_of};
ghost use Rattle.calls.specs.Calls.{erase_mark};
ghost use Rattle.packets.specs.declared.Acted.{Acted};
ghost use Rattle.messages.specs.View.{request_of, request_count, reply_of, reply_count};
ghost use Rattle.messages.specs.Read.{request_in};
ghost use Rattle.std.proofs.Math.Option.{map};
ghost use Rattle.wire.specs.Digits.{found};
ghost use Rattle.actions.specs.Act.{effect};
ghost use Rattle.packets.specs.Packets.{reply_with, addressee, on_packet, to_own, to_all};
ghost use Rattle.actions.specs.View.{identity_of};
ghost use Rattle.packets.specs.Inner.{addressee_of, outcome_of, Serving, Addressed};

use actions::{Effect, Identity};
use messages::message::{Reply, Request};
use messages::write;
use parser::parse;
use plan::Plan;
use wire::packet;

// Whom a destination addresses.
#[derive(Clone, Copy)]
pub enum Addressee {
    Own,
    All,
    Another,
}

// What a packet brings about.
#[derive(Clone, Copy)]
pub enum Acted {
    Refused,
    Silent,
    Begun(bool),
    Reply(usize),
}

// The same, with the plan of what it stores.
#[derive(Clone, Copy)]
pub struct Planned {
    pub acted: Acted,
    pub plan: Plan,
}

// A good packet: the first n bytes.
#[tactic(auto, unfolding(crate::specs::Packets::on_packet, crate::specs::Packets::on_packet_to, crate::specs::Packets::to_all))]
pub fn on_packet(
    identity: Identity,
    bytes: &[u8],
    n: usize,
    store: &[u8],
    reply: &mut [u8],
) -> Planned
    requires n_in_bounds { (n ≤ length bytes.now) × Whole (take n bytes.now) }
    requires addressed { Addressed identity store.now reply.old }
    ensures { outcome_of result (identity_of identity) reply.new ≡ on_packet (identity_of identity) store.now (take n bytes.now) reply.old }
{
    let packet = &bytes[..n];
    let asked = asked_in(packet);
    match addressee_of(identity.id, packet[2]) {
        Addressee::Own => for_own(identity, asked, store, reply),
        Addressee::All => for_all(identity, asked, store),
        Addressee::Another => Planned {
            acted: Acted::Refused,
            plan: Plan::empty(),
        },
    }
}

// The request in a packet.
#[tactic(auto, unfolding(wire::specs::Packet::packet_text))]
fn asked_in(packet: &[u8]) -> Option<Request>
    requires { Whole packet.now }
    ensures request { map request_of (found result) ≡ request_in (get_or packet.now 4 0) (packet_text packet.now) }
    ensures few { IfSome result (λ r. request_count r ≤ 16) }
{
    let end = packet.len() - 3;
    parse::parse_request(packet[4], &packet[8..end])
}

#[tactic(auto, unfolding(crate::specs::Packets::addressee))]
fn addressee_of(id: u8, dest: u8) -> Addressee
    requires { id ≤ most_id }
    ensures { addressee_of result ≡ addressee id dest }
{
    if dest == packet::ADDRESS_BASE + id {
        return Addressee::Own;
    }
    if dest == packet::ALL_ADDRESS {
        return Addressee::All;
    }
    Addressee::Another
}

// For this board: a reply and what it stores, or the beginning of an erase that owes the reply.
#[tactic(auto, unfolding(crate::specs::Packets::to_own))]
fn for_own(identity: Identity, asked: Option<Request>, store: &[u8], reply: &mut [u8]) -> Planned
    requires { Addressed identity store.now reply.old × IfSome asked (λ r. request_count r ≤ 16) }
    ensures { outcome_of result (identity_of identity) reply.new ≡ to_own (identity_of identity) (effect (identity_of identity) store.now (map request_of (found asked))) reply.old }
{
    let decision = actions::decide(identity, asked, store);
    let Effect::Replies(answer) = decision.effect else {
        return begins(true);
    };
    Planned {
        acted: Acted::Reply(send(identity.id, answer, reply)),
        plan: decision.plan,
    }
}

// For all boards: what is stored, in silence, or the beginning of an erase that owes nothing.
#[tactic(auto, unfolding(crate::specs::Packets::to_all))]
fn for_all(identity: Identity, asked: Option<Request>, store: &[u8]) -> Planned
    requires { Serving identity store.now × IfSome asked (λ r. request_count r ≤ 16) }
    ensures { outcome_of result (identity_of identity) [] ≡ to_all (identity_of identity) (effect (identity_of identity) store.now (map request_of (found asked))) [] }
{
    let decision = actions::decide(identity, asked, store);
    match decision.effect {
        Effect::Begins => begins(false),
        Effect::Replies(_) => Planned {
            acted: Acted::Silent,
            plan: decision.plan,
        },
    }
}

// The beginning of an erase: its mark in byte 0.
fn begins(owed: bool) -> Planned
    ensures { (result.acted ≡ Acted.Begun owed) × (stores_of result.plan ≡ entry 0 erase_mark ∷ []) }
{
    Planned {
        acted: Acted::Begun(owed),
        plan: Plan::one(0, calls::ERASE_MARK),
    }
}

// Writes the packet of a reply from the board with an ID; its length.
pub fn send(id: u8, answer: Reply, out: &mut [u8]) -> usize
    requires { (id ≤ most_id) × (reply_count answer ≤ 16) × (least_buffer ≤ length out.old) }
    ensures { (result ≡ length (reply_with id (reply_of answer))) × (out.new ≡ over (reply_with id (reply_of answer)) out.old) }
{
    let mut text = [0u8; 62];
    let written = write::reply_text(answer, &mut text);
    packet::put_packet(
        out,
        packet::ZERO_BYTE,
        packet::ADDRESS_BASE + id,
        written.kind,
        &text[..written.length],
    )
}
