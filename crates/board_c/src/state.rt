// A board's state as bytes, in a layout that is promised to no caller.
ghost use Rattle.std.specs.Prelude.{◌≡◌, ◌+◌, ◌≤◌, length};
ghost use Rattle.std.proofs.Math.Seq.{paste};
ghost use Rattle.wire.specs.Packet.{over};
ghost use Rattle.board_c.specs.State.{board_in, erase_in, state_bytes, erase_kind, item_in, counted_item};
ghost use Rattle.board_c.specs.Inner.{identity_part, progress_part};

use actions::Identity;
use board::board::{Board, Erase};
use receiver::Receiver;
use wire::digits::Octets;
use wire::{digits, packet};

// How many bytes a state has.
pub const SIZE: usize = 111;

// The board in a state. Any bytes are a board, most of them not a sound one; a buffer of another size is no board.
#[tactic(auto, unfolding(crate::specs::State::board_in))]
pub fn board_in(state: &[u8]) -> Board
    ensures { result ≡ board_in state.now }
{
    if state.len() != SIZE {
        return board::board::no_board();
    }
    let mut held = [0u8; packet::MOST_PACKET];
    held.copy_from_slice(&state[36..109]);
    Board {
        identity: Identity {
            id: state[0],
            serial: item_in(&state[1..18]),
            model: item_in(&state[18..35]),
        },
        receiver: Receiver {
            held,
            len: state[35],
        },
        erase: erase_in(state[109], state[110]),
    }
}

// Writes a board's state.
pub fn put_board(board: Board, state: &mut [u8])
    requires { length state.old ≡ 111 }
    ensures { state.new ≡ state_bytes board }
{
    put_identity(board.identity, state);
    put_progress(board.receiver, board.erase, state);
}

// Writes ID, serial number and model at the start of a state.
fn put_identity(identity: Identity, state: &mut [u8])
    requires { length state.old ≡ 111 }
    ensures { state.new ≡ over (identity_part identity) state.old }
{
    state[0] = identity.id;
    put_item(identity.serial, state, 1);
    put_item(identity.model, state, 18);
}

// Writes the held bytes behind their count, and the erase, at the end of a state.
fn put_progress(receiver: Receiver, erase: Erase, state: &mut [u8])
    requires { length state.old ≡ 111 }
    ensures { state.new ≡ paste state.old 35 (progress_part receiver erase) (length (progress_part receiver erase)) }
{
    state[35] = receiver.len;
    digits::put_bytes(state, 36, &receiver.held);
    state[109] = erase_kind(erase);
    state[110] = erase.place();
}

// The bytes of an item, behind their count. In a state of C the count may be any number, so `Octets::of` can't make them.
fn item_in(bytes: &[u8]) -> Octets
    requires { length bytes.now ≡ 17 }
    ensures { result ≡ item_in bytes.now }
{
    let mut all = [0u8; 16];
    all.copy_from_slice(&bytes[1..17]);
    Octets {
        bytes: all,
        count: bytes[0],
    }
}

// Writes the bytes of an item behind their count, from a place on.
fn put_item(item: Octets, out: &mut [u8], at: usize)
    requires { at + 17 ≤ length out.old }
    ensures { out.new ≡ paste out.old at (counted_item item) (length (counted_item item)) }
{
    out[at] = item.count;
    digits::put_bytes(out, at + 1, &item.bytes);
}

// An erase in a state of C, which has bytes alone: 0 for none, 1 and 2 for a pending one.
#[tactic(auto, unfolding(crate::specs::State::erase_in))]
fn erase_in(kind: u8, place: u8) -> Erase
    ensures { result ≡ erase_in kind place }
{
    match kind {
        0 => Erase::Idle,
        1 => Erase::Pending { place, owed: false },
        2 => Erase::Pending { place, owed: true },
        _ => Erase::Pending {
            place: 0,
            owed: false,
        },
    }
}

// The number of an erase in a state of C.
fn erase_kind(erase: Erase) -> u8
    ensures { result ≡ erase_kind erase }
{
    match erase {
        Erase::Idle => 0,
        Erase::Pending { owed: false, .. } => 1,
        Erase::Pending { owed: true, .. } => 2,
    }
}
