// Whether a board and its store are sound.
ghost use Rattle.std.specs.Prelude.{◌≡◌, length};
ghost use Rattle.board.specs.Inner.{identity_fits, sound_fits, idle_fits, pending_fits};

use crate::board::Erase;
use actions::Identity;
use wire::packet;

// An identity in range, by its ID and the counts of serial number and model.
pub fn is_identity(id: u8, serial: usize, model: usize) -> bool
    ensures { result ≡ identity_fits id serial model }
{
    (packet::LEAST_ID..=packet::MOST_ID).contains(&id) && serial <= 16 && model <= 16
}

// Identity, store, held bytes and erase agree. Of the held bytes it is told how many they are and how many they ask for, 0 where they are no proper
// beginning.
pub fn is_sound(identity: &Identity, len: u8, wanted: u8, erase: Erase, store: &[u8]) -> bool
    ensures { result ≡ sound_fits identity.now.id identity.now.serial.count identity.now.model.count len wanted erase store.now }
{
    let serial = identity.serial.count as usize;
    let model = identity.model.count as usize;
    if !is_identity(identity.id, serial, model) || store.len() != 128 {
        return false;
    }
    match erase {
        Erase::Idle => is_sound_idle(wanted, store),
        Erase::Pending { place, .. } => is_sound_pending(len, place, store),
    }
}

#[tactic(auto, unfolding(calls::specs::Calls::mark, layouts::specs::Layouts::unused_store, layouts::specs::Layouts::fits_layout, layouts::specs::Layouts::conversion, layouts::specs::Inner::due_in))]
fn is_sound_idle(wanted: u8, store: &[u8]) -> bool
    requires { length store.now ≡ 128 }
    ensures { result ≡ idle_fits wanted store.now }
{
    store[0] == layouts::LAYOUT_MARK && wanted != 0 && layouts::due(store) == Some(0)
}

// The test of an erase that is pending. It is kept out of line, so that the entry check is small enough to be copied into each call, where the parts of
// a board that comes by value stay in registers.
#[inline(never)]
#[tactic(auto, unfolding(calls::specs::Calls::mark))]
fn is_sound_pending(len: u8, place: u8, store: &[u8]) -> bool
    requires { length store.now ≡ 128 }
    ensures { result ≡ pending_fits len place store.now }
{
    store[0] == calls::ERASE_MARK
        && len == 0
        && (1..=128).contains(&place)
        && calls::is_cleared(store, &layouts::unused(), place as usize)
}
