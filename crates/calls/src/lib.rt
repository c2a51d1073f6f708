// What every kind of board shares in code: the entry check, and the test of the bytes that an erase has cleared.
#![tactic(auto)]

ghost use Rattle.std.specs.Prelude.{◌≡◌, ◌≤◌, length};
ghost use Rattle.calls.specs.Calls.{first_bytes, same, entry_check};
ghost use Rattle.calls.specs.View.{entry_check_as};

use wire::refusal::Refusal;

// The mark of a store whose erase is pending.
pub const ERASE_MARK: u8 = 0xE7;

// The entry check of every call but a start: a short buffer, then a board that is not sound, then whether an erase is pending.
#[tactic(auto, unfolding(crate::specs::Calls::entry_check))]
pub fn entry_check(short: bool, sound: bool, pending: bool) -> Result<bool, Refusal>
    ensures { entry_check_as result ≡ entry_check short sound pending }
{
    if short {
        return Err(Refusal::ShortBuffer);
    }
    if !sound {
        return Err(Refusal::Unsound);
    }
    Ok(pending)
}

// Whether bytes 1 to p - 1 of a store are those of the unused one.
#[tactic(auto, using(crate::proofs::FirstBytes::cleared_is))]
pub fn is_cleared(store: &[u8], unused: &[u8], p: usize) -> bool
    requires { (1 ≤ p) × (p ≤ length store.now) × (p ≤ length unused.now) }
    ensures { result ≡ same (first_bytes p store.now) (first_bytes p unused.now) }
{
    store[1..p] == unused[1..p]
}
