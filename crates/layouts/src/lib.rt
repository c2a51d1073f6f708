// The whole store: its marks, an unused board's bytes, whether a store is in range, and what a start on an older layout stores.
#![tactic(auto)]

ghost use Rattle.std.specs.Prelude.{true, ◌≡◌, length, get_or};
ghost use Rattle.plan.specs.Plans.{stores_of};
ghost use Rattle.layouts.specs.Layouts.{older_mark, is_layout, fits_layout, conversion, unused_store};
ghost use Rattle.layouts.specs.Inner.{due_in};

use plan::Plan;
use schedule::programs;
use store::fields;

// The mark of a store of this layout, and of one from before the programs.
pub const LAYOUT_MARK: u8 = 0x01;

pub const OLDER_MARK: u8 = 0x00;

// Where the programs begin.
const PROGRAMS: u8 = programs::FIRST_BYTE as u8;

// The 128 bytes of an unused board.
pub fn unused() -> [u8; 128]
    ensures { result ≡ unused_store }
{
    let head = [LAYOUT_MARK, 0x8C, 0x3C, 0xC9, 0x91, 0x4A, 0x0C, 0x00, 0x87];
    let programs = programs::unused();
    let mut store = [0u8; 128];
    store[..head.len()].copy_from_slice(&head);
    store[programs::FIRST_BYTE..programs::FIRST_BYTE + programs.len()].copy_from_slice(&programs);
    store
}

// Whether a mark is one of a layout.
pub fn is_layout(mark: u8) -> bool
    ensures { result ≡ is_layout mark }
{
    (mark == OLDER_MARK) | (mark == LAYOUT_MARK)
}

// How many bytes a start on a store stores: none where it is of this layout, and 36 where it is an older one. `None` where what its layout has is not in
// range.
#[tactic(auto, unfolding(crate::specs::Inner::due_in, crate::specs::Layouts::fits_layout, crate::specs::Layouts::in_range, crate::specs::Layouts::conversion))]
pub fn due(store: &[u8]) -> Option<u8>
    requires { length store.now ≡ 128 }
    ensures { result ≡ due_in store.now }
{
    if !fields::fields_in_range(store) {
        return None;
    }
    if store[0] == OLDER_MARK {
        return Some(36);
    }
    if !programs::in_range(store) {
        return None;
    }
    Some(0)
}

// What a start on a store stores: unused programs where it has none, and the mark of this layout behind them, so that a store which has the mark has the
// programs. Their number is asked of `due`, which always has one here: a compiler that knew it would join the stores of single bytes into wide ones.
pub fn converted(store: &[u8]) -> Plan
    requires { (length store.now ≡ 128) × (get_or store.now 0 0 ≡ older_mark → fits_layout store.now ≡ true) }
    ensures { stores_of result ≡ conversion store.now }
{
    if store[0] != OLDER_MARK {
        return Plan::empty();
    }
    let all = Plan::empty()
        .with_range(PROGRAMS, &programs::unused())
        .with(0, LAYOUT_MARK);
    Plan {
        count: due(store).unwrap_or(0),
        ..all
    }
}
