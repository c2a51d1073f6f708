// A program as it is sent: sixteen numbers.
ghost use Rattle.std.specs.Prelude.{true, ◌≡◌, ◌<◌, length};
ghost use Rattle.schedule.specs.Numbers.{is_input, input_kept, input_shown, are_zero, is_accepted, kept_fields, shown_program};
ghost use Rattle.schedule.specs.Inner.{Fit};

use crate::programs;

// Whether a write accepts the numbers.
#[tactic(auto, unfolding(crate::specs::Numbers::is_accepted))]
pub fn is_accepted(numbers: [u8; 16]) -> bool
    ensures { result ≡ is_accepted numbers }
{
    numbers[0] <= 6
        && programs::is_time(numbers[1], numbers[2])
        && programs::is_time(numbers[3], numbers[4])
        && is_input(numbers[5])
        && numbers[6] <= 127
        && numbers[7] <= 7
        && are_zero(&numbers[8..])
}

// The fields that are kept of accepted numbers.
pub fn kept_fields(numbers: [u8; 16]) -> [u8; 7]
    requires { is_accepted numbers ≡ true }
    ensures { (result ≡ kept_fields numbers) × Fit result }
{
    [
        numbers[1],
        numbers[2],
        numbers[3],
        numbers[4],
        input_kept(numbers[5]),
        numbers[6],
        numbers[7],
    ]
}

// What is shown of program k of a store.
pub fn shown_program(store: &[u8], k: usize) -> [u8; 16]
    requires { (length store.now ≡ 128) × (k < 7) }
    ensures { result ≡ shown_program store.now k }
{
    let fields = programs::programs_of(store)[k];
    [
        k as u8,
        fields[0],
        fields[1],
        fields[2],
        fields[3],
        input_shown(fields[4]),
        fields[5],
        fields[6],
        0,
        0,
        0,
        0,
        0,
        0,
        0,
        0,
    ]
}

fn is_input(v: u8) -> bool
    ensures { result ≡ is_input v }
{
    matches!(v, 0 | 1 | 3 | 17)
}

fn input_kept(v: u8) -> u8
    ensures { result ≡ input_kept v }
{
    match v {
        0 => 0,
        1 => 1,
        3 => 2,
        _ => 3,
    }
}

fn input_shown(k: u8) -> u8
    ensures { result ≡ input_shown k }
{
    match k {
        0 => 0,
        1 => 1,
        2 => 3,
        _ => 17,
    }
}

fn are_zero(bytes: &[u8]) -> bool
    ensures { result ≡ are_zero bytes.now }
{
    bytes.iter().all(|b| *b == 0)
}
