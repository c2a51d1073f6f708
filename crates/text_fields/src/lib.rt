// The fields of a text.
#![tactic(auto)]

ghost use Rattle.std.specs.Prelude.{◌≡◌, ◌+◌, ◌<◌, ◌≤◌, length, true};
ghost use Rattle.std.proofs.Math.Option.{map};
ghost use Rattle.wire.specs.Digits.{found};
ghost use Rattle.messages.specs.View.{status_number, mode_number};
ghost use Rattle.messages.specs.Read.{begins_with, is_name, flag_at, mode_at, date_in, numbers_in};

use messages::message::{Date, PowerMode, Status};
use wire::digits;

// Whether a text begins with a name.
pub fn begins_with(name: &[u8], text: &[u8]) -> bool
    ensures value { result ≡ begins_with name.now text.now }
    ensures room { result ≡ true → length name.now ≤ length text.now }
{
    if text.len() < name.len() {
        return false;
    }
    for (i, b) in name.iter().enumerate() {
        if text[i] != *b {
            return false;
        }
    }
    true
}

// Whether a text is a name.
pub fn is_name(name: &[u8], text: &[u8]) -> bool
    ensures { result ≡ is_name name.now text.now }
{
    name == text
}

// Two digits that are 00 or 01.
#[tactic(auto, unfolding(messages::specs::Read::flag_at))]
pub fn flag_at(text: &[u8], at: usize) -> Option<u8>
    requires { at + 1 < length text.now }
    ensures { found result ≡ flag_at text.now at }
{
    let n = digits::two_at(text, at)?;
    if n <= 1 { Some(n) } else { None }
}

// A result or a status. This test and the match of `mode_at` are the only places that make a Status or a PowerMode of a number, so a TryFrom would move them and no more.
#[tactic(auto, unfolding(messages::specs::Read::flag_at))]
pub fn status_at(text: &[u8], at: usize) -> Option<Status>
    requires { at + 1 < length text.now }
    ensures { map status_number (found result) ≡ flag_at text.now at }
{
    let n = flag_at(text, at)?;
    if n == 0 {
        return Some(Status::Acknowledged);
    }
    Some(Status::Refused)
}

// The mode of a power status.
#[tactic(auto, unfolding(messages::specs::Read::mode_at))]
pub fn mode_at(text: &[u8], at: usize) -> Option<PowerMode>
    requires { at + 3 < length text.now }
    ensures { map mode_number (found result) ≡ mode_at text.now at }
{
    match digits::four_at(text, at)? {
        1 => Some(PowerMode::On),
        2 => Some(PowerMode::Sleep),
        4 => Some(PowerMode::Standby),
        _ => None,
    }
}

// The seven fields of a date.
#[tactic(auto, unfolding(messages::specs::Read::date_in))]
pub fn date_in(text: &[u8]) -> Option<Date>
    ensures { found result ≡ date_in text.now }
{
    if text.len() != 14 {
        return None;
    }
    let year = digits::two_at(text, 0)?;
    let month = digits::two_at(text, 2)?;
    let day = digits::two_at(text, 4)?;
    let weekday = digits::two_at(text, 6)?;
    let hour = digits::two_at(text, 8)?;
    let minute = digits::two_at(text, 10)?;
    let daylight = digits::two_at(text, 12)?;
    Some(Date {
        year,
        month,
        day,
        weekday,
        hour,
        minute,
        daylight,
    })
}

// The sixteen numbers of a schedule, two digits each.
#[tactic(auto, unfolding(messages::specs::Read::numbers_in))]
pub fn numbers_in(text: &[u8]) -> Option<[u8; 16]>
    ensures { found result ≡ numbers_in text.now }
{
    if text.len() != 32 {
        return None;
    }
    let numbers = digits::octets_in(text)?;
    Some(numbers.bytes)
}
