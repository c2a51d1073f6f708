// The calendar: days and weekdays of 2000 to 2099, and the dates that a date write accepts.
#![tactic(auto)]

ghost use Rattle.std.specs.Prelude.{true, ◌≡◌, ◌≤◌};
ghost use Rattle.calendar.specs.Calendar.{is_leap, days_in, is_day, before_year, before_month, weekday_of, is_accepted};

use messages::message::Date;

// Whether a date write accepts a date.
#[tactic(auto, unfolding(crate::specs::Calendar::is_accepted))]
pub fn is_accepted(date: Date) -> bool
    ensures { result ≡ is_accepted date }
{
    is_day(date.year, date.month, date.day)
        && date.weekday == weekday_of(date.year, date.month, date.day)
        && date.hour <= 23
        && date.minute <= 59
        && date.daylight == 0
}

// Whether there is such a day from 2000 to 2099.
#[tactic(auto, unfolding(crate::specs::Calendar::is_day))]
pub fn is_day(year: u8, month: u8, day: u8) -> bool
    ensures { result ≡ is_day year month day }
{
    let days = days_in(year, month);
    (year <= 99) & (1 <= day) & (day <= days)
}

// The weekday that falls on a day, Sunday 0.
pub fn weekday_of(year: u8, month: u8, day: u8) -> u8
    requires { is_day year month day ≡ true }
    ensures { result ≡ weekday_of year month day }
{
    let days = before_year(year) + before_month(year, month) + (day as u16 - 1);
    ((6 + days) % 7) as u8
}

// Whether a year has a 29 February.
fn is_leap(year: u8) -> bool
    ensures { result ≡ is_leap year }
{
    year % 4 == 0
}

// How many days a month has; none where the number is no month's, as in the definition.
#[tactic(auto, unfolding(crate::specs::Calendar::days_in))]
fn days_in(year: u8, month: u8) -> u8
    ensures { result ≡ days_in year month }
{
    match month {
        2 if is_leap(year) => 29,
        2 => 28,
        4 | 6 | 9 | 11 => 30,
        1 | 3 | 5 | 7 | 8 | 10 | 12 => 31,
        _ => 0,
    }
}

// How many days there are before a year, one in four having 366.
fn before_year(year: u8) -> u16
    requires { year ≤ 99 }
    ensures { result ≡ before_year year }
{
    let years = year as u16;
    365 * years + (years + 3) / 4
}

// How many days of its year there are before a month: from March on five months have 153 days.
fn before_month(year: u8, month: u8) -> u16
    requires { (1 ≤ month) × (month ≤ 12) }
    ensures { result ≡ before_month year month }
{
    let months = month as u16;
    if months <= 2 {
        return 31 * (months - 1);
    }
    let days = 59 + (153 * (months - 3) + 2) / 5;
    if is_leap(year) {
        return days + 1;
    }
    days
}
