// Edges of the calendar: days that their months have and lack, weekdays, and a stored day that its month lacks.
use crate::{show, show_lines, show_started};
use wire::{digits, packet};

// The numbers of a date: the year from 2000 on, the month, the day and the weekday.
type Date = [u8; 4];

// The end of February in years that divide by 4 and in one that does not.
fn februaries() -> [Date; 6] {
    [
        [0, 2, 29, 2],
        [0, 2, 30, 3],
        [1, 2, 28, 3],
        [1, 2, 29, 4],
        [96, 2, 29, 3],
        [96, 2, 30, 4],
    ]
}

// The 30th and the 31st of each month of 2001, with the weekdays that follow on that of the day before: January to March.
fn first_quarter() -> [Date; 6] {
    [
        [1, 1, 30, 2],
        [1, 1, 31, 3],
        [1, 2, 30, 5],
        [1, 2, 31, 6],
        [1, 3, 30, 5],
        [1, 3, 31, 6],
    ]
}

// The same of April to June.
fn second_quarter() -> [Date; 6] {
    [
        [1, 4, 30, 1],
        [1, 4, 31, 2],
        [1, 5, 30, 3],
        [1, 5, 31, 4],
        [1, 6, 30, 6],
        [1, 6, 31, 0],
    ]
}

// The same of July to September.
fn third_quarter() -> [Date; 6] {
    [
        [1, 7, 30, 1],
        [1, 7, 31, 2],
        [1, 8, 30, 4],
        [1, 8, 31, 5],
        [1, 9, 30, 0],
        [1, 9, 31, 1],
    ]
}

// The same of October to December.
fn fourth_quarter() -> [Date; 6] {
    [
        [1, 10, 30, 2],
        [1, 10, 31, 3],
        [1, 11, 30, 5],
        [1, 11, 31, 6],
        [1, 12, 30, 0],
        [1, 12, 31, 1],
    ]
}

// The first day with its weekday and with others, and the day before it.
fn first_days() -> [Date; 5] {
    [
        [0, 1, 1, 6],
        [0, 1, 1, 5],
        [0, 1, 1, 0],
        [0, 1, 1, 7],
        [0, 1, 0, 5],
    ]
}

// The last day with its weekday and with another, and days and a month after it.
fn last_days() -> [Date; 5] {
    [
        [99, 12, 31, 4],
        [99, 12, 31, 5],
        [99, 12, 32, 5],
        [99, 13, 1, 5],
        [100, 1, 1, 5],
    ]
}

// All of them.
pub fn all(rt: &impl Print) {
    write_all(rt, &februaries());
    write_all(rt, &first_quarter());
    write_all(rt, &second_quarter());
    write_all(rt, &third_quarter());
    write_all(rt, &fourth_quarter());
    write_all(rt, &first_days());
    write_all(rt, &last_days());
    stored(rt);
}

// Writes each date, as `write` writes it.
fn write_all(rt: &impl Print, dates: &[Date]) {
    for date in dates {
        write(rt, *date);
    }
}

// Writes a date, and what an unused board answers to its date write at 00:00.
fn write(rt: &impl Print, date: Date) {
    let [year, month, day, weekday] = date;
    let _ = print!(rt;
        "day {}-{month}-{day}, weekday {weekday}",
        2000 + u16::from(year)
    );
    let sent = [year, month, day, weekday, 0, 0, 0];
    let mut text = [0u8; 18];
    digits::put_bytes(&mut text, 0, b"C212");
    digits::put_hex(&mut text, 4, &sent);
    let mut bytes = [0u8; 29];
    packet::put_packet(&mut bytes, 0x41, 0x30, 0x41, &text);
    show(rt, "", 1, &bytes);
}

// A start on a store with Thursday 31 February 2000, 12:30, as an earlier board took it: the date is read, a Set is accepted, the same date is refused,
// and the date is read again.
fn stored(rt: &impl Print) {
    let mut store = layouts::unused();
    let mut reply = [0u8; 64];
    let mut out = [0u8; 512];
    store[7] = 0x01;
    store[8] = 0x7E;
    store[9] = 0x31;
    store[10] = 0xE0;
    let _ = rt.println("stored day 2000-2-31");
    let started = board::board::start(&mut store, 1, b"", b"");
    show_started(rt, started);
    let board = started.unwrap_or(board::board::no_board());
    show_lines(
        rt,
        board,
        &mut store,
        b"\x010A0A06\x02C211\x03v\x0D\x010A0E0A\x0200100064\x03w\x0D\x010A0A14\x02C21200021F040C1E00\x03\x00\x0D\x010A0A06\x02C211\x03v\x0D",
        &mut reply,
        &mut out,
    );
}
