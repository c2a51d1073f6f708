// An erase that loses its power twice, and what comes after it on the same board: from its acceptance on all calls and cuts are one list,
// played in one call. What comes after is then played alone on an unused board, and compared.
#![tactic(auto)]

ghost use Rattle.std.specs.Prelude.{◌≡◌, ◌≤◌, length};

use board::board::Board;

mod list;
mod tell;

fn main(rt: HostRuntime) {
    let mut events = [0u16; 1200];
    let middle = list::erase_with_cuts(&mut events);
    let end = list::after_erase(&mut events, middle);
    if end == 1200 {
        let _ = rt.println("the list does not fit its array");
        return;
    }
    play_and_compare(&rt, &events[..end], middle);
}

// The whole list after an accepted erase, then its second part, from `middle` on, alone. An event has two numbers in the list and 130 in the log.
fn play_and_compare(rt: &impl Print, events: &[u16], middle: usize)
    requires { (middle ≤ length events.now) × (length events.now ≤ 1200) }
{
    let mut lent = filled_buffers();
    let mut log = empty_log();
    let mut store = layouts::unused();
    play_whole(rt, &mut store, events, &mut lent, &mut log);
    let from = tell::parts(rt, events, middle, &lent, &log);
    // All that is lent is used, so a buffer may have been cut: that was told.
    if from == 38400 {
        return;
    }
    let at = 65 * middle + 130;
    compare(rt, &events[middle..], from, at, &lent[from..], &log[at..]);
}

// A past, then in one call the last byte of its erase request and the whole list. The store before that call is set down before the first entry
// of the log, so the mark that the byte stores shows in the first event.
fn play_whole(
    rt: &impl Print,
    store: &mut [u8; 128],
    events: &[u16],
    lent: &mut [u8],
    log: &mut [usize],
)
    requires { 130 ≤ length log.old }
{
    fill_spare(store);
    fill_program_spare(store);
    let board = after_past(store);
    set_down(store, log);
    let mut reply = [0xA5u8; 64];
    let begun = play::play_erase(
        board,
        0x0D,
        1,
        b"SN-1",
        b"M",
        store,
        &mut reply,
        events,
        lent,
        &mut log[130..],
    );
    tell::acceptance(rt, begun, &reply);
}

// Something in each spare byte, as an older use may have left it: the number of its place. So each step of an erase shows there.
fn fill_spare(store: &mut [u8; 128]) {
    for place in 79u8..128 {
        store[usize::from(place)] = place;
    }
}

// And in the six spare bits behind each program.
fn fill_program_spare(store: &mut [u8; 128]) {
    for program in 0..7 {
        store[48 + 5 * program] = 0x3F;
    }
}

// The board after backlight 100, the tag HOTEL, then the tag SEASIDE, program 2 from 07:00 to 23:30 on working days, and the erase request without its last
// byte.
fn after_past(store: &mut [u8; 128]) -> Board {
    let mut reply = [0xA5u8; 64];
    let started = board::board::start(store, 1, b"SN-1", b"M");
    let board = started.unwrap_or(board::board::no_board());
    after_bytes(
        board,
        store,
        b"\x010A0E0A\x0200100064\x03w\x0D\x010A0A10\x02F011484F54454C\x03\x7F\x0D\x010A0A14\x02F01153454153494445\x03z\x0D\x010A0A26\x02C222020700171E111F060000000000000000\x03r\x0D\x010A0E0A\x02F0010001\x03\x02",
        &mut reply,
    )
}

// The board after some bytes. The program edges has the same lines, but no crate that both use has a place for them.
fn after_bytes(first: Board, store: &mut [u8], bytes: &[u8], reply: &mut [u8]) -> Board {
    let mut board = first;
    for b in bytes {
        board = board.byte(store, *b, reply).board;
    }
    board
}

// Writes the store before a list where an entry has it.
fn set_down(store: &[u8; 128], log: &mut [usize])
    requires { 130 ≤ length log.old }
{
    for (i, b) in store.iter().enumerate() {
        log[i + 2] = usize::from(*b);
    }
}

// Compares with an unused board the events whose buffers and entries begin at these places. Its own begin at the same places.
fn compare(rt: &impl Print, events: &[u16], from: usize, at: usize, lent: &[u8], log: &[usize])
    requires { (from ≤ 38400) × (at ≤ 78130) }
{
    let mut other_lent = filled_buffers();
    let mut other_log = empty_log();
    play_alone(
        rt,
        events,
        lent,
        log,
        &mut other_lent[from..],
        &mut other_log[at..],
    );
}

// Plays events on an unused board, in one call, and compares. In place of a refused start stands a board that refuses them all, which would show.
fn play_alone(
    rt: &impl Print,
    events: &[u16],
    lent: &[u8],
    log: &[usize],
    other_lent: &mut [u8],
    other_log: &mut [usize],
) {
    let mut store = layouts::unused();
    let started = board::board::start(&mut store, 1, b"SN-1", b"M");
    let board = started.unwrap_or(board::board::no_board());
    play::play(
        board, 1, b"SN-1", b"M", &mut store, events, other_lent, other_log,
    );
    tell::comparison(rt, log, other_log, lent, other_lent);
}

// Room for 600 events and the store before them: 130 numbers each. The `ensures` gives only the length, which lending it needs.
fn empty_log() -> [usize; 78130]
    ensures { 78130 ≡ length result }
{
    [0; 78130]
}

// Room for 600 lent buffers of 64 bytes. No reply has the byte A5h, so each byte that is written shows.
fn filled_buffers() -> [u8; 38400]
    ensures { 38400 ≡ length result }
{
    [0xA5; 38400]
}
