// Edges of the rules: each case a line with its name, then what an unused board answers.
#![tactic(auto)]

ghost use Rattle.std.specs.Prelude.{◌<◌, length};

use board::board::{Answer, Board};
use transcript::feed;
use wire::digits;
use wire::refusal::Refusal;

mod dates;
mod letters;
mod schedules;

// The name of a case, and the bytes that an unused board of ID 1 is given.
pub type Case = (&'static str, &'static [u8]);

// A value at its largest, and one past it.
fn settings() -> [Case; 2] {
    [
        ("backlight 100", b"\x010A0E0A\x0200100064\x03w\x0D"),
        ("backlight 101", b"\x010A0E0A\x0200100065\x03v\x0D"),
    ]
}

// The least and the largest length, and one past each: a refusal comes with the last byte of the header.
fn lengths() -> [Case; 4] {
    [
        ("L 3", b"\x010A0A03"),
        ("L 4", b"\x010A0A04\x02BE\x03\x02\x0D"),
        (
            "L 64",
            b"\x010A0A40\x0200000000000000000000000000000000000000000000000000000000000000\x03\x05\x0D",
        ),
        ("L 65", b"\x010A0A41"),
    ]
}

// Tags of no byte, of as many as there are, and of one too many, which is no request.
fn tags() -> [Case; 3] {
    [
        ("tag of 0 bytes", b"\x010A0A06\x02F011\x03q\x0D"),
        (
            "tag of 16 bytes",
            b"\x010A0A26\x02F011484F54454C2053454153494445203432\x03t\x0D",
        ),
        (
            "tag of 17 bytes",
            b"\x010A0A28\x02F011484F54454C205345415349444520343221\x03y\x0D",
        ),
    ]
}

// Check codes that are bytes with another meaning elsewhere in a packet; the first of them, 0Dh, stands in a packet to another ID.
fn check_codes() -> [Case; 2] {
    [
        ("check code 03h", b"\x010A0E0A\x020010000F\x03\x03\x0D"),
        ("check code 01h", b"\x010A0E0A\x020010000D\x03\x01\x0D"),
    ]
}

fn main(rt: HostRuntime) {
    show_all(&rt, &settings());
    show_all(&rt, &lengths());
    show_all(&rt, &tags());
    show(&rt, "check code 0Dh", 8, b"\x010H0C06\x020010\x03\x0D\x0D");
    show_all(&rt, &check_codes());
    places(&rt);
    serials(&rt);
    letters::all(&rt);
    dates::all(&rt);
    schedules::all(&rt);
    stores(&rt);
}

// The erase request, then all steps; what the last two answer, and the mark after them.
fn places(rt: &impl Print) {
    let mut store = layouts::unused();
    let mut reply = [0u8; 64];
    let started = board::board::start(&mut store, 1, b"", b"");
    let first = started.unwrap_or(board::board::no_board());
    let asked = after_bytes(
        first,
        &mut store,
        b"\x010A0E0A\x02F0010001\x03\x02\x0D",
        &mut reply,
    );
    let before = after_steps(asked, &mut store, 126, &mut reply);
    let _ = rt.println("p 127");
    let last = step_shown(rt, before, &mut store, &mut reply);
    let _ = rt.println("p 128");
    step_shown(rt, last, &mut store, &mut reply);
}

// A start with a serial number of 16 bytes, and one of 17.
fn serials(rt: &impl Print) {
    let _ = rt.println("serial number of 16 bytes");
    start_shown(rt, b"SERIAL NUMBER 01");
    let _ = rt.println("serial number of 17 bytes");
    start_shown(rt, b"SERIAL NUMBER 012");
}

// Starts on stores of each mark: an older one with something in every byte where programs come, and with a tag length of 17; one with a program's hour
// of 25; a pending erase; and a mark that there is not.
fn stores(rt: &impl Print) {
    let mut older = layouts::unused();
    let junk = [0xA5u8; 35];
    digits::put_bytes(&mut older, 44, &junk);
    older[0] = 0x00;
    let _ = rt.println("mark 00, no programs");
    start_on(rt, older);
    older[10] = 0x08;
    older[11] = 0x80;
    let _ = rt.println("mark 00, tag length 17");
    start_on(rt, older);
    let mut store = layouts::unused();
    store[44] = 0xC8;
    let _ = rt.println("mark 01, hour 25");
    start_on(rt, store);
    store[0] = 0xE7;
    let _ = rt.println("mark E7, hour 25");
    start_on(rt, store);
    store[0] = 0x02;
    let _ = rt.println("mark 02");
    start_on(rt, store);
}

// A start on a store: whether it is refused, and the mark and the programs after it.
fn start_on(rt: &impl Print, before: [u8; 128]) {
    let mut store = before;
    let started = board::board::start(&mut store, 1, b"", b"");
    show_started(rt, started);
    let _ = print!(rt; "mark {:02X}, bytes 44 to 78 ", store[0]);
    for b in &store[44..79] {
        let _ = print!(rt; "{b:02X}");
    }
    let _ = rt.println("");
}

// Writes each case, as `show` writes it for ID 1.
pub fn show_all(rt: &impl Print, cases: &[Case]) {
    for (name, bytes) in cases {
        show(rt, name, 1, bytes);
    }
}

// Writes a name, and the answers of an unused board to some bytes. A write that fails is not told, here and in the other functions: what comes
// out is compared whole.
pub fn show(rt: &impl Print, name: &str, id: u8, bytes: &[u8]) {
    let _ = rt.println(name);
    let mut store = layouts::unused();
    let mut reply = [0u8; 64];
    let mut out = [0u8; 512];
    let started = board::board::start(&mut store, id, b"", b"");
    let board = started.unwrap_or(board::board::no_board());
    show_lines(rt, board, &mut store, bytes, &mut reply, &mut out);
}

// Gives a board some bytes, and writes the lines of its answers.
pub fn show_lines(
    rt: &impl Print,
    first: Board,
    store: &mut [u8],
    bytes: &[u8],
    reply: &mut [u8],
    out: &mut [u8],
) {
    let mut board = first;
    for (i, b) in bytes.iter().enumerate() {
        board = show_byte(rt, board, store, i as u64 + 1, *b, reply, out);
    }
}

// Gives a board the byte that is the at-th, and writes the lines of its answers; the next board.
fn show_byte(
    rt: &impl Print,
    board: Board,
    store: &mut [u8],
    at: u64,
    b: u8,
    reply: &mut [u8],
    out: &mut [u8],
) -> Board {
    let given = feed::feed(board, store, at, b, reply, out);
    let _ = rt.write_all(&out[..given.length]);
    given.board
}

// The board after some bytes. The program power_cuts has the same lines, but no crate that both use has a place for them.
fn after_bytes(first: Board, store: &mut [u8], bytes: &[u8], reply: &mut [u8]) -> Board {
    let mut board = first;
    for b in bytes {
        board = board.byte(store, *b, reply).board;
    }
    board
}

// The board after some erase steps.
fn after_steps(first: Board, store: &mut [u8], count: u8, reply: &mut [u8]) -> Board {
    let mut board = first;
    for _ in 0..count {
        board = board.step(store, reply).board;
    }
    board
}

// One erase step: its answer, and the mark after it.
fn step_shown(rt: &impl Print, board: Board, store: &mut [u8], reply: &mut [u8]) -> Board
    requires { 0 < length store.old }
{
    let done = board.step(store, reply);
    let _ = match done.answer {
        Answer::More => rt.print("more"),
        Answer::Reply(n) => print!(rt; "reply {n}"),
        _ => rt.print("another answer"),
    };
    let _ = println!(rt; ", mark {:02X}", store[0]);
    done.board
}

// A start on an unused store.
fn start_shown(rt: &impl Print, serial: &[u8]) {
    let mut store = layouts::unused();
    let started = board::board::start(&mut store, 1, serial, b"");
    show_started(rt, started);
}

// Whether a start is refused, and its number.
pub fn show_started(rt: &impl Print, started: Result<Board, Refusal>) {
    let _ = match started {
        Ok(_) => rt.println("started"),
        Err(refusal) => println!(rt; "refused {}", refusal.number()),
    };
}
