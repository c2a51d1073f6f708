// Bytes from standard input, given to an unused board of ID 1 with no serial number and no model; a line for each answer.
#![tactic(auto)]

ghost use Rattle.std.specs.Prelude.{false, ◌≡◌, suc, ◌≤◌, ◌<◌, length, IfOk};
ghost use Rattle.replay.specs.Sessions.{largest, came, next_after, goes_on, AreCounted, IsAfterRead};

use board::board::Board;
use std::io;
use std::io::Read;
use transcript::feed;
use transcript::feed::Given;

// What comes after a read: another one, or the end of the session and why.
#[derive(Clone, Copy)]
pub enum Next {
    Read,
    InputEnded,
    ReadFailed,
    WriteFailed,
}

// The board, how many bytes it was given, how many reads were made, and what comes next. A read whose lines can't be written changes only the last two.
#[derive(Clone, Copy)]
pub struct Session {
    pub board: Board,
    pub at: u64,
    pub reads: u64,
    pub next: Next,
}

// The board and the number of bytes it was given.
#[derive(Clone, Copy)]
pub struct Told {
    pub board: Board,
    pub at: u64,
}

fn main(rt: HostRuntime) {
    if rt.write_all(b"at kind data\n").is_err() {
        say_why(&rt, Next::WriteFailed);
        return;
    }
    let mut input = rt.stdin();
    let mut store = layouts::unused();
    let mut reply = [0u8; 64];
    let mut out = large_buffer();
    let started = board::board::start(&mut store, 1, b"", b"");
    let board = started.unwrap_or(board::board::no_board());
    let session = Session {
        board,
        at: 0,
        reads: 0,
        next: Next::Read,
    };
    let last = replay(&rt, &mut input, session, &mut store, &mut reply, &mut out);
    let next = last.next;
    say_why(&rt, next);
}

// 65,536 zeros: what a read may fill, and where lines wait to be written. The `ensures` gives only the length, which lending it needs.
fn large_buffer() -> [u8; 65536]
    ensures { 65536 ≡ length result }
{
    [0; 65536]
}

// Says on standard error why a session ended. The end of the input is no failure, and nothing is said of it. A line that can't be written there is lost.
// The two texts stand here alone, so a Display would be no plainer.
fn say_why(rt: &impl Eprint, next: Next) {
    let _ = match next {
        Next::ReadFailed => rt.eprintln("replay: standard input can't be read"),
        Next::WriteFailed => rt.eprintln("replay: standard output can't be written"),
        Next::Read | Next::InputEnded => Ok(()),
    };
}

// Reads until the session ends.
fn replay(
    rt: &impl Print,
    input: &mut impl Read,
    first: Session,
    store: &mut [u8],
    reply: &mut [u8],
    out: &mut [u8],
) -> Session
    ensures { goes_on result ≡ false }
{
    let mut session = first;
    while session.goes_on() {
        session = read_some(rt, input, session, store, reply, out);
    }
    session
}

impl Session {
    // Whether another read comes. Nothing says that an input ends, so the reads are counted, up to a number that no run comes to.
    fn goes_on(self) -> bool
        ensures { result ≡ goes_on self }
    {
        matches!(self.next, Next::Read) && self.reads < u64::MAX
    }
}

// Reads once.
fn read_some(
    rt: &impl Print,
    input: &mut impl Read,
    session: Session,
    store: &mut [u8],
    reply: &mut [u8],
    out: &mut [u8],
) -> Session
    requires { session.reads < largest }
    ensures { result.reads ≡ suc session.reads }
{
    let mut buf = large_buffer();
    let got = input.read(&mut buf);
    take_in(rt, session, got, &buf, store, reply, out)
}

// Gives the board what a read gave: nothing at the end of the input, and where it failed.
fn take_in(
    rt: &impl Print,
    session: Session,
    got: io::Result<usize>,
    buf: &[u8],
    store: &mut [u8],
    reply: &mut [u8],
    out: &mut [u8],
) -> Session
    requires { session.reads < largest }
    ensures { IsAfterRead session got (length buf.now) result }
{
    let reads = session.reads + 1;
    let n = count(got, buf);
    match give_all(rt, session.board, session.at, store, &buf[..n], reply, out) {
        Ok(told) => Session {
            board: told.board,
            at: told.at,
            reads,
            next: next_after(got, true),
        },
        Err(_) => Session {
            reads,
            next: next_after(got, false),
            ..session
        },
    }
}

// How many bytes a read gave: none where it failed, and never more than its buffer has.
fn count(got: io::Result<usize>, buf: &[u8]) -> usize
    ensures within { result ≤ length buf.now }
    ensures value { result ≡ came got (length buf.now) }
{
    match got {
        Ok(n) => n.min(buf.len()),
        Err(_) => 0,
    }
}

// What comes after a read that gave so many bytes, 0 at the end of the input, or failed, and after its lines were written or not.
fn next_after(got: io::Result<usize>, written: bool) -> Next
    ensures { result ≡ next_after got written }
{
    if !written {
        return Next::WriteFailed;
    }
    match got {
        Ok(0) => Next::InputEnded,
        Ok(_) => Next::Read,
        Err(_) => Next::ReadFailed,
    }
}

// Gives the board some bytes and writes their lines; where these can't be written, the bytes behind them are left. The room for lines is lent, since
// there is no heap, so how much of it is used stands beside it.
fn give_all(
    rt: &impl Print,
    first: Board,
    before: u64,
    store: &mut [u8],
    bytes: &[u8],
    reply: &mut [u8],
    out: &mut [u8],
) -> io::Result<Told>
    ensures { AreCounted result before (length bytes.now) }
{
    let mut board = first;
    let mut at = before;
    let mut used: usize = 0;
    for b in bytes {
        // The largest number stays.
        at = at.saturating_add(1);
        let given = give(out, used, board, store, at, *b, reply);
        board = given.board;
        used = with_room(rt, given.length, out)?;
    }
    rt.write_all(&out[..used])?;
    Ok(Told { board, at })
}

// Gives the board a byte, and writes its lines behind what is used of the buffer; the next board, and how much is used then.
fn give(
    out: &mut [u8],
    used: usize,
    board: Board,
    store: &mut [u8],
    at: u64,
    b: u8,
    reply: &mut [u8],
) -> Given
    requires { used ≤ length out.old }
    ensures { result.length ≤ length out.new }
{
    let given = feed::feed(board, store, at, b, reply, &mut out[used..]);
    Given {
        length: used + given.length,
        ..given
    }
}

// Writes out the lines when little room is left; how much of the buffer is used then.
fn with_room(rt: &impl Print, used: usize, out: &[u8]) -> io::Result<usize>
    requires { used ≤ length out.now }
    ensures { IfOk result (λ n. n ≤ length out.now) }
{
    if out.len() - used < 512 {
        rt.write_all(&out[..used])?;
        return Ok(0);
    }
    Ok(used)
}
