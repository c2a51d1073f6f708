// What is seen of a list that was played, a line an event, and what is the same on an unused board.
ghost use Rattle.std.specs.Prelude.{◌+◌, ◌*◌, ◌≤◌, length};

use play::event::EventKind;
use std::fmt;

// The first two numbers of a log's entry: an answer by the number of its kind, or what a power cut's start gave.
#[derive(Clone, Copy)]
enum Entry {
    Waiting,
    Begun,
    More,
    Ended,
    Refused(usize),
    Reply(usize),
    Started,
    Unstarted,
    Other(usize),
}

impl From<(usize, usize)> for Entry {
    fn from(numbers: (usize, usize)) -> Self {
        let (kind, number) = numbers;
        match kind {
            0 => Entry::Waiting,
            2 => Entry::Begun,
            3 => Entry::More,
            4 => Entry::Ended,
            5 => Entry::Refused(number),
            6 => Entry::Reply(number),
            play::STARTED => Entry::Started,
            play::UNSTARTED => Entry::Unstarted,
            _ => Entry::Other(kind),
        }
    }
}

// Its word, and a refusal's number. One that the list does not get shows the number of its kind.
impl fmt::Display for Entry {
    fn fmt<W: fmt::Write>(&self, f: &mut fmt::Formatter<W>) -> fmt::Result {
        match *self {
            Entry::Waiting => f.write_str("waiting"),
            Entry::Begun => f.write_str("begun"),
            Entry::More => f.write_str("more"),
            Entry::Ended => f.write_str("ended"),
            Entry::Refused(number) => write!(f, "refused {number}"),
            Entry::Reply(_) => f.write_str("reply"),
            Entry::Started => f.write_str("started"),
            Entry::Unstarted => write!(f, "answer {}", play::UNSTARTED),
            Entry::Other(kind) => write!(f, "answer {kind}"),
        }
    }
}

// Whether an erase begins, and how many bytes of the byte's own buffer were written.
pub fn acceptance(rt: &impl Print, begun: bool, buffer: &[u8]) {
    let _ = rt.println(if begun {
        "a board with a past begins an erase; the mark that it stores shows in event 1"
    } else {
        "no erase begins"
    });
    show_count(rt, written_in(buffer));
}

// Both parts of a list, the second from `middle` on, and where the buffers of the first end in what is lent: at its size where the buffers
// reach it, since then they may be cut.
pub fn parts(rt: &impl Print, events: &[u16], middle: usize, lent: &[u8], log: &[usize]) -> usize
    requires { (middle ≤ length events.now) × (65 * length events.now + 130 ≤ length log.now) }
    ensures { result ≤ length lent.now }
{
    let _ = rt.println("after an accepted erase, with two power cuts");
    let from = show_part(rt, events, 0, middle, lent, 0, log);
    let _ = rt.println("and from then on");
    let end = show_part(rt, events, middle, events.len(), lent, from, log);
    if end == lent.len() {
        let _ = rt.println("the list does not fit the lent bytes");
        return end;
    }
    from
}

// A line for each event of a part, waiting left out; then how many lent bytes were written though they are no reply's. An entry of the log has
// the answer in two numbers and the store after it; the first entry has the store before the list. Where the part's buffers end.
fn show_part(
    rt: &impl Print,
    events: &[u16],
    first: usize,
    last: usize,
    lent: &[u8],
    start: usize,
    log: &[usize],
) -> usize
    requires { (last ≤ length events.now) × (start ≤ length lent.now) × (65 * last + 130 ≤ length log.now) }
    ensures { result ≤ length lent.now }
{
    let mut n: usize = 0;
    let mut from = start;
    for i in first / 2..last / 2 {
        let at = 130 * (i + 1);
        let end = end_of(from, events[2 * i], events[2 * i + 1], lent.len());
        let entry = Entry::from((log[at], log[at + 1]));
        show_event(rt, i + 1, entry, log, at, &lent[from..end]);
        // Memory has too few bytes for it to wrap.
        n = n.wrapping_add(beside(entry, &lent[from..end]));
        from = end;
    }
    show_count(rt, n);
    from
}

// Where an event's lent buffer ends. A power cut has none.
fn end_of(from: usize, event: u16, lent: u16, size: usize) -> usize
    requires { from ≤ size }
    ensures { (from ≤ result) × (result ≤ size) }
{
    from + EventKind::from(event).part(lent, size - from)
}

// How many lent bytes were written though they are no reply's.
fn show_count(rt: &impl Print, n: usize) {
    let _ = println!(rt; "bytes written beside replies: {n}");
}

// An event with the entry that stands at a place, and its lent buffer.
fn show_event(rt: &impl Print, number: usize, entry: Entry, log: &[usize], at: usize, buffer: &[u8])
    requires { (130 ≤ at) × (at + 130 ≤ length log.now) }
{
    if let Entry::Waiting = entry {
        return;
    }
    let _ = print!(rt; "{number} {entry}");
    if let Entry::Reply(count) = entry {
        show_reply(rt, buffer, count);
    }
    // The entry of a refused start has no store.
    if !matches!(entry, Entry::Unstarted) {
        show_changes(rt, &log[at - 128..at], &log[at + 2..at + 130]);
    }
    let _ = rt.println("");
}

// The first bytes of a lent buffer.
fn show_reply(rt: &impl Print, buffer: &[u8], count: usize) {
    let _ = rt.print(" ");
    let Some(reply) = buffer.get(..count) else {
        let _ = rt.print("past its buffer");
        return;
    };
    for b in reply {
        let _ = print!(rt; "{b:02X}");
    }
}

// Each stored byte that is another than in the entry before, with its place. A log has numbers, and one that is no byte is told.
fn show_changes(rt: &impl Print, before: &[usize], after: &[usize]) {
    for (place, (old, new)) in before.iter().zip(after).enumerate() {
        if new != old {
            let _ = match u8::try_from(*new) {
                Ok(b) => print!(rt; " {place}={b:02X}"),
                Err(_) => print!(rt; " {place}=no byte"),
            };
        }
    }
}

// How many bytes of an event's buffer were written though they are no reply's.
fn beside(entry: Entry, buffer: &[u8]) -> usize {
    match entry {
        Entry::Reply(count) => written_in(buffer.get(count..).unwrap_or(&[])),
        _ => written_in(buffer),
    }
}

// How many bytes are no longer A5h.
fn written_in(buffer: &[u8]) -> usize {
    buffer.iter().filter(|b| **b != 0xA5).count()
}

// Whether two logs, and the lent bytes beside them, are the same in each number.
pub fn comparison(
    rt: &impl Print,
    log: &[usize],
    other_log: &[usize],
    lent: &[u8],
    other_lent: &[u8],
) {
    let _ = rt.println(if log != other_log {
        "an unused board shows another answer or store"
    } else if lent != other_lent {
        "an unused board leaves other bytes in the lent buffers"
    } else {
        "the same on an unused board, in every number of the log and every lent byte"
    });
}
