// The list of events in two parts, two numbers an event as `play` takes them. An event that does not fit is left out, and the list counts as
// full.
ghost use Rattle.std.specs.Prelude.{◌≤◌, length};

use play::event::EventKind;

// The first part: an erase that was accepted loses its power twice, and then ends. Where it ends.
pub fn erase_with_cuts(events: &mut [u16]) -> usize
    ensures { result ≤ length events.new }
{
    let mut n = put_steps(events, 0, 40);
    n = put_refused(events, n);
    n = put(events, n, EventKind::Cut, 0);
    n = put_steps(events, n, 100);
    n = put(events, n, EventKind::Cut, 0);
    n = put_steps(events, n, 127);
    n = put(events, n, EventKind::Byte(0x01), 64);
    put(events, n, EventKind::Step, 64)
}

// Calls that are refused while an erase is pending: two with 9, and three with 10 for their short buffers.
fn put_refused(events: &mut [u16], at: usize) -> usize
    requires { at ≤ length events.old }
    ensures { (at ≤ result) × (result ≤ length events.new) }
{
    let mut n = put(events, at, EventKind::Byte(0x01), 64);
    n = put(events, n, EventKind::Gap, 64);
    n = put(events, n, EventKind::Byte(0x01), 63);
    n = put(events, n, EventKind::Step, 63);
    put(events, n, EventKind::Step, 0)
}

// The second part: requests, an erase that is not cut, so that its reply is owed, the power status, and a cut with a read of the tag after it.
// Where it ends.
pub fn after_erase(events: &mut [u16], at: usize) -> usize
    requires { at ≤ length events.old }
    ensures { (at ≤ result) × (result ≤ length events.new) }
{
    let mut n = put_requests(events, at);
    n = put_steps(events, n, 3);
    n = put(events, n, EventKind::Byte(0x01), 64);
    n = put_steps(events, n, 125);
    n = put_bytes(events, n, b"\x010A0A06\x0201D6\x03t\x0D");
    n = put(events, n, EventKind::Cut, 0);
    put_bytes(events, n, b"\x010A0A06\x02F010\x03p\x0D")
}

// Backlight, tag, former tag, date and serial number are read. Backlight 50; the same with a damaged digit, so that its check code differs; and
// a read with a gap in it, whose rest begins no packet. The erase request.
fn put_requests(events: &mut [u16], at: usize) -> usize
    requires { at ≤ length events.old }
    ensures { (at ≤ result) × (result ≤ length events.new) }
{
    let mut n = put_bytes(
        events,
        at,
        b"\x010A0C06\x020010\x03\x04\x0D\x010A0A06\x02F010\x03p\x0D\x010A0A06\x02F012\x03r\x0D\x010A0A06\x02C211\x03v\x0D\x010A0A06\x02C216\x03q\x0D",
    );
    n = put_bytes(
        events,
        n,
        b"\x010A0E0A\x0200100032\x03t\x0D\x010A0E0A\x0200100033\x03t\x0D\x010A0C06\x02",
    );
    n = put(events, n, EventKind::Gap, 64);
    put_bytes(
        events,
        n,
        b"0010\x03\x04\x0D\x010A0E0A\x02F0010001\x03\x02\x0D",
    )
}

// Bytes, each with a buffer of 64 bytes.
fn put_bytes(events: &mut [u16], at: usize, bytes: &[u8]) -> usize
    requires { at ≤ length events.old }
    ensures { (at ≤ result) × (result ≤ length events.new) }
{
    let mut n = at;
    for b in bytes {
        n = put(events, n, EventKind::Byte(*b), 64);
    }
    n
}

// Some steps, each with a buffer of 64 bytes.
fn put_steps(events: &mut [u16], at: usize, times: u8) -> usize
    requires { at ≤ length events.old }
    ensures { (at ≤ result) × (result ≤ length events.new) }
{
    let mut n = at;
    for _ in 0..times {
        n = put(events, n, EventKind::Step, 64);
    }
    n
}

// An event behind those that are there.
fn put(events: &mut [u16], at: usize, event: EventKind, lent: u16) -> usize
    requires { at ≤ length events.old }
    ensures { (at ≤ result) × (result ≤ length events.new) }
{
    if events.len() - at < 2 {
        return events.len();
    }
    events[at] = u16::from(event);
    events[at + 1] = lent;
    at + 2
}
