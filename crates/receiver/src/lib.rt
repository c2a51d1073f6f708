// How bytes become a packet.
#![tactic(auto)]

ghost use Rattle.std.specs.Prelude.{true, ◌≡◌, ◌+◌, ◌≤◌, length, take};
ghost use Rattle.receiver.specs.Receive.{accept, grown, is_proper_beginning, on_byte, on_gap};
ghost use Rattle.receiver.specs.View.{held_of, reception_in, WholeOf, receipt, empty_receiver, emptied, receiver_after};
ghost use Rattle.receiver.specs.Inner.{checkpoint, asked, asked_behind, kept_after, array_after, or_refused, GrownBeginning};

use wire::packet;
use wire::refusal::Refusal;

// Of the longest packet at least the last byte is not held.
const MOST_HELD: u8 = 72;

// How many bytes are asked for first, those of a header, and then: fewer than any packet has, and as many as `size` may ever look at.
pub const HEADER: u8 = 7;

const SIZED: u8 = 12;

// What a byte brings about. A whole packet is the first bytes of the array, as many as it counts.
#[derive(Clone, Copy)]
pub enum Reception {
    Waiting,
    Refused(Refusal),
    Whole(u8),
}

impl Reception {
    // How many bytes are held after it, where there are n with the new one.
    fn kept(self, n: u8) -> u8
        ensures { result ≡ kept_after self n }
    {
        match self {
            Reception::Waiting => n,
            _ => 0,
        }
    }
}

// The held bytes: the first of the array, as many as len says, since there is no heap.
#[derive(Clone, Copy)]
pub struct Receiver {
    pub held: [u8; packet::MOST_PACKET],
    pub len: u8,
}

// The next receiver, with the answer.
#[derive(Clone, Copy)]
pub struct Received {
    pub receiver: Receiver,
    pub answer: Reception,
}

impl Receiver {
    // Nothing held.
    pub fn empty() -> Self
        ensures { result ≡ empty_receiver }
    {
        Receiver {
            held: [0u8; packet::MOST_PACKET],
            len: 0,
        }
    }

    // How many bytes the held ones ask for; 0 where they are no proper beginning of a packet.
    pub fn asked(self) -> u8
        ensures { result ≡ asked (held_of self) }
    {
        asked_for(&self.held, self.len)
    }

    // One byte. Held bytes that are no proper beginning of a packet are refused, unchanged.
    pub fn byte(self, b: u8) -> Received
        ensures receipt { receipt result ≡ on_byte (held_of self) b }
        ensures whole { WholeOf result.answer (self.len + 1) }
        ensures receiver { result.receiver ≡ receiver_after self b (on_byte (held_of self) b).answer }
    {
        let asked = self.asked();
        if asked == 0 {
            return Received {
                receiver: self,
                answer: Reception::Refused(Refusal::Unsound),
            };
        }
        self.accept(asked, b)
    }

    // One byte behind held ones that are a proper beginning and ask for so many.
    pub fn accept(self, asked: u8, b: u8) -> Received
        requires proper { is_proper_beginning (held_of self) ≡ true }
        requires asked { asked ≡ checkpoint (held_of self) }
        ensures receipt { receipt result ≡ accept (held_of self) b }
        ensures whole { WholeOf result.answer (self.len + 1) }
        ensures receiver { result.receiver ≡ receiver_after self b (accept (held_of self) b).answer }
    {
        let len = self.len;
        let mut held = self.held;
        let answer = advance(&mut held, len, asked, b);
        let receiver = Receiver {
            held,
            len: answer.kept(len + 1),
        };
        Received { receiver, answer }
    }

    // A gap empties the receiver.
    pub fn gap(self) -> Received
        ensures receipt { receipt result ≡ on_gap }
        ensures receiver { result.receiver ≡ emptied self }
    {
        Received {
            receiver: Receiver { len: 0, ..self },
            answer: Reception::Waiting,
        }
    }
}

// How many bytes the first len ask for; 0 where they are no proper beginning of a packet.
pub fn asked_for(held: &[u8; packet::MOST_PACKET], len: u8) -> u8
    ensures { result ≡ asked (take len held.now) }
{
    let bytes: &[u8] = held;
    if len == 0 {
        return HEADER;
    }
    if bytes[0] != packet::SOH {
        return 0;
    }
    if len < HEADER {
        return HEADER;
    }
    if MOST_HELD < len {
        return 0;
    }
    asked_behind_header(bytes, len)
}

// The same of seven bytes or more: with a good header, as long as they are not all bytes of the packet.
fn asked_behind_header(bytes: &[u8], len: u8) -> u8
    requires { (7 ≤ len) × (len ≤ 72) × (len ≤ length bytes.now) }
    ensures { result ≡ asked_behind (take len bytes.now) }
{
    let n = len as usize;
    let held = &bytes[..n];
    let Ok(()) = packet::judge_header(held) else {
        return 0;
    };
    if len < SIZED {
        return SIZED;
    }
    let size = packet::size(held);
    if n < size {
        return size as u8;
    }
    0
}

// One byte behind the first len, which are a proper beginning and ask for so many. With refusal 1 the array is as it was.
pub fn advance(held: &mut [u8; packet::MOST_PACKET], len: u8, asked: u8, b: u8) -> Reception
    requires proper { is_proper_beginning (take len held.old) ≡ true }
    requires asked { asked ≡ checkpoint (take len held.old) }
    ensures few { len ≤ 72 }
    ensures answer { reception_in result held.new ≡ (accept (take len held.old) b).answer }
    ensures whole { WholeOf result (len + 1) }
    ensures held { take (kept_after result (len + 1)) held.new ≡ (accept (take len held.old) b).held }
    ensures array { held.new ≡ array_after held.old len b (accept (take len held.old) b).answer }
{
    if (len == 0) & (b != packet::SOH) {
        return Reception::Refused(Refusal::NoStart);
    }
    let bytes: &mut [u8] = held;
    bytes[len as usize] = b;
    reached(bytes, len + 1, asked)
}

// What the first n bytes come to, the last of them new, where so many were asked for.
fn reached(bytes: &[u8], n: u8, asked: u8) -> Reception
    requires { (n ≤ length bytes.now) × GrownBeginning (take n bytes.now) asked }
    ensures answer { reception_in result bytes.now ≡ (grown (take n bytes.now)).answer }
    ensures whole { WholeOf result n }
{
    if n < asked {
        return Reception::Waiting;
    }
    judge(bytes, n)
}

// What the first n bytes come to, seven or more.
fn judge(bytes: &[u8], n: u8) -> Reception
    requires { (7 ≤ n) × (n ≤ length bytes.now) × GrownBeginning (take n bytes.now) n }
    ensures answer { reception_in result bytes.now ≡ (grown (take n bytes.now)).answer }
    ensures whole { WholeOf result n }
{
    let count = n as usize;
    let held = &bytes[..count];
    if n == HEADER {
        return or_refused(packet::judge_header(held), Reception::Waiting);
    }
    if count < packet::size(held) {
        return Reception::Waiting;
    }
    or_refused(packet::judge_packet(held), Reception::Whole(n))
}

// The answer to a good verdict, or the refusal.
fn or_refused(verdict: Result<(), Refusal>, answer: Reception) -> Reception
    ensures { result ≡ or_refused verdict answer }
{
    match verdict {
        Ok(()) => answer,
        Err(refusal) => Reception::Refused(refusal),
    }
}
