// One line of the transcript.
ghost use Rattle.std.specs.Prelude.{◌∷◌, ◌≡◌, ◌+◌, ◌≤◌, length, take};
ghost use Rattle.wire.specs.Digits.{hex_of};
ghost use Rattle.wire.specs.Packet.{over};
ghost use Rattle.board.specs.View.{answer_of};
ghost use Rattle.transcript.specs.Transcript.{decimal, word_of, data_of, is_told, line_of};
ghost use Rattle.transcript.specs.Inner.{Put, PutFew};

use crate::decimal;
use board::board::Answer;
use wire::digits;

// Writes the line of an answer, which stands at so many bytes, at the start of a buffer; its length.
pub fn put_line(at: u64, answer: Answer, reply: &[u8], out: &mut [u8]) -> usize
    requires { (length reply.now ≡ 64) × (192 ≤ length out.old) }
    ensures { (result ≡ length (line_of at (answer_of answer) reply.now)) × (out.new ≡ over (line_of at (answer_of answer) reply.now) out.old) }
{
    if !is_told(answer) {
        return 0;
    }
    let number = put_count(out, 0, at);
    let word = put_word(out, number, answer);
    let end = put_data(out, word, answer, reply);
    out[end] = b'\n';
    end + 1
}

// Whether an answer has a line.
fn is_told(answer: Answer) -> bool
    ensures { result ≡ is_told (answer_of answer) }
{
    !matches!(answer, Answer::Waiting | Answer::More)
}

// Writes the kind of an answer behind a space, from a place on; the place behind it.
fn put_word(out: &mut [u8], at: usize, answer: Answer) -> usize
    requires { at + 8 ≤ length out.old }
    ensures { PutFew 8 out.old at (word_of (answer_of answer)) result out.new }
{
    match answer {
        Answer::Silent => put_text(out, at, b" silent"),
        Answer::Begun => put_text(out, at, b" begun"),
        Answer::Ended => put_text(out, at, b" ended"),
        Answer::Refused(_) => put_text(out, at, b" refused"),
        Answer::Reply(_) => put_text(out, at, b" reply"),
        Answer::Waiting | Answer::More => at,
    }
}

// Writes a refusal's number or a reply's bytes behind a space, from a place on; the place behind it.
fn put_data(out: &mut [u8], at: usize, answer: Answer, reply: &[u8]) -> usize
    requires { (length reply.now ≡ 64) × (at + 129 ≤ length out.old) }
    ensures { PutFew 129 out.old at (data_of (answer_of answer) reply.now) result out.new }
{
    match answer {
        Answer::Refused(refusal) => put_number(out, at, refusal.number()),
        Answer::Reply(length) => put_reply(out, at, length, reply),
        _ => at,
    }
}

// A number in decimal behind a space.
fn put_number(out: &mut [u8], at: usize, n: u8) -> usize
    requires { at + 21 ≤ length out.old }
    ensures { PutFew 21 out.old at (0x20 ∷ decimal n) result out.new }
{
    out[at] = b' ';
    put_count(out, at + 1, n as u64)
}

// A number in decimal.
fn put_count(out: &mut [u8], at: usize, n: u64) -> usize
    requires { at + 20 ≤ length out.old }
    ensures { PutFew 20 out.old at (decimal n) result out.new }
{
    decimal::put_decimal(out, at, n)
}

// So many bytes of a reply in hexadecimal, behind a space.
fn put_reply(out: &mut [u8], at: usize, count: usize, reply: &[u8]) -> usize
    requires { (length reply.now ≡ 64) × (at + 129 ≤ length out.old) }
    ensures { PutFew 129 out.old at (0x20 ∷ hex_of (take count reply.now)) result out.new }
{
    out[at] = b' ';
    let n = count.min(reply.len());
    digits::put_hex(out, at + 1, &reply[..n]);
    at + 1 + n + n
}

fn put_text(out: &mut [u8], at: usize, text: &[u8]) -> usize
    requires { at + length text.now ≤ length out.old }
    ensures { Put out.old at text.now result out.new }
{
    digits::put_bytes(out, at, text);
    at + text.len()
}
