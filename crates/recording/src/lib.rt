// A recording of a line, played to an empty receiver and counted: what is measured for speed.
#![tactic(auto)]

ghost use Rattle.std.specs.Prelude.{[], ◌≡◌, ◌<◌, take};
ghost use Rattle.receiver.specs.Receive.{accept, answers_to};
ghost use Rattle.recording.specs.Recording.{wholes, refusals};
ghost use Rattle.recording.specs.Inner.{Asking, Counts, asked_next};

use receiver::Reception;
use wire::packet;

// How many bytes are held and asked for, and the counts so far. The bytes lie beside it in an array that the receiver's core is lent.
#[derive(Clone, Copy)]
pub struct Tally {
    pub len: u8,
    pub asked: u8,
    pub packets: u64,
    pub refusals: u64,
}

// Whole packets in a recording, and refusals, by the receiver's core over a lent array.
#[unsafe(no_mangle)]
pub extern "C" fn recording_count(recording: &[u8], refused: &mut u64) -> u64
    ensures { (result ≡ wholes (answers_to [] recording.now)) × (refused.new ≡ refusals (answers_to [] recording.now)) }
{
    let mut held = [0u8; packet::MOST_PACKET];
    let mut tally = Tally {
        len: 0,
        asked: receiver::HEADER,
        packets: 0,
        refusals: 0,
    };
    for b in recording {
        tally = tallied(&mut held, tally, *b);
    }
    *refused = tally.refusals;
    tally.packets
}

// One byte more.
fn tallied(held: &mut [u8; packet::MOST_PACKET], tally: Tally, b: u8) -> Tally
    requires asking { Asking (take tally.len held.old) tally.asked }
    requires room { (tally.packets < 18446744073709551615) × (tally.refusals < 18446744073709551615) }
    ensures asking { Asking (take result.len held.new) result.asked }
    ensures counts { Counts (accept (take tally.len held.old) b) tally.packets tally.refusals (take result.len held.new) result.packets result.refusals }
{
    match receiver::advance(held, tally.len, tally.asked, b) {
        Reception::Waiting => {
            let len = tally.len + 1;
            Tally {
                len,
                asked: asked_next(held, len, tally.asked),
                ..tally
            }
        }
        Reception::Refused(_) => Tally {
            len: 0,
            asked: receiver::HEADER,
            refusals: tally.refusals + 1,
            ..tally
        },
        Reception::Whole(_) => Tally {
            len: 0,
            asked: receiver::HEADER,
            packets: tally.packets + 1,
            ..tally
        },
    }
}

// How many bytes are asked for where len are held: below what was asked for the same.
fn asked_next(held: &[u8; packet::MOST_PACKET], len: u8, asked: u8) -> u8
    ensures { result ≡ asked_next (take len held.now) len asked }
{
    if len < asked {
        return asked;
    }
    receiver::asked_for(held, len)
}
