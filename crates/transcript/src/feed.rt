// A byte given to a board, with the lines of its answers.
ghost use Rattle.std.specs.Prelude.{◌≡◌, ◌≤◌, length};
ghost use Rattle.board.specs.View.{state_of, answer_of, gave};
ghost use Rattle.transcript.specs.Transcript.{transcribed_from, fed, Told};
ghost use Rattle.transcript.specs.Inner.{Lined, erased_by, erased_from};

use crate::line;
use board::board::{Answer, Board, Done};

// The board after a byte, and how long the lines are.
#[derive(Clone, Copy)]
pub struct Given {
    pub board: Board,
    pub length: usize,
}

// Gives a board the byte that is the at-th, with 128 steps where an erase begins, and writes the lines of its answers at the start of a
// buffer. With a reply buffer of another length than 64, or less than 512 bytes for the lines, nothing is done.
pub fn feed(
    board: Board,
    store: &mut [u8],
    at: u64,
    b: u8,
    reply: &mut [u8],
    out: &mut [u8],
) -> Given
    ensures { Told (fed at b (state_of board) store.old reply.old (length out.old)) (state_of result.board) result.length store.new reply.new out.old out.new }
{
    if reply.len() != 64 {
        return Given { board, length: 0 };
    }
    if out.len() < 512 {
        return Given { board, length: 0 };
    }
    let done = board.byte(store, b, reply);
    tell(done, store, at, reply, out)
}

// Writes the line of what a call gave, and where an erase began all its steps are run and the line of the last one follows.
fn tell(done: Done, store: &mut [u8], at: u64, reply: &mut [u8], out: &mut [u8]) -> Given
    requires { (length reply.old ≡ 64) × (512 ≤ length out.old) }
    ensures { Told (transcribed_from at (gave done store.old reply.old)) (state_of result.board) result.length store.new reply.new out.old out.new }
{
    let Done { board, answer } = done;
    let n = put_answer(at, answer, reply, out);
    let Answer::Begun = answer else {
        return Given { board, length: n };
    };
    let erased = tell_erase(board, store, at, reply, &mut out[n..]);
    Given {
        length: n + erased.length,
        ..erased
    }
}

// Runs all steps of an erase and writes the line of the last one.
fn tell_erase(board: Board, store: &mut [u8], at: u64, reply: &mut [u8], out: &mut [u8]) -> Given
    requires { (length reply.old ≡ 64) × (192 ≤ length out.old) }
    ensures { Told (erased_from at (state_of board) store.old reply.old) (state_of result.board) result.length store.new reply.new out.old out.new × (result.length ≤ 159) }
{
    let last = run_erase(board, store, reply);
    let length = put_answer(at, last.answer, reply, out);
    Given {
        board: last.board,
        length,
    }
}

// Writes the line of an answer, which has at most 159 bytes, at the start of a buffer; its length.
fn put_answer(at: u64, answer: Answer, reply: &[u8], out: &mut [u8]) -> usize
    requires { (length reply.now ≡ 64) × (192 ≤ length out.old) }
    ensures { Lined at (answer_of answer) reply.now result out.old out.new × (result ≤ 159) }
{
    line::put_line(at, answer, reply, out)
}

// 128 erase steps; what the last one gave.
fn run_erase(board: Board, store: &mut [u8], reply: &mut [u8]) -> Done
    ensures { gave result store.new reply.new ≡ erased_by (state_of board) store.old reply.old }
{
    let mut done = Done {
        board,
        answer: Answer::Begun,
    };
    for _ in 0u8..128 {
        done = done.board.step(store, reply);
    }
    done
}
