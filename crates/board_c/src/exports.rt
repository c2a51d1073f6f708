// Start, byte, gap and step for C. The result is the number of the answer's kind; a refusal's number and a reply's length go to lent
// places. With refusals 1 and 9 to 13 the state's bytes are as they were.
ghost use Rattle.std.specs.Prelude.{[], ◌≡◌, length};
ghost use Rattle.calls.specs.Calls.{on_call, on_step, on_start};
ghost use Rattle.board.specs.BoardKind as kind;
ghost use Rattle.board.specs.BoardKind.{board_kind};
ghost use Rattle.board.specs.View.{state_of, answer_of, given_identity};
ghost use Rattle.board.specs.Values.{call_leaves, step_leaves};
ghost use Rattle.board_c.specs.State.{board_in, state_bytes, state_in};
ghost use Rattle.board_c.specs.Exports.{keeps_all, Leaves, Answers, start_in, Starts, unused_result, unused_in};
ghost use Rattle.board_c.specs.Inner.{Places, Saves, AnswerTold};

use crate::state;
use board::board as on_board;
use board::board::{Answer, Board, Done};
use wire::refusal::Refusal;

#[unsafe(no_mangle)]
pub extern "C" fn board_start(
    id: u8,
    serial: &[u8],
    model: &[u8],
    store: &mut [u8],
    state: &mut [u8],
) -> u8
    ensures { Starts (start_in (length state.old) (on_start board_kind (given_identity id serial.now model.now) store.old)) result state.old state.new store.old store.new }
{
    if state.len() != state::SIZE {
        return match on_board::start_answer(store, id, serial, model) {
            Ok(()) => Refusal::Unsound.number(),
            Err(refusal) => refusal.number(),
        };
    }
    match on_board::start(store, id, serial, model) {
        Ok(board) => {
            put_state(board, state);
            0
        }
        Err(refusal) => refusal.number(),
    }
}

#[unsafe(no_mangle)]
pub extern "C" fn board_byte(
    state: &mut [u8],
    store: &mut [u8],
    b: u8,
    reply: &mut [u8],
    size: &mut usize,
    refusal: &mut u8,
) -> u8
    ensures { Answers (call_leaves (kind.byte b) (board_in state.old)) (on_call board_kind (kind.byte b) (state_in state.old) store.old reply.old) result refusal.old refusal.new size.old size.new state.old state.new store.old store.new reply.new }
{
    let done = state::board_in(state).byte(store, b, reply);
    answered(done, state, size, refusal)
}

#[unsafe(no_mangle)]
pub extern "C" fn board_gap(state: &mut [u8], store: &[u8], refusal: &mut u8) -> u8
    ensures { Leaves (call_leaves kind.gap (board_in state.old)) (on_call board_kind kind.gap (state_in state.old) store.now []) result refusal.old refusal.new state.old state.new }
{
    let done = state::board_in(state).gap(store);
    let mut size: usize = 0;
    answered(done, state, &mut size, refusal)
}

#[unsafe(no_mangle)]
pub extern "C" fn board_step(
    state: &mut [u8],
    store: &mut [u8],
    reply: &mut [u8],
    size: &mut usize,
    refusal: &mut u8,
) -> u8
    ensures { Answers (step_leaves (board_in state.old)) (on_step board_kind (state_in state.old) store.old reply.old) result refusal.old refusal.new size.old size.new state.old state.new store.old store.new reply.new }
{
    let done = state::board_in(state).step(store, reply);
    answered(done, state, size, refusal)
}

// Fills a store with the bytes of an unused board.
#[tactic(auto, unfolding(crate::specs::Exports::unused_result, crate::specs::Exports::unused_in))]
#[unsafe(no_mangle)]
pub extern "C" fn board_unused(store: &mut [u8]) -> u8
    ensures { (result ≡ unused_result (length store.old)) × (store.new ≡ unused_in store.old) }
{
    if store.len() != 128 {
        return Refusal::NotAStore.number();
    }
    store.copy_from_slice(&layouts::unused());
    0
}

// The kind of an answer; a refusal's number and a reply's length in their places, and the next state, but where nothing changes.
fn answered(done: Done, state: &mut [u8], size: &mut usize, refusal: &mut u8) -> u8
    ensures { AnswerTold done result refusal.old refusal.new size.old size.new state.old state.new }
{
    save(done.answer, done.board, state);
    tell(done.answer, size, refusal);
    done.answer.kind()
}

// Refusals 1 and 9 to 13 change nothing at all.
fn keeps_all(answer: Answer) -> bool
    ensures { result ≡ keeps_all (answer_of answer) }
{
    let Answer::Refused(why) = answer else {
        return false;
    };
    let n = why.number();
    (n == 1) | (9 <= n)
}

// The next state, but where nothing changes. A buffer of another size holds no board, and every call on it is refused.
fn save(answer: Answer, board: Board, state: &mut [u8])
    ensures { Saves (answer_of answer) board state.old state.new }
{
    if keeps_all(answer) {
        return;
    }
    if state.len() != state::SIZE {
        return;
    }
    put_state(board, state)
}

// Writes a board's state, from which it can be read again.
fn put_state(board: Board, state: &mut [u8])
    requires { length state.old ≡ 111 }
    ensures { (state.new ≡ state_bytes board) × (state_in state.new ≡ state_of board) }
{
    state::put_board(board, state)
}

// A refusal's number and a reply's length go to their places where there is one.
fn tell(answer: Answer, size: &mut usize, refusal: &mut u8)
    ensures { Places (answer_of answer) refusal.old refusal.new size.old size.new }
{
    match answer {
        Answer::Refused(why) => *refusal = why.number(),
        Answer::Reply(n) => *size = n,
        _ => {}
    }
}
