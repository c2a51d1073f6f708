// Lists of calls and power cuts, played on a board by its real calls, with all that is seen of them.
#![tactic(auto)]

ghost use Rattle.std.specs.Prelude.{◌∷◌, ◌≡◌, ◌+◌, ◌≤◌, ltb, length};
ghost use Rattle.wire.specs.Packet.{over};
ghost use Rattle.board.specs.View.{state_of, answer_of, given_identity};
ghost use Rattle.board.specs.BoardKind.{board_kind};
ghost use Rattle.calls.specs.Lists.{run};
ghost use Rattle.play.specs.Play.{events_in, number_in, Plays};
ghost use Rattle.play.specs.Erase.{ErasePlayed};
ghost use Rattle.play.specs.Inner.{event_as, board_after, Turns, Restarts, Enters, LeavesRoom, PlaysFirst, PlaysRest};

pub mod event;

use crate::event::EventKind;
use board::board::{Answer, Board, Done};
use wire::refusal::Refusal;

// What is seen of an event: the answer of a call, with the board after it; or of a power cut that its start gave a board, or was refused.
#[derive(Clone, Copy)]
pub enum Turn {
    Answered(Done),
    Started(Board),
    Unstarted(Refusal),
}

impl Turn {
    // The board after it.
    fn board(self) -> Option<Board>
        ensures { result ≡ board_after self }
    {
        match self {
            Turn::Answered(done) => Some(done.board),
            Turn::Started(board) => Some(board),
            Turn::Unstarted(_) => None,
        }
    }
}

// The first number of a log's entry for a start, and for a refused one. An answer has the number of its kind.
pub const STARTED: usize = 7;

pub const UNSTARTED: usize = 8;

// The board after the first event, where there is one, and how many bytes of what is lent the event had.
#[derive(Clone, Copy)]
pub struct First {
    pub board: Board,
    pub part: usize,
}

// Plays events on a board and a store. Two numbers are an event: a byte, 256 for a gap, 257 for a step or another for a power cut with its
// start; and the length of its lent buffer, which is the next part of what is lent. The parts are left as the calls leave them. For each
// event its answer and the store after it are written, as long as there is room; after a refused start nothing more is played.
#[cycle(play_play_rest)]
pub fn play(
    board: Board,
    id: u8,
    serial: &[u8],
    model: &[u8],
    store: &mut [u8],
    events: &[u16],
    lent: &mut [u8],
    log: &mut [usize],
)
    ensures { Plays (run board_kind (given_identity id serial.now model.now) (state_of board) store.old (events_in (length store.old) (length log.old) events.now lent.old)) store.old store.new lent.old lent.new log.old log.new }
{
    if let Some(first) = play_first(board, id, serial, model, store, events, lent, log) {
        play_rest(first, id, serial, model, store, events, lent, log);
    }
}

// Gives a board a byte, and where it begins an erase plays events after it; whether it did. With the board's own identity, what is left is what demand 3
// expects of the events.
pub fn play_erase(
    board: Board,
    b: u8,
    id: u8,
    serial: &[u8],
    model: &[u8],
    store: &mut [u8],
    reply: &mut [u8],
    events: &[u16],
    lent: &mut [u8],
    log: &mut [usize],
) -> bool
    ensures { ErasePlayed result (given_identity id serial.now model.now) b (state_of board) store.old store.new reply.old reply.new events.now lent.old lent.new log.old log.new }
{
    let done = board.byte(store, b, reply);
    let Answer::Begun = done.answer else {
        return false;
    };
    play(done.board, id, serial, model, store, events, lent, log);
    true
}

// Plays the first event, where there is one, and room for its entry; the board for the events after it, where they may come.
fn play_first(
    board: Board,
    id: u8,
    serial: &[u8],
    model: &[u8],
    store: &mut [u8],
    events: &[u16],
    lent: &mut [u8],
    log: &mut [usize],
) -> Option<First>
    ensures { PlaysFirst result (given_identity id serial.now model.now) (state_of board) events.now store.old store.new lent.old lent.new log.old log.new }
{
    if events.len() < 2 {
        return None;
    }
    if is_full(log.len(), store.len()) {
        return None;
    }
    play_event(board, id, serial, model, store, events, lent, log)
}

// Plays the first event and writes its entry; the board for the events after it, which a refused start does not leave.
fn play_event(
    board: Board,
    id: u8,
    serial: &[u8],
    model: &[u8],
    store: &mut [u8],
    events: &[u16],
    lent: &mut [u8],
    log: &mut [usize],
) -> Option<First>
    requires { (2 ≤ length events.now) × (length store.old + 2 ≤ length log.old) }
    ensures { PlaysFirst result (given_identity id serial.now model.now) (state_of board) events.now store.old store.new lent.old lent.new log.old log.new }
{
    let kind = EventKind::from(events[0]);
    let part = kind.part(events[1], lent.len());
    let turn = turn_of(board, id, serial, model, store, kind, &mut lent[..part]);
    enter(turn, store, log);
    match turn.board() {
        Some(board) => Some(First { board, part }),
        None => None,
    }
}

// Plays the events after the first, on what is left of what is lent and of the log.
#[cycle(play_play_rest)]
fn play_rest(
    first: First,
    id: u8,
    serial: &[u8],
    model: &[u8],
    store: &mut [u8],
    events: &[u16],
    lent: &mut [u8],
    log: &mut [usize],
)
    requires { LeavesRoom first events.now store.old lent.old log.old }
    ensures { PlaysRest first (given_identity id serial.now model.now) events.now store.old store.new lent.old lent.new log.old log.new }
{
    let used = store.len() + 2;
    play(
        first.board,
        id,
        serial,
        model,
        store,
        &events[2..],
        &mut lent[first.part..],
        &mut log[used..],
    )
}

// Whether a log has no room for an event: two numbers and the store.
fn is_full(log: usize, store: usize) -> bool
    ensures { result ≡ ltb log (store + 2) }
{
    if log < 2 {
        return true;
    }
    log - 2 < store
}

// One event. A refused start leaves the store as it was.
fn turn_of(
    board: Board,
    id: u8,
    serial: &[u8],
    model: &[u8],
    store: &mut [u8],
    kind: EventKind,
    lent: &mut [u8],
) -> Turn
    ensures { Turns result (given_identity id serial.now model.now) (state_of board) (event_as kind lent.old) store.old store.new lent.new }
{
    match kind {
        EventKind::Byte(b) => Turn::Answered(board.byte(store, b, lent)),
        EventKind::Gap => Turn::Answered(board.gap(store)),
        EventKind::Step => Turn::Answered(board.step(store, lent)),
        EventKind::Cut => start_again(store, id, serial, model),
    }
}

// A power cut's start, on the store as it is.
fn start_again(store: &mut [u8], id: u8, serial: &[u8], model: &[u8]) -> Turn
    ensures { Restarts result (given_identity id serial.now model.now) store.old store.new }
{
    match board::board::start(store, id, serial, model) {
        Ok(board) => Turn::Started(board),
        Err(refusal) => Turn::Unstarted(refusal),
    }
}

// Writes what is seen of an event at the start of the log.
fn enter(turn: Turn, store: &[u8], log: &mut [usize])
    requires { length store.now + 2 ≤ length log.old }
    ensures { Enters turn store.now log.old log.new }
{
    match turn {
        Turn::Answered(done) => {
            let kind = usize::from(done.answer.kind());
            put_entry(kind, number_in(done.answer), store, log);
        }
        Turn::Started(_) => put_entry(STARTED, 0, store, log),
        Turn::Unstarted(refusal) => {
            log[0] = UNSTARTED;
            log[1] = refusal.number() as usize;
        }
    }
}

// Two numbers and the bytes of a store.
fn put_entry(kind: usize, number: usize, store: &[u8], log: &mut [usize])
    requires { length store.now + 2 ≤ length log.old }
    ensures { log.new ≡ over (kind ∷ number ∷ store.now) log.old }
{
    log[0] = kind;
    log[1] = number;
    for (i, b) in store.iter().enumerate() {
        log[i + 2] = *b as usize;
    }
}

// A refusal's number or a reply's length; 0 for another answer.
fn number_in(answer: Answer) -> usize
    ensures { result ≡ number_in (answer_of answer) }
{
    match answer {
        Answer::Refused(refusal) => usize::from(refusal.number()),
        Answer::Reply(n) => n,
        _ => 0,
    }
}
