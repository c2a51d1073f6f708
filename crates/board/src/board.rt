// The board's calls. Each gets the board by value and hands back the next one with its answer; the store and the reply buffer are lent. What a call
// stores is planned first, on the store as it is, and then committed.
ghost use Rattle.std.specs.Prelude.{false, [], ◌∷◌, ◌≡◌, ◌+◌, ◌≤◌, length, get_or, take};
ghost use Rattle.wire.specs.Packet.{most_id, least_buffer};
ghost use Rattle.plan.specs.Stores.{entry, applied};
ghost use Rattle.plan.specs.Plans.{stores_of};
ghost use Rattle.plan.specs.Inner.{Committable};
ghost use Rattle.receiver.specs.View.{held_of};
ghost use Rattle.receiver.specs.Inner.{asked};
ghost use Rattle.layouts.specs.Layouts.{layout_mark, unused_store};
ghost use Rattle.calls.specs.Board.{is_pending, place_of, owed_of};
ghost use Rattle.calls.specs.Calls.{entry_check_of, on_call, erase_step, on_step, on_start};
ghost use Rattle.calls.specs.View.{entry_check_as};
ghost use Rattle.actions.specs.View.{identity_of};
ghost use Rattle.actions.specs.Inner.{ItemsFit};
ghost use Rattle.packets.specs.Packets.{on_packet};
ghost use Rattle.packets.specs.Inner.{answer_after};
ghost use Rattle.board.specs.BoardKind as kind;
ghost use Rattle.board.specs.BoardKind.{board_kind};
ghost use Rattle.board.specs.View.{erase_of, state_of, answer_of, answer_kind, Gives, Plans, start_refusal_in, start_refusal_of, given_identity};
ghost use Rattle.board.specs.Values.{fresh_board, no_board, Starts, with_receiver, with_erase, call_leaves, step_leaves};
ghost use Rattle.board.specs.Inner.{start_state_as, start_state, Sized, Accepting, Acting, Erasing, Planning, packet_leaves};

use crate::sound;
use actions::Identity;
use messages::message::{Parameter, Reply, Status};
use packets::Acted;
use plan::Plan;
use receiver::{Receiver, Reception};
use wire::digits::Octets;
use wire::packet;
use wire::refusal::Refusal;

// No erase pending; or one, with its next place and whether its last step owes the reply.
#[derive(Clone, Copy)]
pub enum Erase {
    Idle,
    Pending { place: u8, owed: bool },
}

impl Erase {
    // Whether one is pending.
    pub fn is_pending(self) -> bool
        ensures { result ≡ is_pending (erase_of self) }
    {
        matches!(self, Erase::Pending { .. })
    }

    // Its next place; 0 where none is pending, as in the definition and in C's state.
    pub fn place(self) -> u8
        ensures { result ≡ place_of (erase_of self) }
    {
        match self {
            Erase::Idle => 0,
            Erase::Pending { place, .. } => place,
        }
    }

    // Whether its last step owes the reply.
    pub fn owed(self) -> bool
        ensures { result ≡ owed_of false (erase_of self) }
    {
        match self {
            Erase::Idle => false,
            Erase::Pending { owed, .. } => owed,
        }
    }
}

#[derive(Clone, Copy)]
pub struct Board {
    pub identity: Identity,
    pub receiver: Receiver,
    pub erase: Erase,
}

#[derive(Clone, Copy)]
pub enum Answer {
    Waiting,
    Silent,
    Begun,
    More,
    Ended,
    Refused(Refusal),
    Reply(usize),
}

impl Answer {
    // The number of its kind, which C is told.
    pub fn kind(self) -> u8
        ensures { result ≡ answer_kind (answer_of self) }
    {
        match self {
            Answer::Waiting => 0,
            Answer::Silent => 1,
            Answer::Begun => 2,
            Answer::More => 3,
            Answer::Ended => 4,
            Answer::Refused(_) => 5,
            Answer::Reply(_) => 6,
        }
    }
}

// The next board, with the answer.
#[derive(Clone, Copy)]
pub struct Done {
    pub board: Board,
    pub answer: Answer,
}

// The same before anything is stored, with the plan of what is.
#[derive(Clone, Copy)]
pub struct Planned {
    pub board: Board,
    pub answer: Answer,
    pub plan: Plan,
}

// What a start on a store answers. Nothing is stored.
pub fn start_answer(store: &[u8], id: u8, serial: &[u8], model: &[u8]) -> Result<(), Refusal>
    ensures { start_refusal_of result ≡ start_refusal_in (on_start board_kind (given_identity id serial.now model.now) store.now) }
{
    start_state(store, sound::is_identity(id, serial.len(), model.len()))?;
    Ok(())
}

// Starts a board on a store. One of an older layout is converted. A refused start gives no board. ID, serial number and model come side by side, as from C.
pub fn start(store: &mut [u8], id: u8, serial: &[u8], model: &[u8]) -> Result<Board, Refusal>
    ensures { Starts result store.old store.new (on_start board_kind (given_identity id serial.now model.now) store.old) }
{
    let erase = start_state(store, sound::is_identity(id, serial.len(), model.len()))?;
    let plan = layouts::converted(store);
    plan::commit(plan, store);
    Ok(fresh(id, serial, model, erase))
}

// A start on a store, where the identity is in range or not: the refusal, or the erase that the board begins with.
#[tactic(auto, unfolding(calls::specs::Calls::mark, layouts::specs::Inner::due_in))]
fn start_state(store: &[u8], named: bool) -> Result<Erase, Refusal>
    ensures { start_state_as result ≡ start_state store.now named }
{
    if store.len() != 128 {
        return Err(Refusal::NotAStore);
    }
    let mark = store[0];
    if mark == calls::ERASE_MARK {
        if !named {
            return Err(Refusal::Unsound);
        }
        return Ok(Erase::Pending {
            place: 1,
            owed: false,
        });
    }
    if !layouts::is_layout(mark) {
        return Err(Refusal::NotAStore);
    }
    if !named {
        return Err(Refusal::Unsound);
    }
    if layouts::due(store).is_none() {
        return Err(Refusal::Unsound);
    }
    Ok(Erase::Idle)
}

// No board: a value that every call refuses.
pub fn no_board() -> Board
    ensures { result ≡ no_board }
{
    fresh(0, &[], &[], Erase::Idle)
}

// A board with nothing held, and nothing of a past.
fn fresh(id: u8, serial: &[u8], model: &[u8], erase: Erase) -> Board
    requires { (length serial.now ≤ 16) × (length model.now ≤ 16) }
    ensures { result ≡ fresh_board (given_identity id serial.now model.now) erase }
{
    Board {
        identity: Identity {
            id,
            serial: Octets::of(serial),
            model: Octets::of(model),
        },
        receiver: Receiver::empty(),
        erase,
    }
}

impl Planned {
    // The plan is stored.
    fn commit(self, store: &mut [u8]) -> Done
        requires { Committable (length store.old) (stores_of self.plan) }
        ensures { (result ≡ record { board = self.board; answer = self.answer }) × (store.new ≡ applied (stores_of self.plan) store.old) }
    {
        plan::commit(self.plan, store);
        Done {
            board: self.board,
            answer: self.answer,
        }
    }
}

impl Board {
    // One byte.
    pub fn byte(self, store: &mut [u8], b: u8, reply: &mut [u8]) -> Done
        ensures { Gives result store.old store.new reply.new (call_leaves (kind.byte b) self) (on_call board_kind (kind.byte b) (state_of self) store.old reply.old) }
    {
        self.plan_byte(store, b, reply).commit(store)
    }

    // A gap.
    pub fn gap(self, store: &[u8]) -> Done
        ensures { Gives result store.now store.now [] (call_leaves kind.gap self) (on_call board_kind kind.gap (state_of self) store.now []) }
    {
        match self.entry_check(self.receiver.asked(), store, false) {
            Ok(false) => Done {
                board: self.with_receiver(self.receiver.gap().receiver),
                answer: Answer::Waiting,
            },
            Ok(true) => Done {
                board: self,
                answer: Answer::Refused(Refusal::ErasePending),
            },
            Err(refusal) => Done {
                board: self,
                answer: Answer::Refused(refusal),
            },
        }
    }

    // One erase step.
    pub fn step(self, store: &mut [u8], reply: &mut [u8]) -> Done
        ensures { Gives result store.old store.new reply.new (step_leaves self) (on_step board_kind (state_of self) store.old reply.old) }
    {
        self.plan_step(store, reply).commit(store)
    }

    // What a byte comes to, and the plan of what it stores. A reply is written.
    pub fn plan_byte(self, store: &[u8], b: u8, reply: &mut [u8]) -> Planned
        ensures { Plans result reply.new (call_leaves (kind.byte b) self) (on_call board_kind (kind.byte b) (state_of self) store.now reply.old) }
    {
        let wanted = self.receiver.asked();
        match self.entry_check(wanted, store, reply.len() < packet::LEAST_BUFFER) {
            Ok(false) => self.accepts(wanted, store, b, reply),
            Ok(true) => self.refuses(Refusal::ErasePending),
            Err(refusal) => self.refuses(refusal),
        }
    }

    // The same of an erase step.
    pub fn plan_step(self, store: &[u8], reply: &mut [u8]) -> Planned
        ensures { Plans result reply.new (step_leaves self) (on_step board_kind (state_of self) store.now reply.old) }
    {
        let short = reply.len() < packet::LEAST_BUFFER;
        match self.entry_check(self.receiver.asked(), store, short) {
            Ok(true) => self.erases(reply),
            Ok(false) => self.refuses(Refusal::NoErasePending),
            Err(refusal) => self.refuses(refusal),
        }
    }

    // The entry check, where the held bytes ask for so many and a lent buffer is short or not.
    fn entry_check(self, wanted: u8, store: &[u8], short: bool) -> Result<bool, Refusal>
        requires { wanted ≡ asked (held_of self.receiver) }
        ensures { entry_check_as result ≡ entry_check_of board_kind short (state_of self) store.now }
    {
        let sound = sound::is_sound(&self.identity, self.receiver.len, wanted, self.erase, store);
        calls::entry_check(short, sound, self.erase.is_pending())
    }

    // A refusal that changes nothing.
    fn refuses(self, refusal: Refusal) -> Planned
        ensures { Planning result self (Answer.Refused refusal) [] }
    {
        self.answers(Answer::Refused(refusal))
    }

    // An answer, and nothing to store.
    fn answers(self, answer: Answer) -> Planned
        ensures { Planning result self answer [] }
    {
        Planned {
            board: self,
            answer,
            plan: Plan::empty(),
        }
    }

    fn with_receiver(self, receiver: Receiver) -> Board
        ensures { result ≡ with_receiver self receiver }
    {
        Board { receiver, ..self }
    }

    fn with_erase(self, erase: Erase) -> Board
        ensures { result ≡ with_erase self erase }
    {
        Board { erase, ..self }
    }

    // The board made anew, with an erase: what a start gives with its identity.
    fn anew(self, erase: Erase) -> Board
        requires { Sized self × ItemsFit self.identity }
        ensures { result ≡ fresh_board (state_of self).ident erase }
    {
        let Identity { id, serial, model } = self.identity;
        let m = serial.count as usize;
        let n = model.count as usize;
        fresh(id, &serial.bytes[..m], &model.bytes[..n], erase)
    }

    // One byte at a sound board with no erase pending, whose held bytes ask for so many.
    fn accepts(self, wanted: u8, store: &[u8], b: u8, reply: &mut [u8]) -> Planned
        requires { Accepting self wanted store.now reply.old }
        ensures { Plans result reply.new (call_leaves (kind.byte b) self) (kind.does (kind.byte b) (state_of self) store.now reply.old) }
    {
        let received = self.receiver.accept(wanted, b);
        let board = self.with_receiver(received.receiver);
        match received.answer {
            Reception::Waiting => board.answers(Answer::Waiting),
            Reception::Refused(refusal) => board.answers(Answer::Refused(refusal)),
            Reception::Whole(n) => board.acts(n as usize, store, reply),
        }
    }

    // A good packet: the first n bytes of the array. Where it begins an erase the board is made anew.
    fn acts(self, n: usize, store: &[u8], reply: &mut [u8]) -> Planned
        requires { Acting self n store.now reply.old }
        ensures { Plans result reply.new (packet_leaves self) (on_packet (state_of self).ident store.now (take n self.receiver.held) reply.old) }
    {
        let planned = packets::on_packet(self.identity, &self.receiver.held, n, store, reply);
        let board = match planned.acted {
            Acted::Begun(owed) => self.anew(Erase::Pending { place: 1, owed }),
            _ => self,
        };
        Planned {
            board,
            answer: answer_after(planned.acted),
            plan: planned.plan,
        }
    }

    // One step of a pending erase.
    fn erases(self, reply: &mut [u8]) -> Planned
        requires { Erasing self reply.old }
        ensures { Plans result reply.new (step_leaves self) (erase_step board_kind (place_of (erase_of self.erase)) (owed_of false (erase_of self.erase)) (state_of self) reply.old) }
    {
        let place = self.erase.place();
        let owed = self.erase.owed();
        if place <= 127 {
            return self.clears(place, owed);
        }
        self.ends(owed, reply)
    }

    // A step that stores the unused value at its place.
    fn clears(self, place: u8, owed: bool) -> Planned
        requires { place ≤ 127 }
        ensures { Planning result (with_erase self (Erase.Pending (place + 1) owed)) Answer.More (entry place (get_or unused_store place 0) ∷ []) }
    {
        let unused = layouts::unused();
        let next = Erase::Pending {
            place: place + 1,
            owed,
        };
        Planned {
            board: self.with_erase(next),
            answer: Answer::More,
            plan: Plan::one(place, unused[place as usize]),
        }
    }

    // The last step: the unused mark, and its answer.
    fn ends(self, owed: bool, reply: &mut [u8]) -> Planned
        requires { (self.identity.id ≤ most_id) × (least_buffer ≤ length reply.old) }
        ensures board_value { (result.board ≡ with_erase self Erase.Idle) × (stores_of result.plan ≡ entry 0 layout_mark ∷ []) }
        ensures answer_value { (answer_of result.answer ≡ kind.last_answer (state_of self).ident owed) × (reply.new ≡ kind.last_buffer (state_of self).ident owed reply.old) }
    {
        Planned {
            board: self.with_erase(Erase::Idle),
            answer: last_answer(self.identity, owed, reply),
            plan: Plan::one(0, layouts::LAYOUT_MARK),
        }
    }
}

// What a packet answers.
fn answer_after(acted: Acted) -> Answer
    ensures { answer_of result ≡ answer_after acted }
{
    match acted {
        Acted::Refused => Answer::Refused(Refusal::Destination),
        Acted::Silent => Answer::Silent,
        Acted::Begun(_) => Answer::Begun,
        Acted::Reply(length) => Answer::Reply(length),
    }
}

// What the last step of an erase answers: the Set reply, written into the buffer, where it is owed.
#[tactic(auto, unfolding(crate::specs::BoardKind::erase_reply))]
fn last_answer(identity: Identity, owed: bool, reply: &mut [u8]) -> Answer
    requires { (identity.id ≤ most_id) × (least_buffer ≤ length reply.old) }
    ensures { (answer_of result ≡ kind.last_answer (identity_of identity) owed) × (reply.new ≡ kind.last_buffer (identity_of identity) owed reply.old) }
{
    if !owed {
        return Answer::Ended;
    }
    let parameter = Parameter {
        page: actions::ERASE_PAGE,
        code: actions::ERASE_CODE,
        operation: 1,
        largest: 1,
        value: 1,
    };
    let erased = Reply::Set(Status::Acknowledged, parameter);
    Answer::Reply(packets::send(identity.id, erased, reply))
}
