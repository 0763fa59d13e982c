//! A turn: a lock with tickets over one value, whose list of entries only grows. A seat knows a beginning of that list.
//!
//! Sessions and readers share one state behind it. Each has a seat, which remembers the list that it saw last; at each
//! `enter` the state's list begins with it. So what a thread has once seen of the log stands there for good, whatever
//! other threads did meanwhile. The turn and its seats are this project's own. Its lock is the ticket lock of the
//! textbooks, but that a seat draws a ticket only where it is served at once, so that a thread which runs may go on
//! while others sleep; a seat that has waited long lines up behind the one whose turn it is.
//!
//! The state is moved in and out of the turn's slot at each turn: put a large one into a `Box`. No proof says that a
//! thread gets its turn, nor when, nor in which order.
#![tactic(auto)]

ghost use Rattle.std.specs.Prelude.{◌≡◌, ◌≢◌, ◌<◌, ◌+◌, ◌-◌, ◌^◌, [], ◌∷◌, Some, None, IfOk, IfErr, IfSome, IfNone, OnSome};
ghost use mathlib.Core.List.{IsPrefix};
ghost use Rattle.turn_seat.specs.Shown.{IsOf, first_seat, with_seen, with_seat};
ghost use Rattle.turn_seat.specs.Rule.{outside, waiting, TakesState};

mod rule;
mod waiting;

use atomic_table::{Refused, Table};
pub use rule::Stands;
use rule::{
    Amount, Both, CountItems, DrawTicket, GiveAndPass, GiveParts, LookAndTake, OneAtATime, Opening,
    SeatView, Settle,
};
use std::alloc::{AllocFailed, Global};
use std::marker::{Brand, Model};
use std::snapshot::Snapshot;
use std::sync::Wait;
use std::sync::atomic::AtomicU64;
use std::sync::atomic::Ordering::SeqCst;
use waiting::Patience;

type Token<S> = atomic_table::Seat<Option<S>, SeatView<<S as Stands>::Entry>>;

type TurnTable<S> = Table<
    Option<S>,
    SeatView<<S as Stands>::Entry>,
    Opening<S>,
    OneAtATime,
    Global,
>;

// The words of the table, and its slot.
const TICKET: usize = 0;

const SERVING: usize = 1;

const COUNT: usize = 2;

const STATE: usize = 0;

// The bell is set where a thread may sleep on it that has no ticket.
const DOWN: u64 = 0;

const SET: u64 = 1;

/// A value at which seats take turns. Threads share it by reference.
#[derive(Drop)]
pub struct Turn<S: Stands> {
    table: TurnTable<S>,
    bell: AtomicU64,
}

impl<S: Stands> Model for Turn<S> {
    ghost use Rattle.std.specs.Prelude.{◌≡◌};
    ghost use Rattle.turn_seat.specs.Shown.{TurnModel};

    ghost Value = { TurnModel };

    ghost view = { λ t. record { id = t.table.shared.table_id; parts = t.table.shared.key.parts } };

    ghost invariant = { λ t. (t.table.shared.table_id.words ≡ 3)
        × (t.table.shared.table_id.slots ≡ 1) };
}

/// The right of one thread to take turns. It has at least one of the parts that `begin` made, and has seen a list.
///
/// A seat that is dropped takes its parts with it, and then no seat has all parts again.
#[derive(Drop)]
pub struct Seat<S: Stands> {
    token: Token<S>,
    parts: u32,
}

impl<S: Stands> Model for Seat<S> {
    ghost use Rattle.std.specs.Prelude.{◌≡◌, ◌<◌, []};
    ghost use Rattle.turn_seat.specs.Shown.{SeatModel};
    ghost use Rattle.turn_seat.specs.Rule.{outside};

    ghost Value = { SeatModel S.Entry };

    ghost view = { λ s. record { turn = s.token.table_id; parts = s.parts; seen = s.token.me.0.seen } };

    ghost invariant = { λ s. (s.token.me ≡ (outside s.parts s.token.me.0.seen, [])) × (0 < s.parts) };
}

/// A seat whose turn it is. Its list is the state's at `enter`.
pub struct CalledSeat<S: Stands> {
    token: Token<S>,
    parts: u32,
    ticket: u64,
}

impl<S: Stands> Model for CalledSeat<S> {
    ghost use Rattle.std.specs.Prelude.{◌≡◌, ◌<◌, ◌+◌, ◌^◌, [], ◌∷◌, None};
    ghost use Rattle.turn_seat.specs.Shown.{SeatModel};
    ghost use Rattle.turn_seat.specs.Rule.{called};

    ghost Value = { SeatModel S.Entry };

    ghost view = { λ s. record { turn = s.token.table_id; parts = s.parts; seen = s.token.me.0.seen } };

    ghost invariant = { λ s. (s.token.me ≡ (called s.parts s.token.me.0.seen s.ticket, (0, None) ∷ []))
        × (0 < s.parts)
        × (s.ticket + 1 < 2 ^ 64) };
}

/// The value, while it is a seat's turn. It can't be dropped: `leave` alone takes it, so that the turn always passes.
pub struct Inside<S: Stands> {
    pub state: S,
    pub seat: CalledSeat<S>,
}

impl<S: Stands> Seat<S> {
    /// How many of the parts of `begin` the seat has, never 0.
    pub fn parts(&self) -> u32
        ensures parts { result ≡ self.now.parts }
        ensures some_part { result ≢ 0 }
    {
        self.parts
    }
}

// The state in the slots that a table refused.
fn state_of<S>(mut slots: Vec<Option<S>>, _state: &Snapshot<S>) -> S
    requires { slots.items ≡ Some _state.now.value ∷ [] }
    ensures { result ≡ _state.now.value }
{
    let slot = slots.pop();
    slots.destroy_empty();
    let Some(Some(state)) = slot else {
        unreachable!()
    };
    state
}

impl<S: Stands> Turn<S> {
    /// A turn at this value, and a seat with all parts, which has seen the state's whole list.
    /// `Err` hands the state back for want of memory.
    pub fn begin(alloc: Global, state: S, parts: u32) -> Result<(Turn<S>, Seat<S>), S>
        requires { parts ≢ 0 }
        ensures turn { IfOk result (λ r. r.0.parts ≡ parts) }
        ensures seat { IfOk result (λ r. r.1 ≡ first_seat r.0 (S.entries state)) }
        ensures err { IfErr result (λ s. s ≡ state) }
    {
        let about = Opening {
            parts,
            state: Snapshot::of(&state),
        };
        let count = state.count();
        let mut slots = Vec::new(alloc);
        if let Err(AllocFailed { value }) = slots.push(Some(state)) {
            slots.destroy_empty();
            let Some(state) = value else { unreachable!() };
            return Err(state);
        }
        match Table::new(alloc, &[0, 0, count], slots, &about) {
            Ok((table, token)) => Ok((
                Turn {
                    table,
                    bell: AtomicU64::new(DOWN),
                },
                Seat { token, parts },
            )),
            Err(Refused { slots }) => Err(state_of(slots, &about.state)),
        }
    }

    // Waits a little, or sleeps until the bell rings. A seat holds the ticket `served`, and the last of those in line
    // rings as it leaves: either it finds the bell set, or we find here that the turn has passed, or the bell is down
    // again before we sleep.
    fn pause<R: Wait>(&self, rt: &R, patience: &mut Patience, served: u64) {
        if patience.spend() {
            return;
        }
        self.bell.store(SET, SeqCst);
        if self.table.shared.peek(SERVING) == served {
            self.bell.park(rt, SET as u32);
        }
    }

    // Wakes the seat that lined up for the ticket, or else one thread that sleeps.
    fn wake(&self, serving: u64) {
        if self.table.shared.peek(TICKET) != serving {
            self.table.shared.wake_one(SERVING);
        } else if self.bell.load(SeqCst) == SET && self.bell.swap(DOWN, SeqCst) == SET {
            self.bell.wake_one();
        }
    }

    // Draws a ticket: the one that is served, as soon as nobody has it, or after a long wait the one behind it.
    // At the word's last value it never returns.
    fn draw<R: Wait>(&self, rt: &R, token: &mut Token<S>) -> u64
        requires of { token.old.table_id ≡ self.now.id }
        requires outside { token.old.me ≡ (outside token.old.me.0.parts token.old.me.0.seen, []) }
        requires parts { 0 < token.old.me.0.parts }
        ensures of { token.new.table_id ≡ token.old.table_id }
        ensures waiting { token.new.me ≡ (waiting token.old.me.0.parts token.old.me.0.seen result, []) }
        ensures small { result + 1 < 2 ^ 64 }
    {
        let mut patience = Patience::new();
        for _ in rt.forever() {
            let served = self.table.shared.peek(SERVING);
            let next = self.table.shared.peek(TICKET);
            let ahead = next.wrapping_sub(served);
            if next < u64::MAX && (ahead == 0 || (ahead == 1 && patience.is_over())) {
                let found = self
                    .table
                    .shared
                    .compare_exchange::<DrawTicket>(token, TICKET, next, next + 1);
                if found == next {
                    // Only one thread is woken at a time, so one that has slept has the next one woken.
                    if patience.has_slept() {
                        self.bell.store(SET, SeqCst);
                    }
                    return next;
                }
            }
            self.pause(rt, &mut patience, served);
        }
        unreachable!()
    }

    // Waits until the ticket is served, mostly for nobody, and takes the state.
    fn take<R: Wait>(&self, rt: &R, token: &mut Token<S>, ticket: u64)
        requires of { token.old.table_id ≡ self.now.id }
        requires waiting { token.old.me ≡ (waiting token.old.me.0.parts token.old.me.0.seen ticket, []) }
        requires parts { 0 < token.old.me.0.parts }
        ensures of { token.new.table_id ≡ token.old.table_id }
        ensures called { TakesState S.entries token.old.me token.new.me ticket }
    {
        let mut patience = Patience::new();
        for _ in rt.forever() {
            let served = self.table.shared.load::<LookAndTake>(token, SERVING);
            if served == ticket {
                return;
            }
            if !patience.spend() {
                self.table
                    .shared
                    .park(rt, SERVING, (served % (1 << 32)) as u32);
            }
        }
        unreachable!()
    }

    /// Waits for the seat's turn. The state's list begins with all that the seat had seen.
    pub fn enter<R: Wait>(&self, rt: &R, seat: Seat<S>) -> Inside<S>
        requires { IsOf self.now seat }
        ensures seat { result.seat ≡ with_seen seat (S.entries result.state) }
        ensures grown { IsPrefix seat.seen (S.entries result.state) }
    {
        let Seat { mut token, parts } = seat;
        let ticket = self.draw(rt, &mut token);
        self.take(rt, &mut token, ticket);
        let slot = self.table.shared.exchange(&mut token, STATE, None);
        let Some(state) = slot else { unreachable!() };
        let seat = CalledSeat {
            token,
            parts,
            ticket,
        };
        Inside { state, seat }
    }

    /// Ends the seat's turn. The state's list begins with the list at `enter`, and the seat has then seen it whole.
    pub fn leave(&self, inside: Inside<S>) -> Seat<S>
        requires of { IsOf self.now inside.seat }
        requires grown { IsPrefix inside.seat.seen (S.entries inside.state) }
        ensures { result ≡ with_seen inside.seat (S.entries inside.state) }
    {
        let Inside { state, seat } = inside;
        let CalledSeat {
            mut token,
            parts,
            ticket,
        } = seat;
        let count = state.count();
        let nothing = self.table.shared.exchange(&mut token, STATE, Some(state));
        let None = nothing else { unreachable!() };
        self.table
            .shared
            .store::<CountItems>(&mut token, COUNT, count);
        self.table
            .shared
            .store::<GiveAndPass>(&mut token, SERVING, ticket + 1);
        self.wake(ticket + 1);
        Seat { token, parts }
    }

    // A seat with the parts that the type names.
    fn cut<N: Amount>(&self, seat: &mut Seat<S>, parts: u32) -> Seat<S>
        requires of { IsOf self.now seat.old }
        requires parts { (parts ≢ 0) × (parts < seat.old.parts) × (parts ≡ N.amount) }
        ensures old { seat.new ≡ record seat.old { parts = seat.old.parts - parts } }
        ensures new { result ≡ record seat.old { parts = parts } }
    {
        let token = self
            .table
            .shared
            .split_seat::<GiveParts<N>>(&mut seat.token);
        seat.parts -= parts;
        Seat { token, parts }
    }

    /// A new seat with so many of the parts, which has seen what the old one had. The old one keeps the rest.
    /// `None` is want of memory, and changes nothing.
    pub fn split(&self, seat: &mut Seat<S>, parts: u32) -> Option<Seat<S>>
        requires of { IsOf self.now seat.old }
        requires parts { (parts ≢ 0) × (parts < seat.old.parts) }
        ensures none { IfNone result (seat.new ≡ seat.old) }
        ensures old { OnSome result (seat.new ≡ record seat.old { parts = seat.old.parts - parts }) }
        ensures new { IfSome result (λ new. new ≡ record seat.old { parts = parts }) }
    {
        Some(self.cut::<Brand>(seat, parts))
    }

    /// The seat gets the parts of the other, and has seen the longer of both lists, which both begin.
    pub fn join(&self, seat: &mut Seat<S>, other: Seat<S>)
        requires { IsOf self.now seat.old × IsOf self.now other }
        ensures seat { seat.new ≡ with_seat seat.old other }
        ensures mine { IsPrefix seat.old.seen seat.new.seen }
        ensures theirs { IsPrefix other.seen seat.new.seen }
    {
        let Seat { token, parts } = other;
        self.table.shared.join_seat::<Both>(&mut seat.token, token);
        self.table.shared.load::<Settle>(&mut seat.token, TICKET);
        seat.parts += parts;
    }

    /// The value, whose list begins with what the seat has seen.
    pub fn close(self, seat: Seat<S>) -> S
        requires of { IsOf self seat }
        requires all_parts { seat.parts ≡ self.parts }
        ensures { IsPrefix seat.seen (S.entries result) }
    {
        let Turn { table, bell: _ } = self;
        let Seat { token, parts: _ } = seat;
        let mut closed = table.close_with(token);
        let slot = closed.take(STATE);
        closed.free();
        let Some(state) = slot else { unreachable!() };
        state
    }
}
