// The rule of the turn's words and slot, and the names of its steps.
ghost use Rattle.std.specs.Prelude.{◌≡◌, ℕ, List, length};
ghost use Rattle.turn_seat.specs.Rule.{outside, spent, IsKept, Drew, Called, Counted, Passed, Settled, with_parts_kept, with_parts_given, joined};

use atomic_table::{Join, Play, Split, TableRule};
use std::collections::LinkedList;
use std::marker::{Brand, PhantomData};
use std::snapshot::Snapshot;

/// What stands behind a turn. Clauses see it as a list of entries, which may only grow.
pub trait Stands {
    type Entry;

    ghost entries: { Self → List Self.Entry };

    /// How many entries the list has.
    fn count(&self) -> u64
        ensures { result ≡ length (entries self.now) };
}

// What a seat knows. It exists in proofs alone: no value of it is made.
pub struct SeatView<E> {
    pub parts: u32,
    pub seen: LinkedList<E>,
    pub told: LinkedList<E>,
    pub ticket: Option<u64>,
    pub called: bool,
}

// What a turn begins with.
pub struct Opening<S> {
    pub parts: u32,
    pub state: Snapshot<S>,
}

impl<S> Drop for Opening<S> {
    fn drop(self) {
        let Self { parts: _, state: _ } = self;
    }
}

pub struct OneAtATime;

impl<S: Stands> TableRule<Option<S>, SeatView<S::Entry>, Opening<S>> for OneAtATime {
    ghost use Rattle.turn_seat.specs.Rule.{IsKept, outside};

    ghost holds = { λ k. IsKept S.entries k.parts };

    ghost first = { λ k. outside k.parts (S.entries k.state.value) };
}

pub struct DrawTicket;

impl<S: Stands> Play<Option<S>, SeatView<S::Entry>> for DrawTicket {
    ghost then = { Drew S.entries };
}

pub struct LookAndTake;

impl<S: Stands> Play<Option<S>, SeatView<S::Entry>> for LookAndTake {
    ghost then = { Called S.entries };
}

pub struct CountItems;

impl<S: Stands> Play<Option<S>, SeatView<S::Entry>> for CountItems {
    ghost then = { Counted S.entries };
}

pub struct GiveAndPass;

impl<S: Stands> Play<Option<S>, SeatView<S::Entry>> for GiveAndPass {
    ghost then = { Passed S.entries };
}

pub struct Settle;

impl<S: Stands> Play<Option<S>, SeatView<S::Entry>> for Settle {
    ghost then = { Settled S.entries };
}

/// How many parts a new seat is given. Each call of `split` picks it.
pub trait Amount {
    ghost amount: { ℕ };
}

impl Amount for Brand {
    ghost amount = { 0 };
}

pub struct GiveParts<N> {
    amount: PhantomData<N>,
}

impl<E, N: Amount> Split<SeatView<E>> for GiveParts<N> {
    ghost left = { with_parts_kept N.amount };

    ghost right = { with_parts_given N.amount };
}

pub struct Both;

impl<E> Join<SeatView<E>> for Both {
    ghost both = { joined };

    ghost spent = { spent };
}
