//! A claim counter: workers draw the numbers below a count, each once, in any order of threads.
//!
//! The workers of a parallel check draw the extents of a file from it. The counter and its seats are this project's
//! own. A seat is the right to draw, and proofs know what it drew: once every seat is joined, `close` tells that each
//! number below its answer was drawn once.
#![tactic(auto)]

ghost use Rattle.std.specs.Prelude.{◌≡◌, ◌≢◌, ◌≤◌, ◌<◌, ◌-◌, [], true, false, IfOk, IfSome, IfNone, OnSome};
ghost use Rattle.ck_claim.specs.Shown.{IsOf, first_seat, with_draw, with_all_known, with_seat, IsEachBelow};

mod rule;

use atomic_table::{Seat, Table};
use rule::{Both, Bounds, Draw, EachOnce, Look, OnePart, SeatView};
use std::alloc::Global;
use std::marker::Model;

/// Memory ran out.
#[derive(Debug, Clone, Copy, PartialEq, Eq)]
pub struct NoMemory;

/// The numbers below a count, each of which is drawn once. Threads share it by reference.
#[derive(Drop)]
pub struct Claims {
    table: Table<(), SeatView, Bounds, EachOnce, Global>,
    count: u32,
}

impl Model for Claims {
    ghost use Rattle.std.specs.Prelude.{◌≡◌};
    ghost use Rattle.ck_claim.specs.Shown.{ClaimsModel};

    ghost Value = { ClaimsModel };

    ghost view = { λ c. record { id = c.table.shared.table_id; count = c.count; parts = c.table.shared.key.parts } };

    ghost invariant = { λ c. (c.count ≡ c.table.shared.key.count)
        × (c.table.shared.table_id.words ≡ 1)
        × (c.table.shared.table_id.slots ≡ 0) };
}

/// The right of one thread to draw. It has at least one of the parts that `begin` made, and remembers what it drew.
///
/// A seat that is dropped takes its parts with it, and then no seat has all parts again.
#[derive(Drop)]
pub struct ClaimSeat {
    seat: Seat<(), SeatView>,
    count: u32,
    parts: u32,
    knows_all: bool,
}

impl Model for ClaimSeat {
    ghost use Rattle.std.specs.Prelude.{◌≡◌, ◌<◌, []};
    ghost use Rattle.ck_claim.specs.Shown.{ClaimSeatModel};
    ghost use Rattle.ck_claim.specs.Rule.{seat_view};

    ghost Value = { ClaimSeatModel };

    ghost view = { λ s. record {
      claims = s.seat.table_id;
      count = s.count;
      parts = s.parts;
      draws = s.seat.me.0.draws;
      knows_all = s.knows_all;
    } };

    ghost invariant = { λ s. (s.seat.me ≡ (seat_view s.count s.parts s.seat.me.0.draws s.knows_all, []))
        × (0 < s.parts) };
}

impl ClaimSeat {
    /// How many of the parts of `begin` the seat has, never 0.
    pub fn parts(&self) -> u32
        ensures parts { result ≡ self.now.parts }
        ensures some_part { result ≢ 0 }
    {
        self.parts
    }
}

impl Claims {
    /// A counter from which nothing is drawn, and a seat with all its parts.
    pub fn begin(alloc: Global, count: u32, parts: u32) -> Result<(Claims, ClaimSeat), NoMemory>
        requires { parts ≢ 0 }
        ensures claims { IfOk result (λ r. (r.0.count ≡ count) × (r.0.parts ≡ parts)) }
        ensures seat { IfOk result (λ r. r.1 ≡ first_seat r.0) }
    {
        let Ok((table, seat)) = Table::of_words(alloc, &[0], &Bounds { count, parts }) else {
            return Err(NoMemory);
        };
        let claims = Claims { table, count };
        let seat = ClaimSeat {
            seat,
            count,
            parts,
            knows_all: false,
        };
        Ok((claims, seat))
    }

    /// The next number, which no seat has drawn, or `None` exactly where all numbers below the count are drawn.
    /// It neither waits nor wants memory.
    pub fn draw(&self, seat: &mut ClaimSeat) -> Option<u32>
        requires { IsOf self.now seat.old }
        ensures none { IfNone result (seat.new ≡ with_all_known seat.old) }
        ensures drawn { IfSome result (λ n. seat.new ≡ with_draw seat.old n) }
        ensures below { IfSome result (λ n. n < self.now.count) }
        ensures some { OnSome result (seat.old.knows_all ≡ false) }
    {
        if seat.knows_all {
            return None;
        }
        let found = self.table.shared.fetch_add::<Draw>(&mut seat.seat, 0, 1);
        if found < u64::from(seat.count) {
            Some(found as u32)
        } else {
            seat.knows_all = true;
            None
        }
    }

    /// A new seat with one of the parts, which has drawn nothing. It knows that all are drawn where the old one does.
    /// `None` is want of memory, and changes nothing.
    pub fn split(&self, seat: &mut ClaimSeat) -> Option<ClaimSeat>
        requires of { IsOf self.now seat.old }
        requires parts { 1 < seat.old.parts }
        ensures none { IfNone result (seat.new ≡ seat.old) }
        ensures old { OnSome result (seat.new ≡ record seat.old { parts = seat.old.parts - 1 }) }
        ensures new { IfSome result (λ new. new ≡ record seat.old { parts = 1; draws = [] }) }
    {
        let other = self.table.shared.split_seat::<OnePart>(&mut seat.seat);
        seat.parts -= 1;
        Some(ClaimSeat {
            seat: other,
            count: seat.count,
            parts: 1,
            knows_all: seat.knows_all,
        })
    }

    /// The seat gets the parts and the draws of the other, and knows that all are drawn where one of them did.
    pub fn join(&self, seat: &mut ClaimSeat, other: ClaimSeat)
        requires { IsOf self.now seat.old × IsOf self.now other }
        ensures { seat.new ≡ with_seat seat.old other }
    {
        let ClaimSeat {
            seat: given,
            count: _,
            parts,
            knows_all,
        } = other;
        self.table.shared.join_seat::<Both>(&mut seat.seat, given);
        self.table.shared.load::<Look>(&mut seat.seat, 0);
        seat.parts += parts;
        seat.knows_all = seat.knows_all || knows_all;
    }

    /// How many numbers were drawn: those below the answer, each by one draw. A seat that knows that all are drawn
    /// learns that the answer is the count.
    pub fn close(self, seat: ClaimSeat) -> u32
        requires of { IsOf self seat }
        requires all_parts { seat.parts ≡ self.parts }
        ensures drawn { IsEachBelow result seat.draws }
        ensures within { result ≤ self.count }
        ensures all { seat.knows_all ≡ true → result ≡ self.count }
    {
        let Claims { table, count } = self;
        let closed = table.close_with(seat.seat);
        let found = closed.word(0);
        closed.free();
        found.min(u64::from(count)) as u32
    }
}
