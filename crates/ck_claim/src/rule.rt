// The rule of the counter's word, and the names of its steps.
ghost use Rattle.std.specs.Prelude.{[], false};
ghost use Rattle.ck_claim.specs.Rule.{seat_view, spent, IsKept, Drew, with_one_less, with_one_part, joined, Looked};

use atomic_table::{Join, Play, Split, TableRule};
use std::collections::LinkedList;

// What a seat knows. It exists in proofs alone: no value of it is made.
pub struct SeatView {
    pub count: u32,
    pub parts: u32,
    pub draws: LinkedList<u32>,
    pub knows_all: bool,
}

// How many numbers there are, and how many parts.
#[derive(Clone, Copy)]
pub struct Bounds {
    pub count: u32,
    pub parts: u32,
}

pub struct EachOnce;

impl TableRule<(), SeatView, Bounds> for EachOnce {
    ghost holds = { IsKept };

    ghost first = { λ k. seat_view k.count k.parts [] false };
}

pub struct Draw;

impl Play<(), SeatView> for Draw {
    ghost then = { Drew };
}

pub struct OnePart;

impl Split<SeatView> for OnePart {
    ghost left = { with_one_less };

    ghost right = { with_one_part };
}

pub struct Both;

impl Join<SeatView> for Both {
    ghost both = { joined };

    ghost spent = { spent };
}

pub struct Look;

impl Play<(), SeatView> for Look {
    ghost then = { Looked };
}
