// How a thread waits for its turn: it spins at first, then lets other threads run, and then sleeps.
ghost use Rattle.std.specs.Prelude.{◌≡◌, ◌≤◌, ◌<◌, ◌+◌, ◌-◌, ◌^◌, IsTrue, ◌↔◌, min};

use std::{hint, thread};

// Rounds of spinning, each twice as long as the one before.
const SPIN_ROUNDS: u32 = 7;

// A thread sleeps from this round on: the rounds between let other threads run.
const SLEEP_ROUND: u32 = 8;

// A thread that has waited for so many rounds lines up behind the one whose turn it is.
const LAST_ROUND: u32 = 16;

/// How many rounds a thread has waited.
#[derive(Clone, Copy)]
pub struct Patience {
    rounds: u32,
}

impl Patience {
    pub fn new() -> Patience
        ensures { result.rounds ≡ 0 }
    {
        Patience { rounds: 0 }
    }

    /// Waits a little and answers `true`, or answers `false` once it is time to sleep.
    pub fn spend(&mut self) -> bool
        ensures rounds { self.new.rounds ≡ min (self.old.rounds + 1) (2 ^ 32 - 1) }
        ensures awake { IsTrue result ↔ (self.old.rounds < SLEEP_ROUND) }
    {
        let round = self.rounds;
        self.rounds = round.saturating_add(1);
        if round < SPIN_ROUNDS {
            for _ in 0..1u32 << round {
                hint::spin_loop();
            }
        } else if round < SLEEP_ROUND {
            thread::yield_now();
        }
        round < SLEEP_ROUND
    }

    /// Whether the thread has slept.
    pub fn has_slept(&self) -> bool
        ensures { IsTrue result ↔ (SLEEP_ROUND < self.now.rounds) }
    {
        self.rounds > SLEEP_ROUND
    }

    /// Whether the thread has waited long.
    pub fn is_over(&self) -> bool
        ensures { IsTrue result ↔ (LAST_ROUND ≤ self.now.rounds) }
    {
        self.rounds >= LAST_ROUND
    }
}
