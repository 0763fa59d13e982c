// A list that threads extend in turns.
ghost use Rattle.std.specs.Prelude.{◌≡◌, ◌+◌, All, IfOk, IsSomeAnd, OnOk, vec_len};
ghost use mathlib.Core.List.{IsPrefix};
ghost use Rattle.turn_seat.specs.Shown.{IsOf};

use std::alloc::{AllocError, Global};
use std::sync::Wait;
use std::test::Fail;
use std::thread;
use std::thread::Threads;
use std::time::{Clock, Duration};
use turn_seat::{Seat, Stands, Turn};

// The numbers of the threads that were here, in order.
#[derive(Drop)]
struct Log {
    items: Vec<usize>,
}

impl Stands for Log {
    type Entry = usize;

    ghost entries = { λ l. l.items.items };

    fn count(&self) -> u64 {
        self.items.len() as u64
    }
}

impl Log {
    // Adds the thread's number where the one that it added last still stands, and answers the new place.
    fn visit(&mut self, number: usize, last: Option<usize>) -> Option<usize>
        ensures { IsPrefix self.old.items.items self.new.items.items }
    {
        if let Some(place) = last {
            let there = self.items.get(place)?;
            if *there != number {
                return None;
            }
        }
        let place = self.items.len();
        self.items.push(number).ok()?;
        Some(place)
    }
}

// A thread's seat, and how often it found the list as it had left it. The seat is out only while the thread uses it.
#[derive(Drop)]
struct Worker {
    seat: Option<Seat<Log>>,
    visits: u32,
}

fn hold<R: Clock>(rt: &R, millis: u64) {
    if millis > 0 {
        thread::sleep(rt, Duration::from_millis(millis));
    }
}

// So many turns of one thread, each of which lasts so long.
fn visits<R: Wait + Clock>(
    rt: &R,
    turn: &Turn<Log>,
    mut seat: Seat<Log>,
    number: usize,
    turns: u32,
    millis: u64,
) -> (Seat<Log>, u32)
    requires { IsOf turn.now seat × (seat.parts ≡ 1) }
    ensures { IsOf turn.now result.0 × (result.0.parts ≡ 1) }
{
    let mut last = None;
    let mut done = 0u32;
    'turns: for _ in 0..turns {
        let mut inside = turn.enter(rt, seat);
        last = inside.state.visit(number, last);
        hold(rt, millis);
        seat = turn.leave(inside);
        if last.is_some() {
            done = done.saturating_add(1);
        }
    }
    (seat, done)
}

fn work<R: Wait + Clock>(
    rt: &R,
    turn: &Turn<Log>,
    worker: &mut Worker,
    number: usize,
    turns: u32,
    millis: u64,
)
    requires { IsSomeAnd worker.old.seat (λ s. IsOf turn.now s × (s.parts ≡ 1)) }
    ensures { IsSomeAnd worker.new.seat (λ s. IsOf turn.now s × (s.parts ≡ 1)) }
{
    let Some(seat) = worker.seat.take() else {
        unreachable!()
    };
    let (seat, done) = visits(rt, turn, seat, number, turns, millis);
    worker.seat = Some(seat);
    worker.visits = done;
}

fn work_all<R: Threads + Wait + Clock + Sync>(
    rt: &R,
    turn: &Turn<Log>,
    workers: &mut [Worker],
    turns: u32,
    millis: u64,
)
    requires { All (λ w. IsSomeAnd w.seat (λ s. IsOf turn.now s × (s.parts ≡ 1))) workers.old }
    ensures { All (λ w. IsSomeAnd w.seat (λ s. IsOf turn.now s × (s.parts ≡ 1))) workers.new }
{
    thread::for_each_mut(
        rt,
        workers,
        16,
        &|number, worker| { work(rt, turn, worker, number, turns, millis) },
    );
}

// A worker for each part of the seat but one.
fn workers(alloc: Global, turn: &Turn<Log>, seat: &mut Seat<Log>) -> Result<Vec<Worker>, AllocError>
    requires { IsOf turn.now seat.old }
    ensures seat { OnOk result (IsOf turn.now seat.new × (seat.new.parts ≡ 1)) }
    ensures workers { IfOk result (λ v. All (λ w. IsSomeAnd w.seat (λ s. IsOf turn.now s × (s.parts ≡ 1))) v.items) }
    ensures count { IfOk result (λ v. vec_len v + 1 ≡ seat.old.parts) }
{
    let mut all = Vec::new(alloc);
    'parts: while seat.parts() > 1 {
        let Some(given) = turn.split(seat, 1) else {
            return Err(AllocError);
        };
        all.push(Worker {
            seat: Some(given),
            visits: 0,
        })?;
    }
    Ok(all)
}

// The seat takes in the seats of all workers.
fn gather(turn: &Turn<Log>, seat: &mut Seat<Log>, mut workers: Vec<Worker>)
    requires { IsOf turn.now seat.old × All (λ w. IsSomeAnd w.seat (λ s. IsOf turn.now s × (s.parts ≡ 1))) workers.items }
    ensures { IsOf turn.now seat.new × (seat.new.parts ≡ seat.old.parts + vec_len workers) }
{
    'workers: while let Some(worker) = workers.pop() {
        let Worker {
            seat: given,
            visits: _,
        } = worker;
        let Some(given) = given else { unreachable!() };
        turn.join(seat, given);
    }
}

// What each thread counted, and the list that all of them made.
fn made_by<R: Threads + Wait + Clock + Sync>(
    rt: &R,
    alloc: Global,
    threads: u32,
    turns: u32,
    millis: u64,
) -> Result<(Vec<u32>, Vec<usize>), AllocError> {
    let log = Log {
        items: Vec::new(alloc),
    };
    let Ok((turn, mut seat)) = Turn::begin(alloc, log, threads.saturating_add(1)) else {
        return Err(AllocError);
    };
    let mut all = workers(alloc, &turn, &mut seat)?;
    work_all(rt, &turn, all.as_mut_slice(), turns, millis);
    let counts = all.iter().map(|w| w.visits).collect(alloc)?;
    gather(&turn, &mut seat, all);
    let Log { items } = turn.close(seat);
    Ok((counts, items))
}

// How often the number stands in the list.
fn times(items: &[usize], number: usize) -> usize {
    items.iter().filter(|item| **item == number).count()
}

// Whether each thread found the list as it had left it, in each of its turns.
fn is_whole(counts: &[u32], items: &[usize], turns: u32) -> bool {
    for (number, count) in counts.iter().enumerate() {
        if *count != turns || times(items, number) != turns as usize {
            return false;
        }
    }
    true
}

// Threads, turns and what a turn lasts: short turns, and turns so long that threads sleep and line up.
static RUNS: [(u32, u32, u64); 3] = [(1, 3, 0), (8, 500, 0), (8, 8, 1)];

#[test]
fn each_thread_finds_the_list_as_it_left_it(rt: HostRuntime) -> Result<(), Fail> {
    for (threads, turns, millis) in RUNS.iter() {
        let (counts, items) = made_by(&rt, rt.alloc(), *threads, *turns, *millis)?;
        let is_right = counts.len() == *threads as usize && is_whole(&counts, &items, *turns);
        assert!(rt; is_right);
    }
    Ok(())
}

#[test]
fn a_seat_that_is_split_has_seen_the_same_list(rt: HostRuntime) -> Result<(), Fail> {
    let log = Log {
        items: vec![in rt.alloc(); 7]?,
    };
    let Ok((turn, mut seat)) = Turn::begin(rt.alloc(), log, 5) else {
        return Err(AllocError.into());
    };
    let other = turn.split(&mut seat, 2).ok_or(AllocError)?;
    let parts = (seat.parts(), other.parts());
    let mut inside = turn.enter(&rt, other);
    let place = inside.state.visit(9, None);
    let other = turn.leave(inside);
    turn.join(&mut seat, other);
    let log = turn.close(seat);
    let is_right = parts == (3, 2) && place == Some(1) && log.items.as_slice() == [7, 9].as_slice();
    assert!(rt; is_right);
    Ok(())
}
