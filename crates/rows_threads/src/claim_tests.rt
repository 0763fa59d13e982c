// Draws by one thread, and by sixteen.
ghost use Rattle.std.specs.Prelude.{◌≡◌, ◌+◌, All, IfOk, OnOk, vec_len};
ghost use Rattle.ck_claim.specs.Shown.{IsOf};

use ck_claim::{ClaimSeat, Claims, NoMemory};
use std::alloc::Global;
use std::test::Fail;
use std::thread;
use std::thread::Threads;

const COUNT: u32 = 1000;

const THREADS: u32 = 16;

// A thread's seat, and the numbers that it drew.
#[derive(Drop)]
struct Worker {
    seat: ClaimSeat,
    numbers: Vec<u32>,
}

// Draws until all numbers are drawn. Where no memory is left, numbers are missing afterwards.
fn draw_all(claims: &Claims, worker: &mut Worker)
    requires { IsOf claims.now worker.old.seat × (worker.old.seat.parts ≡ 1) }
    ensures { IsOf claims.now worker.new.seat × (worker.new.seat.parts ≡ 1) }
{
    'draws: for _ in 0..COUNT + 1 {
        let Some(number) = claims.draw(&mut worker.seat) else {
            return;
        };
        if worker.numbers.push(number).is_err() {
            return;
        }
    }
}

// A worker for each part of the seat but one.
fn workers(alloc: Global, claims: &Claims, seat: &mut ClaimSeat) -> Result<Vec<Worker>, NoMemory>
    requires { IsOf claims.now seat.old }
    ensures seat { OnOk result (IsOf claims.now seat.new × (seat.new.parts ≡ 1)) }
    ensures workers { IfOk result (λ v. All (λ w. IsOf claims.now w.seat × (w.seat.parts ≡ 1)) v.items) }
    ensures count { IfOk result (λ v. vec_len v + 1 ≡ seat.old.parts) }
{
    let mut all = Vec::new(alloc);
    'parts: while seat.parts() > 1 {
        let Some(given) = claims.split(seat) else {
            return Err(NoMemory);
        };
        let worker = Worker {
            seat: given,
            numbers: Vec::new(alloc),
        };
        if all.push(worker).is_err() {
            return Err(NoMemory);
        }
    }
    Ok(all)
}

// Each worker draws in a thread of its own.
fn work_all<R: Threads + Sync>(rt: &R, claims: &Claims, workers: &mut [Worker])
    requires { All (λ w. IsOf claims.now w.seat × (w.seat.parts ≡ 1)) workers.old }
    ensures { All (λ w. IsOf claims.now w.seat × (w.seat.parts ≡ 1)) workers.new }
{
    thread::for_each_mut(
        rt,
        workers,
        THREADS as usize,
        &|_, worker| draw_all(claims, worker),
    );
}

// How often each number below the count was drawn.
fn times_drawn(alloc: Global, workers: &[Worker]) -> Result<Vec<u32>, NoMemory> {
    let Ok(mut times) = Vec::from_elem(alloc, 0u32, COUNT as usize) else {
        return Err(NoMemory);
    };
    for worker in workers {
        for number in &worker.numbers {
            if let Some(n) = times.get_mut(*number as usize) {
                *n = n.saturating_add(1);
            }
        }
    }
    Ok(times)
}

// The seat takes in the seats of all workers.
fn gather(claims: &Claims, seat: &mut ClaimSeat, mut workers: Vec<Worker>)
    requires { IsOf claims.now seat.old × All (λ w. IsOf claims.now w.seat × (w.seat.parts ≡ 1)) workers.items }
    ensures { IsOf claims.now seat.new × (seat.new.parts ≡ seat.old.parts + vec_len workers) }
{
    'workers: while let Some(worker) = workers.pop() {
        let Worker {
            seat: given,
            numbers: _,
        } = worker;
        claims.join(seat, given);
    }
}

// The numbers that one seat draws, and the answer of `close`.
fn drawn_alone(alloc: Global, count: u32) -> Result<(Vec<u32>, u32), NoMemory> {
    let (claims, seat) = Claims::begin(alloc, count, 1)?;
    let mut worker = Worker {
        seat,
        numbers: Vec::new(alloc),
    };
    draw_all(&claims, &mut worker);
    let Worker { seat, numbers } = worker;
    Ok((numbers, claims.close(seat)))
}

// The numbers that the threads draw, and the answer of `close`.
fn drawn_by_threads<R: Threads + Sync>(
    rt: &R,
    alloc: Global,
    count: u32,
) -> Result<(Vec<u32>, u32), NoMemory> {
    let (claims, mut seat) = Claims::begin(alloc, count, THREADS + 1)?;
    let mut all = workers(alloc, &claims, &mut seat)?;
    work_all(rt, &claims, all.as_mut_slice());
    let times = times_drawn(alloc, &all)?;
    gather(&claims, &mut seat, all);
    Ok((times, claims.close(seat)))
}

// A count, and the numbers below it.
static ALONE: [(u32, &[u32]); 3] = [(0, &[]), (1, &[0]), (3, &[0, 1, 2])];

#[test]
fn one_thread_draws_each_number_in_order(rt: HostRuntime) -> Result<(), Fail> {
    for (count, numbers) in ALONE.iter() {
        let (drawn, answer) = drawn_alone(rt.alloc(), *count)?;
        let is_right = drawn.as_slice() == *numbers && answer == *count;
        assert!(rt; is_right);
    }
    Ok(())
}

#[test]
fn a_counter_that_is_closed_early_tells_how_many_were_drawn(rt: HostRuntime) -> Result<(), Fail> {
    let (claims, mut seat) = Claims::begin(rt.alloc(), 5, 2)?;
    let mut other = claims.split(&mut seat).ok_or(NoMemory)?;
    let first = claims.draw(&mut other);
    let second = claims.draw(&mut seat);
    claims.join(&mut seat, other);
    let answer = claims.close(seat);
    assert_eq!(rt; (first, second, answer), (Some(0), Some(1), 2));
    Ok(())
}

#[test]
fn sixteen_threads_draw_each_number_once(rt: HostRuntime) -> Result<(), Fail> {
    let (times, answer) = drawn_by_threads(&rt, rt.alloc(), COUNT)?;
    let is_right = times.len() == COUNT as usize
        && times.iter().all(|n| *n == 1)
        && answer == COUNT;
    assert!(rt; is_right);
    Ok(())
}
