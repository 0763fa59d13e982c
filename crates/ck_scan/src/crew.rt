// The workers of a check, from their readers to all that they found.
ghost use Rattle.std.specs.Prelude.{◌≡◌, ◌+◌, ◌<◌, ◌≤◌, ◌/◌, ◌^◌, ℕ, [], None, Some, All, Contains, IfOk, OnOk, map, vec_len, vec_capacity, length, slice_index_or};
ghost use Rattle.spec_file.specs.Image.{Image};
ghost use Rattle.ck_claim.specs.Shown.{IsOf};
ghost use Rattle.ck_error.specs.Gathered.{Below};
ghost use Rattle.ck_facts.specs.declared.map.AllocMap.{AllocMap};
ghost use Rattle.ck_facts.specs.Maps.{HasNoSystemErrors};
ghost use Rattle.ck_facts.specs.MapOf.{IsMapOf};
ghost use Rattle.ck_facts.specs.Owners.{IsOwnerIn};
ghost use Rattle.ck_merge.specs.Held.{roots_in, roots_of};
ghost use Rattle.ck_scan.specs.Found.{AreFound, IsLike};
ghost use Rattle.ck_scan.specs.Readers.{AreRead, first_stop};
ghost use Rattle.pg_base.specs.Stops.{stop_of};
ghost use Rattle.ck_scan.specs.Working.{IsBegun, IsDone, IsGoing, HasWorked, HasAll, JobFound};

use crate::findings::Findings;
use crate::frame::Frame;
use crate::gate::Gate;
use crate::worker::{Job, Worker, work};
use ck_claim::{ClaimSeat, Claims};
use ck_facts::AllocMap;
use pg_base::{NoMemory, ReadStop, SnapReader};
use std::alloc::Global;
use std::thread;
use std::thread::Threads;

// The most workers.
const MOST: usize = 16;

// A job that has not begun, with a seat that has drawn nothing, of so many workers.
fn job(
    alloc: Global,
    map: &AllocMap,
    claims: &Claims,
    seat: ClaimSeat,
    workers: u32,
) -> Result<Job, NoMemory>
    requires sound { HasNoSystemErrors map.now }
    requires of { IsOf claims.now seat }
    requires one { seat.parts ≡ 1 }
    requires draws { seat.draws ≡ [] }
    requires some { 0 < workers }
    requires workers { workers ≡ claims.now.parts }
    ensures { IfOk result (IsBegun claims.now map.now) }
{
    Ok(Job {
        seat,
        frame: Frame::begin(alloc)?,
        found: Findings::begin(alloc, map, workers)?,
        stop: None,
    })
}

// A job for each part of the seat.
fn jobs(
    alloc: Global,
    map: &AllocMap,
    claims: &Claims,
    seat: ClaimSeat,
    workers: u32,
) -> Result<Vec<Job>, NoMemory>
    requires sound { HasNoSystemErrors map.now }
    requires of { IsOf claims.now seat }
    requires draws { seat.draws ≡ [] }
    requires some { 0 < workers }
    requires workers { workers ≡ claims.now.parts }
    ensures begun { IfOk result (λ jobs. All (IsBegun claims.now map.now) jobs.items) }
    ensures count { IfOk result (λ jobs. vec_len jobs ≡ seat.parts) }
{
    let mut left = seat;
    let mut all = Vec::new(alloc);
    'parts: while left.parts() > 1 {
        let Some(given) = claims.split(&mut left) else {
            return Err(NoMemory);
        };
        all.push(job(alloc, map, claims, given, workers)?)?;
    }
    all.push(job(alloc, map, claims, left, workers)?)?;
    Ok(all)
}

// Places for so many workers.
fn places<R>(alloc: Global, count: usize) -> Result<Vec<Worker<R>>, NoMemory>
    ensures empty { IfOk result (λ workers. workers.items ≡ []) }
    ensures room { IfOk result (λ workers. vec_capacity workers ≡ count) }
{
    Ok(Vec::with_capacity(alloc, count)?)
}

// Gives each reader a job, in their order.
fn hire<R>(readers: &mut Vec<R>, jobs: &mut Vec<Job>, workers: &mut Vec<Worker<R>>)
    requires count { vec_len jobs.old ≡ vec_len readers.old }
    requires none { workers.old.items ≡ [] }
    requires room { vec_len readers.old ≤ vec_capacity workers.old }
    ensures readers { map (λ w. w.reader) workers.new.items ≡ readers.old.items }
    ensures jobs { (w : Worker R) → Contains workers.new.items w → Contains jobs.old.items w.job }
    ensures no_readers { readers.new.items ≡ [] }
    ensures no_jobs { jobs.new.items ≡ [] }
    ensures places { vec_len readers.old ≤ vec_capacity readers.new }
    ensures job_places { vec_len jobs.old ≤ vec_capacity jobs.new }
{
    'jobs: while let Some(job) = jobs.pop() {
        let reader = readers.remove(0);
        workers.push_reserved(Worker { reader, job });
    }
}

// All workers at work, each in a thread of its own.
fn all_work<T: Threads + Sync, R: SnapReader + Send, G: Gate + Sync>(
    rt: &T,
    alloc: Global,
    claims: &Claims,
    map: &AllocMap,
    gate: &G,
    workers: &mut Vec<Worker<R>>,
)
    requires going { All (IsGoing R.SnapReader claims.now map.now) workers.old.items }
    requires sound { HasNoSystemErrors map.now }
    requires count { claims.now.count ≡ map.now.pages / 8 }
    requires few { vec_len workers.old < 2 ^ 32 }
    ensures length { vec_len workers.new ≡ vec_len workers.old }
    ensures each { (i : ℕ) (d : Worker R) → i < vec_len workers.old
        → HasWorked R.SnapReader claims.now map.now (slice_index_or workers.old.items i d) (slice_index_or workers.new.items i d) }
{
    thread::for_each_mut(
        rt,
        workers.as_mut_slice(),
        MOST,
        &|i, worker| { work(alloc, claims, map, gate, i as u32, worker) },
    );
}

// Gives the readers back in their order, and the jobs. The stop of the first worker that has one.
fn release<R>(
    readers: &mut Vec<R>,
    jobs: &mut Vec<Job>,
    workers: Vec<Worker<R>>,
) -> Option<ReadStop>
    requires no_readers { readers.old.items ≡ [] }
    requires no_jobs { jobs.old.items ≡ [] }
    requires places { vec_len workers ≤ vec_capacity readers.old }
    requires job_places { vec_len workers ≤ vec_capacity jobs.old }
    ensures readers { readers.new.items ≡ map (λ w. w.reader) workers.items }
    ensures jobs { jobs.new.items ≡ map (λ w. w.job) workers.items }
    ensures stop { result ≡ first_stop (map (λ w. w.job.stop) workers.items) }
{
    let mut workers = workers;
    let mut first = None;
    'workers: while !workers.is_empty() {
        let Worker { reader, job } = workers.remove(0);
        first = first.or(job.stop);
        readers.push_reserved(reader);
        jobs.push_reserved(job);
    }
    workers.destroy_empty();
    first
}

// The workers' work, one for each reader, and all readers in their order again. The stop of the first that has one.
fn work_together<T: Threads + Sync, R: SnapReader + Send, G: Gate + Sync>(
    rt: &T,
    alloc: Global,
    claims: &Claims,
    map: &AllocMap,
    gate: &G,
    readers: &mut Vec<R>,
    jobs: &mut Vec<Job>,
    workers: Vec<Worker<R>>,
) -> Option<ReadStop>
    requires few { vec_len readers.old ≤ 16 }
    requires pages { All (λ r. R.pages r ≡ map.now.pages) readers.old.items }
    requires sound { HasNoSystemErrors map.now }
    requires count { claims.now.count ≡ map.now.pages / 8 }
    requires jobs { All (IsBegun claims.now map.now) jobs.old.items }
    requires same { vec_len jobs.old ≡ vec_len readers.old }
    requires none { workers.items ≡ [] }
    requires room { vec_len readers.old ≤ vec_capacity workers }
    ensures reads { AreRead R.SnapReader readers.old.items readers.new.items result }
    ensures count { vec_len jobs.new ≡ vec_len jobs.old }
    ensures done { result ≡ None → All (IsDone claims.now map.now) jobs.new.items }
    ensures found { result ≡ None → (image : Image) → IsMapOf image map.now → All (λ r. R.image r ≡ Some image) readers.old.items
        → All (JobFound image map.now) jobs.new.items }
{
    let mut workers = workers;
    hire(readers, jobs, &mut workers);
    all_work(rt, alloc, claims, map, gate, &mut workers);
    release(readers, jobs, workers)
}

// One job with what all of them drew and found.
fn join_all(claims: &Claims, all: &mut Job, jobs: Vec<Job>) -> Result<(), NoMemory>
    requires of { IsOf claims.now all.old.seat }
    requires seats { All (λ j. IsOf claims.now j.seat × (j.seat.parts ≡ 1)) jobs.items }
    requires like { All (λ j. IsLike all.old.found j.found) jobs.items }
    ensures of { OnOk result (IsOf claims.now all.new.seat) }
    ensures parts { OnOk result (all.new.seat.parts ≡ all.old.seat.parts + vec_len jobs) }
    ensures all { OnOk result (HasAll claims.now all.old.seat → HasAll claims.now all.new.seat) }
    ensures like { OnOk result (IsLike all.old.found all.new.found) }
    ensures found { OnOk result ((image : Image) (m : AllocMap) → length image ≡ m.pages → JobFound image m all.old → All (JobFound image m) jobs.items
        → JobFound image m all.new) }
{
    let mut jobs = jobs;
    'jobs: while let Some(job) = jobs.pop() {
        all.join(claims, job)?;
    }
    Ok(())
}

// What all jobs found, once all is drawn.
fn gather(claims: Claims, map: &AllocMap, jobs: Vec<Job>) -> Result<Findings, NoMemory>
    requires count { claims.count ≡ map.now.pages / 8 }
    requires some { 0 < vec_len jobs }
    requires parts { vec_len jobs ≡ claims.parts }
    requires done { All (IsDone claims map.now) jobs.items }
    ensures roots { IfOk result (λ found. roots_in found.parts ≡ roots_of map.now.objects.items) }
    ensures found { IfOk result (λ found. (image : Image) → IsMapOf image map.now → All (JobFound image map.now) jobs.items
        → AreFound image map.now (Below (map.now.pages / 8) (IsOwnerIn map.now.geometry image)) found) }
{
    let mut jobs = jobs;
    let Some(first) = jobs.pop() else {
        unreachable!()
    };
    let mut all = first;
    join_all(&claims, &mut all, jobs)?;
    let Job {
        seat,
        frame: _frame,
        found,
        stop: _stop,
    } = all;
    let _drawn = claims.close(seat);
    Ok(found)
}

/// What all pages that objects own show, found by as many workers as there are readers.
pub fn find_together<T: Threads + Sync, R: SnapReader + Send, G: Gate + Sync>(
    rt: &T,
    alloc: Global,
    readers: &mut Vec<R>,
    map: &AllocMap,
    gate: &G,
) -> Result<Findings, ReadStop>
    requires some { 0 < vec_len readers.old }
    requires few { vec_len readers.old ≤ 16 }
    requires pages { All (λ r. R.pages r ≡ map.now.pages) readers.old.items }
    requires sound { HasNoSystemErrors map.now }
    ensures found { IfOk result (λ found. (image : Image) → IsMapOf image map.now → All (λ r. R.image r ≡ Some image) readers.old.items
        → AreFound image map.now (Below (map.now.pages / 8) (IsOwnerIn map.now.geometry image)) found) }
    ensures roots { IfOk result (λ found. roots_in found.parts ≡ roots_of map.now.objects.items) }
    ensures reads { AreRead R.SnapReader readers.old.items readers.new.items (stop_of result) }
{
    let count = readers.len() as u32;
    let Ok((claims, seat)) = Claims::begin(alloc, map.extents(), count) else {
        return Err(ReadStop::NoMemory);
    };
    let mut jobs = jobs(alloc, map, &claims, seat, count)?;
    let workers = places(alloc, readers.len())?;
    let stop = work_together(rt, alloc, &claims, map, gate, readers, &mut jobs, workers);
    if let Some(stop) = stop {
        return Err(stop);
    }
    Ok(gather(claims, map, jobs)?)
}
