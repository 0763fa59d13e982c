// The buckets sorted and matched side by side, each in a thread of its own.
ghost use Rattle.std.specs.Prelude.{◌<◌, All, IfOk, OnOk, length, slice_index_or};
ghost use Rattle.ck_error.specs.Gathered.{Gathers, Each};
ghost use Rattle.ck_merge.specs.Buckets.{BucketErrors};
ghost use Rattle.ck_merge.specs.Filing.{IsOwn};
ghost use Rattle.ck_merge.specs.Runs.{IsSorted};
ghost use Rattle.ck_merge.specs.Sides.{SortsTo, EachSortsTo, IsMatched, AreMatched, AddsFound};

use crate::bucket::Bucket;
use crate::matching::of_bucket;
use ck_facts::CheckError;
use pg_base::NoMemory;
use spec_tree::Root;
use std::alloc::Global;
use std::thread;
use std::thread::Threads;

// The most threads that sort.
const MOST: usize = 16;

fn sort_one(bucket: &mut Bucket)
    ensures { SortsTo bucket.old bucket.new }
{
    bucket.sort();
}

/// Sorts each bucket.
pub fn sort_all<T: Threads + Sync>(rt: &T, buckets: &mut Vec<Bucket>)
    ensures { EachSortsTo buckets.old.items buckets.new.items }
{
    thread::for_each_mut(
        rt,
        buckets.as_mut_slice(),
        MOST,
        &|_, bucket| { sort_one(bucket) },
    );
}

// The errors at the pages of a bucket.
fn match_one(alloc: Global, roots: &[Root], bucket: &Bucket) -> Result<Vec<CheckError>, NoMemory>
    requires own { IsOwn bucket.now }
    requires sorted { IsSorted bucket.now }
    ensures { IsMatched roots.now bucket.now result }
{
    let mut errors = Vec::new(alloc);
    of_bucket(roots, bucket, &mut errors)?;
    Ok(errors)
}

fn match_at(
    alloc: Global,
    roots: &[Root],
    buckets: &[Bucket],
    i: usize,
) -> Result<Vec<CheckError>, NoMemory>
    requires inside { i < length buckets.now }
    requires own { All IsOwn buckets.now }
    requires sorted { All IsSorted buckets.now }
    ensures { (u : Bucket) → IsMatched roots.now (slice_index_or buckets.now i u) result }
{
    match_one(alloc, roots, &buckets[i])
}

fn match_all<T: Threads + Sync>(
    rt: &T,
    alloc: Global,
    roots: &[Root],
    buckets: &[Bucket],
) -> Result<Vec<Result<Vec<CheckError>, NoMemory>>, NoMemory>
    requires own { All IsOwn buckets.now }
    requires sorted { All IsSorted buckets.now }
    ensures { IfOk result (λ all. AreMatched roots.now buckets.now all.items) }
{
    Ok(thread::map_indices(
        rt,
        alloc,
        buckets.len(),
        &|i| { match_at(alloc, roots, buckets, i) },
    )?)
}

// Takes what was found for one bucket.
fn take_errors(
    errors: &mut Vec<CheckError>,
    found: &Result<Vec<CheckError>, NoMemory>,
) -> Result<(), NoMemory>
    ensures { OnOk result (AddsFound errors.old.items found.now errors.new.items) }
{
    match found {
        Ok(more) => {
            errors.extend_from_slice(more)?;
            Ok(())
        }
        Err(stop) => Err(*stop),
    }
}

/// The errors at the pages of all buckets.
pub fn errors_of_all<T: Threads + Sync>(
    rt: &T,
    alloc: Global,
    roots: &[Root],
    buckets: &[Bucket],
) -> Result<Vec<CheckError>, NoMemory>
    requires own { All IsOwn buckets.now }
    requires sorted { All IsSorted buckets.now }
    ensures { IfOk result (λ errors. Gathers errors.items (Each buckets.now (BucketErrors roots.now))) }
{
    let all = match_all(rt, alloc, roots, buckets)?;
    let mut errors = Vec::new(alloc);
    for i in 0..all.len() {
        take_errors(&mut errors, &all[i])?;
    }
    Ok(errors)
}
