// Facts of pages, in as many buckets as were asked for.
ghost use Rattle.std.specs.Prelude.{◌≡◌, ◌<◌, IfOk, vec_len};
ghost use Rattle.ck_merge.specs.Buckets.{AreOwn, AreEmpty};

use crate::bucket::Bucket;
use crate::matching::of_bucket;
use crate::share::Share;
use crate::tables::clustered_tables;
use crate::together::{errors_of_all, sort_all};
use ck_error::in_order;
use ck_facts::{AllocMap, CheckError, Fact};
use pg_base::NoMemory;
use spec_tree::Root;
use std::alloc::Global;
use std::thread::Threads;

/// The facts of some pages of a file, and the clustered tables of its catalog.
#[derive(Drop)]
pub struct Parts {
    alloc: Global,
    roots: Vec<Root>,
    buckets: Vec<Bucket>,
    count: u32,
    ghost counted: { vec_len buckets ≡ count },
    ghost some: { 0 < count },
    ghost own: { AreOwn count buckets.items },
}

fn empty_buckets(alloc: Global, count: u32) -> Result<Vec<Bucket>, NoMemory>
    ensures empty { IfOk result (λ buckets. AreEmpty buckets.items) }
    ensures own { IfOk result (λ buckets. AreOwn count buckets.items) }
    ensures count { IfOk result (λ buckets. vec_len buckets ≡ count) }
{
    let mut buckets = Vec::new(alloc);
    for index in 0..count {
        let share = Share::new(index, count);
        buckets.push(Bucket::new(alloc, share))?;
    }
    Ok(buckets)
}

impl Parts {
    ghost use Rattle.std.specs.Prelude.{◌++◌, [], List, OnOk, max};
    ghost use Rattle.ck_error.specs.Gathered.{Gathers, Each};
    ghost use Rattle.ck_facts.specs.declared.facts.Fact.{Fact};
    ghost use Rattle.ck_facts.specs.Maps.{HasNoSystemErrors};
    ghost use Rattle.ck_merge.specs.Buckets.{AreSorted, BucketErrors};
    ghost use Rattle.ck_merge.specs.Held.{Holds, ListsTrees, roots_in, roots_of, count_of};

    /// No facts yet, in so many parts; 0 is served as 1.
    pub fn begin(alloc: Global, map: &AllocMap, count: u32) -> Result<Parts, NoMemory>
        requires { HasNoSystemErrors map.now }
        ensures holds { IfOk result (λ parts. Holds parts []) }
        ensures roots { IfOk result (λ parts. roots_in parts ≡ roots_of map.now.objects.items) }
        ensures count { IfOk result (λ parts. count_of parts ≡ max count 1) }
    {
        let count = count.max(1);
        let roots = clustered_tables(alloc, map.objects())?;
        let buckets = empty_buckets(alloc, count)?;
        Ok(Parts {
            alloc,
            roots,
            buckets,
            count,
        })
    }

    /// Takes more facts. After want of memory the parts are to be given up.
    pub fn add(&mut self, facts: &[Fact]) -> Result<(), NoMemory>
        ensures holds { OnOk result ((held : List Fact) → Holds self.old held → Holds self.new (held ++ facts.now)) }
        ensures roots { roots_in self.new ≡ roots_in self.old }
        ensures count { count_of self.new ≡ count_of self.old }
    {
        let count = self.count;
        for index in 0..count {
            self.buckets[index as usize].add(facts)?;
        }
        Ok(())
    }

    /// Takes the facts that other parts of the same file hold. After want of memory the parts are to be given
    /// up.
    pub fn join(&mut self, other: Parts) -> Result<(), NoMemory>
        requires roots { roots_in other ≡ roots_in self.old }
        requires count { count_of other ≡ count_of self.old }
        ensures holds { OnOk result ((held more : List Fact) → Holds self.old held → Holds other more → Holds self.new (held ++ more)) }
        ensures roots { roots_in self.new ≡ roots_in self.old }
        ensures count { count_of self.new ≡ count_of self.old }
    {
        let count = self.count;
        for index in 0..count {
            self.buckets[index as usize].join(&other.buckets[index as usize])?;
        }
        Ok(())
    }

    /// The errors that the facts show, in order and each once, whatever the order and the pieces in which they
    /// were taken, and however many parts there are.
    pub fn finish(self) -> Result<Vec<CheckError>, NoMemory>
        ensures { IfOk result (λ errors. ListsTrees self errors.items) }
    {
        let mut parts = self;
        parts.sort();
        let found = parts.gathered()?;
        Ok(in_order(found))
    }

    /// The same as `finish`, with the parts sorted and matched side by side.
    pub fn finish_together<T: Threads + Sync>(self, rt: &T) -> Result<Vec<CheckError>, NoMemory>
        ensures { IfOk result (λ errors. ListsTrees self errors.items) }
    {
        let mut parts = self;
        parts.sort_together(rt);
        let found = parts.gathered_together(rt)?;
        Ok(in_order(found))
    }

    fn sort(&mut self)
        ensures holds { (held : List Fact) → Holds self.old held → Holds self.new held }
        ensures sorted { AreSorted self.new.count self.new.buckets.items }
        ensures roots { roots_in self.new ≡ roots_in self.old }
        ensures count { count_of self.new ≡ count_of self.old }
    {
        let count = self.count;
        for index in 0..count {
            self.buckets[index as usize].sort();
        }
    }

    fn sort_together<T: Threads + Sync>(&mut self, rt: &T)
        ensures holds { (held : List Fact) → Holds self.old held → Holds self.new held }
        ensures sorted { AreSorted self.new.count self.new.buckets.items }
        ensures roots { roots_in self.new ≡ roots_in self.old }
        ensures count { count_of self.new ≡ count_of self.old }
    {
        sort_all(rt, &mut self.buckets);
    }

    fn gathered(&self) -> Result<Vec<CheckError>, NoMemory>
        requires { AreSorted self.now.count self.now.buckets.items }
        ensures { IfOk result (λ errors. Gathers errors.items (Each self.now.buckets.items (BucketErrors (roots_in self.now)))) }
    {
        let mut errors = Vec::new(self.alloc);
        for bucket in &self.buckets {
            of_bucket(&self.roots, bucket, &mut errors)?;
        }
        Ok(errors)
    }

    fn gathered_together<T: Threads + Sync>(&self, rt: &T) -> Result<Vec<CheckError>, NoMemory>
        requires { AreSorted self.now.count self.now.buckets.items }
        ensures { IfOk result (λ errors. Gathers errors.items (Each self.now.buckets.items (BucketErrors (roots_in self.now)))) }
    {
        errors_of_all(rt, self.alloc, &self.roots, &self.buckets)
    }
}
