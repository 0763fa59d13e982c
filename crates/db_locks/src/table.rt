//! The lock table.
ghost use Rattle.std.specs.Prelude.{◌≡◌, ◌≢◌, ◌≤◌, ◌<◌, ◌+◌, Some, None, IfErr, IfSome, OnOk, OnErr};
ghost use Rattle.spec_file.specs.declared.data.Resource.{Resource};
ghost use Rattle.db_locks.specs.Locks.{holder_of, room_of, released, HoldSame, HoldSameBeside};

use crate::key::{ResourceKey, key};
use pg_base::{NoMemory, Resource, Tran};
use std::alloc::Global;
use std::collections::HashMap;

/// Another transaction holds the resource.
#[derive(Clone, Copy, Debug, PartialEq, Eq)]
pub struct Held {
    pub resource: Resource,
    pub by: Tran,
}

/// Which transaction holds which resource. One is found without a search of the others.
#[derive(Drop)]
pub struct LockTable {
    holders: HashMap<ResourceKey, Tran>,
}

impl LockTable {
    /// A table in which nobody holds anything.
    pub fn begin(alloc: Global) -> LockTable
        ensures { (r : Resource) → holder_of result r ≡ None }
    {
        LockTable {
            holders: HashMap::new(alloc),
        }
    }

    /// The transaction that holds a resource.
    pub fn holder(&self, r: Resource) -> Option<Tran>
        ensures { result ≡ holder_of self.now r }
    {
        self.holders.get(&key(r)).copied()
    }

    /// Makes room for `n` more resources to be taken.
    pub fn reserve(&mut self, n: u32) -> Result<(), NoMemory>
        ensures room { OnOk result (n ≤ room_of self.new) }
        ensures keeps_room { room_of self.old ≤ room_of self.new }
        ensures same { HoldSame self.old self.new }
    {
        self.holders.reserve(n as usize)?;
        Ok(())
    }

    /// A transaction takes a resource, which may be one that it holds. It is refused exactly where another
    /// holds it. Uses no memory but the room that is left.
    pub fn take(&mut self, r: Resource, by: Tran) -> Result<(), Held>
        requires { 0 < room_of self.old }
        ensures refused { IfErr result (λ held. (held.resource ≡ r) × (holder_of self.old r ≡ Some held.by) × (held.by ≢ by)) }
        ensures unchanged { OnErr result (HoldSame self.old self.new) }
        ensures free { OnOk result (IfSome (holder_of self.old r) (λ holder. holder ≡ by)) }
        ensures holds { OnOk result (holder_of self.new r ≡ Some by) }
        ensures others { OnOk result (HoldSameBeside r self.old self.new) }
        ensures room { room_of self.old ≤ room_of self.new + 1 }
    {
        if let Some(holder) = self.holder(r) {
            if holder != by {
                return Err(Held {
                    resource: r,
                    by: holder,
                });
            }
            return Ok(());
        }
        self.put(r, by);
        Ok(())
    }

    // The transaction holds a resource that nobody held.
    fn put(&mut self, r: Resource, by: Tran)
        requires { 0 < room_of self.old }
        ensures holds { holder_of self.new r ≡ Some by }
        ensures others { HoldSameBeside r self.old self.new }
        ensures room { room_of self.old ≤ room_of self.new + 1 }
    {
        let _ = self.holders.insert(key(r), by);
    }

    /// Frees all that a transaction holds, and nothing else. Uses no memory.
    pub fn release_all(&mut self, by: Tran)
        ensures released { (r : Resource) → holder_of self.new r ≡ released by (holder_of self.old r) }
        ensures room { room_of self.old ≤ room_of self.new }
    {
        self.holders.retain(|_, holder| *holder != by);
    }
}
