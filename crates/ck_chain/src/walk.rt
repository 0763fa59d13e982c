// Where a walk along a chain stands.
ghost use Rattle.std.specs.Prelude.{◌≡◌, ◌<◌, ◌+◌, ◌==◌, IfOk, vec_len, slice_index_or, if◌then◌else◌, ℕ, true, false};
ghost use Rattle.std.proofs.Math.ListN.{set};

use pg_base::{Geometry, NoMemory};
use std::alloc::Global;

/// Whose chain is walked, and in what file.
#[derive(Clone, Copy)]
pub struct Owner {
    pub geometry: Geometry,
    /// How many pages the file has.
    pub pages: u32,
    pub id: u32,
    /// The object's place among the objects by id.
    pub index: usize,
}

/// The next pointer of a chain.
#[derive(Clone, Copy)]
pub struct Link {
    /// The page that it names.
    pub page: u32,
    /// The page that holds it: page 9 for the first.
    pub holder: u32,
    /// The page before it in the chain; 0 for none.
    pub before: u32,
    /// How many pages of the chain come before it.
    pub count: u32,
}

/// A walk that stands before a page of the chain.
#[derive(Drop)]
pub struct Walk {
    pub link: Link,
    /// Whether the chain has met a page.
    pub met: Vec<bool>,
    /// The first page of each interval; 0 for none.
    pub firsts: [u32; 8],
}

impl Walk {
    /// The walk before the first page, in a file of so many pages.
    pub fn begin(alloc: Global, first: u32, pages: u32) -> Result<Walk, NoMemory>
        ensures link { IfOk result (λ w. w.link ≡ record { page = first; holder = 9; before = 0; count = 0 }) }
        ensures size { IfOk result (λ w. vec_len w.met ≡ pages) }
        ensures met { IfOk result (λ w. (p : ℕ) → slice_index_or w.met.items p false ≡ false) }
        ensures firsts { IfOk result (λ w. (m : ℕ) → slice_index_or w.firsts m 0 ≡ 0) }
    {
        Ok(Walk {
            link: Link {
                page: first,
                holder: 9,
                before: 0,
                count: 0,
            },
            met: vec![in alloc; false; pages as usize]?,
            firsts: [0; 8],
        })
    }

    /// Goes on behind its next page, which is of interval m and names page `next`.
    pub fn go_on(&mut self, m: usize, next: u32)
        requires page { self.old.link.page < vec_len self.old.met }
        requires interval { m < 8 }
        requires count { self.old.link.count < 524288 }
        ensures link { self.new.link ≡ record { page = next; holder = self.old.link.page; before = self.old.link.page; count = self.old.link.count + 1 } }
        ensures met { self.new.met.items ≡ set self.old.met.items self.old.link.page true }
        ensures firsts { self.new.firsts ≡ set self.old.firsts m (if slice_index_or self.old.firsts m 0 == 0 then self.old.link.page else slice_index_or self.old.firsts m 0) }
    {
        let page = self.link.page;
        self.met[page as usize] = true;
        self.firsts[m] = first_of(self.firsts[m], page);
        self.link = Link {
            page: next,
            holder: page,
            before: page,
            count: self.link.count + 1,
        };
    }
}

// The first page of an interval, where `page` is one more of it.
fn first_of(first: u32, page: u32) -> u32
    ensures { result ≡ (if first == 0 then page else first) }
{
    if first == 0 { page } else { first }
}
