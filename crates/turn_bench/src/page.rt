// What threads share: a page, and how often it was copied.
ghost use Rattle.std.specs.Prelude.{◌≡◌, vec_len, IfOk};
ghost use mathlib.Core.List.{IsPrefix};
ghost use Rattle.turn_bench.specs.Copies.{copies_of};

use std::alloc::{AllocError, Global};
use turn_seat::Stands;

pub const PAGE_SIZE: usize = 8192;

/// A buffer of a page's size.
#[derive(Drop)]
pub struct Buffer {
    pub bytes: Vec<u8>,
    pub ghost sized: { vec_len bytes ≡ 8192 },
}

impl Buffer {
    pub fn new(alloc: Global) -> Result<Buffer, AllocError> {
        let bytes = Vec::from_elem(alloc, 1u8, PAGE_SIZE)?;
        Ok(Buffer { bytes })
    }
}

/// A page that is copied in each turn. Its list has an entry for each copy.
#[derive(Drop)]
pub struct SharedPage {
    pub page: Buffer,
    pub copies: u64,
}

impl Stands for SharedPage {
    type Entry = u64;

    ghost use Rattle.turn_bench.specs.Copies.{copies_of};

    ghost entries = { λ s. copies_of s.copies };

    fn count(&self) -> u64 {
        self.copies
    }
}

impl SharedPage {
    pub fn new(alloc: Global) -> Result<SharedPage, AllocError>
        ensures { IfOk result (λ s. s.copies ≡ 0) }
    {
        let page = Buffer::new(alloc)?;
        Ok(SharedPage { page, copies: 0 })
    }

    /// Copies the page, and counts the copy.
    pub fn copy_into(&mut self, buffer: &mut Buffer)
        ensures copied { buffer.new.bytes.items ≡ self.old.page.bytes.items }
        ensures grown { IsPrefix (copies_of self.old.copies) (copies_of self.new.copies) }
    {
        buffer
            .bytes
            .as_mut_slice()
            .copy_from_slice(self.page.bytes.as_slice());
        self.copies = self.copies.saturating_add(1);
    }
}
