ghost use Rattle.std.specs.Prelude.{◌≡◌, IfOk, length};
ghost use Rattle.spec_file.specs.Image.{AreBytes};
ghost use Rattle.pg_base.specs.Zeros.{zero_page};

use crate::{NoMemory, PAGE_SIZE};
use std::alloc::Global;

/// The bytes of one page.
#[derive(Drop)]
pub struct Page {
    pub bytes: [u8; PAGE_SIZE],
}

impl Page {
    /// A page of zeros, to be read into.
    pub fn zeroed(alloc: Global) -> Result<Box<Page>, NoMemory>
        ensures { IfOk result (λ page. page.value.bytes ≡ zero_page) }
    {
        Ok(Box::new(
            alloc,
            Page {
                bytes: [0; PAGE_SIZE],
            },
        )?)
    }
}

/// A page has as many bytes as any, each below 256.
pub fn is_whole(page: &Page)
    ensures long { length page.now.bytes ≡ PAGE_SIZE }
    ensures bytes { AreBytes page.now.bytes }
{
    let _first = page.bytes[0];
}
