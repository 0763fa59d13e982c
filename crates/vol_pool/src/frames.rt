// Pages in memory, and how bytes and bits are put into them.
ghost use Rattle.std.specs.Prelude.{◌≡◌, ◌+◌, ◌-◌, ◌*◌, ◌/◌, ◌%◌, ◌<◌, ◌≤◌, ℕ, [], ◌∷◌, ◌++◌, length, IfOk, OnOk, OnErr};
ghost use Rattle.spec_file.specs.Image.{page};
ghost use Rattle.spec_file.specs.declared.sizes.TheConstants.{PAGE_SIZE};
ghost use Rattle.spec_file.specs.declared.sizes.TheConstants.{BIT_COUNT};
ghost use Rattle.spec_log.specs.Cells.{with_bytes, with_map_bit, put as image_with};
ghost use Rattle.spec_log.specs.Images.{page_of_cell};
ghost use Rattle.vol_pool.specs.Cells.{FitsCell};

use pg_base::{MAPS_START, Page};
use spec_file::NoMemory;
use spec_log::{Cell, byte_with_bit};
use std::alloc::Global;
use std::marker::Model;

/// One page, which contracts see as its bytes.
#[derive(Drop)]
pub struct Frame {
    page: Box<Page>,
}

impl Model for Frame {
    ghost use Rattle.std.specs.Prelude.{List, ℕ};
    ghost use Rattle.std.specs.Coded.{coded_list, coded_ℕ};

    ghost Value = { List ℕ };

    ghost coded = { coded_list coded_ℕ };

    ghost view = { λ f. f.page.value.bytes };
}

impl Frame {
    pub fn of(page: Box<Page>) -> Frame
        ensures { result ≡ page.value.bytes }
    {
        Frame { page }
    }

    pub fn page(&self) -> &Page
        ensures { result.now.bytes ≡ self.now }
    {
        &self.page
    }

    /// Puts bytes into the page at an offset.
    fn put_bytes(&mut self, off: usize, bytes: &[u8])
        requires { off + length bytes.now ≤ PAGE_SIZE }
        ensures { self.new ≡ with_bytes self.old off bytes.now }
    {
        put_bytes(&mut self.page, off, bytes);
    }

    /// Turns bit n of a map page to v.
    fn put_bit(&mut self, n: u32, v: u8)
        requires { n < BIT_COUNT }
        ensures { self.new ≡ with_map_bit self.old n v }
    {
        put_bit(&mut self.page, n, v);
    }

    /// A frame with the same page.
    fn copied(&self, alloc: Global) -> Result<Frame, NoMemory>
        ensures { IfOk result (λ f. f ≡ self.now) }
    {
        let bytes = self.page.bytes;
        Ok(Frame {
            page: Box::new(alloc, Page { bytes })?,
        })
    }
}

/// The pages of a file, which contracts see as an image.
#[derive(Drop)]
pub struct Frames {
    frames: Vec<Frame>,
}

impl Model for Frames {
    ghost use Rattle.std.specs.Prelude.{List, ℕ};
    ghost use Rattle.std.specs.Coded.{coded_list, coded_ℕ};

    ghost Value = { List (List ℕ) };

    ghost coded = { coded_list (coded_list coded_ℕ) };

    ghost view = { λ f. f.frames.items };
}

impl Frames {
    /// No pages.
    pub fn empty(alloc: Global) -> Frames
        ensures { result ≡ [] }
    {
        Frames {
            frames: Vec::new(alloc),
        }
    }

    /// How many pages there are.
    pub fn count(&self) -> usize
        ensures { result ≡ length self.now }
    {
        self.frames.len()
    }

    /// Page p.
    pub fn page(&self, p: usize) -> &Page
        requires { p < length self.now }
        ensures { result.now.bytes ≡ page self.now p }
    {
        self.frames[p].page()
    }

    /// One page more, at the end.
    pub fn push(&mut self, page: Box<Page>) -> Result<(), NoMemory>
        ensures ok { OnOk result (self.new ≡ self.old ++ page.value.bytes ∷ []) }
        ensures err { OnErr result (self.new ≡ self.old) }
    {
        self.frames.push(Frame::of(page))?;
        Ok(())
    }

    /// The same pages once more.
    pub fn copied(&self, alloc: Global) -> Result<Frames, NoMemory>
        ensures { IfOk result (λ f. f ≡ self.now) }
    {
        let mut frames = Vec::new(alloc);
        for frame in &self.frames {
            frames.push(frame.copied(alloc)?)?;
        }
        Ok(Frames { frames })
    }

    /// These bytes, or this bit, stand in a cell from here on.
    pub fn put(&mut self, cell: Cell, bytes: &[u8])
        requires inside { page_of_cell cell < length self.old }
        requires fits { FitsCell cell bytes.now }
        ensures { self.new ≡ image_with self.old cell bytes.now }
    {
        match cell {
            Cell::Bytes { page, off } => {
                self.frames[page.0 as usize].put_bytes(off as usize, bytes);
            }
            Cell::Bit { page, n } => {
                self.frames[page.0 as usize].put_bit(n, bytes[0]);
            }
        }
    }
}

/// Puts bytes into a page at an offset.
#[tactic(auto, using(crate::proofs::Puts::with_more, crate::proofs::Puts::with_none))]
fn put_bytes(page: &mut Page, off: usize, bytes: &[u8])
    requires { off + length bytes.now ≤ PAGE_SIZE }
    ensures { page.new.bytes ≡ with_bytes page.old.bytes off bytes.now }
{
    for (i, byte) in bytes.iter().enumerate() {
        page.bytes[off + i] = *byte;
    }
}

/// Turns bit n of a map page to v.
fn put_bit(page: &mut Page, n: u32, v: u8)
    requires { n < BIT_COUNT }
    ensures { page.new.bytes ≡ with_map_bit page.old.bytes n v }
{
    let at = MAPS_START + n as usize / 8;
    page.bytes[at] = byte_with_bit(page.bytes[at], n % 8, v);
}
