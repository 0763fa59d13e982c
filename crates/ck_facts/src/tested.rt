// A page that passed its test, and what it says of itself.
ghost use Rattle.std.specs.Prelude.{◌≡◌, ◌+◌, ◌<◌, ◌≤◌, IsTrue, length};
ghost use Rattle.spec_file.specs.Image.{number_at};
ghost use Rattle.spec_rows.specs.Rows as rows;
ghost use Rattle.spec_rows.specs.Slots.{slot_count, has_index_rows};
ghost use Rattle.spec_tables.specs.Heads as heads;
ghost use Rattle.spec_tables.specs.PageRules as rules_of;
ghost use Rattle.spec_tables.specs.Seen as seen;
ghost use Rattle.ck_facts.specs.Tested.{page_bytes, slot_key};

use crate::page::TestedPage;
use byteorder::{ByteOrder, LittleEndian};
use pg_base::{DATA_TYPE, INDEX_TYPE, PageNo, u32_at};
use pg_pfs::fullness_of;
use spec_tree::{IndexRow, PageHead};

// The number of the eight bytes from `at`, the lowest first.
#[tactic(auto, unfolding(spec_file::specs::Image::number_at))]
fn u64_at(bytes: &[u8], at: usize) -> u64
    requires { at + 8 ≤ length bytes.now }
    ensures { result ≡ number_at 8 at bytes.now }
{
    LittleEndian::read_u64(&bytes[at..])
}

// The key of a row's bytes.
fn key_of(row: &[u8]) -> u64
    requires { 11 ≤ length row.now }
    ensures { result ≡ rows.row_key row.now }
{
    if row[0] == 0x10 {
        u64_at(row, 3)
    } else {
        u64_at(row, 1)
    }
}

impl TestedPage<'_> {
    /// The key of the row of a slot.
    pub fn key(&self, slot: u16) -> u64
        requires { slot < slot_count (page_bytes self.now) }
        ensures { result ≡ slot_key (page_bytes self.now) slot }
    {
        key_of(self.view.row(slot))
    }

    // The key of the row of a slot, where the page has that slot.
    fn key_at(&self, slot: u16) -> Option<u64>
        ensures { result ≡ heads.key_at (page_bytes self.now) slot }
    {
        if slot < self.header.slots {
            Some(self.key(slot))
        } else {
            None
        }
    }

    // The key of the last row.
    fn last_key(&self) -> Option<u64>
        ensures { result ≡ heads.last_key (page_bytes self.now) }
    {
        if self.header.slots == 0 {
            None
        } else {
            self.key_at(self.header.slots - 1)
        }
    }

    // Whether the rows name pages.
    fn has_index_rows(&self) -> bool
        ensures { result ≡ has_index_rows (page_bytes self.now) }
    {
        self.header.page_type == INDEX_TYPE
    }

    // The page that the row of a slot names.
    fn child(&self, slot: u16) -> PageNo
        requires index { IsTrue (has_index_rows (page_bytes self.now)) }
        requires slot { slot < slot_count (page_bytes self.now) }
        ensures { result.0 ≡ heads.child_at (page_bytes self.now) slot }
    {
        PageNo(u32_at(self.view.row(slot), 9))
    }

    // The page that the last row names, where the rows name pages.
    fn last_child(&self) -> PageNo
        ensures { result.0 ≡ heads.last_child (page_bytes self.now) }
    {
        if self.has_index_rows() {
            self.child(self.header.slots - 1)
        } else {
            PageNo(0)
        }
    }

    /// What the page says of itself.
    pub fn head(&self) -> PageHead
        ensures { result ≡ heads.head_of self.now.object.0 self.now.number.0 (page_bytes self.now) }
    {
        PageHead {
            object: self.object,
            page: self.number,
            level: self.header.level,
            prev: self.header.prev,
            next: self.header.next,
            first: self.key_at(0),
            last: self.last_key(),
            last_child: self.last_child(),
        }
    }

    // The page that the slot before names; 0 for slot 0.
    fn child_before(&self, slot: u16) -> PageNo
        requires index { IsTrue (has_index_rows (page_bytes self.now)) }
        requires slot { slot < slot_count (page_bytes self.now) }
        ensures { result.0 ≡ heads.child_before (page_bytes self.now) slot }
    {
        if slot == 0 {
            PageNo(0)
        } else {
            self.child(slot - 1)
        }
    }

    /// How many index rows the page has.
    pub fn index_rows(&self) -> u16
        ensures { result ≡ heads.index_rows (page_bytes self.now) }
    {
        if self.has_index_rows() {
            self.header.slots
        } else {
            0
        }
    }

    /// The index row of a slot.
    pub fn index_row(&self, slot: u16) -> IndexRow
        requires { slot < heads.index_rows (page_bytes self.now) }
        ensures { result ≡ heads.index_row self.now.object.0 self.now.number.0 (page_bytes self.now) slot }
    {
        IndexRow {
            object: self.object,
            parent: self.number,
            slot,
            level: self.header.level,
            key: self.key(slot),
            next_key: self.key_at(slot + 1),
            child: self.child(slot),
            before: self.child_before(slot),
            parent_prev: self.header.prev,
            parent_next: self.header.next,
        }
    }

    /// How many data rows the page has.
    pub fn data_rows(&self) -> u64
        ensures { result ≡ seen.rows_on (page_bytes self.now) }
    {
        if self.header.page_type == DATA_TYPE {
            u64::from(self.header.slots)
        } else {
            0
        }
    }

    /// Bits 0 to 2 that the page's PFS byte should have.
    pub fn fullness(&self) -> u8
        ensures { result ≡ rules_of.fullness_in self.now.kind (page_bytes self.now) }
    {
        if self.kind.is_clustered() {
            0
        } else {
            fullness_of(self.header.free_count)
        }
    }
}
