ghost use Rattle.std.specs.Prelude.{◌≡◌, ◌≢◌, ◌+◌, ◌*◌, ◌/◌, ◌<◌, ℕ, drop, take, slice_index};
ghost use Rattle.spec_file.specs.declared.sizes.TheConstants.{BIT_COUNT};
ghost use Rattle.spec_file.specs.Header.{header_of, header_version};
ghost use Rattle.spec_file.specs.Iam as spec;
ghost use Rattle.pg_base.specs.Numbers.{PutsNumber};
ghost use Rattle.pg_base.specs.Zeros.{zero_page};
ghost use Rattle.pg_iam.specs.Made.{new_header};

use pg_base::{
    Header, IAM_TYPE, MAPS_START, ObjId, PAGE_SIZE, Page, PageNo, put_u32, write_header,
};
use pg_maps::with_bit;

/// Puts a page into single-page slot i; page 0 for none. All other bytes stay.
pub fn set_slot(page: &mut Page, i: u8, p: PageNo)
    requires { i < 8 }
    ensures slot { PutsNumber 4 (104 + 4 * i) p.0 page.old.bytes page.new.bytes }
    ensures other_slots { (k : ℕ) → k ≢ i → spec.iam_slot page.new.bytes k ≡ spec.iam_slot page.old.bytes k }
{
    put_u32(page, 104 + 4 * i as usize, p.0);
}

/// Sets or clears the mark of extent n of the page's interval. All other bits and bytes stay.
pub fn set_mark(page: &mut Page, n: u32, value: bool)
    requires { n < BIT_COUNT }
    ensures mark { spec.iam_mark page.new.bytes n ≡ value }
    ensures other_marks { (k : ℕ) → k ≢ n → spec.iam_mark page.new.bytes k ≡ spec.iam_mark page.old.bytes k }
    ensures other_bytes { (i : ℕ) → i ≢ 136 + n / 8
        → slice_index page.new.bytes i ≡ slice_index page.old.bytes i }
{
    let at = 136 + n as usize / 8;
    page.bytes[at] = with_bit(page.bytes[at], n % 8, value);
}

/// Makes page p the IAM page of an object for an interval, with no slot and no mark, behind the page
/// `prev` of its chain (0 for none) and `sequence` pages in all. All other bytes become 0.
pub fn make_iam(
    page: &mut Page,
    p: PageNo,
    object: ObjId,
    interval: u32,
    sequence: u32,
    prev: PageNo,
)
    ensures header { header_of page.new.bytes ≡ new_header p object prev }
    ensures version { header_version page.new.bytes ≡ 1 }
    ensures interval { spec.iam_interval page.new.bytes ≡ interval }
    ensures sequence { spec.iam_sequence page.new.bytes ≡ sequence }
    ensures unused { slice_index page.new.bytes 3 ≡ slice_index zero_page 3 }
    ensures between { drop 28 (take MAPS_START page.new.bytes) ≡ drop 28 (take MAPS_START zero_page) }
    ensures behind { drop 104 page.new.bytes ≡ drop 104 zero_page }
{
    clear(page);
    write_header(
        page,
        &Header {
            page_type: IAM_TYPE,
            level: 0,
            page_id: p,
            object,
            prev,
            next: PageNo(0),
            slots: 0,
            free_count: 0,
            free_from: 0,
            ghosts: 0,
        },
    );
    put_u32(page, MAPS_START, interval);
    put_u32(page, 100, sequence);
}

// Makes all bytes 0.
#[tactic(auto, unfolding(pg_base::specs::Zeros::zero_page))]
fn clear(page: &mut Page)
    ensures { page.new.bytes ≡ zero_page }
{
    page.bytes = [0; PAGE_SIZE];
}
