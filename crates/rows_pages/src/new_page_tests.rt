// Map pages of new files: which extents are free, and the PFS bytes of a later span.
use crate::made::{are_all, expect, expect_bytes};
use db_make::make_page;
use pg_base::{Geometry, Page, PageNo};
use std::test::Fail;

// Of the extents 0 to 11 the maps have 0, page 9 has 1, and the PFS page 88 has 11.
#[test]
fn a_small_file_has_nine_free_extents(rt: HostRuntime) -> Result<(), Fail> {
    let mut page = Page::zeroed(rt.alloc())?;
    make_page(Geometry::Small, 96, PageNo(2), &mut page);
    expect_bytes(&rt, &page.bytes[..8], &[1, 8, 0, 0, 2, 0, 0, 0]);
    expect_bytes(&rt, &page.bytes[96..98], &[0xFC, 0x07]);
    expect(&rt, are_all(&page.bytes[98..], 0));
    Ok(())
}

// Of the extents 64 to 127 the maps have 64, and the PFS pages 528, 616, 704, 792, 880 and 968 have 66, 77, 88, 99, 110
// and 121.
#[test]
fn the_second_interval_has_its_free_extents(rt: HostRuntime) -> Result<(), Fail> {
    let mut page = Page::zeroed(rt.alloc())?;
    make_page(Geometry::Small, 1024, PageNo(512), &mut page);
    expect_bytes(&rt, &page.bytes[..8], &[1, 8, 0, 0, 0, 2, 0, 0]);
    expect_bytes(
        &rt,
        &page.bytes[96..104],
        &[0xFA, 0xDF, 0xFF, 0xFE, 0xF7, 0xBF, 0xFF, 0xFD],
    );
    expect(&rt, are_all(&page.bytes[104..], 0));
    make_page(Geometry::Small, 1024, PageNo(513), &mut page);
    expect_bytes(&rt, &page.bytes[..8], &[1, 9, 0, 0, 1, 2, 0, 0]);
    expect(&rt, are_all(&page.bytes[8..], 0));
    Ok(())
}

#[test]
fn the_second_span_has_its_bytes(rt: HostRuntime) -> Result<(), Fail> {
    let mut page = Page::zeroed(rt.alloc())?;
    make_page(Geometry::Small, 96, PageNo(88), &mut page);
    expect_bytes(&rt, &page.bytes[..8], &[1, 11, 0, 0, 88, 0, 0, 0]);
    expect_bytes(&rt, &page.bytes[96..98], &[0x44, 0]);
    expect(&rt, are_all(&page.bytes[97..], 0));
    Ok(())
}

// What stood there before goes.
#[test]
fn a_page_for_objects_is_zeros(rt: HostRuntime) {
    let mut page = Page { bytes: [7; 8192] };
    make_page(Geometry::Standard, 524_288, PageNo(511_240), &mut page);
    expect(&rt, are_all(&page.bytes, 0));
}
