// The places of map bits and PFS bytes, what each page is for, and what the bits and bytes are.
use crate::made::{expect, expect_case};
use pg_base::{ExtentNo, Geometry, Page, PageNo, Role};
use pg_geom::{gam_of, interval_of, is_system, page_limit, pfs_of, role_of, sgam_of};
use pg_maps::{bit, first_set_from, set_bit, with_bit};
use pg_pfs::{PfsKind, expected, fullness_of};
use std::test::Fail;

static ROLE_CASES: [(Geometry, u32, Role); 17] = [
    (Geometry::Standard, 0, Role::FileHeader),
    (Geometry::Standard, 1, Role::Pfs),
    (Geometry::Standard, 2, Role::Gam),
    (Geometry::Standard, 3, Role::Sgam),
    (Geometry::Standard, 4, Role::Reserved),
    (Geometry::Standard, 8, Role::Ordinary),
    (Geometry::Standard, 9, Role::Boot),
    (Geometry::Standard, 8088, Role::Pfs),
    (Geometry::Standard, 8089, Role::Reserved),
    (Geometry::Standard, 8096, Role::Ordinary),
    (Geometry::Standard, 511_232, Role::Gam),
    (Geometry::Standard, 511_233, Role::Sgam),
    (Geometry::Small, 88, Role::Pfs),
    (Geometry::Small, 512, Role::Gam),
    (Geometry::Small, 513, Role::Sgam),
    (Geometry::Small, 514, Role::Reserved),
    (Geometry::Small, 520, Role::Ordinary),
];

#[test]
fn pages_have_their_roles(rt: HostRuntime) {
    for (g, p, role) in ROLE_CASES.iter() {
        let has_role = *p < page_limit(*g) && role_of(*g, PageNo(*p)) == *role;
        expect_case(&rt, *p, 0, has_role);
    }
}

fn is_place(place: (PageNo, u32), page: u32, at: u32) -> bool {
    place.0 == PageNo(page) && place.1 == at
}

#[test]
fn bytes_have_their_places(rt: HostRuntime) {
    let (standard, small) = (Geometry::Standard, Geometry::Small);
    expect(&rt, is_place(pfs_of(standard, PageNo(8087)), 1, 8183));
    expect(&rt, is_place(pfs_of(standard, PageNo(8088)), 8088, 96));
    expect(&rt, is_place(pfs_of(small, PageNo(100)), 88, 108));
}

#[test]
fn bits_have_their_places(rt: HostRuntime) {
    let (standard, small) = (Geometry::Standard, Geometry::Small);
    expect(&rt, is_place(gam_of(standard, ExtentNo(63_903)), 2, 63_903));
    expect(
        &rt,
        is_place(gam_of(standard, ExtentNo(63_905)), 511_232, 1),
    );
    expect(&rt, is_place(sgam_of(small, ExtentNo(63)), 3, 63));
    expect(&rt, is_place(sgam_of(small, ExtentNo(64)), 513, 0));
}

#[test]
fn extents_have_their_intervals(rt: HostRuntime) {
    let small = Geometry::Small;
    expect(&rt, interval_of(small, ExtentNo(130)) == 2);
    expect(
        &rt,
        is_system(small, ExtentNo(11)) && !is_system(small, ExtentNo(12)),
    );
}

// Extent 1 alone is set in the SGAM page of an empty file: its first byte is 2.
#[test]
fn bits_count_from_the_lowest(rt: HostRuntime) -> Result<(), Fail> {
    let mut page = Page::zeroed(rt.alloc())?;
    set_bit(&mut page, 1, true);
    expect(&rt, page.bytes[96] == 2 && bit(&page, 1) && !bit(&page, 0));
    set_bit(&mut page, 63_903, true);
    expect(&rt, page.bytes[8083] == 0x80);
    set_bit(&mut page, 1, false);
    expect(&rt, page.bytes[96] == 0 && with_bit(0x0f, 7, true) == 0x8f);
    Ok(())
}

fn finds_first(page: &Page) -> bool {
    first_set_from(page, 0, 63_904) == Some(1)
        && first_set_from(page, 2, 63_904) == Some(63_903)
        && first_set_from(page, 2, 63_903) == None
}

#[test]
fn the_first_set_bit_is_found(rt: HostRuntime) -> Result<(), Fail> {
    let mut page = Page::zeroed(rt.alloc())?;
    set_bit(&mut page, 1, true);
    set_bit(&mut page, 63_903, true);
    expect(&rt, finds_first(&page));
    Ok(())
}

static FULLNESS_CASES: [(u16, u8); 9] = [
    (0, 0),
    (1, 1),
    (4048, 1),
    (4049, 2),
    (6476, 2),
    (6477, 3),
    (7691, 3),
    (7692, 4),
    (8096, 4),
];

#[test]
fn fullness_changes_at_its_bounds(rt: HostRuntime) {
    for (used, fullness) in FULLNESS_CASES.iter() {
        let is_so_full = *used <= 8096 && fullness_of(8096 - *used) == *fullness;
        expect_case(&rt, u32::from(*used), u32::from(*fullness), is_so_full);
    }
}

static BYTE_CASES: [(PfsKind, u8, u8); 7] = [
    (PfsKind::System, 0, 0x44),
    (PfsKind::Reserved, 0, 0),
    (PfsKind::Boot, 0, 0x64),
    (PfsKind::Iam, 0, 0x70),
    (PfsKind::Single, 3, 0x63),
    (PfsKind::Uniform, 1, 0x41),
    (PfsKind::Unused, 4, 0),
];

#[test]
fn each_use_has_its_byte(rt: HostRuntime) {
    for (kind, fullness, byte) in BYTE_CASES.iter() {
        let has_byte = *fullness <= 4 && expected(*kind, *fullness) == *byte;
        expect_case(&rt, u32::from(*fullness), u32::from(*byte), has_byte);
    }
}
