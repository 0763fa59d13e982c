// The bytes of a header, the byte of a geometry, and the words of a command line.
use crate::made::{HEADER, are_all, expect, expect_bytes, expect_case};
use pg_base::{Geometry, Header, Page, PageNo, Words, read_header, write_header};
use std::test::Fail;

static WRITTEN: Header = Header {
    next: PageNo(0x0403_0201),
    ..HEADER
};

static WRITTEN_BYTES: [u8; 28] = [
    1, 1, 0, 0xab, 10, 0, 0, 0, 1, 0, 0, 0, 0, 0, 0, 0, 1, 2, 3, 4, 1, 0, 0x92, 0x1f, 0x6c, 0, 0, 0,
];

#[test]
fn a_written_header_is_read_again(rt: HostRuntime) -> Result<(), Fail> {
    let mut page = Page::zeroed(rt.alloc())?;
    page.bytes = [0xab; 8192];
    write_header(&mut page, &WRITTEN);
    expect_bytes(&rt, &page.bytes[..28], &WRITTEN_BYTES);
    expect(&rt, are_all(&page.bytes[28..], 0xab));
    expect(&rt, read_header(&page) == WRITTEN);
    Ok(())
}

static GEOMETRY_CASES: [(u8, Option<Geometry>); 4] = [
    (1, Some(Geometry::Standard)),
    (2, Some(Geometry::Small)),
    (0, None),
    (3, None),
];

#[test]
fn a_byte_names_a_geometry(rt: HostRuntime) {
    for (byte, geometry) in GEOMETRY_CASES.iter() {
        expect_case(
            &rt,
            u32::from(*byte),
            0,
            Geometry::of_byte(*byte) == *geometry,
        );
    }
}

fn has_both_words(words: &Words) -> bool {
    words.count() == 2 && words.word(0) == "check" && words.word(1) == "empty16.mdf"
}

#[test]
fn words_stand_in_the_order_they_came(rt: HostRuntime) -> Result<(), Fail> {
    let mut words = Words::begin(rt.alloc());
    words.push("check")?;
    words.push("empty16.mdf")?;
    expect(&rt, has_both_words(&words));
    Ok(())
}
