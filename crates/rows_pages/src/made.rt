// A heap page of object 1 with one row.
ghost use Rattle.std.specs.Prelude.{◌≤◌};

use pg_base::{Header, ObjId, Page, PageNo, put_u16, write_header};
use std::process::Abort;

/// The header of page 10, whose one row stands right behind it.
pub const HEADER: Header = Header {
    page_type: 1,
    level: 0,
    page_id: PageNo(10),
    object: ObjId(1),
    prev: PageNo(0),
    next: PageNo(0),
    slots: 1,
    free_count: 8082,
    free_from: 108,
    ghosts: 0,
};

/// Key 1 and payload `a`.
pub static ROW: [u8; 12] = [0x10, 12, 0, 1, 0, 0, 0, 0, 0, 0, 0, b'a'];

/// A page with this header, and with the row at an offset that slot 0 names.
pub fn put_page(page: &mut Page, header: &Header, at: u16)
    requires { at ≤ 8178 }
{
    page.bytes = [0; 8192];
    write_header(page, header);
    page.bytes[at as usize..at as usize + 12].copy_from_slice(&ROW);
    put_u16(page, 8190, at);
}

/// Fails the test where this does not hold.
pub fn expect(rt: &impl Abort, holds: bool) {
    assert!(rt; holds);
}

/// Fails the test, and tells the case's first two numbers, where this does not hold.
pub fn expect_case(rt: &impl Abort, first: u32, second: u32, holds: bool) {
    assert!(rt; holds, "case {first}, {second}");
}

/// All these bytes are the same as one.
pub fn are_all(bytes: &[u8], byte: u8) -> bool {
    bytes.iter().all(|b| *b == byte)
}

/// Fails the test where these bytes are others.
pub fn expect_bytes(rt: &impl Abort, bytes: &[u8], wanted: &[u8]) {
    assert_eq!(rt; bytes, wanted);
}
