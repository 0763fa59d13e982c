// Pages for the devices.
use pg_base::Page;
use std::alloc::Global;
use std::process::Abort;
use std::test::Fail;

/// A page whose bytes are all the same.
pub fn page_of(alloc: Global, byte: u8) -> Result<Box<Page>, Fail> {
    let page = Page {
        bytes: [byte; 8192],
    };
    Ok(Box::new(alloc, page)?)
}

/// Fails the test where this does not hold.
pub fn expect(rt: &impl Abort, holds: bool) {
    assert!(rt; holds);
}

/// Fails the test where these bytes are others.
pub fn expect_bytes(rt: &impl Abort, bytes: &[u8], wanted: &[u8]) {
    assert_eq!(rt; bytes, wanted);
}
