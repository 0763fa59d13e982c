// New files, and bytes put into a file.
use std::alloc::{AllocError, Global};

/// The bytes of a page.
pub const PAGE: usize = 8192;

/// Writes these bytes from `at` on, where they fit.
pub fn put(file: &mut Vec<u8>, at: usize, bytes: &[u8]) {
    for (i, b) in bytes.iter().enumerate() {
        if let Some(cell) = at.checked_add(i).and_then(|place| file.get_mut(place)) {
            *cell = *b;
        }
    }
}

/// A new file in the small geometry, of 16 to 88 pages: the vector of the empty file, with its number
/// of pages and, in GAM, its free extents.
pub fn base(alloc: Global, pages: u8) -> Result<Vec<u8>, AllocError> {
    let mut file = vec![in alloc; 0u8; PAGE * usize::from(pages)]?;
    put(&mut file, 0, &[1, 15]);
    put(&mut file, 96, b"PGCHKDB1");
    put(&mut file, 104, &[1, 0, 2, 0, pages, 0, 0, 0]);
    put(&mut file, PAGE, &[1, 11, 0, 0, 1]);
    put(
        &mut file,
        PAGE + 96,
        &[0x44, 0x44, 0x44, 0x44, 0, 0, 0, 0, 0, 0x64],
    );
    put(&mut file, 2 * PAGE, &[1, 8, 0, 0, 2]);
    put(&mut file, 3 * PAGE, &[1, 9, 0, 0, 3]);
    put(&mut file, 3 * PAGE + 96, &[2]);
    put(&mut file, 9 * PAGE, &[1, 13, 0, 0, 9]);
    for extent in 2..usize::from(pages / 8) {
        let byte = 2 * PAGE + 96 + extent / 8;
        if let Some(cell) = file.get_mut(byte) {
            *cell |= 1 << (extent % 8);
        }
    }
    Ok(file)
}
