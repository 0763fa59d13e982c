// Files with objects, and larger files.
use crate::files::{PAGE, put};
use std::alloc::{AllocError, Global};

/// The four bytes of a number.
pub fn number(n: u16) -> [u8; 4] {
    [(n % 256) as u8, (n / 256) as u8, 0, 0]
}

/// Gives page p its type and its own number.
pub fn place(file: &mut Vec<u8>, p: u16, page_type: u8) {
    let at = PAGE * usize::from(p);
    put(file, at, &[1, page_type, 0, 0]);
    put(file, at + 4, &number(p));
}

/// Puts heap `id` with a name of one letter into the catalog's entry of that number less 1.
pub fn heap(file: &mut Vec<u8>, id: u8, name: u8, first_iam: u16) {
    let at = 9 * PAGE + 56 + 40 * usize::from(id);
    put(file, at, &[id, 0, 0, 0, 1, 1, name]);
    put(file, at + 24, &number(first_iam));
}

/// The links of an IAM page, its interval and its place in the chain.
#[derive(Clone, Copy)]
pub struct Iam {
    pub object: u8,
    pub prev: u16,
    pub next: u16,
    pub interval: u8,
    pub sequence: u8,
}

/// The first page of an object's chain, and its only one.
pub fn only(object: u8) -> Iam {
    Iam {
        object,
        prev: 0,
        next: 0,
        interval: 0,
        sequence: 0,
    }
}

/// An IAM page with these links, without slots and marks.
pub fn iam_page(file: &mut Vec<u8>, p: u16, page: &Iam) {
    let at = PAGE * usize::from(p);
    place(file, p, 10);
    put(file, at + 8, &[page.object]);
    put(file, at + 12, &number(page.prev));
    put(file, at + 16, &number(page.next));
    put(file, at + 96, &[page.interval]);
    put(file, at + 100, &[page.sequence]);
}

/// Puts pages into the slots of an IAM page, from slot 0 on.
pub fn slots(file: &mut Vec<u8>, iam: u16, pages: &[u16]) {
    let at = PAGE * usize::from(iam) + 104;
    for (i, p) in pages.iter().enumerate() {
        if let Some(place) = i.checked_mul(4).and_then(|step| at.checked_add(step)) {
            put(file, place, &number(*p));
        }
    }
}

/// Puts page p into slot 0 of an IAM page.
pub fn slot(file: &mut Vec<u8>, iam: u16, p: u16) {
    put(file, PAGE * usize::from(iam) + 104, &number(p));
}

/// Puts these bytes into the bitmap of an IAM page, from extent 8 * at of its interval on.
pub fn marks(file: &mut Vec<u8>, iam: u16, at: u8, bits: &[u8]) {
    put(file, PAGE * usize::from(iam) + 136 + usize::from(at), bits);
}

/// An empty heap page.
pub fn heap_page(file: &mut Vec<u8>, p: u16, object: u8) {
    let at = PAGE * usize::from(p);
    place(file, p, 1);
    put(file, at + 8, &[object]);
    put(file, at + 22, &[0xa0, 0x1f, 96, 0]);
}

/// The PFS byte of a page that the first PFS page speaks of.
pub fn pfs(file: &mut Vec<u8>, p: u8, byte: u8) {
    put(file, PAGE + 96 + usize::from(p), &[byte]);
}

// A file of zeros but for the pages of its first extents.
fn opened(alloc: Global, pages: u16, geometry: u8) -> Result<Vec<u8>, AllocError> {
    let mut file = vec![in alloc; 0u8; PAGE * usize::from(pages)]?;
    put(&mut file, 0, &[1, 15]);
    put(&mut file, 96, b"PGCHKDB1");
    put(&mut file, 104, &[1, 0, geometry]);
    put(&mut file, 108, &number(pages));
    place(&mut file, 1, 11);
    place(&mut file, 2, 8);
    place(&mut file, 3, 9);
    place(&mut file, 9, 13);
    put(
        &mut file,
        PAGE + 96,
        &[0x44, 0x44, 0x44, 0x44, 0, 0, 0, 0, 0, 0x64],
    );
    put(&mut file, 3 * PAGE + 96, &[2]);
    Ok(file)
}

/// A new small file of 1,024 pages, which are two intervals. Its PFS pages stand on each 88th page, the
/// maps of its second interval on pages 512 and 513; their extents are not free.
pub fn two_intervals(alloc: Global) -> Result<Vec<u8>, AllocError> {
    let mut file = opened(alloc, 1024, 2)?;
    for k in 1..12 {
        place(&mut file, 88 * k, 11);
        put(&mut file, PAGE * usize::from(88 * k) + 96, &[0x44]);
    }
    place(&mut file, 512, 8);
    place(&mut file, 513, 9);
    put(&mut file, 440 * PAGE + 96 + 72, &[0x44, 0x44]);
    // Extents 0, 1, 11, 22, 33, 44 and 55; 64, 66, 77, 88, 99, 110 and 121.
    put(
        &mut file,
        2 * PAGE + 96,
        &[0xfc, 0xf7, 0xbf, 0xff, 0xfd, 0xef, 0x7f, 0xff],
    );
    put(
        &mut file,
        512 * PAGE + 96,
        &[0xfa, 0xdf, 0xff, 0xfe, 0xf7, 0xbf, 0xff, 0xfd],
    );
    Ok(file)
}

/// A new file of the standard geometry with 8,096 pages: its second PFS page is page 8,088, in the last of
/// its 1,012 extents.
pub fn two_spans(alloc: Global) -> Result<Vec<u8>, AllocError> {
    let mut file = opened(alloc, 8096, 1)?;
    place(&mut file, 8088, 11);
    put(&mut file, 8088 * PAGE + 96, &[0x44]);
    put(&mut file, 2 * PAGE + 96, &[0xfc]);
    for byte in 1..126 {
        put(&mut file, 2 * PAGE + 96 + byte, &[0xff]);
    }
    put(&mut file, 2 * PAGE + 96 + 126, &[0x07]);
    Ok(file)
}
