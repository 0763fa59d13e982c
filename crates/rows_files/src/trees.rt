// Pages with rows, and a heap of one page.
use crate::files::{PAGE, base, put};
use crate::objects::{heap, heap_page, iam_page, number, only, pfs, place, slot};
use std::alloc::{AllocError, Global};

/// Puts bytes into page p, from its byte `at` on.
pub fn put_in(file: &mut Vec<u8>, p: u16, at: u16, bytes: &[u8]) {
    put(file, PAGE * usize::from(p) + usize::from(at), bytes);
}

fn byte_in(file: &[u8], p: u16, at: u16) -> u8 {
    let place = PAGE * usize::from(p) + usize::from(at);
    file.get(place).copied().unwrap_or(0)
}

// The number in two bytes of page p.
fn number_in(file: &[u8], p: u16, at: u16) -> u16 {
    let high = at.saturating_add(1);
    u16::from_le_bytes([byte_in(file, p, at), byte_in(file, p, high)])
}

fn put_number(file: &mut Vec<u8>, p: u16, at: u16, n: u16) {
    put_in(file, p, at, &n.to_le_bytes());
}

/// Gives slot i of page p an offset.
pub fn offset(file: &mut Vec<u8>, p: u16, i: u16, at: u16) {
    let entry = 8190u16.saturating_sub(i.saturating_mul(2));
    put_number(file, p, entry, at);
}

/// Puts a row of so many bytes behind the rows of page p, with a slot for it; these bytes begin it, and
/// the rest of it stays as it was.
pub fn add_row(file: &mut Vec<u8>, p: u16, length: u16, bytes: &[u8]) {
    let count = number_in(file, p, 20);
    let free = number_in(file, p, 22);
    let from = number_in(file, p, 24);
    put_in(file, p, from, bytes);
    offset(file, p, count, from);
    put_number(file, p, 20, count.saturating_add(1));
    put_number(file, p, 22, free.saturating_sub(length.saturating_add(2)));
    put_number(file, p, 24, from.saturating_add(length));
}

/// A data row of so many bytes behind the rows of page p.
pub fn data_row(file: &mut Vec<u8>, p: u16, key: u8, length: u16) {
    let [low, high] = length.to_le_bytes();
    add_row(file, p, length, &[0x10, low, high, key]);
}

/// The object of a page of a tree, its level and its neighbours.
#[derive(Clone, Copy)]
pub struct Node {
    pub object: u8,
    pub level: u8,
    pub prev: u16,
    pub next: u16,
}

// A page without rows.
fn empty_node(file: &mut Vec<u8>, p: u16, page_type: u8, it: &Node) {
    place(file, p, page_type);
    put_in(file, p, 2, &[it.level]);
    put_in(file, p, 8, &[it.object]);
    put_in(file, p, 12, &number(it.prev));
    put_in(file, p, 16, &number(it.next));
    put_number(file, p, 20, 0);
    put_number(file, p, 22, 8096);
    put_number(file, p, 24, 96);
}

/// A leaf with a row of 11 bytes for each key.
pub fn leaf(file: &mut Vec<u8>, p: u16, it: &Node, keys: &[u8]) {
    empty_node(file, p, 1, it);
    for key in keys {
        data_row(file, p, *key, 11);
    }
}

/// An index page with these rows, of a key and a child.
pub fn index_page(file: &mut Vec<u8>, p: u16, it: &Node, rows: &[(u8, u16)]) {
    empty_node(file, p, 2, it);
    for (key, child) in rows.iter() {
        let [low, high] = child.to_le_bytes();
        let row = [6, *key, 0, 0, 0, 0, 0, 0, 0, low, high, 0, 0];
        add_row(file, p, 13, &row);
    }
}

/// Puts clustered table `id` with a name of one letter into the catalog's entry of that number less 1.
pub fn clustered(file: &mut Vec<u8>, id: u8, name: u8, first_iam: u16, root: u16) {
    let at = 9 * PAGE + 56 + 40 * usize::from(id);
    put(file, at, &[id, 0, 0, 0, 2, 1, name]);
    put(file, at + 24, &number(first_iam));
    put(file, at + 28, &number(root));
}

/// A new file of 16 pages with heap 1, whose one page is page 10. It has no rows.
pub fn empty_heap(alloc: Global, byte: u8) -> Result<Vec<u8>, AllocError> {
    let mut file = base(alloc, 16)?;
    heap(&mut file, 1, b't', 8);
    iam_page(&mut file, 8, &only(1));
    slot(&mut file, 8, 10);
    heap_page(&mut file, 10, 1);
    pfs(&mut file, 8, 0x70);
    pfs(&mut file, 10, byte);
    Ok(file)
}
