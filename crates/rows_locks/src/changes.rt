// Changes as a test writes them.
use pg_base::PageNo;
use spec_log::Cell;
use spec_plan::Planned;

/// What changes: a page, a place on it, what was there and what is.
#[derive(Drop)]
pub enum Change {
    Bit(u32, u32, u8, u8),
    Cell(u32, u32, &'static [u8], &'static [u8]),
}

fn has_cell(found: &Planned, cell: Cell, before: &[u8], after: &[u8]) -> bool {
    found.cell == cell && found.before.as_slice() == before && found.after.as_slice() == after
}

fn is_change(found: &Planned, change: &Change) -> bool {
    match change {
        Change::Bit(p, n, before, after) => {
            let page = PageNo(*p);
            has_cell(found, Cell::Bit { page, n: *n }, &[*before], &[*after])
        }
        Change::Cell(p, off, before, after) => {
            let page = PageNo(*p);
            has_cell(found, Cell::Bytes { page, off: *off }, before, after)
        }
    }
}

/// These changes, in this order.
pub fn are_changes(found: &[Planned], changes: &[Change]) -> bool {
    if found.len() != changes.len() {
        return false;
    }
    for (one, change) in found.iter().zip(changes) {
        if !is_change(one, change) {
            return false;
        }
    }
    true
}
