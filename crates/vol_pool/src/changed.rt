// Which pages a log changes.
ghost use Rattle.std.specs.Prelude.{◌≡◌, ◌||◌, ◌<◌, ℕ, List, [], length, reverse, IfOk};
ghost use Rattle.std.specs.List.{list_any};
ghost use Rattle.spec_file.specs.Image.{Image};
ghost use Rattle.spec_log.specs.declared.item.Record.{Record};
ghost use Rattle.spec_log.specs.Images.{final_image, page_of_cell};
ghost use Rattle.spec_run.specs.ChangedPages.{changes_page};
ghost use Rattle.vol_pool.specs.Changed.{names};
ghost use Rattle.vol_pool.specs.Writing.{is_marked, SameUnmarked};

use pg_base::NoMemory;
use spec_log::{Cell, Record};
use std::alloc::Global;

/// The page of a cell.
fn page_of(cell: &Cell) -> u32
    ensures { result ≡ page_of_cell cell.now }
{
    match cell {
        Cell::Bytes { page, .. } => page.0,
        Cell::Bit { page, .. } => page.0,
    }
}

/// The page that an item changes, if it is a Change.
fn changed_page(item: &Record) -> Option<u32>
    ensures { (p : ℕ) → changes_page p item.now ≡ names p result }
{
    match item {
        Record::Change { cell, .. } => Some(page_of(cell)),
        _ => None,
    }
}

/// Marks the page that an item changes.
fn mark(marks: &mut [bool], item: &Record)
    ensures { (p : ℕ) → p < length marks.old → is_marked marks.new p ≡ (is_marked marks.old p || changes_page p item.now) }
{
    if let Some(p) = changed_page(item) {
        let at = p as usize;
        if at < marks.len() {
            marks[at] = true;
        }
    }
}

/// Which pages of so many a log changes, the items in their order. The others stay as they were.
pub fn changed_pages(alloc: Global, items: &[Record], pages: usize) -> Result<Vec<bool>, NoMemory>
    ensures count { IfOk result (λ marks. length marks.items ≡ pages) }
    ensures marks { IfOk result (λ marks. (p : ℕ) → p < pages → is_marked marks.items p ≡ list_any (changes_page p) items.now) }
    ensures stay { IfOk result (λ marks. (image : Image) (log : List Record) → reverse log ≡ items.now → length (final_image [] log image) ≡ pages
        → SameUnmarked marks.items (final_image [] log image) image) }
{
    let mut marks = vec![in alloc; false; pages]?;
    for item in items {
        mark(&mut marks, item);
    }
    Ok(marks)
}
