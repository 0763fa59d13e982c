ghost use Rattle.std.specs.Prelude.{◌≡◌, ◌++◌, [], ◌∷◌, IsTrue, IfOk, OnOk, length, map, string_bytes};
ghost use Rattle.spec_file.specs.Catalog as spec;
ghost use Rattle.spec_file.specs.CatalogRows.{row_of_entry, rows_of};
ghost use Rattle.db_cat.specs.Rows.{row_of, BadExactly};

use crate::entry::{entry_at, is_zeros, name_of};
use crate::passes::catalog_passes;
use pg_base::{Kind, NoMemory, ObjId, Page, PageNo, u32_at};
use spec_file::ENTRY_COUNT;
use std::alloc::Global;

/// An object of the catalog.
#[derive(Drop)]
pub struct CatRow {
    pub id: ObjId,
    pub kind: Kind,
    /// A letter, then letters, digits and `_`; up to 16 in all.
    pub name: String,
    /// The first page of its IAM chain.
    pub first_iam: PageNo,
    /// The root of its tree; 0 for a heap.
    pub root: PageNo,
}

/// Why a catalog was not read.
#[derive(Clone, Copy, Debug, PartialEq, Eq)]
pub enum CatStop {
    /// An entry is neither empty nor a row, or an id or name occurs twice.
    Bad,
    NoMemory,
}

/// The objects of page 9, in the order of their entries.
pub fn read_catalog(alloc: Global, page: &Page) -> Result<Vec<CatRow>, CatStop>
    ensures rows { IfOk result (λ rows. map row_of rows.items ≡ rows_of page.now.bytes) }
    ensures bad { BadExactly page.now.bytes result }
{
    if !catalog_passes(page) {
        return Err(CatStop::Bad);
    }
    match used_rows(alloc, page) {
        Ok(rows) => Ok(rows),
        Err(NoMemory) => Err(CatStop::NoMemory),
    }
}

// The rows of a catalog that passes its test.
fn used_rows(alloc: Global, page: &Page) -> Result<Vec<CatRow>, NoMemory>
    requires { spec.PassesCatalog page.now.bytes }
    ensures { IfOk result (λ rows. map row_of rows.items ≡ rows_of page.now.bytes) }
{
    let mut rows = Vec::new(alloc);
    for i in 0..ENTRY_COUNT {
        let entry = entry_at(page, i);
        if !is_zeros(entry) {
            push_row(&mut rows, alloc, entry)?;
        }
    }
    Ok(rows)
}

fn push_row(rows: &mut Vec<CatRow>, alloc: Global, entry: &[u8]) -> Result<(), NoMemory>
    requires size { length entry.now ≡ 40 }
    requires row { IsTrue (spec.is_row entry.now) }
    ensures { OnOk result (map row_of rows.new.items ≡ map row_of rows.old.items ++ row_of_entry entry.now ∷ []) }
{
    rows.push(read_row(alloc, entry)?)?;
    Ok(())
}

// The object of an entry that isn't empty.
fn read_row(alloc: Global, entry: &[u8]) -> Result<CatRow, NoMemory>
    requires size { length entry.now ≡ 40 }
    requires row { IsTrue (spec.is_row entry.now) }
    ensures { IfOk result (λ row. row_of row ≡ row_of_entry entry.now) }
{
    let kind = if entry[4] == 1 {
        Kind::Heap
    } else {
        Kind::Clustered
    };
    Ok(CatRow {
        id: ObjId(u32_at(entry, 0)),
        kind,
        name: read_name(alloc, name_of(entry))?,
        first_iam: PageNo(u32_at(entry, 24)),
        root: PageNo(u32_at(entry, 28)),
    })
}

// A name as text: its bytes are letters, digits and `_`.
fn read_name(alloc: Global, name: &[u8]) -> Result<String, NoMemory>
    requires { IsTrue (spec.is_name name.now) }
    ensures { IfOk result (λ text. string_bytes text ≡ name.now) }
{
    match std::str::from_utf8(name) {
        Ok(text) => Ok(String::from_str(alloc, text)?),
        Err(_) => unreachable!(),
    }
}
