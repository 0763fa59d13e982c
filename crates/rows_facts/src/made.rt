// Objects, errors and maps, and how what is found is compared.
ghost use Rattle.std.specs.Prelude.{◌≡◌, IfOk};

use ck_facts::{AllocMap, CatRow, CheckError, ExtentMap, PageUse};
use pg_base::{Geometry, Kind, NoMemory, ObjId, PageNo};
use std::alloc::Global;
use std::process::Abort;

/// A row of a catalog, as the tests write it.
pub struct MadeRow {
    pub id: u32,
    pub kind: Kind,
    pub name: &'static str,
    pub first_iam: u32,
    pub root: u32,
}

/// A heap `t` whose chain begins on page 8.
pub const HEAP: MadeRow = MadeRow {
    id: 1,
    kind: Kind::Heap,
    name: "t",
    first_iam: 8,
    root: 0,
};

pub fn catalog_row(alloc: Global, row: &MadeRow) -> Result<CatRow, NoMemory> {
    Ok(CatRow {
        id: ObjId(row.id),
        kind: row.kind,
        name: String::from_str(alloc, row.name)?,
        first_iam: PageNo(row.first_iam),
        root: PageNo(row.root),
    })
}

/// An extent that no map names.
pub const TAKEN: ExtentMap = ExtentMap {
    free: false,
    mixed: false,
    marks: [0; 16],
};

/// An extent of single pages.
pub const MIXED: ExtentMap = ExtentMap {
    free: false,
    mixed: true,
    marks: [0; 16],
};

/// An extent that the first object marks.
pub const MARKED: ExtentMap = ExtentMap {
    free: false,
    mixed: false,
    marks: [1, 0, 0, 0, 0, 0, 0, 0, 0, 0, 0, 0, 0, 0, 0, 0],
};

/// An extent that the first two objects mark.
pub const TWICE_MARKED: ExtentMap = ExtentMap {
    free: false,
    mixed: false,
    marks: [3, 0, 0, 0, 0, 0, 0, 0, 0, 0, 0, 0, 0, 0, 0, 0],
};

/// The maps of a small file, as the tests write them.
pub struct MadeMap {
    pub objects: &'static [MadeRow],
    pub chains: &'static [CheckError],
    pub uses: &'static [PageUse],
    pub extents: &'static [ExtentMap],
    /// A byte for each page.
    pub pfs: &'static [u8],
}

fn catalog_rows(alloc: Global, rows: &[MadeRow]) -> Result<Vec<CatRow>, NoMemory> {
    let mut objects = Vec::new(alloc);
    for row in rows {
        objects.push(catalog_row(alloc, row)?)?;
    }
    Ok(objects)
}

/// These maps of a file of so many pages, with these system errors. Maps of the wrong lengths are refused.
pub fn map_of(
    alloc: Global,
    pages: u32,
    map: &MadeMap,
    system: &[CheckError],
) -> Result<AllocMap, NoMemory>
    ensures pages { IfOk result (λ map. map.pages ≡ pages) }
    ensures system { IfOk result (λ map. map.system.items ≡ system.now) }
{
    let objects = catalog_rows(alloc, map.objects)?;
    if !(16..=40).contains(&pages)
        || !pages.is_multiple_of(8)
        || objects.len() > 128
        || map.extents.len() != pages as usize / 8
        || map.pfs.len() != pages as usize
    {
        return Err(NoMemory);
    }
    Ok(AllocMap {
        geometry: Geometry::Small,
        pages,
        system: Vec::from_slice(alloc, system)?,
        objects,
        chains: Vec::from_slice(alloc, map.chains)?,
        uses: Vec::from_slice(alloc, map.uses)?,
        extents: Vec::from_slice(alloc, map.extents)?,
        pfs: Vec::from_slice(alloc, map.pfs)?,
    })
}

/// An error of object 1.
pub const WRONG: CheckError = CheckError {
    number: 0,
    object: 1,
    page: 0,
    other: 0,
    slot: 0,
    value: 0,
};

pub fn expect_errors(rt: &impl Abort, found: &[CheckError], wanted: &[CheckError], name: &str) {
    assert_eq!(rt; found, wanted, "{name}");
}
