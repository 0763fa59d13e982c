// Who is told that a resource is held.
use db_locks::LockTable;
use pg_base::{ExtentNo, ObjId, PageNo, Resource, Tran};
use std::test::Fail;

#[derive(Drop)]
enum Step {
    // A transaction takes a resource, and is told who holds it, or nobody.
    Takes(u64, Resource, Option<u64>),
    Ends(u64),
}

const PAGE: Resource = Resource::Page(PageNo(8));

const BYTE: Resource = Resource::Byte(PageNo(8));

static STEPS: [Step; 12] = [
    Step::Takes(1, Resource::Catalog, None),
    Step::Takes(1, Resource::Table(ObjId(8)), None),
    Step::Takes(1, Resource::Extent(ExtentNo(8)), None),
    Step::Takes(1, BYTE, None),
    // The same number in another grain, and once more.
    Step::Takes(2, PAGE, None),
    Step::Takes(2, PAGE, None),
    Step::Takes(2, Resource::Catalog, Some(1)),
    Step::Takes(1, PAGE, Some(2)),
    // What one transaction leaves, another may take; the other's stays.
    Step::Ends(1),
    Step::Takes(3, BYTE, None),
    Step::Takes(2, Resource::Table(ObjId(8)), None),
    Step::Takes(3, PAGE, Some(2)),
];

fn holder_told(table: &mut LockTable, by: u64, r: Resource) -> Result<Option<u64>, Fail> {
    table.reserve(1)?;
    match table.take(r, Tran(by)) {
        Ok(()) => Ok(None),
        Err(held) => Ok(Some(held.by.0)),
    }
}

fn make(table: &mut LockTable, step: &Step) -> Result<(), Fail> {
    match step {
        Step::Ends(by) => table.release_all(Tran(*by)),
        Step::Takes(by, r, wanted) => {
            let found = holder_told(table, *by, *r)?;
            if found != *wanted {
                return Err(Fail::new(format_args!("{by} at {r:?}: {found:?}")));
            }
        }
    }
    Ok(())
}

#[test]
fn a_resource_has_one_holder_until_that_ends(rt: HostRuntime) -> Result<(), Fail> {
    let mut table = LockTable::begin(rt.alloc());
    for step in STEPS.iter() {
        make(&mut table, step)?;
    }
    Ok(())
}
