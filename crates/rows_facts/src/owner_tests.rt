// Which pages of an extent objects own.
ghost use Rattle.std.specs.Prelude.{◌<◌};

use crate::made::{HEAP, MadeMap, MadeRow, TAKEN, TWICE_MARKED, map_of};
use ck_facts::PageUse;
use pg_base::{ExtentNo, NoMemory, ObjId, PageNo};
use std::alloc::Global;
use std::process::Abort;
use std::test::Fail;

// Objects 3 and 7. Both hold page 10 in a slot, 3 has page 11 in its chain, 7 holds page 12. Both mark extent 2,
// whose page 17 isn't allocated; 7 holds page 18 in a slot as well.
static MAPPED: MadeMap = MadeMap {
    objects: &[MadeRow { id: 3, ..HEAP }, MadeRow { id: 7, ..HEAP }],
    chains: &[],
    uses: &[
        PageUse {
            page: 10,
            object: 3,
            place: 0,
        },
        PageUse {
            page: 10,
            object: 7,
            place: 2,
        },
        PageUse {
            page: 11,
            object: 3,
            place: 8,
        },
        PageUse {
            page: 12,
            object: 7,
            place: 7,
        },
        PageUse {
            page: 18,
            object: 7,
            place: 1,
        },
    ],
    extents: &[TAKEN, TAKEN, TWICE_MARKED],
    pfs: &[
        0x44, 0x44, 0x44, 0x44, 0, 0, 0, 0, 0, 0x64, 0x61, 0x70, 0x61, 0, 0, 0, 0x41, 0x01, 0x42,
        0, 0, 0, 0, 0,
    ],
};

static SINGLE: [(PageNo, ObjId); 3] = [
    (PageNo(10), ObjId(3)),
    (PageNo(10), ObjId(7)),
    (PageNo(12), ObjId(7)),
];

static OF_EXTENT: [(PageNo, ObjId); 4] = [
    (PageNo(16), ObjId(3)),
    (PageNo(16), ObjId(7)),
    (PageNo(18), ObjId(3)),
    (PageNo(18), ObjId(7)),
];

fn expect_owners(
    rt: &impl Abort,
    alloc: Global,
    extent: u32,
    wanted: &[(PageNo, ObjId)],
) -> Result<(), NoMemory>
    requires { extent < 3 }
{
    let map = map_of(alloc, 24, &MAPPED, &[])?;
    let found = map.pages_in(alloc, ExtentNo(extent))?;
    assert_eq!(rt; found.as_slice(), wanted, "extent {extent}");
    Ok(())
}

#[test]
fn each_page_stands_with_each_of_its_owners(rt: HostRuntime) -> Result<(), Fail> {
    expect_owners(&rt, rt.alloc(), 1, &SINGLE)?;
    expect_owners(&rt, rt.alloc(), 2, &OF_EXTENT)?;
    expect_owners(&rt, rt.alloc(), 0, &[])?;
    Ok(())
}
