// The order of errors, and those of the allocation rules.
use crate::made::{
    HEAP, MIXED, MadeMap, MadeRow, TAKEN, TWICE_MARKED, WRONG, expect_errors, map_of,
};
use ck_alloc::alloc_errors;
use ck_error::{in_order, push_if};
use ck_facts::{CheckError, ExtentMap, PageUse};
use pg_base::NoMemory;
use std::alloc::Global;
use std::test::Fail;

// An error of no object.
const BARE: CheckError = CheckError { object: 0, ..WRONG };

static PUSHED: [(bool, CheckError); 5] = [
    (
        true,
        CheckError {
            number: 8905,
            page: 24,
            ..BARE
        },
    ),
    (
        true,
        CheckError {
            number: 8903,
            page: 32,
            ..BARE
        },
    ),
    (
        false,
        CheckError {
            number: 8904,
            page: 0,
            ..BARE
        },
    ),
    (
        true,
        CheckError {
            number: 8903,
            page: 8,
            ..BARE
        },
    ),
    (
        true,
        CheckError {
            number: 8905,
            page: 24,
            ..BARE
        },
    ),
];

static LISTED: [CheckError; 3] = [
    CheckError {
        number: 8903,
        page: 8,
        ..BARE
    },
    CheckError {
        number: 8903,
        page: 32,
        ..BARE
    },
    CheckError {
        number: 8905,
        page: 24,
        ..BARE
    },
];

#[test]
fn errors_stand_in_order_and_once(rt: HostRuntime) -> Result<(), Fail> {
    let mut errors = Vec::new(rt.alloc());
    for (holds, error) in PUSHED.iter() {
        push_if(&mut errors, *holds, *error)?;
    }
    expect_errors(&rt, in_order(errors).as_slice(), &LISTED, "in order");
    Ok(())
}

static NEW: MadeMap = MadeMap {
    objects: &[],
    chains: &[],
    uses: &[],
    extents: &[TAKEN, MIXED],
    pfs: &[
        0x44, 0x44, 0x44, 0x44, 0, 0, 0, 0, 0, 0x64, 0, 0, 0, 0, 0, 0,
    ],
};

// Extent 2 is free, mixed, marked by both objects, and page 16 has two uses; extent 3 is lost.
static DAMAGED: MadeMap = MadeMap {
    objects: &[MadeRow { id: 3, ..HEAP }, MadeRow { id: 7, ..HEAP }],
    chains: &[CheckError {
        number: 2577,
        object: 3,
        page: 16,
        value: 5,
        ..BARE
    }],
    uses: &[
        PageUse {
            page: 16,
            object: 3,
            place: 0,
        },
        PageUse {
            page: 16,
            object: 7,
            place: 8,
        },
    ],
    extents: &[
        TAKEN,
        MIXED,
        ExtentMap {
            free: true,
            mixed: true,
            ..TWICE_MARKED
        },
        TAKEN,
    ],
    pfs: &[
        0x44, 0x44, 0x44, 0x44, 0x44, 0, 0, 0, 0, 0x64, 0, 0, 0, 0, 0, 0, 0x60, 0x40, 0x01, 0, 0,
        0, 0, 0, 0, 0x44, 0x08, 0, 0, 0, 0, 0,
    ],
};

static OF_DAMAGED: [CheckError; 14] = [
    CheckError {
        number: 2577,
        object: 3,
        page: 16,
        value: 5,
        ..BARE
    },
    CheckError {
        number: 8903,
        page: 16,
        ..BARE
    },
    CheckError {
        number: 8904,
        object: 3,
        page: 16,
        other: 7,
        value: 2,
        ..BARE
    },
    CheckError {
        number: 8905,
        page: 24,
        ..BARE
    },
    CheckError {
        number: 8906,
        page: 25,
        value: 0x44,
        ..BARE
    },
    CheckError {
        number: 8910,
        object: 3,
        page: 16,
        other: 7,
        value: 2,
        ..BARE
    },
    CheckError {
        number: 8913,
        object: 3,
        page: 16,
        value: 14,
        ..BARE
    },
    CheckError {
        number: 8914,
        page: 4,
        value: 0x44,
        ..BARE
    },
    CheckError {
        number: 8914,
        object: 3,
        page: 18,
        value: 1,
        ..BARE
    },
    CheckError {
        number: 8914,
        object: 7,
        page: 18,
        value: 1,
        ..BARE
    },
    CheckError {
        number: 8948,
        page: 4,
        value: 0x44,
        ..BARE
    },
    CheckError {
        number: 8948,
        page: 26,
        value: 8,
        ..BARE
    },
    CheckError {
        number: 8948,
        object: 3,
        page: 16,
        value: 0x60,
        ..BARE
    },
    CheckError {
        number: 8948,
        object: 7,
        page: 16,
        value: 0x60,
        ..BARE
    },
];

fn errors_of(alloc: Global, pages: u32, map: &MadeMap) -> Result<Vec<CheckError>, NoMemory> {
    alloc_errors(alloc, &map_of(alloc, pages, map, &[])?)
}

#[test]
fn a_new_file_has_no_errors(rt: HostRuntime) -> Result<(), Fail> {
    expect_errors(&rt, errors_of(rt.alloc(), 16, &NEW)?.as_slice(), &[], "new");
    Ok(())
}

#[test]
fn each_rule_gives_its_errors(rt: HostRuntime) -> Result<(), Fail> {
    let found = errors_of(rt.alloc(), 32, &DAMAGED)?;
    expect_errors(&rt, found.as_slice(), &OF_DAMAGED, "damaged");
    Ok(())
}
