// What a statement changes and takes, after steps over a view in memory.
ghost use Rattle.std.specs.Prelude.{◌≡◌};
ghost use Rattle.spec_file.specs.declared.geometry.Geometry.TheVariants.{Small};

use crate::changes::{Change, are_changes};
use crate::made::{locks_on, pages_of};
use db_locks::{
    MemView, PageStop, PlanPages, look_page, put_page, set_gam_bit, set_pfs_byte, set_sgam_bit,
};
use net_changes::{net_changes, net_takes};
use pg_base::{ExtentNo, Geometry, Page, PageNo, Resource};
use pg_geom::is_ordinary;
use rows_files::pieces::Piece;
use rows_files::pieces::Piece::{Bytes, Pfs};
use std::alloc::Global;
use std::test::Fail;

// What a statement puts.
#[derive(Drop)]
enum Step {
    // The GAM bit, or the SGAM bit, of an extent.
    Gam(u32, u8),
    Sgam(u32, u8),
    // The PFS byte of a page.
    Byte(u32, u8),
    // Bytes of a page, each with its offset.
    Page(u32, &'static [(u16, u8)]),
}

#[derive(Drop)]
struct Net {
    name: &'static str,
    parts: &'static [&'static [Piece]],
    steps: &'static [Step],
    changes: &'static [Change],
    takes: &'static [Resource],
}

static NETS: [Net; 10] = [
    Net {
        name: "a run ends with its extent",
        parts: &[],
        steps: &[
            Step::Byte(14, 1),
            Step::Byte(15, 1),
            Step::Byte(16, 1),
            Step::Byte(17, 1),
        ],
        changes: &[
            Change::Cell(1, 110, &[0, 0], &[1, 1]),
            Change::Cell(1, 112, &[0, 0], &[1, 1]),
        ],
        takes: &[
            Resource::Byte(PageNo(14)),
            Resource::Byte(PageNo(15)),
            Resource::Byte(PageNo(16)),
            Resource::Byte(PageNo(17)),
        ],
    },
    Net {
        name: "a run ends at a byte that stays",
        parts: &[],
        steps: &[Step::Byte(13, 3), Step::Byte(10, 1), Step::Byte(12, 2)],
        changes: &[
            Change::Cell(1, 106, &[0], &[1]),
            Change::Cell(1, 108, &[0, 0], &[2, 3]),
        ],
        takes: &[
            Resource::Byte(PageNo(10)),
            Resource::Byte(PageNo(12)),
            Resource::Byte(PageNo(13)),
        ],
    },
    Net {
        name: "GAM, SGAM and PFS, in this order",
        parts: &[],
        steps: &[Step::Byte(8, 1), Step::Sgam(1, 0), Step::Gam(1, 1)],
        changes: &[
            Change::Bit(2, 1, 0, 1),
            Change::Bit(3, 1, 1, 0),
            Change::Cell(1, 104, &[0], &[1]),
        ],
        takes: &[Resource::Extent(ExtentNo(1)), Resource::Byte(PageNo(8))],
    },
    Net {
        name: "a page that becomes allocated is one cell",
        parts: &[],
        steps: &[Step::Byte(12, 0x40), Step::Page(12, &[(94, 1), (97, 2)])],
        changes: &[
            Change::Cell(1, 108, &[0], &[0x40]),
            Change::Cell(12, 94, &[0, 0, 0, 0], &[1, 0, 0, 2]),
        ],
        takes: &[Resource::Byte(PageNo(12)), Resource::Page(PageNo(12))],
    },
    Net {
        name: "one that was allocated is not",
        parts: &[&[Pfs(12, 0x40)]],
        steps: &[Step::Byte(12, 0x41), Step::Page(12, &[(94, 1), (97, 2)])],
        changes: &[
            Change::Cell(1, 108, &[0x40], &[0x41]),
            Change::Cell(12, 97, &[0], &[2]),
            Change::Cell(12, 94, &[0], &[1]),
        ],
        takes: &[Resource::Byte(PageNo(12)), Resource::Page(PageNo(12))],
    },
    Net {
        name: "of an extent that is no longer free the first page is one cell",
        parts: &[],
        steps: &[
            Step::Gam(2, 0),
            Step::Page(16, &[(94, 1), (97, 2)]),
            Step::Page(17, &[(94, 1), (97, 2)]),
        ],
        changes: &[
            Change::Bit(2, 2, 1, 0),
            Change::Cell(16, 94, &[0, 0, 0, 0], &[1, 0, 0, 2]),
            Change::Cell(17, 97, &[0], &[2]),
            Change::Cell(17, 94, &[0], &[1]),
        ],
        takes: &[
            Resource::Extent(ExtentNo(2)),
            Resource::Page(PageNo(16)),
            Resource::Page(PageNo(17)),
        ],
    },
    Net {
        name: "an IAM page is one cell, before the other pages",
        parts: &[&[Bytes(13, 1, &[10])]],
        steps: &[
            Step::Page(12, &[(97, 2)]),
            Step::Page(13, &[(94, 1), (97, 2)]),
        ],
        changes: &[
            Change::Cell(13, 94, &[0, 0, 0, 0], &[1, 0, 0, 2]),
            Change::Cell(12, 97, &[0], &[2]),
        ],
        takes: &[Resource::Page(PageNo(12)), Resource::Page(PageNo(13))],
    },
    Net {
        name: "rows, slots, header",
        parts: &[&[Bytes(12, 20, &[2])]],
        steps: &[Step::Page(12, &[(94, 1), (97, 2), (99, 3), (8190, 4)])],
        changes: &[
            Change::Cell(12, 97, &[0, 0, 0], &[2, 0, 3]),
            Change::Cell(12, 8190, &[0], &[4]),
            Change::Cell(12, 94, &[0], &[1]),
        ],
        takes: &[Resource::Page(PageNo(12))],
    },
    Net {
        name: "slots by the greater count of before and after",
        parts: &[&[Bytes(12, 20, &[2])]],
        steps: &[Step::Page(12, &[(20, 3), (8185, 1), (8187, 7)])],
        changes: &[
            Change::Cell(12, 8185, &[0], &[1]),
            Change::Cell(12, 8187, &[0], &[7]),
            Change::Cell(12, 20, &[2], &[3]),
        ],
        takes: &[Resource::Page(PageNo(12))],
    },
    Net {
        name: "what is put back is no change, and only the extent is taken",
        parts: &[],
        steps: &[
            Step::Gam(2, 0),
            Step::Byte(12, 1),
            Step::Page(12, &[(97, 1)]),
            Step::Page(12, &[(97, 0)]),
            Step::Byte(12, 0),
            Step::Gam(2, 1),
        ],
        changes: &[],
        takes: &[Resource::Extent(ExtentNo(2))],
    },
];

fn put_gam<P: PlanPages>(
    v: &mut P,
    e: ExtentNo,
    value: u8,
    buffer: &mut Page,
) -> Result<(), PageStop>
    requires geometry { (P.state v.old).view.shape.geometry ≡ Small }
    requires pages { (P.state v.old).view.shape.pages ≡ 24 }
    ensures { (P.state v.new).view.shape ≡ (P.state v.old).view.shape }
{
    if e.0 >= 3 {
        return Err(PageStop::NoMemory);
    }
    set_gam_bit(v, Geometry::Small, e, value, buffer)
}

fn put_sgam<P: PlanPages>(
    v: &mut P,
    e: ExtentNo,
    value: u8,
    buffer: &mut Page,
) -> Result<(), PageStop>
    requires geometry { (P.state v.old).view.shape.geometry ≡ Small }
    requires pages { (P.state v.old).view.shape.pages ≡ 24 }
    ensures { (P.state v.new).view.shape ≡ (P.state v.old).view.shape }
{
    if e.0 >= 3 {
        return Err(PageStop::NoMemory);
    }
    set_sgam_bit(v, Geometry::Small, e, value, buffer)
}

fn put_byte<P: PlanPages>(v: &mut P, p: PageNo, byte: u8, buffer: &mut Page) -> Result<(), PageStop>
    requires geometry { (P.state v.old).view.shape.geometry ≡ Small }
    requires pages { (P.state v.old).view.shape.pages ≡ 24 }
    ensures { (P.state v.new).view.shape ≡ (P.state v.old).view.shape }
{
    if p.0 >= 24 {
        return Err(PageStop::NoMemory);
    }
    set_pfs_byte(v, Geometry::Small, p, byte, buffer)
}

fn edit(page: &mut Page, bytes: &[(u16, u8)]) {
    for (at, byte) in bytes {
        if let Some(cell) = page.bytes.get_mut(*at as usize) {
            *cell = *byte;
        }
    }
}

fn put_bytes<P: PlanPages>(
    v: &mut P,
    p: PageNo,
    bytes: &[(u16, u8)],
    buffer: &mut Page,
) -> Result<(), PageStop>
    requires geometry { (P.state v.old).view.shape.geometry ≡ Small }
    requires pages { (P.state v.old).view.shape.pages ≡ 24 }
    ensures { (P.state v.new).view.shape ≡ (P.state v.old).view.shape }
{
    if p.0 >= 24 || !is_ordinary(Geometry::Small, p) {
        return Err(PageStop::NoMemory);
    }
    look_page(v, p, buffer)?;
    edit(buffer, bytes);
    put_page(v, p, buffer)
}

fn take_step<P: PlanPages>(v: &mut P, step: &Step, buffer: &mut Page) -> Result<(), PageStop>
    requires geometry { (P.state v.old).view.shape.geometry ≡ Small }
    requires pages { (P.state v.old).view.shape.pages ≡ 24 }
    ensures { (P.state v.new).view.shape ≡ (P.state v.old).view.shape }
{
    match step {
        Step::Gam(e, value) => put_gam(v, ExtentNo(*e), *value, buffer),
        Step::Sgam(e, value) => put_sgam(v, ExtentNo(*e), *value, buffer),
        Step::Byte(p, byte) => put_byte(v, PageNo(*p), *byte, buffer),
        Step::Page(p, bytes) => put_bytes(v, PageNo(*p), bytes, buffer),
    }
}

fn take_steps<P: PlanPages>(v: &mut P, steps: &[Step], buffer: &mut Page) -> Result<(), PageStop>
    requires geometry { (P.state v.old).view.shape.geometry ≡ Small }
    requires pages { (P.state v.old).view.shape.pages ≡ 24 }
    ensures { (P.state v.new).view.shape ≡ (P.state v.old).view.shape }
{
    for step in steps {
        take_step(v, step, buffer)?;
    }
    Ok(())
}

fn expect_net(alloc: Global, net: &Net, pages: Vec<Page>) -> Result<(), Fail> {
    if pages.len() != 24 {
        return Err(Fail::from("24 pages"));
    }
    let mut buffer = Page::zeroed(alloc)?;
    let mut view = MemView::begin(alloc, Geometry::Small, 1, pages, locks_on(alloc, &[])?)?;
    if take_steps(&mut view, net.steps, &mut buffer).is_err() {
        return Err(Fail::from("a step"));
    }
    let changes = net_changes(alloc, &view, Geometry::Small, 24)?;
    let takes = net_takes(alloc, &view, Geometry::Small, 24)?;
    if !are_changes(&changes, net.changes) || takes.as_slice() != net.takes {
        return Err(Fail::new(format_args!("{}: {takes:?}", net.name)));
    }
    Ok(())
}

#[test]
fn a_statement_changes_and_takes_what_differs(rt: HostRuntime) -> Result<(), Fail> {
    let alloc = rt.alloc();
    for net in NETS.iter() {
        let pages = pages_of(alloc, net.parts)?;
        expect_net(alloc, net, pages)?;
    }
    Ok(())
}
