// The objects of a file stand by id.
ghost use Rattle.std.specs.Prelude.{◌<◌, None, false, []};

use ck_alloc::read_maps;
use ck_facts::{AllocMap, CatRow};
use db_cat::catalog_passes;
use pg_base::{Geometry, ObjId, Page, PageNo, ReadStop, SnapReader, put_u32};
use std::process::Abort;
use std::test::Fail;

// Puts a heap with first IAM page 8 into an entry.
fn put_heap(page: &mut Page, at: usize, id: u32, name: u8)
    requires { at < 8000 }
{
    put_u32(page, at, id);
    page.bytes[at + 4] = 1;
    page.bytes[at + 5] = 1;
    page.bytes[at + 6] = name;
    put_u32(page, at + 24, 8);
}

// The system pages of a small file, and page 9 with heaps 7, 2 and 5 in its first, third and last entry.
#[derive(Drop)]
struct SystemPages {
    pages: u32,
}

impl SnapReader for SystemPages {
    ghost use Rattle.std.proofs.lemmas.Option.{none-some};

    ghost pages = { λ r. r.pages };

    ghost image = { λ _. None };

    ghost ended = { λ _. false };

    ghost faults = { λ _. 0 };

    ghost failed = { λ _. None };

    ghost bound = { λ _. [] };

    ghost whole = { λ _ x at. absurd (none-some x at) };

    fn page(&mut self, p: PageNo, into: &mut Page) -> Result<(), ReadStop> {
        into.bytes = [0; 8192];
        into.bytes[0] = 1;
        into.bytes[1] = match p.0 {
            1 => 11,
            2 => 8,
            3 => 9,
            9 => 13,
            _ => 0,
        };
        put_u32(into, 4, p.0);
        if p.0 == 9 {
            put_heap(into, 96, 7, b'a');
            put_heap(into, 96 + 40 * 2, 2, b'c');
            put_heap(into, 96 + 40 * 127, 5, b'b');
        }
        Ok(())
    }
}

// The ids and names of objects, by id.
static BY_ID: [(u32, &str); 3] = [(2, "c"), (5, "b"), (7, "a")];

fn is_object(row: &CatRow, id: u32, name: &str) -> bool {
    row.id == ObjId(id) && row.name.as_str() == name
}

fn expect_objects(rt: &impl Abort, map: &AllocMap) {
    assert_eq!(rt; map.objects.len(), BY_ID.len());
    for (row, (id, name)) in map.objects.iter().zip(BY_ID.iter()) {
        assert!(rt; is_object(row, *id, name), "object {id}");
    }
}

#[test]
fn the_catalog_of_the_file_passes(rt: HostRuntime) -> Result<(), Fail> {
    let mut reader = SystemPages { pages: 16 };
    let mut boot = Page::zeroed(rt.alloc())?;
    assert!(rt; reader.page(PageNo(9), &mut boot).is_ok());
    assert!(rt; catalog_passes(&boot));
    Ok(())
}

#[test]
fn objects_stand_by_id(rt: HostRuntime) -> Result<(), Fail> {
    let mut reader = SystemPages { pages: 16 };
    let map = read_maps(rt.alloc(), &mut reader, Geometry::Small, 16)?;
    expect_objects(&rt, &map);
    Ok(())
}
