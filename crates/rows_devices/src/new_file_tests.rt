// A new file on a data file in memory: its bytes, what is there where it isn't empty, and where a page fails.
use crate::made::expect;
use file_new::{NewStop, write_new};
use pg_base::{Geometry, PageNo};
use std::alloc::Global;
use std::test::Fail;
use vol_dev::{FailAt, MemVolume};

const PAGE: usize = 8192;

// Byte i of a new file of 16 pages, by the small geometry: headers, page 0, PFS bytes, and the SGAM bit of extent 1.
fn wanted(i: usize) -> u8 {
    match i {
        0 | 8192 | 16_384 | 24_576 | 73_728 => 1,
        1 => 15,
        8193 => 11,
        16_385 => 8,
        24_577 => 9,
        73_729 => 13,
        8196 => 1,
        16_388 => 2,
        24_580 => 3,
        73_732 => 9,
        96 => b'P',
        97 => b'G',
        98 => b'C',
        99 => b'H',
        100 => b'K',
        101 => b'D',
        102 => b'B',
        103 => b'1',
        104 => 1,
        106 => 2,
        108 => 16,
        8288 | 8289 | 8290 | 8291 => 0x44,
        8297 => 0x64,
        24_672 => 2,
        _ => 0,
    }
}

// The file has so many bytes at least, and all are these.
fn begins_so(bytes: &[u8], least: usize) -> bool {
    least <= bytes.len() && bytes.iter().enumerate().all(|(i, byte)| *byte == wanted(i))
}

fn empty_file(alloc: Global, failing: Vec<FailAt>) -> MemVolume {
    MemVolume::of(Vec::new(alloc), failing)
}

#[test]
fn a_new_file_is_written(rt: HostRuntime) -> Result<(), Fail> {
    let mut volume = empty_file(rt.alloc(), Vec::new(rt.alloc()));
    let answer = write_new(rt.alloc(), Geometry::Small, 16, &mut volume);
    expect(&rt, answer == Ok(()));
    let bytes = volume.into_bytes();
    expect(&rt, bytes.len() == 131_072 && begins_so(&bytes, 131_072));
    Ok(())
}

#[test]
fn a_file_that_stands_is_left(rt: HostRuntime) -> Result<(), Fail> {
    let mut volume = MemVolume::of(vec![in rt.alloc(); 7; 3]?, Vec::new(rt.alloc()));
    let answer = write_new(rt.alloc(), Geometry::Standard, 16, &mut volume);
    expect(&rt, answer == Err(NewStop::NotEmpty));
    let bytes = volume.into_bytes();
    expect(&rt, bytes.len() == 3 && bytes.iter().all(|byte| *byte == 7));
    Ok(())
}

#[test]
fn the_pages_before_one_that_fails_stand(rt: HostRuntime) -> Result<(), Fail> {
    let fourth = FailAt {
        page: PageNo(3),
        write: true,
        nth: 1,
    };
    let mut volume = empty_file(rt.alloc(), vec![in rt.alloc(); fourth]?);
    let answer = write_new(rt.alloc(), Geometry::Small, 16, &mut volume);
    expect(&rt, answer == Err(NewStop::Failed));
    let bytes = volume.into_bytes();
    let front = &bytes[..bytes.len().min(3 * PAGE)];
    expect(&rt, begins_so(front, 3 * PAGE));
    Ok(())
}
