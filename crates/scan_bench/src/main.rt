//! `scan_bench DATA N` checks a data file of the standard geometry with N workers, 1 to 16, each with a reader of its
//! own, and prints how many errors it has. With 0 it is the check by one reader, without threads. Without words it
//! does nothing.
#![tactic(auto)]

ghost use Rattle.std.specs.Prelude.{◌≡◌, ◌<◌, ◌≤◌, All, IfOk, vec_len};
ghost use Rattle.spec_file.specs.Places.{HasShape};

mod reader;

use ck_alloc::read_maps;
use ck_facts::{AllocMap, CheckReport};
use ck_scan::{NoGate, scan, scan_one};
use pg_base::{Geometry, NoMemory, ReadStop};
use reader::{FileReader, push_reader};
use std::alloc::Global;
use std::env;
use std::io::{Read, Seek, Write};
use std::rt::Files;
use std::thread::Threads;
use vol_dev::{FileVolume, Volume};

fn number(text: Option<String>) -> u32 {
    match text {
        Some(text) => text.as_str().parse().unwrap_or(1),
        None => 1,
    }
}

fn pages_of<R: Files>(rt: &R, name: &str) -> u32 {
    let mut volume = FileVolume::at(rt, name);
    match volume.size() {
        Ok(size) => (size / 8192 % 0x10_0000) as u32,
        Err(_) => 0,
    }
}

fn readers<F: Read + Write + Seek + Drop, R: Files<File = F>>(
    rt: &R,
    alloc: Global,
    name: &str,
    pages: u32,
    count: u32,
) -> Result<Vec<FileReader<FileVolume<F>>>, NoMemory>
    ensures pages { IfOk result (λ readers. All (λ r. r.pages ≡ pages) readers.items) }
    ensures count { IfOk result (λ readers. vec_len readers ≡ count) }
{
    let mut all = Vec::new(alloc);
    for _ in 0..count {
        push_reader(&mut all, FileVolume::at(rt, name), pages)?;
    }
    Ok(all)
}

fn maps<R: Files>(rt: &R, alloc: Global, name: &str, pages: u32) -> Result<AllocMap, ReadStop>
    requires { HasShape Geometry.Standard pages }
    ensures { IfOk result (λ map. map.pages ≡ pages) }
{
    let mut reader = FileReader::of(FileVolume::at(rt, name), pages);
    read_maps(alloc, &mut reader, Geometry::Standard, pages)
}

fn by_one<R: Files>(
    rt: &R,
    alloc: Global,
    name: &str,
    map: &AllocMap,
) -> Result<CheckReport, ReadStop> {
    let mut reader = FileReader::of(FileVolume::at(rt, name), map.pages);
    scan_one(alloc, &mut reader, map)
}

fn by_many<F: Read + Write + Seek + Drop + Send, R: Files<File = F> + Threads + Sync>(
    rt: &R,
    alloc: Global,
    name: &str,
    map: &AllocMap,
    count: u32,
) -> Result<CheckReport, ReadStop>
    requires some { 0 < count }
    requires few { count ≤ 16 }
{
    let mut all = readers(rt, alloc, name, map.pages, count)?;
    scan(rt, alloc, &mut all, map, &NoGate)
}

fn main(rt: HostRuntime) -> anyhow::Result<()> {
    let mut words = env::args(&rt)?;
    let _program = words.next();
    let Some(name) = words.next() else {
        return Ok(());
    };
    let workers = number(words.next());
    let pages = pages_of(&rt, name.as_str());
    if !(16..=524_288).contains(&pages) || pages % 8 != 0 || workers > 16 {
        return Ok(());
    }
    let Ok(map) = maps(&rt, rt.alloc(), name.as_str(), pages) else {
        return Ok(());
    };
    let report = if workers == 0 {
        by_one(&rt, rt.alloc(), name.as_str(), &map)
    } else {
        by_many(&rt, rt.alloc(), name.as_str(), &map, workers)
    };
    match report {
        Ok(report) => println!(rt; "{} errors", report.errors.len())?,
        Err(_) => println!(rt; "no report")?,
    }
    Ok(())
}
