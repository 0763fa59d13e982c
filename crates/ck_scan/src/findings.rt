// What pages show together.
ghost use Rattle.std.specs.Prelude.{◌≡◌, ℕ, ◌<◌, [], IfOk, OnOk, true, false, Contains, map, max, length, vec_len};
ghost use Rattle.spec_file.specs.Image.{Image, page as image_page};
ghost use Rattle.spec_file.specs.Roles.{is_ordinary};
ghost use Rattle.spec_check.specs.declared.report.CheckError.{CheckError};
ghost use Rattle.spec_tables.specs.PageRules as spec;
ghost use Rattle.ck_error.specs.Gathered.{Adds, Below};
ghost use Rattle.ck_facts.specs.declared.map.AllocMap.{AllocMap};
ghost use Rattle.ck_facts.specs.Maps.{HasNoSystemErrors};
ghost use Rattle.ck_facts.specs.MapOf.{IsMapOf};
ghost use Rattle.ck_facts.specs.Owners.{IsOwnerIn};
ghost use Rattle.ck_merge.specs.Held.{roots_in, roots_of, count_of};
ghost use Rattle.ck_scan.specs.Counted.{IsOneMore, IsSumOf, AreSums};
ghost use Rattle.ck_scan.specs.Found.{AreFound, AreJoined, AddsPage, CountsWhere, IsLike, Takes};

use ck_error::CheckError;
use ck_facts::{AllocMap, CatRow, PageFacts, TableLine, facts_of_page};
use ck_merge::Parts;
use pg_base::{NoMemory, ObjId, Page, PageNo};
use std::alloc::Global;

/// What the pages that were met show: their errors, what they show for the rules of trees, and a line for
/// each object that counts those that are seen of it.
#[derive(Drop)]
pub struct Findings {
    pub errors: Vec<CheckError>,
    pub parts: Parts,
    pub lines: Vec<TableLine>,
}

// The error of a page that no object may own.
fn not_ordinary(p: PageNo, object: ObjId) -> CheckError
    ensures { result ≡ spec.not_ordinary object.0 p.0 }
{
    CheckError {
        number: 8928,
        object: object.0,
        page: p.0,
        other: 0,
        slot: 0,
        value: 0,
    }
}

// A line of each object that counts nothing yet.
fn blank_lines(alloc: Global, objects: &[CatRow]) -> Result<Vec<TableLine>, NoMemory>
    ensures { IfOk result (λ lines. lines.items ≡ map (λ row. record { object = row.id.0; rows = 0; pages = 0 }) objects.now) }
{
    Ok(
        objects
            .iter()
            .map(|row| TableLine {
                object: row.id.0,
                rows: 0,
                pages: 0,
            })
            .collect(alloc)?,
    )
}

// The line with one page more. A count stands still at its type's end.
fn with_page(line: TableLine, rows: u64) -> TableLine
    ensures { IsOneMore line result rows }
{
    TableLine {
        object: line.object,
        rows: line.rows.saturating_add(rows),
        pages: line.pages.saturating_add(1),
    }
}

// Counts a page of the i-th object where it is seen.
fn count_page(lines: &mut Vec<TableLine>, i: usize, seen: bool, rows: u64)
    requires { i < vec_len lines.old }
    ensures counts { CountsWhere seen lines.old.items lines.new.items i rows }
    ensures size { vec_len lines.new ≡ vec_len lines.old }
{
    if seen {
        lines[i] = with_page(lines[i], rows);
    }
}

// The counts of both lines of an object.
fn with_line(line: TableLine, more: TableLine) -> TableLine
    ensures { IsSumOf line more result }
{
    TableLine {
        object: line.object,
        rows: line.rows.saturating_add(more.rows),
        pages: line.pages.saturating_add(more.pages),
    }
}

// Adds the counts of other lines of the same objects.
fn add_lines(lines: &mut Vec<TableLine>, more: &[TableLine])
    requires { length more.now ≡ vec_len lines.old }
    ensures sums { AreSums lines.old.items more.now lines.new.items }
    ensures size { vec_len lines.new ≡ vec_len lines.old }
{
    for i in 0..more.len() {
        lines[i] = with_line(lines[i], more[i]);
    }
}

fn add_errors(errors: &mut Vec<CheckError>, more: &[CheckError]) -> Result<(), NoMemory>
    ensures { OnOk result (Adds errors.old.items errors.new.items (Contains more.now)) }
{
    errors.extend_from_slice(more)?;
    Ok(())
}

impl Findings {
    /// Nothing is found before the first page. Facts are filed in so many parts.
    pub fn begin(alloc: Global, map: &AllocMap, parts: u32) -> Result<Findings, NoMemory>
        requires { HasNoSystemErrors map.now }
        ensures found { IfOk result (λ found. (image : Image) → AreFound image map.now (Below 0 (IsOwnerIn map.now.geometry image)) found) }
        ensures lines { IfOk result (λ found. vec_len found.lines ≡ vec_len map.now.objects) }
        ensures roots { IfOk result (λ found. roots_in found.parts ≡ roots_of map.now.objects.items) }
        ensures parts { IfOk result (λ found. count_of found.parts ≡ max parts 1) }
    {
        Ok(Findings {
            errors: Vec::new(alloc),
            parts: Parts::begin(alloc, map, parts)?,
            lines: blank_lines(alloc, &map.objects)?,
        })
    }

    // Takes what a page shows for the i-th object.
    fn take(&mut self, i: usize, shown: &PageFacts) -> Result<(), NoMemory>
        requires { i < vec_len self.old.lines }
        ensures takes { OnOk result (Takes shown.now i self.old self.new) }
        ensures lines { vec_len self.new.lines ≡ vec_len self.old.lines }
        ensures roots { roots_in self.new.parts ≡ roots_in self.old.parts }
        ensures parts { count_of self.new.parts ≡ count_of self.old.parts }
    {
        add_errors(&mut self.errors, &shown.errors)?;
        self.parts.add(&shown.facts)?;
        count_page(&mut self.lines, i, shown.seen, shown.rows);
        Ok(())
    }

    /// Takes what a page shows that an object may own.
    pub fn add_page(
        &mut self,
        alloc: Global,
        map: &AllocMap,
        owned: (PageNo, ObjId),
        page: &Page,
    ) -> Result<(), NoMemory>
        requires inside { owned.0.0 < map.now.pages }
        requires lines { vec_len self.old.lines ≡ vec_len map.now.objects }
        ensures adds { OnOk result ((image : Image) (e : ℕ) → IsMapOf image map.now → HasNoSystemErrors map.now
            → IsOwnerIn map.now.geometry image e owned → is_ordinary map.now.geometry owned.0.0 ≡ true
            → page.now.bytes ≡ image_page image owned.0.0 → AddsPage image map.now owned self.old self.new) }
        ensures lines { vec_len self.new.lines ≡ vec_len self.old.lines }
        ensures roots { roots_in self.new.parts ≡ roots_in self.old.parts }
        ensures parts { count_of self.new.parts ≡ count_of self.old.parts }
    {
        let Some(place) = map.place_of(owned.1) else {
            return Ok(());
        };
        let row = &map.objects[place];
        let shown = facts_of_page(alloc, page, owned.0, row, map.pfs(owned.0))?;
        self.take(place, &shown)?;
        Ok(())
    }

    /// Takes that no object may own the page.
    pub fn add_not_ordinary(&mut self, owned: (PageNo, ObjId)) -> Result<(), NoMemory>
        ensures adds { OnOk result ((image : Image) (m : AllocMap) (e : ℕ) → IsOwnerIn m.geometry image e owned
            → is_ordinary m.geometry owned.0.0 ≡ false → AddsPage image m owned self.old self.new) }
        ensures lines { vec_len self.new.lines ≡ vec_len self.old.lines }
        ensures roots { roots_in self.new.parts ≡ roots_in self.old.parts }
        ensures parts { count_of self.new.parts ≡ count_of self.old.parts }
    {
        self.errors.push(not_ordinary(owned.0, owned.1))?;
        Ok(())
    }

    /// Takes what was found besides, on other pages of the same file. After want of memory it is to be given up.
    pub fn join(&mut self, other: Findings) -> Result<(), NoMemory>
        requires { IsLike self.old other }
        ensures joins { OnOk result (AreJoined self.old other self.new) }
        ensures like { IsLike self.old self.new }
    {
        let Findings {
            errors,
            parts,
            lines,
        } = other;
        add_errors(&mut self.errors, &errors)?;
        self.parts.join(parts)?;
        add_lines(&mut self.lines, &lines);
        Ok(())
    }
}
