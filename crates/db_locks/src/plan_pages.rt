//! The view of a transaction while a statement is planned.
ghost use Rattle.std.specs.Prelude.{◌≡◌, ◌<◌, ℕ, IsTrue, None, Contains, IfErr, OnOk, OnErr, take as front, slice_set};
ghost use Rattle.std.specs.Option.{option_map};
ghost use Rattle.spec_file.specs.declared.data.Resource.{Resource};
ghost use Rattle.spec_file.specs.declared.data.PageNo.{PageNo};
ghost use Rattle.spec_file.specs.Image.{page, maps_start};
ghost use Rattle.spec_file.specs.Places.{HasShape};
ghost use Rattle.spec_words.specs.Words.{look, take, with_taken};
ghost use Rattle.db_locks.specs.Guards.{AgreeUnder, DifferOnPage, tells_header};
ghost use Rattle.db_locks.specs.States.{PlanState, AreImages, KeepsShown, are_rising, with_page};
ghost use Rattle.db_locks.specs.Does.{Does, carry, filled};
ghost use Rattle.db_locks.specs.Calls.{NamesPage, NamesResource, NamesBoth, newly_taken};

use pg_base::{Page, PageNo, Resource, Tran};

/// Why a call on a view gives nothing: another transaction holds a resource; the device failed at a
/// page; a page isn't what its place asks for; memory is short.
#[derive(Clone, Copy, Debug, PartialEq, Eq)]
pub enum PageStop {
    Held { resource: Resource, by: Tran },
    Fault(PageNo),
    Bad(PageNo),
    NoMemory,
}

/// What a transaction sees while a statement of it is planned, with what the statement takes and puts.
/// A page is shown as it stands, which may have more of other transactions than the view has.
pub trait PlanPages {
    /// All that the view stands for.
    ghost state: { Self → PlanState };

    /// The file has whole extents, and no more pages than its geometry allows.
    ghost size: { (v : Self) → HasShape (state v).view.shape.geometry (state v).view.shape.pages };

    /// The pages that are told are those of the file, what was taken is shown as it is seen, and nothing
    /// else has changed.
    ghost images: { (v : Self) → IsTrue (state v).told → AreImages (state v) };

    /// The other transaction that holds a resource.
    fn holder(&self, r: Resource) -> Option<Tran>
        ensures { option_map (λ t. t.0) result ≡ (state self.now).view.other r };

    /// Fills `into` with page `p` as it is shown. What `r` guards there is as the transaction sees it, and
    /// so is whatever no other transaction holds. Changes nothing, whatever it answers.
    fn look(&mut self, p: PageNo, r: Resource, into: &mut Page) -> Result<(), PageStop>
        requires { p.0 < (state self.old).view.shape.pages }
        ensures look { Does (state self.old) (state self.new) (look r p.0) (filled (page (state self.old).view.now p.0) result) }
        ensures names { IfErr result (NamesBoth p.0 r) }
        ensures free { OnOk result ((state self.old).view.other r ≡ None) }
        ensures shown { OnOk result (IsTrue (state self.old).told → into.new.bytes ≡ page (state self.old).shown p.0) }
        ensures guarded { OnOk result (IsTrue (state self.old).told → (s : Resource) → (state self.old).view.other s ≡ None → AgreeUnder s (state self.old).view.shape p.0 into.new.bytes (page (state self.old).view.now p.0)) }
        ensures header { OnOk result (IsTrue (state self.old).told → IsTrue (tells_header (state self.old).view.shape.geometry r p.0) → front maps_start into.new.bytes ≡ front maps_start (page (state self.old).view.now p.0)) }
        ensures view { (state self.new).view ≡ (state self.old).view }
        ensures same { KeepsShown (state self.old) (state self.new) };

    /// Makes `from` page `p` as it is shown. The view has the differences to what was shown before.
    fn put(&mut self, p: PageNo, from: &Page) -> Result<(), PageStop>
        requires inside { p.0 < (state self.old).view.shape.pages }
        requires guarded { IsTrue (state self.old).told → DifferOnPage (state self.old).view.taken (state self.old).view.shape p.0 (page (state self.old).shown p.0) from.now.bytes }
        ensures put { Does (state self.old) (state self.new) (carry p.0 (page (state self.old).shown p.0) from.now.bytes) result }
        ensures names { IfErr result (NamesPage p.0) }
        ensures shown { OnOk result (IsTrue (state self.old).told → (state self.new).shown ≡ slice_set (state self.old).shown p.0 from.now.bytes) }
        ensures first { (state self.new).first ≡ (state self.old).first }
        ensures changed { OnOk result ((state self.new).put ≡ with_page p (state self.old).put) }
        ensures taken { (state self.new).view.taken ≡ (state self.old).view.taken };

    /// Takes a resource, which may be one that the transaction holds. Changes nothing where it is refused.
    fn take(&mut self, r: Resource) -> Result<(), PageStop>
        ensures take { Does (state self.old) (state self.new) (take r) result }
        ensures names { IfErr result (NamesResource r) }
        ensures free { OnOk result ((state self.old).view.other r ≡ None) }
        ensures taken { OnOk result ((state self.new).view ≡ with_taken r (state self.old).view) }
        ensures refused { OnErr result ((state self.new).view ≡ (state self.old).view) }
        ensures same { KeepsShown (state self.old) (state self.new) };

    /// The pages that were put for this statement, rising. Every other page is shown as at the beginning.
    fn changed(&self) -> &[PageNo]
        ensures pages { result.now ≡ (state self.now).put }
        ensures rising { IsTrue (are_rising (state self.now).put) }
        ensures inside { (p : PageNo) → Contains (state self.now).put p → p.0 < (state self.now).view.shape.pages }
        ensures others { IsTrue (state self.now).told → (p : PageNo) → (Contains (state self.now).put p → ⊥) → page (state self.now).first p.0 ≡ page (state self.now).shown p.0 };

    /// Page `p` as it was shown before its first put.
    fn before(&self, p: PageNo, into: &mut Page)
        requires { Contains (state self.now).put p }
        ensures { IsTrue (state self.now).told → into.new.bytes ≡ page (state self.now).first p.0 };

    /// Page `p` as it is shown, for a page that was put.
    fn after(&self, p: PageNo, into: &mut Page)
        requires { Contains (state self.now).put p }
        ensures { IsTrue (state self.now).told → into.new.bytes ≡ page (state self.now).shown p.0 };

    /// What this statement took and its transaction didn't hold, in the order of takes.
    fn taken(&self) -> &[Resource]
        ensures { result.now ≡ newly_taken (state self.now).view };
}
