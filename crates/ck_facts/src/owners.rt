// Which pages objects own.
ghost use Rattle.std.specs.Prelude.{◌≡◌, ◌++◌, ◌<◌, ◌/◌, ◌||◌, [], IfOk, OnOk, IsTrue, All, vec_len};
ghost use Rattle.spec_file.specs.Image.{Image};
ghost use Rattle.ck_facts.specs.Maps.{HasNoSystemErrors};
ghost use Rattle.ck_facts.specs.MapOf.{IsMapOf};
ghost use Rattle.ck_facts.specs.OwnedBy as spec;
ghost use Rattle.ck_facts.specs.Owners.{AreOwnersIn};

use crate::runs::uses_between;
use crate::{AllocMap, PageUse};
use pg_base::{ExtentNo, NoMemory, ObjId, PageNo};
use pg_pfs::is_allocated;
use std::alloc::Global;

// Whether one of the uses is that of a single-page slot of the object.
fn is_held(uses: &[PageUse], id: u32) -> bool
    ensures { result ≡ spec.is_held id uses.now }
{
    uses.iter().any(|u| u.object == id && u.place < 8)
}

impl AllocMap {
    // Whether the i-th object marks the extent of page p, and the page is allocated.
    fn is_marked(&self, i: usize, p: PageNo) -> bool
        requires sound { HasNoSystemErrors self.now }
        requires object { i < vec_len self.now.objects }
        requires inside { p.0 < self.now.pages }
        ensures { result ≡ spec.is_marked self.now i p.0 }
    {
        let extent = &self.extents[(p.0 / 8) as usize];
        extent.has_mark(i) && is_allocated(self.pfs(p))
    }

    // Whether the i-th object owns page p, which has these uses.
    fn is_owned_by(&self, i: usize, p: PageNo, uses: &[PageUse]) -> bool
        requires sound { HasNoSystemErrors self.now }
        requires object { i < vec_len self.now.objects }
        requires inside { p.0 < self.now.pages }
        ensures { result ≡ spec.is_owned_by self.now uses.now p.0 i }
    {
        self.is_marked(i, p) || is_held(uses, self.objects[i].id.0)
    }

    // Page p, which has these uses, with each object that owns it.
    fn push_owners(
        &self,
        owners: &mut Vec<(PageNo, ObjId)>,
        p: PageNo,
        uses: &[PageUse],
    ) -> Result<(), NoMemory>
        requires sound { HasNoSystemErrors self.now }
        requires inside { p.0 < self.now.pages }
        ensures { OnOk result (owners.new.items ≡ owners.old.items ++ spec.owners_of self.now uses.now p.0 (vec_len self.now.objects)) }
    {
        for i in 0..self.objects.len() {
            if self.is_owned_by(i, p, uses) {
                owners.push((p, self.objects[i].id))?;
            }
        }
        Ok(())
    }

    // Whether nobody owns a page of extent e, whose pages have these uses.
    fn is_unowned(&self, e: ExtentNo, uses: &[PageUse]) -> bool
        requires sound { HasNoSystemErrors self.now }
        requires inside { e.0 < self.now.pages / 8 }
        ensures { IsTrue result → spec.IsUnowned self.now e.0 uses.now }
    {
        uses.is_empty() && self.extents[e.0 as usize].marks == [0; 16]
    }

    /// The pages of an extent that objects own, each with the id of its owner, by page and then by id. A page
    /// that two objects own stands twice.
    pub fn pages_in(&self, alloc: Global, e: ExtentNo) -> Result<Vec<(PageNo, ObjId)>, NoMemory>
        requires sound { HasNoSystemErrors self.now }
        requires inside { e.0 < self.now.pages / 8 }
        ensures pages { IfOk result (λ owners. All (λ u. u.0.0 < self.now.pages) owners.items) }
        ensures owners { IfOk result (λ owners. (image : Image) → IsMapOf image self.now → AreOwnersIn self.now.geometry image e.0 owners.items) }
    {
        let low = 8 * e.0;
        let uses = uses_between(&self.uses, low, low + 8);
        let mut owners = Vec::new(alloc);
        if self.is_unowned(e, uses) {
            return Ok(owners);
        }
        for p in low..low + 8 {
            self.push_owners(&mut owners, PageNo(p), uses_between(uses, p, p + 1))?;
        }
        Ok(owners)
    }
}
