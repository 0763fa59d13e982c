// The maps of a file.
ghost use Rattle.std.specs.Prelude.{◌≡◌, ◌<◌, ◌/◌, [], vec_len, slice_index};
ghost use Rattle.spec_file.specs.Roles as roles;
ghost use Rattle.spec_file.specs.Places.{HasShape};
ghost use Rattle.ck_facts.specs.Sizes.{HasSizes};

use crate::CatRow;
use pg_base::{Geometry, ObjId, PageNo};
use pg_geom::is_ordinary;
use spec_check::CheckError;

/// A use of a page: by a single-page slot of an object, or as a page of its IAM chain.
#[derive(Clone, Copy, Debug, PartialEq, Eq, PartialOrd, Ord)]
pub struct PageUse {
    pub page: u32,
    pub object: u32,
    /// The slot, 0 to 7; 8 for a page of the chain.
    pub place: u8,
}

/// What the maps say of one extent.
#[derive(Clone, Copy)]
pub struct ExtentMap {
    /// Its GAM bit.
    pub free: bool,
    /// Its SGAM bit.
    pub mixed: bool,
    /// Bit i is 1 where the i-th object by id marks the extent.
    pub marks: [u8; 16],
}

/// The maps of a file, its objects and the uses of its pages (Pages and Extents Architecture Guide).
///
/// Where the file has system errors they stand alone: nothing else was read.
#[derive(Drop)]
pub struct AllocMap {
    pub geometry: Geometry,
    /// How many pages the file has.
    pub pages: u32,
    /// The errors of system pages, in order.
    pub system: Vec<CheckError>,
    /// The objects of the catalog by id.
    pub objects: Vec<CatRow>,
    /// The errors of chains, as they were met.
    pub chains: Vec<CheckError>,
    /// The uses of pages by page, object and place.
    pub uses: Vec<PageUse>,
    /// The extents of the file.
    pub extents: Vec<ExtentMap>,
    /// The PFS bytes of its pages.
    pub pfs: Vec<u8>,
    ghost shape: { HasShape geometry pages },
    ghost sizes: { system.items ≡ [] → HasSizes pages (vec_len objects) (vec_len extents) (vec_len pfs) },
}

impl ExtentMap {
    ghost use Rattle.ck_facts.specs.Maps.{has_mark};

    /// Whether the i-th object marks the extent.
    pub fn has_mark(&self, i: usize) -> bool
        requires { i < 128 }
        ensures { result ≡ has_mark self.now i }
    {
        (self.marks[i / 8] >> (i % 8)) & 1 == 1
    }
}

impl AllocMap {
    ghost use Rattle.std.specs.Prelude.{◌↔◌, ℕ, Some, IfSome};
    ghost use Rattle.ck_facts.specs.Owners.{StandById, IsPlaceOf};

    /// The errors of system pages, in order.
    pub fn system_errors(&self) -> &[CheckError]
        ensures { result.now ≡ self.now.system.items }
    {
        &self.system
    }

    /// The objects of the catalog by id.
    pub fn objects(&self) -> &[CatRow]
        ensures { result.now ≡ self.now.objects.items }
    {
        &self.objects
    }

    /// The place of an object among those of the catalog, which stand by id.
    pub fn place_of(&self, object: ObjId) -> Option<usize>
        ensures place { StandById self.now → (i : ℕ) → (result ≡ Some i) ↔ IsPlaceOf self.now i object.0 }
        ensures inside { IfSome result (λ i. i < vec_len self.now.objects) }
    {
        self.objects
            .binary_search_by_key(&object.0, |row| row.id.0)
            .ok()
    }

    /// How many extents the file has.
    pub fn extents(&self) -> u32
        ensures { result ≡ self.now.pages / 8 }
    {
        self.pages / 8
    }

    /// The PFS byte of a page; 0 where a system page is wrong, since none was kept then.
    pub fn pfs(&self, p: PageNo) -> u8
        requires { p.0 < self.now.pages }
        ensures { result ≡ slice_index self.now.pfs.items p.0 }
    {
        match self.pfs.get(p.0 as usize) {
            Some(byte) => *byte,
            None => 0,
        }
    }

    /// Whether a page is one that an object may own, by its number.
    pub fn ordinary(&self, p: PageNo) -> bool
        requires { p.0 < self.now.pages }
        ensures { result ≡ roles.is_ordinary self.now.geometry p.0 }
    {
        is_ordinary(self.geometry, p)
    }
}
