//! Laws of what covers a change.
#![tactic(auto)]

ghost use Rattle.law_cover.specs.Places.{ExtentsGuardBits, PagesGuardBytes};
ghost use Rattle.law_cover.specs.Pages.{PagesGuardThemselves, CatalogGuardsBoot, PfsHeadersAreFixed};

/// The GAM bit and the SGAM bit of an extent of the file are guarded by that extent, and the PFS byte of a
/// page of the file by that page's byte.
pub fn place_laws()
    ensures bits { ExtentsGuardBits }
    ensures bytes { PagesGuardBytes }
{}

/// A page that objects may own is guarded by itself, the boot page by the catalog, and nothing in the
/// header of a PFS page has a guard.
pub fn page_laws()
    ensures own { PagesGuardThemselves }
    ensures boot { CatalogGuardsBoot }
    ensures fixed { PfsHeadersAreFixed }
{}
