ghost use Rattle.spec_file.specs.PlacesLaws.{PlacesApart};

use pg_base::Geometry;

/// No two map bits and PFS bytes of a file of this geometry share a place. Nothing is computed: the
/// contract is the law.
#[tactic(auto, using(spec_file::proofs::PlacesLaws::places_apart))]
pub fn places_apart(g: Geometry)
    ensures { PlacesApart g }
{}
