// The pages that were put for a statement.
ghost use Rattle.std.specs.Prelude.{◌≡◌, ◌<◌, IsTrue, false};
ghost use Rattle.spec_file.specs.Image.{page};
ghost use Rattle.net_changes.specs.Shown.{is_put, IsPair};

use crate::pair::Pair;
use db_locks::PlanPages;
use pg_base::PageNo;

fn has_page(pages: &[PageNo], p: PageNo) -> bool
    ensures { result ≡ is_put pages.now p.0 }
{
    pages.iter().any(|q| q.0 == p.0)
}

/// Reads page p as it was shown and as it is shown, if the statement put it. Otherwise it is shown as before.
pub(crate) fn read_put<P: PlanPages>(v: &P, p: PageNo, pair: &mut Pair) -> bool
    ensures inside { IsTrue result → p.0 < (P.state v.now).view.shape.pages }
    ensures read { IsTrue result → IsTrue (P.state v.now).told → IsPair (P.state v.now) p.0 pair.new }
    ensures same { result ≡ false → IsTrue (P.state v.now).told → page (P.state v.now).first p.0 ≡ page (P.state v.now).shown p.0 }
{
    if !has_page(v.changed(), p) {
        return false;
    }
    v.before(p, &mut pair.before);
    v.after(p, &mut pair.after);
    true
}
