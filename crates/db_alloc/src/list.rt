// Lists of page numbers.
ghost use Rattle.std.specs.Prelude.{◌≡◌, ◌==◌, ◌++◌, ◌∷◌, [], IfErr, OnOk, if◌then◌else◌};
ghost use Rattle.std.specs.List.{list_any};
ghost use Rattle.db_locks.specs.declared.plan_pages.PageStop.TheVariants as stop;
ghost use Rattle.db_alloc.specs.Tables.{numbers};

use db_locks::PageStop;
use pg_base::PageNo;

/// Whether page p is among these.
pub(crate) fn has_page(pages: &[PageNo], p: PageNo) -> bool
    ensures { result ≡ list_any (λ q. q == p.0) (numbers pages.now) }
{
    for q in pages {
        if q.0 == p.0 {
            return true;
        }
    }
    false
}

/// One page more, at the end, if so.
pub(crate) fn push_if(pages: &mut Vec<PageNo>, p: PageNo, yes: bool) -> Result<(), PageStop>
    ensures pages { OnOk result (numbers pages.new.items ≡ numbers pages.old.items ++ (if yes then p.0 ∷ [] else [])) }
    ensures short { IfErr result (λ e. e ≡ stop.NoMemory) }
{
    if yes && pages.push(p).is_err() {
        return Err(PageStop::NoMemory);
    }
    Ok(())
}
