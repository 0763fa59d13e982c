// Parts of uses that stand in the order of their pages.
ghost use Rattle.std.specs.Prelude.{◌≡◌, not, nat_lt, filter};
ghost use Rattle.ck_facts.specs.PageUses.{IsByPage, uses_between};

use crate::PageUse;

// The uses of the pages from `low` on.
fn from_page(uses: &[PageUse], low: u32) -> &[PageUse]
    ensures { IsByPage uses.now → result.now ≡ filter (λ u. not (nat_lt u.page low)) uses.now }
{
    let at = uses.partition_point(|u| u.page < low);
    &uses[at..]
}

// The uses of the pages below `high`.
fn below_page(uses: &[PageUse], high: u32) -> &[PageUse]
    ensures { IsByPage uses.now → result.now ≡ filter (λ u. nat_lt u.page high) uses.now }
{
    let at = uses.partition_point(|u| u.page < high);
    &uses[..at]
}

/// The uses of the pages from `low` up to `high`.
pub fn uses_between(uses: &[PageUse], low: u32, high: u32) -> &[PageUse]
    ensures { IsByPage uses.now → result.now ≡ uses_between low high uses.now }
{
    below_page(from_page(uses, low), high)
}
