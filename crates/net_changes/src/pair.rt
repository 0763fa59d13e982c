// Two states of one page, and the buffers for them.
ghost use Rattle.std.specs.Prelude.{◌≡◌, ◌<◌, ◌==◌, not, slice_index};
ghost use Rattle.net_changes.specs.Bytes.{is_differing};

use pg_base::{NoMemory, PAGE_SIZE, Page};
use std::alloc::Global;

/// A page as it was shown before the statement, and as it is shown.
#[derive(Drop)]
pub(crate) struct Pair {
    pub before: Page,
    pub after: Page,
}

fn zeros() -> Page {
    Page {
        bytes: [0; PAGE_SIZE],
    }
}

fn zero_pair() -> Pair {
    Pair {
        before: zeros(),
        after: zeros(),
    }
}

/// A page, and a page of a map beside it.
#[derive(Drop)]
pub(crate) struct Buffers {
    pub page: Pair,
    pub map: Pair,
}

/// Room for a page.
pub(crate) fn pair_room(alloc: Global) -> Result<Box<Pair>, NoMemory> {
    Ok(Box::new(alloc, zero_pair())?)
}

/// Room for a page and a map.
pub(crate) fn buffers_room(alloc: Global) -> Result<Box<Buffers>, NoMemory> {
    let buffers = Buffers {
        page: zero_pair(),
        map: zero_pair(),
    };
    Ok(Box::new(alloc, buffers)?)
}

/// Whether the two have another byte there.
pub(crate) fn differs(pair: &Pair, at: usize) -> bool
    requires { at < PAGE_SIZE }
    ensures { result ≡ is_differing pair.now.before.bytes pair.now.after.bytes at }
{
    pair.before.bytes[at] != pair.after.bytes[at]
}
