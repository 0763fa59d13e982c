// The part of a page in which two states of it differ.
ghost use Rattle.std.specs.Prelude.{◌≡◌, ◌<◌, ◌≤◌, IfSome};
ghost use Rattle.spec_plan.specs.Changes.{differing};
ghost use Rattle.heap_page.specs.Spans.{EndsBy, span_of, wider};

use pg_base::{PAGE_SIZE, Page};

/// The bytes of a page from one offset to before another.
#[derive(Clone, Copy)]
pub(crate) struct Span {
    pub from: usize,
    pub to: usize,
}

/// The bytes from the first to the last that differs, of those from one offset to before another.
pub(crate) fn differing_span(old: &Page, new: &Page, lo: usize, hi: usize) -> Option<Span>
    requires order { lo ≤ hi }
    requires end { hi ≤ PAGE_SIZE }
    ensures span { result ≡ span_of (differing old.now.bytes new.now.bytes lo hi) }
    ensures within { IfSome result (EndsBy hi) }
{
    let mut span = None;
    for at in lo..hi {
        if old.bytes[at] != new.bytes[at] {
            span = Some(widened(span, at));
        }
    }
    span
}

// The same bytes, and those behind them up to this one.
fn widened(span: Option<Span>, at: usize) -> Span
    requires { at < PAGE_SIZE }
    ensures { result ≡ wider span at }
{
    let from = match span {
        Some(span) => span.from,
        None => at,
    };
    Span { from, to: at + 1 }
}
