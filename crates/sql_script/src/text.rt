// The lines of a text.
ghost use Rattle.std.specs.Prelude.{◌≡◌, ◌<◌, ◌∷◌, length};
ghost use Rattle.std.specs.Str.Lines.{lines, strip_carriage_return};
ghost use Rattle.spec_script.specs.Texts as spec;

use crate::words::place_of;

// A line without the CR before its LF.
fn without_return(line: &[u8]) -> &[u8]
    ensures { result.now ≡ strip_carriage_return line.now }
{
    match line {
        [front @ .., b'\r'] => front,
        _ => line,
    }
}

/// The first line of a text, and what follows it.
pub(crate) fn first_line(text: &[u8]) -> (&[u8], &[u8])
    requires { 0 < length text.now }
    ensures lines { lines text.now ≡ result.0.now ∷ lines result.1.now }
    ensures rest { length result.1.now < length text.now }
{
    match place_of(b'\n', text) {
        Some(end) => (without_return(&text[..end]), &text[end + 1..]),
        None => (text, &text[text.len()..]),
    }
}

/// Whether a line is empty, or begins with `--`.
pub(crate) fn is_skipped(line: &[u8]) -> bool
    ensures { result ≡ spec.is_skipped line.now }
{
    line.is_empty() || line.starts_with(b"--")
}
