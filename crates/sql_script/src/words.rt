// Words of a line: numbers, payloads, and what stands before a space.
ghost use Rattle.std.specs.Prelude.{◌≡◌, ◌==◌, ◌+◌, ◌<◌, ◌≤◌, option_map, IfSome, IsTrue};
ghost use Rattle.std.specs.List.{list_all, position};
ghost use Rattle.spec_file.specs.Catalog.{is_name};
ghost use Rattle.spec_script.specs.Lines as lines;
ghost use Rattle.sql_script.specs.Reading as spec;

use crate::name::is_name;
use spec_file::PAYLOAD_LIMIT;

/// The first place of a byte.
pub(crate) fn place_of(byte: u8, bytes: &[u8]) -> Option<usize>
    ensures { result ≡ position (λ b. b == byte) bytes.now }
{
    bytes.iter().position(|b| *b == byte)
}

/// What follows `front`, where the line begins with it.
pub(crate) fn after<'a>(line: &'a [u8], front: &[u8]) -> Option<&'a [u8]>
    ensures { option_map (λ rest. rest.now) result ≡ spec.after front.now line.now }
{
    line.strip_prefix(front)
}

// What stands before `back`, where the line ends with it.
fn before<'a>(line: &'a [u8], back: &[u8]) -> Option<&'a [u8]>
    ensures { option_map (λ rest. rest.now) result ≡ spec.before back.now line.now }
{
    line.strip_suffix(back)
}

/// What stands before the first space, and behind it.
#[tactic(auto, unfolding(crate::specs::Reading::cut_at_space))]
pub(crate) fn cut_at_space(line: &[u8]) -> Option<(&[u8], &[u8])>
    ensures { option_map (λ parts. (parts.0.now, parts.1.now)) result ≡ spec.cut_at_space line.now }
{
    match place_of(b' ', line) {
        Some(end) => Some((&line[..end], &line[end + 1..])),
        None => None,
    }
}

fn are_digits(digits: &[u8]) -> bool
    ensures { result ≡ spec.are_digits digits.now }
{
    digits.iter().all(|b| b.is_ascii_digit())
}

// Digits without leading zeros.
fn is_numeral(digits: &[u8]) -> bool
    ensures { result ≡ spec.is_numeral digits.now }
{
    match digits {
        [] => false,
        [first, rest @ ..] => (*first != b'0' || rest.is_empty()) && are_digits(digits),
    }
}

/// The number below 2^64 that has these digits, in decimal without leading zeros.
#[tactic(auto, unfolding(crate::specs::Reading::number_of))]
pub(crate) fn number_of(digits: &[u8]) -> Option<u64>
    ensures { result ≡ spec.number_of digits.now }
{
    if !is_numeral(digits) {
        return None;
    }
    match std::str::from_utf8(digits) {
        Ok(text) => text.parse().ok(),
        Err(_) => None,
    }
}

/// The number from `least` to `most` that has these digits.
#[tactic(auto, unfolding(crate::specs::Reading::number_within))]
pub fn number_within(least: u32, most: u32, digits: &[u8]) -> Option<u32>
    ensures number { result ≡ spec.number_within least most digits.now }
    ensures within { IfSome result (λ n. n ≤ most) }
{
    let n = number_of(digits)?;
    if n >= u64::from(least) && n <= u64::from(most) {
        Some(n as u32)
    } else {
        None
    }
}

/// The word, where it is a name.
#[tactic(auto, unfolding(crate::specs::Reading::name_of))]
pub(crate) fn name_of(word: &[u8]) -> Option<&[u8]>
    ensures name { option_map (λ name. name.now) result ≡ spec.name_of word.now }
    ensures tested { IfSome result (λ name. IsTrue (is_name name.now)) }
{
    if is_name(word) { Some(word) } else { None }
}

fn is_payload_byte(b: u8) -> bool
    ensures { result ≡ lines.is_payload_byte b }
{
    matches!(b, b' '..=b'~') && b != b'\''
}

fn are_payload_bytes(bytes: &[u8]) -> bool
    ensures { result ≡ list_all lines.is_payload_byte bytes.now }
{
    bytes.iter().all(|b| is_payload_byte(*b))
}

/// The payload in these quotes.
#[tactic(auto, unfolding(crate::specs::Reading::payload_of))]
pub(crate) fn payload_of(quoted: &[u8]) -> Option<&[u8]>
    ensures { option_map (λ payload. payload.now) result ≡ spec.payload_of quoted.now }
{
    let rest = after(quoted, b"'")?;
    let payload = before(rest, b"'")?;
    if are_payload_bytes(payload) && payload.len() <= PAYLOAD_LIMIT {
        Some(payload)
    } else {
        None
    }
}
