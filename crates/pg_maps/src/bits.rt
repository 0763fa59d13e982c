ghost use Rattle.std.specs.Prelude.{◌≡◌, ◌≢◌, ◌+◌, ◌/◌, ◌<◌, ◌≤◌, ℕ, IfSome, IfNone, true, false, slice_index, if◌then◌else◌};
ghost use Rattle.spec_file.specs.declared.sizes.TheConstants.{BIT_COUNT};
ghost use Rattle.std.specs.Int.{bit_at};
ghost use Rattle.spec_file.specs.Image.{bit as bit_of, maps_start};

use pg_base::{MAPS_START, Page};

/// Bit n of a map page.
pub fn bit(page: &Page, n: u32) -> bool
    requires { n < BIT_COUNT }
    ensures { result ≡ bit_of page.now.bytes n }
{
    (page.bytes[MAPS_START + n as usize / 8] >> (n % 8)) & 1 == 1
}

/// Sets or clears bit n of a map page. All other bits and bytes stay.
pub fn set_bit(page: &mut Page, n: u32, value: bool)
    requires { n < BIT_COUNT }
    ensures bit { bit_of page.new.bytes n ≡ value }
    ensures other_bits { (k : ℕ) → k ≢ n → bit_of page.new.bytes k ≡ bit_of page.old.bytes k }
    ensures other_bytes { (i : ℕ) → i ≢ maps_start + n / 8
        → slice_index page.new.bytes i ≡ slice_index page.old.bytes i }
{
    let at = MAPS_START + n as usize / 8;
    page.bytes[at] = with_bit(page.bytes[at], n % 8, value);
}

/// The byte with bit i set or cleared; bit 0 is the lowest.
pub fn with_bit(byte: u8, i: u32, value: bool) -> u8
    requires { i < 8 }
    ensures bit { bit_at result i ≡ (if value then 1 else 0) }
    ensures others { (k : ℕ) → k < 8 → k ≢ i → bit_at result k ≡ bit_at byte k }
{
    if value {
        byte | (1u8 << i)
    } else {
        byte & !(1u8 << i)
    }
}

/// The least set bit of a map page from n to before `end`; none where no bit there is set.
pub fn first_set_from(page: &Page, n: u32, end: u32) -> Option<u32>
    requires { end ≤ BIT_COUNT }
    ensures found { IfSome result (λ k. (n ≤ k) × (k < end) × (bit_of page.now.bytes k ≡ true)) }
    ensures least { IfSome result (λ k. (j : ℕ) → n ≤ j → j < k → bit_of page.now.bytes j ≡ false) }
    ensures none { IfNone result ((j : ℕ) → n ≤ j → j < end → bit_of page.now.bytes j ≡ false) }
{
    for k in n..end {
        if bit(page, k) {
            return Some(k);
        }
    }
    None
}
