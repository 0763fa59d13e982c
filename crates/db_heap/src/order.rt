// Payloads in order.
ghost use Rattle.std.specs.Prelude.{◌≡◌};
ghost use Rattle.spec_words.specs.Orders.{in_rising_order};

use spec_log::Values;

/// Puts payloads in rising order: byte by byte, a shorter one before its continuations.
pub(crate) fn sort(payloads: &mut Vec<Values<u8>>)
    ensures { payloads.new.items ≡ in_rising_order payloads.old.items }
{
    payloads.sort_unstable_by(|a, b| a.as_slice().cmp(b.as_slice()));
}
