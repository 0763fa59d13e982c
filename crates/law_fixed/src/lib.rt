//! Laws of what is fixed: the bytes of a log fix its items, and its turns fix a run's history.
#![tactic(auto)]

ghost use Rattle.law_fixed.specs.Laws.{BytesFixAppended, BytesFixItems, TurnsFixHistory};

/// Two logs in their form that have the same bytes have the same items. So have two lists of items that stand
/// behind the same opened log.
pub fn bytes_law()
    ensures items { BytesFixItems }
    ensures appended { BytesFixAppended }
{}

/// The same turns, of which each check takes as many, make the same items, tellings and replies, unless memory
/// runs out. Of marks nothing is said.
pub fn turns_law()
    ensures { TurnsFixHistory }
{}
