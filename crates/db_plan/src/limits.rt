// The limits of the log.
ghost use Rattle.std.specs.Prelude.{◌≡◌, ◌-◌, ◌^◌, ℕ, min, length};
ghost use Rattle.spec_log.specs.Bytes.{change_length};
ghost use Rattle.spec_plan.specs.Planned.{planned_size};
ghost use Rattle.db_plan.specs.Limits as spec;

use crate::PlanAt;
use spec_log::{MOST_BYTES, MOST_CHANGES, MOST_ITEMS};
use spec_plan::Planned;

// The bytes of a planned change in the log, as many as a number can tell.
fn change_bytes(change: &Planned) -> u64
    ensures { result ≡ min (change_length (length change.now.after)) (2 ^ 64 - 1) }
{
    let count = change.after.count() as u64;
    count.saturating_mul(2).saturating_add(20)
}

/// The bytes that planned changes have in the log, as many as a number can tell.
pub fn planned_bytes(changes: &[Planned]) -> u64
    ensures { result ≡ min (planned_size changes.now) (2 ^ 64 - 1) }
{
    let mut size: u64 = 0;
    for change in changes {
        size = size.saturating_add(change_bytes(change));
    }
    size
}

/// Whether so many changes of so many bytes pass a limit of the log.
pub(crate) fn exceeds(at: &PlanAt, changes: u64, bytes: u64) -> bool
    ensures { (size : ℕ) → bytes ≡ min size (2 ^ 64 - 1) → result ≡ spec.exceeds at.now.used_changes at.now.announced_changes at.now.announced_bytes changes size }
{
    changes != 0
        && (at.used_changes.saturating_add(changes) > MOST_CHANGES
            || at.announced_changes.saturating_add(changes) > MOST_ITEMS / 2
            || at
                .announced_bytes
                .saturating_add(bytes)
                .saturating_add(changes.saturating_mul(17))
                > MOST_BYTES)
}
