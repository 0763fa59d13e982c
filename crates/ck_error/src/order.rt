// A report's errors in order, each once.
ghost use Rattle.std.specs.Prelude.{◌↔◌, Contains};
ghost use Rattle.std.specs.List.Sorted.{IsStrictlySortedBy};
ghost use Rattle.spec_check.specs.declared.report.CheckError.{CheckError};
ghost use Rattle.spec_check.specs.Errors.{error_cmp};

use spec_check::CheckError;

/// The same errors, sorted by the order of their fields, each once.
pub fn in_order(errors: Vec<CheckError>) -> Vec<CheckError>
    ensures sorted { IsStrictlySortedBy error_cmp result.items }
    ensures same { (x : CheckError) → Contains result.items x ↔ Contains errors.items x }
{
    let mut errors = errors;
    errors.sort_unstable();
    errors.dedup();
    errors
}
