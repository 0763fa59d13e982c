// A list of errors that grows by one rule after another.
ghost use Rattle.std.specs.Prelude.{◌≡◌, IsTrue, OnOk, Some};
ghost use Rattle.ck_error.specs.Gathered.{Adds};

use spec_check::CheckError;
use spec_file::NoMemory;

/// Adds the error at the end where its condition holds.
pub fn push_if(errors: &mut Vec<CheckError>, holds: bool, error: CheckError) -> Result<(), NoMemory>
    ensures { OnOk result (Adds errors.old.items errors.new.items (λ x. IsTrue holds × (x ≡ error))) }
{
    if !holds {
        return Ok(());
    }
    errors.push(error)?;
    Ok(())
}

/// Adds the error at the end where there is one.
pub fn push_some(errors: &mut Vec<CheckError>, error: Option<CheckError>) -> Result<(), NoMemory>
    ensures { OnOk result (Adds errors.old.items errors.new.items (λ x. error ≡ Some x)) }
{
    let Some(error) = error else {
        return Ok(());
    };
    errors.push(error)?;
    Ok(())
}
