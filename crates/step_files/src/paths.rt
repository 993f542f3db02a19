//! Where the files of a step stand.
ghost use Rattle.std.specs.Prelude.{◌≡◌, IfOk, string_bytes};
ghost use Rattle.step_files.specs.StepFiles.{leading_zeros, step_path};

use std::alloc::{AllocError, Global};

/// The path in a folder of a file of one of so many steps. Its number has as many digits as that of the last step.
pub fn step_path(
    alloc: Global,
    folder: &str,
    count: usize,
    number: usize,
    ending: &str,
) -> Result<String, AllocError>
    ensures { IfOk result (λ path. string_bytes path ≡ step_path folder.now count number ending.now) }
{
    let zeros = leading_zeros(alloc, count, number)?;
    format!(in alloc; "{folder}/step-{zeros}{number}{ending}")
}

/// As many zeros as a number has fewer digits than another.
fn leading_zeros(alloc: Global, count: usize, number: usize) -> Result<String, AllocError>
    ensures { IfOk result (λ zeros. string_bytes zeros ≡ leading_zeros count number) }
{
    let longest = format!(in alloc; "{count}")?;
    let own = format!(in alloc; "{number}")?;
    "0".repeat(alloc, longest.len().saturating_sub(own.len()))
}
