//! How a board writes endpoint IDs.
ghost use Rattle.std.specs.Prelude.{◌≡◌, IfOk, IsTrue, Some, string_bytes};
ghost use Rattle.toml.specs.View.{view};
ghost use Rattle.board_values.specs.Eids.{eids_text, ends_text, SaysRun};

use crate::said::is_text;
use std::alloc::{AllocError, Global};
use toml::Value;

/// Endpoint IDs, one after another: the first and, where there are several, the last.
pub fn eids_text(alloc: Global, first: u8, size: u8) -> Result<String, AllocError>
    ensures { IfOk result (λ text. string_bytes text ≡ eids_text first size) }
{
    if size == 1 {
        return format!(in alloc; "{first}");
    }
    ends_text(alloc, first, size)
}

/// Endpoint IDs by their ends.
fn ends_text(alloc: Global, first: u8, size: u8) -> Result<String, AllocError>
    ensures { IfOk result (λ text. string_bytes text ≡ ends_text first size) }
{
    let last = (u16::from(first) + u16::from(size)).saturating_sub(1);
    format!(in alloc; "{first}-{last}")
}

/// Whether the value gives these endpoint IDs of a pool: one alone by its number, or by its ends.
pub fn says_run(alloc: Global, said: &Value, first: u8, size: u8) -> Result<bool, AllocError>
    ensures { IfOk result (λ answer. IsTrue answer → SaysRun (Some (view said.now)) first size) }
{
    let eids = eids_text(alloc, first, size)?;
    let ends = ends_text(alloc, first, size)?;
    Ok(is_text(said, &eids) || is_text(said, &ends))
}
