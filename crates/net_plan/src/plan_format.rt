//! The formats of plans, and the transmission unit that each gives.
ghost use Rattle.std.specs.Prelude.{◌≡◌, ◌≤◌, is_ok};
ghost use Rattle.net_plan.{specs.Json.{whole_number}, specs.Made.{unit_made}, specs.PlanReading.{plan_format}, specs.Trees.{view}};

use crate::json_value::{at, read_number};
use crate::make::number_at;
use json::Value;
use plan_values::{BASELINE_UNIT, LARGEST_UNIT};

/// A format of plans.
#[derive(Clone, Copy, Debug, PartialEq, Eq)]
pub enum PlanFormat {
    /// Its plans have the baseline transmission unit.
    One,
    /// Its plans say their transmission unit.
    Two,
}

/// The format by whose tests a plan is read: 2 where it says so, else 1.
pub fn format_of(value: &Value) -> PlanFormat
    ensures { result ≡ plan_format (view value.now) }
{
    match at(value, "format") {
        Some(format) if is_two(format) => PlanFormat::Two,
        _ => PlanFormat::One,
    }
}

/// Whether a value is the number 2.
fn is_two(value: &Value) -> bool
    ensures { result ≡ is_ok (whole_number 2 2 (view value.now)) }
{
    read_number(value, 2, 2).is_ok()
}

/// The transmission unit of a plan: in format 1 the baseline of 64 bytes, in format 2 the number at its key.
pub fn unit_of(format: PlanFormat, value: &Value) -> u16
    ensures made { result ≡ unit_made format (view value.now) }
    ensures bound { (64 ≤ result) × (result ≤ 1024) }
{
    match format {
        PlanFormat::One => BASELINE_UNIT,
        PlanFormat::Two => {
            number_at(
                value,
                "unit",
                u64::from(BASELINE_UNIT),
                u64::from(LARGEST_UNIT),
            ) as u16
        }
    }
}
