//! The formats of lists of events.
ghost use Rattle.std.specs.Prelude.{◌≡◌};
ghost use Rattle.net_plan.{specs.EventReading.{format_of, events_format, has_switches, has_walks}, specs.Trees.{view}};

use crate::make::number_at;
use json::Value;

/// What a list of events may hold.
#[derive(Clone, Copy, Debug, PartialEq, Eq)]
pub enum Format {
    One,
    /// The events of format 1, and `switch`.
    Two,
    /// The events of format 2, and `walk`, `ask` and `collected`.
    Three,
}

impl Format {
    /// Whether lists of the format have `switch`.
    pub fn has_switches(self) -> bool
        ensures { result ≡ has_switches self }
    {
        matches!(self, Format::Two | Format::Three)
    }

    /// Whether lists of the format have `walk`, `ask` and `collected`.
    pub fn has_walks(self) -> bool
        ensures { result ≡ has_walks self }
    {
        matches!(self, Format::Three)
    }
}

/// The format that has a number.
pub fn format_of(number: u64) -> Format
    ensures { result ≡ format_of number }
{
    match number {
        1 => Format::One,
        2 => Format::Two,
        _ => Format::Three,
    }
}

/// The format by whose tests events are read: that of the number, or 1 where none of 1 to 3 stands there.
pub fn events_format(value: &Value<'_>) -> Format
    ensures { result ≡ events_format (view value.now) }
{
    format_of(number_at(value, "format", 1, 3))
}
