//! Times of a capture file's records.
ghost use Rattle.std.specs.Prelude.{◌≡◌, ◌<◌, ◌^◌};
ghost use Rattle.bus_captures.specs.Files.{nanoseconds};

use crate::format::TimeUnit;

/// A fraction of a second in nanoseconds.
pub fn nanoseconds(unit: TimeUnit, fraction: u32) -> u64
    ensures { result ≡ nanoseconds unit fraction }
{
    match unit {
        TimeUnit::Micro => 1000 * u64::from(fraction),
        TimeUnit::Nano => u64::from(fraction),
    }
}
