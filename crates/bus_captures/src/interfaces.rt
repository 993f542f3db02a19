//! Interfaces, as blocks of a file describe them.
ghost use Rattle.std.specs.Prelude.{◌≡◌, ◌≤◌, Some, length, option_map};
ghost use Rattle.bus_captures.{specs.Interfaces.{Describes, units_by, units_of, time_by}, specs.InterfaceValues.{interface_value, units_value}, specs.Values.{time_value}};

use crate::capture::Time;
use crate::format::{Order, number_at, short_at};
use crate::options::told_by;
use crate::sort::skip;
use crate::units::Units;

/// How many bytes of a description stand before its options.
const AHEAD: usize = 8;

/// The resolution of times where none is told: microseconds.
const MICROSECONDS: u8 = 6;

/// What a file says of an interface.
#[derive(Clone, Copy, Debug)]
pub struct Described<'a> {
    /// The number of its link type.
    pub link: u32,
    /// The most bytes that are kept of a packet; 0: all.
    pub most: u32,
    pub name: Option<&'a [u8]>,
    /// The unit of its timestamps, where it is known.
    pub units: Option<Units>,
}

/// The interface that the body of a block describes.
pub fn describe(order: Order, body: &[u8]) -> Described<'_>
    requires { 8 ≤ length body.now }
    ensures { Describes order body.now (interface_value result) }
{
    let told = told_by(order, skip(body, AHEAD));
    Described {
        link: u32::from(short_at(order, 0, body)),
        most: number_at(order, 4, body),
        name: told.name,
        units: units_of(told.resolution, told.shift),
    }
}

/// The unit of timestamps by these options. None where times are shifted.
fn units_of(resolution: Option<&[u8]>, shift: Option<&[u8]>) -> Option<Units>
    ensures { option_map units_value result ≡ units_of (option_map (λ v. v.now) resolution.entry) (option_map (λ v. v.now) shift.entry) }
{
    if shift.is_some() {
        return None;
    }
    match resolution {
        Some([power, ..]) => units_by(*power),
        Some([]) | None => units_by(MICROSECONDS),
    }
}

/// The unit of this power of 10, or from 128 on of 2.
fn units_by(power: u8) -> Option<Units>
    ensures { option_map units_value result ≡ units_by power }
{
    match power {
        0..=19 => Some(Units {
            in_second: 10_u64.pow(u32::from(power)),
        }),
        128..=191 => Some(Units {
            in_second: 2_u64.pow(u32::from(power - 128)),
        }),
        _ => None,
    }
}

/// The time of a timestamp.
pub fn time_by<'a>(units: Option<Units>, stamp: Option<u64>) -> Time<'a>
    ensures { time_value result ≡ time_by (option_map units_value units) stamp }
{
    match (units, stamp) {
        (Some(units), Some(stamp)) => time_of(units, stamp),
        _ => Time::Unknown,
    }
}

/// How many nanoseconds a second has.
const NANOSECONDS: u128 = 1_000_000_000;

fn time_of<'a>(units: Units, stamp: u64) -> Time<'a>
    ensures { time_value result ≡ time_by (Some (units_value units)) (Some stamp) }
{
    let rest = u128::from(stamp % units.in_second);
    Time::At {
        seconds: stamp / units.in_second,
        nanoseconds: (rest * NANOSECONDS / u128::from(units.in_second)) as u64,
    }
}
