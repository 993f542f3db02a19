//! A numeric sensor's thresholds and times.
ghost use Rattle.std.specs.Prelude.{◌≡◌, ◌≤◌, ◌+◌, length};
ghost use Rattle.pdr_record.{specs.Fields.{followed, Fit}, specs.Layouts.{timing_fields}};

use crate::reading::FieldReader;

/// Which thresholds a numeric sensor has, and how often it is updated, in 10 bytes (DSP0248, Numeric Sensor PDR). A
/// number's lowest byte comes first.
#[derive(Clone, Copy, Debug, PartialEq, Eq)]
pub struct Timing {
    /// One byte: a bit for each threshold that the sensor has.
    pub supported_thresholds: u8,
    /// One byte: a bit for each event after which thresholds and hysteresis are lost.
    pub threshold_and_hysteresis_volatility: u8,
    /// Four bytes, the bits of a real32, in seconds: how long the sensor takes at most to change its enabled
    /// state.
    pub state_transition_interval: u32,
    /// Four bytes, the bits of a real32, in seconds: the time between two readings.
    pub update_interval: u32,
}

impl Timing {
    ghost use Rattle.pdr_record.specs.Values.{timing_value};

    pub(crate) fn take(fields: &mut FieldReader) -> Timing
        requires { 10 ≤ length fields.old.rest.now }
        ensures field { fields.old.rest.now ≡ followed (timing_fields (timing_value result)) fields.new.rest.now }
        ensures fits { Fit (timing_fields (timing_value result)) }
        ensures left { length fields.old.rest.now ≡ 10 + length fields.new.rest.now }
    {
        Timing {
            supported_thresholds: fields.u8(),
            threshold_and_hysteresis_volatility: fields.u8(),
            state_transition_interval: fields.u32(),
            update_interval: fields.u32(),
        }
    }
}
