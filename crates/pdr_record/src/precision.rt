//! How exact a numeric sensor is.
ghost use Rattle.std.specs.Prelude.{◌≡◌, ◌≤◌, ◌+◌, length};
ghost use Rattle.pdr_record.{specs.Fields.{followed, Fit}, specs.Layouts.{precision_fields}};

use crate::reading::FieldReader;

/// How a numeric sensor's readings become values, and how exact they are, in 12 bytes (DSP0248, Numeric Sensor PDR). A
/// number's lowest byte comes first.
#[derive(Clone, Copy, Debug, PartialEq, Eq)]
pub struct Precision {
    /// Four bytes, the bits of a real32: what a reading is multiplied by, in the sensor's unit.
    pub resolution: u32,
    /// Four bytes, the bits of a real32: what is added to that, in the sensor's unit.
    pub offset: u32,
    /// Two bytes, in hundredths of a percent: how far a value can be off.
    pub accuracy: u16,
    /// One byte, in steps of a reading: how far a reading can be too high.
    pub plus_tolerance: u8,
    /// One byte, in steps of a reading: how far a reading can be too low.
    pub minus_tolerance: u8,
}

impl Precision {
    ghost use Rattle.pdr_record.specs.Values.{precision_value};

    pub(crate) fn take(fields: &mut FieldReader) -> Precision
        requires { 12 ≤ length fields.old.rest.now }
        ensures field { fields.old.rest.now ≡ followed (precision_fields (precision_value result)) fields.new.rest.now }
        ensures fits { Fit (precision_fields (precision_value result)) }
        ensures left { length fields.old.rest.now ≡ 12 + length fields.new.rest.now }
    {
        Precision {
            resolution: fields.u32(),
            offset: fields.u32(),
            accuracy: fields.u16(),
            plus_tolerance: fields.u8(),
            minus_tolerance: fields.u8(),
        }
    }
}
