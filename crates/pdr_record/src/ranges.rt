//! The values that a numeric sensor's readings are compared with.
ghost use Rattle.std.specs.Prelude.{◌≡◌, ◌≤◌, ◌+◌, ◌*◌, length};
ghost use Rattle.pdr_record.{specs.Fields.{followed}, specs.Layouts.{ranges_fields, HaveWidth}};

use crate::reading::FieldReader;

/// The values that a numeric sensor's readings are compared with (DSP0248, Numeric Sensor PDR), each as wide as the
/// range field format says. A number's lowest byte comes first.
#[derive(Clone, Copy, Debug, PartialEq, Eq)]
pub struct Ranges<'a> {
    /// The reading that is usual.
    pub nominal_value: &'a [u8],
    /// The highest reading of normal operation.
    pub normal_max: &'a [u8],
    /// The lowest reading of normal operation.
    pub normal_min: &'a [u8],
    /// The upper threshold of a warning.
    pub warning_high: &'a [u8],
    /// The lower threshold of a warning.
    pub warning_low: &'a [u8],
    /// The upper threshold of the critical state.
    pub critical_high: &'a [u8],
    /// The lower threshold of the critical state.
    pub critical_low: &'a [u8],
    /// The upper threshold of the fatal state.
    pub fatal_high: &'a [u8],
    /// The lower threshold of the fatal state.
    pub fatal_low: &'a [u8],
}

impl<'a> Ranges<'a> {
    ghost use Rattle.pdr_record.specs.Values.{ranges_value};

    /// Nine values of `width` bytes each.
    pub(crate) fn take(fields: &mut FieldReader<'a>, width: usize) -> Ranges<'a>
        requires room { 9 * width ≤ length fields.old.rest.now }
        ensures field { fields.old.rest.now ≡ followed (ranges_fields (ranges_value result)) fields.new.rest.now }
        ensures width { HaveWidth width (ranges_value result) }
        ensures left { length fields.old.rest.now ≡ 9 * width + length fields.new.rest.now }
    {
        Ranges {
            nominal_value: fields.bytes(width),
            normal_max: fields.bytes(width),
            normal_min: fields.bytes(width),
            warning_high: fields.bytes(width),
            warning_low: fields.bytes(width),
            critical_high: fields.bytes(width),
            critical_low: fields.bytes(width),
            fatal_high: fields.bytes(width),
            fatal_low: fields.bytes(width),
        }
    }
}
