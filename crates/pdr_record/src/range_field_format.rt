//! How the values that readings are compared with are written.
ghost use Rattle.std.specs.Prelude.{◌≡◌, ◌<◌, IfOk, IfErr};
ghost use Rattle.pdr_record.specs.Layouts.{width_of};

use crate::record_error::RecordError;
use crate::sensor_data_size::SensorDataSize;

/// The format of a numeric sensor's range fields, in one byte (DSP0248, rangeFieldFormat): that of a data size, or a
/// real number of 32 bits.
#[derive(Clone, Copy, Debug, PartialEq, Eq)]
pub enum RangeFieldFormat {
    /// 0 to 5: an integer of the data size of this code.
    Integer(SensorDataSize),
    /// 6: a real32, in four bytes.
    Real32,
}

impl RangeFieldFormat {
    ghost use Rattle.pdr_record.specs.Numbers.{format_code};

    /// The format of a code. D06 is answered for codes from 7 on.
    pub fn of(code: u8) -> Result<RangeFieldFormat, RecordError>
        ensures ok { IfOk result (λ format. format_code format ≡ code) }
        ensures refused { IfErr result (λ e. (e ≡ RecordError.Unsupported) × (6 < code)) }
    {
        if code == 6 {
            return Ok(RangeFieldFormat::Real32);
        }
        Ok(RangeFieldFormat::Integer(SensorDataSize::of(code)?))
    }

    /// Its code, 0 to 6.
    pub fn code(self) -> u8
        ensures { result ≡ format_code self }
    {
        match self {
            RangeFieldFormat::Integer(size) => size.code(),
            RangeFieldFormat::Real32 => 6,
        }
    }

    /// The bytes of a value: 1, 2 or 4.
    pub fn width(self) -> usize
        ensures { result ≡ width_of (format_code self) }
    {
        match self {
            RangeFieldFormat::Integer(size) => size.width(),
            RangeFieldFormat::Real32 => 4,
        }
    }
}
