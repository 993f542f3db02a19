//! How wide a numeric sensor's readings are.
ghost use Rattle.std.specs.Prelude.{◌≡◌, ◌<◌, IfOk, IfErr};
ghost use Rattle.pdr_record.specs.Layouts.{width_of};

use crate::record_error::RecordError;

/// A numeric sensor's data size, in one byte (DSP0248, sensorDataSize): a value has 8, 16 or 32 bits, and is unsigned
/// (U) or two's complement (S). The number is its code.
#[derive(Clone, Copy, Debug, PartialEq, Eq)]
pub enum SensorDataSize {
    /// One byte, unsigned.
    U8 = 0,
    /// One byte, two's complement.
    S8 = 1,
    /// Two bytes, unsigned.
    U16 = 2,
    /// Two bytes, two's complement.
    S16 = 3,
    /// Four bytes, unsigned.
    U32 = 4,
    /// Four bytes, two's complement.
    S32 = 5,
}

impl SensorDataSize {
    ghost use Rattle.pdr_record.specs.Numbers.{size_code};

    /// The data size of a code. D06 is answered for codes from 6 on.
    pub fn of(code: u8) -> Result<SensorDataSize, RecordError>
        ensures ok { IfOk result (λ size. size_code size ≡ code) }
        ensures refused { IfErr result (λ e. (e ≡ RecordError.Unsupported) × (5 < code)) }
    {
        match code {
            0 => Ok(SensorDataSize::U8),
            1 => Ok(SensorDataSize::S8),
            2 => Ok(SensorDataSize::U16),
            3 => Ok(SensorDataSize::S16),
            4 => Ok(SensorDataSize::U32),
            5 => Ok(SensorDataSize::S32),
            _ => Err(RecordError::Unsupported),
        }
    }

    /// Its code, 0 to 5.
    pub fn code(self) -> u8
        ensures { result ≡ size_code self }
    {
        self as u8
    }

    /// The bytes of a value: 1, 2 or 4.
    pub fn width(self) -> usize
        ensures { result ≡ width_of (size_code self) }
    {
        match self {
            SensorDataSize::U8 | SensorDataSize::S8 => 1,
            SensorDataSize::U16 | SensorDataSize::S16 => 2,
            SensorDataSize::U32 | SensorDataSize::S32 => 4,
        }
    }
}
