//! Numbers at the front of a message's data, with their lowest byte first.
ghost use Rattle.std.specs.Prelude.{◌≡◌, ◌<◌, ◌^◌, ◌++◌, length, MatchResult};
ghost use Rattle.byteorder.specs.Endian.{little_bytes};

use crate::pldm_error::PldmError;
use byteorder::{ByteOrder, LittleEndian};

/// The number in the first four bytes, and the bytes after them.
pub fn split_u32(bytes: &[u8]) -> Result<(u32, &[u8]), PldmError>
    ensures { MatchResult result (λ r. (r.0 < 2 ^ 32) × (bytes.now ≡ little_bytes 4 r.0 ++ r.1.now)) (λ e. (e ≡ PldmError.Length) × (length bytes.now < 4)) }
{
    let [_, _, _, _, rest @ ..] = bytes else {
        return Err(PldmError::Length);
    };
    Ok((LittleEndian::read_u32(bytes), rest))
}

/// The number in the first two bytes, and the bytes after them.
pub fn split_u16(bytes: &[u8]) -> Result<(u16, &[u8]), PldmError>
    ensures { MatchResult result (λ r. (r.0 < 2 ^ 16) × (bytes.now ≡ little_bytes 2 r.0 ++ r.1.now)) (λ e. (e ≡ PldmError.Length) × (length bytes.now < 2)) }
{
    let [_, _, rest @ ..] = bytes else {
        return Err(PldmError::Length);
    };
    Ok((LittleEndian::read_u16(bytes), rest))
}
