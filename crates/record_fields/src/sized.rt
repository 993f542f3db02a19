//! Numbers of data sizes.
ghost use Rattle.std.specs.Prelude.{◌≡◌, ◌<◌, ◌^◌, get_or};
ghost use Rattle.record_fields.specs.Named.{bits_of};

/// The number that the first four bytes spell, the lowest first, or fewer bytes where there are no more.
pub fn bits_of(bytes: &[u8]) -> u64
    ensures range { result < 2 ^ 32 }
    ensures bits { result ≡ bits_of bytes.now }
{
    byte(bytes, 0) + 256 * byte(bytes, 1) + 65536 * byte(bytes, 2) + 16777216 * byte(bytes, 3)
}

/// A byte, 0 behind the end.
fn byte(bytes: &[u8], at: usize) -> u64
    ensures range { result < 256 }
    ensures byte { result ≡ get_or bytes.now at 0 }
{
    match bytes.get(at) {
        Some(byte) => u64::from(*byte),
        None => 0,
    }
}
