//! Values that are read from bytes and written as bytes.
ghost use Rattle.std.specs.Prelude.{◌≡◌, ℕ, ◌≤◌, ◌++◌, List, length, drop, IfOk, IsOkAnd};
ghost use Rattle.mctp_transport.specs.Wire.{Spells};

/// A value with exactly one spelling in bytes, read from the whole of a slice.
///
/// What a value is, wherever its bytes lie in memory, is its ghost `Meaning`; which bytes spell a meaning is
/// `Spells`. None of the calls can take memory.
///
/// A packet is no `Wire`: which bytes are one depends on the transmission unit. `PacketView` has `len` and `put` as
/// here, and reads under a unit.
pub trait Wire<'a>: Sized + Drop {
    /// Why bytes spell no value.
    type Error: Drop;

    ghost Meaning: { Type 0 };

    ghost meaning: { Self → Meaning };

    // Each part of the meaning fits its bits.
    ghost IsLawful: { Meaning → Type 0 };

    ghost spelling: { Meaning → List ℕ };

    /// The value that the bytes spell, all of them.
    fn read(bytes: &'a [u8]) -> Result<Self, Self::Error>
        ensures ok { IfOk result (λ v. Spells IsLawful spelling (meaning v) bytes.now) }
        ensures all { (m : Meaning) → Spells IsLawful spelling m bytes.now → IsOkAnd result (λ v. meaning v ≡ m) };

    /// How many bytes spell the value.
    fn len(&self) -> usize
        ensures lawful { IsLawful (meaning self.now) }
        ensures count { result ≡ length (spelling (meaning self.now)) };

    /// Writes the value's bytes at the front of `out`, leaves the rest of it as it was, and returns how many bytes it
    /// wrote. `out` has at least `len` bytes.
    fn put(&self, out: &mut [u8]) -> usize
        requires { length (spelling (meaning self.now)) ≤ length out.old }
        ensures lawful { IsLawful (meaning self.now) }
        ensures count { result ≡ length (spelling (meaning self.now)) }
        ensures front { out.new ≡ spelling (meaning self.now) ++ drop result out.old };

    // No two meanings have one spelling.
    ghost one_value: { (m n : Meaning) → IsLawful m → IsLawful n → spelling m ≡ spelling n → m ≡ n };
}

/// Writes a value at the front of `out`, which has room for it, and reads those bytes again: they spell the same value.
pub fn round_trip<'a, W: Wire<'a>>(value: &W, out: &'a mut [u8]) -> Result<W, W::Error>
    requires { length (W.spelling (W.meaning value.now)) ≤ length out.old }
    ensures { IsOkAnd result (λ again. W.meaning again ≡ W.meaning value.now) }
{
    let count = value.put(out);
    W::read(&out[..count])
}
