//! Lines of a source, one at a time: no more bytes are taken than those up to a line's end.
ghost use Rattle.std.{specs.Prelude.{◌≡◌, ◌∷◌, [], List, ℕ, IfOk, IfErr, OnErr, MatchOption}, specs.Io.KnownBytes.{Consumes, IsAtEnd, Keeps}};
ghost use Rattle.net_plan.{specs.Stream.{HasRoom, HasFailed, failure_count}, specs.TextFaults.{device_count}};
ghost use Rattle.bus_commands.specs.Lines.{GaveLine, GavePart};

use net_plan::{Failed, Source, TextFault};
use std::alloc::Global;

/// The most bytes of a line.
pub const LONGEST_LINE: usize = 65_536;

/// A line, without its end.
#[derive(Drop)]
pub struct GivenLine {
    pub text: Vec<u8>,
    /// Whether the bytes ended here. Otherwise the line's end was taken too.
    pub is_last: bool,
}

/// The next line that a source gives.
pub fn next_line<S: Source>(alloc: Global, source: &mut S) -> Result<GivenLine, TextFault>
    requires { HasRoom (S.account source.old) }
    ensures given { IfOk result (λ line. GaveLine line.is_last (S.account source.old).bytes (S.account source.new).bytes line.text.items) }
    ensures part { IfErr result (λ why. GavePart why (S.account source.old).bytes (S.account source.new).bytes) }
    ensures counts { HasFailed (S.account source.old) (S.account source.new) (device_count result) }
{
    let mut text = Vec::new(alloc);
    for _ in 0..LONGEST_LINE {
        let Some(byte) = next_byte(source)? else {
            return Ok(GivenLine {
                text,
                is_last: true,
            });
        };
        if byte == b'\n' {
            return Ok(GivenLine {
                text,
                is_last: false,
            });
        }
        if text.push(byte).is_err() {
            // no memory: the line could not grow.
            return Err(TextFault::OutOfMemory);
        }
    }
    Err(TextFault::TooLong)
}

/// The next byte that a source gives.
fn next_byte<S: Source>(source: &mut S) -> Result<Option<u8>, Failed>
    requires { HasRoom (S.account source.old) }
    ensures byte { let old = (S.account source.old).bytes in
        let new = (S.account source.new).bytes in
        IfOk result (λ found. MatchOption found (Consumes old new [] × IsAtEnd new) (λ byte. Consumes old new (byte ∷ []))) }
    ensures stands { OnErr result (Keeps (S.account source.old).bytes (S.account source.new).bytes) }
    ensures counts { HasFailed (S.account source.old) (S.account source.new) (failure_count result) }
{
    let mut buffer = [0; 1];
    let count = source.pull(&mut buffer)?;
    if count == 0 {
        return Ok(None);
    }
    Ok(Some(buffer[0]))
}
