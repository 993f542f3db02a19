//! Where the bytes of a text come from, and where they go.
ghost use Rattle.std.{specs.Prelude.{◌≡◌, ◌≢◌, ◌<◌, ◌≤◌, length, IfOk, IfErr, OnOk, OnErr}, specs.Io.{ReadsAtMost, WritesAtMost}, specs.Io.KnownBytes.{ReadConsumes, WriteAppends, Consumes, Appends, IsAtEnd}};
ghost use Rattle.net_plan.{specs.Stream.{Account, HasRoom, HasFailed, failure_count, TakesMoreThan, AppendsBeginning}, specs.Taken.{TakesAtMost}, specs.TextFaults.{device_count}};

use std::alloc::{AllocError, Global};
use std::io::{Read, Write};

/// A read or a write failed.
#[derive(Clone, Copy, Debug, PartialEq, Eq)]
pub struct Failed;

/// Gives bytes, piece by piece.
pub trait Source {
    // The bytes that pulls will give from here on, where they are known, and how many pulls have failed.
    ghost account: { Self → Account };

    /// Fills the beginning of `buf`, and tells how many bytes it filled; 0 where the bytes have ended.
    fn pull(&mut self, buf: &mut [u8]) -> Result<usize, Failed>
        requires { HasRoom (account self.old) }
        ensures bound { ReadsAtMost result buf.new }
        ensures bytes { ReadConsumes (account self.old).bytes (account self.new).bytes result buf.new }
        ensures counts { HasFailed (account self.old) (account self.new) (failure_count result) };
}

/// Takes bytes, piece by piece.
pub trait Sink {
    // The bytes that were taken so far, where they are known, and how many pushes have failed.
    ghost account: { Self → Account };

    /// Takes the beginning of a piece, and tells how many bytes it took: at least one, unless the piece is empty.
    fn push(&mut self, piece: &[u8]) -> Result<usize, Failed>
        requires { HasRoom (account self.old) }
        ensures bound { WritesAtMost result piece.now }
        ensures some { IfOk result (λ n. 0 < length piece.now → 0 < n) }
        ensures bytes { WriteAppends (account self.old).bytes (account self.new).bytes result piece.now }
        ensures counts { HasFailed (account self.old) (account self.new) (failure_count result) };
}

/// One of std's readers or writers, with its failures counted.
#[derive(Drop)]
pub struct Counted<T> {
    inner: T,
    failures: u64,
}

impl<T> Counted<T> {
    /// A reader or a writer of which no call has failed yet.
    pub fn new(inner: T) -> Counted<T>
        ensures inner { result.inner ≡ inner }
        ensures failures { result.failures ≡ 0 }
    {
        Counted { inner, failures: 0 }
    }

    /// The reader or the writer.
    pub fn inner(&self) -> &T
        ensures { result.now ≡ self.now.inner }
    {
        &self.inner
    }
}

impl<R: Read> Source for Counted<R> {
    ghost account = { λ s. record { bytes = R.remaining s.inner; failures = s.failures } };

    /// Fills the beginning of `buf`, and tells how many bytes it filled; 0 where the bytes have ended.
    fn pull(&mut self, buf: &mut [u8]) -> Result<usize, Failed> {
        match self.inner.read(buf) {
            Ok(count) => Ok(count),
            Err(_) => {
                self.failures += 1;
                Err(Failed)
            }
        }
    }
}

impl<W: Write> Sink for Counted<W> {
    ghost account = { λ s. record { bytes = W.contents s.inner; failures = s.failures } };

    fn push(&mut self, piece: &[u8]) -> Result<usize, Failed> {
        match self.inner.write(piece) {
            Ok(count) if count > 0 || piece.is_empty() => Ok(count),
            _ => {
                self.failures += 1;
                Err(Failed)
            }
        }
    }
}

/// Why a source was not read to its end.
#[derive(Clone, Copy, Debug, PartialEq, Eq)]
pub enum TextFault {
    /// It gave more bytes than were allowed.
    TooLong,
    /// It failed.
    Device,
    /// There was too little memory for its bytes.
    OutOfMemory,
}

impl From<AllocError> for TextFault {
    ghost use Rattle.std.specs.Prelude.{◌≡◌};
    ghost use Rattle.net_plan.specs.declared.stream.TextFault.TheVariants.{OutOfMemory};

    ghost from_gives = { λ _ fault. fault ≡ OutOfMemory };

    fn from(_error: AllocError) -> TextFault {
        TextFault::OutOfMemory
    }
}

impl From<Failed> for TextFault {
    ghost use Rattle.std.specs.Prelude.{◌≡◌};
    ghost use Rattle.net_plan.specs.declared.stream.TextFault.TheVariants.{Device};

    ghost from_gives = { λ _ fault. fault ≡ Device };

    fn from(_failed: Failed) -> TextFault {
        TextFault::Device
    }
}

/// The bytes that a source gives to its end, at most so many. No read is tried again once it has failed, and the source
/// then stands where its last pull left it, as it does where memory was wanting.
pub fn read_within<S: Source>(
    alloc: Global,
    source: &mut S,
    limit: usize,
) -> Result<Vec<u8>, TextFault>
    requires { HasRoom (S.account source.old) }
    ensures all { IfOk result (λ text. Consumes (S.account source.old).bytes (S.account source.new).bytes text.items) }
    ensures end { OnOk result (IsAtEnd (S.account source.new).bytes) }
    ensures within { IfOk result (λ text. length text.items ≤ limit) }
    ensures too_long { IfErr result (λ e. e ≡ TextFault.TooLong
        → TakesMoreThan limit (S.account source.old).bytes (S.account source.new).bytes) }
    ensures stands { IfErr result (λ e. e ≢ TextFault.TooLong
        → TakesAtMost limit (S.account source.old).bytes (S.account source.new).bytes) }
    ensures counts { HasFailed (S.account source.old) (S.account source.new) (device_count result) }
{
    let mut text = Vec::new(alloc);
    let mut piece = [0; PIECE];
    'pieces: loop {
        let count = source.pull(&mut piece)?;
        if count == 0 {
            return Ok(text);
        }
        if limit - text.len() < count {
            return Err(TextFault::TooLong);
        }
        text.extend_from_slice(&piece[..count])?;
    }
}

/// How many bytes a pull may give at most.
const PIECE: usize = 2048;

/// Gives all bytes to a sink. No write is tried again once it has failed; the sink has then taken a beginning of the
/// bytes.
pub fn write_whole<S: Sink>(sink: &mut S, bytes: &[u8]) -> Result<(), Failed>
    requires { HasRoom (S.account sink.old) }
    ensures all { OnOk result (Appends (S.account sink.old).bytes (S.account sink.new).bytes bytes.now) }
    ensures beginning { OnErr result (AppendsBeginning (S.account sink.old).bytes (S.account sink.new).bytes bytes.now) }
    ensures counts { HasFailed (S.account sink.old) (S.account sink.new) (failure_count result) }
{
    let mut at = 0;
    while at < bytes.len() {
        at += sink.push(&bytes[at..])?;
    }
    Ok(())
}
