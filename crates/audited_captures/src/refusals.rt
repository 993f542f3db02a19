//! Entries of a capture that should be packets and are none.
ghost use Rattle.std.specs.Prelude.{◌≡◌, ◌∷◌, [], IfOk, OnOk, MatchOption, map, length, string_bytes};
ghost use Rattle.bus_captures.specs.Values.{entry_value};
ghost use Rattle.heard_captures.specs.Seen.{IsNoPacketFor};
ghost use Rattle.mctp_transport.{specs.PacketValues.{IsUnit}, specs.declared.packet_error.PacketError.{PacketError}};
ghost use Rattle.audited_captures.{specs.Lines.{line_value, silence}, specs.Refusals.{IsRefused, IsNotRefused, AreRefusals, cause_code, refused_text, refused_lines}, specs.RefusalSteps.{AddsRefusal}};

use crate::lines::{Line, silence};
use bus_captures::{Capture, Entry, Kind, Unread};
use mctp_transport::{PacketError, PacketView};
use std::alloc::{AllocError, Global};

/// Why an entry isn't taken for a packet.
#[derive(Clone, Copy, Debug)]
pub enum Cause {
    /// Its bytes are no packet.
    NoPacket(PacketError),
    /// It isn't read at all.
    Unread(Unread),
}

/// An entry of a capture that should be a packet and is none.
#[derive(Clone, Copy, Debug)]
pub struct Refusal {
    /// Its number among the entries, from 1.
    pub number: usize,
    pub why: Cause,
}

/// The entries of a capture that are refused under a transmission unit of 64 to 1024 bytes, in their order.
pub fn refusals_of(
    alloc: Global,
    unit: usize,
    capture: &Capture,
) -> Result<Vec<Refusal>, AllocError>
    requires { IsUnit unit }
    ensures { IfOk result (λ refusals. AreRefusals unit (map entry_value capture.now.entries.items) refusals.items) }
{
    let mut refusals = Vec::new(alloc);
    for (i, entry) in capture.entries.iter().enumerate() {
        add_refusal(&mut refusals, unit, i + 1, entry)?;
    }
    Ok(refusals)
}

/// Adds an entry of this number, if it is refused.
fn add_refusal(
    refusals: &mut Vec<Refusal>,
    unit: usize,
    number: usize,
    entry: &Entry,
) -> Result<(), AllocError>
    requires { IsUnit unit }
    ensures { OnOk result (AddsRefusal unit number (entry_value entry.now) refusals.old.items refusals.new.items) }
{
    match refused(unit, entry) {
        Some(why) => Ok(refusals.push(Refusal { number, why })?),
        None => Ok(()),
    }
}

/// Why an entry is refused, if it is.
fn refused(unit: usize, entry: &Entry) -> Option<Cause>
    requires { IsUnit unit }
    ensures { MatchOption result (IsNotRefused unit (entry_value entry.now)) (λ why. IsRefused unit (entry_value entry.now) why) }
{
    match entry.kind {
        Kind::Packet => refused_bytes(unit, &entry.bytes).map(Cause::NoPacket),
        Kind::Unread(why) => Some(Cause::Unread(why)),
        Kind::Message | Kind::Other(_) => None,
    }
}

/// Why the bytes are no packet, if they are none.
fn refused_bytes(unit: usize, bytes: &[u8]) -> Option<PacketError>
    requires { IsUnit unit }
    ensures { MatchOption result ((why : PacketError) → ¬ IsNoPacketFor unit why bytes.now) (λ why. IsNoPacketFor unit why bytes.now) }
{
    match PacketView::read_within(bytes, unit) {
        Ok(_) => None,
        Err(error) => Some(error),
    }
}

/// The remark on entries that are refused, if there are some: how many, and where the first one stands.
pub fn refused_lines(alloc: Global, refusals: &[Refusal]) -> Result<Vec<Line>, AllocError>
    ensures { IfOk result (λ lines. map line_value lines.items ≡ refused_lines refusals.now) }
{
    match refusals.first() {
        Some(first) => refused_line(alloc, refusals.len(), first),
        None => Ok(Vec::new(alloc)),
    }
}

fn refused_line(alloc: Global, count: usize, first: &Refusal) -> Result<Vec<Line>, AllocError>
    ensures { IfOk result (λ lines. map line_value lines.items ≡ silence (refused_text count first.now) ∷ []) }
{
    let text = refused_text(alloc, count, first)?;
    silence(alloc, text)
}

fn refused_text(alloc: Global, count: usize, first: &Refusal) -> Result<String, AllocError>
    ensures { IfOk result (λ text. string_bytes text ≡ refused_text count first.now) }
{
    let number = first.number;
    let code = first.why.code();
    format!(in alloc; "refused {count} (first at packet {number}: {code})")
}

impl Cause {
    /// The code of what is no packet, or a word for what isn't read.
    fn code(self) -> &'static str
        ensures { result.now ≡ cause_code self }
    {
        match self {
            Cause::NoPacket(error) => error.code(),
            Cause::Unread(why) => why.word(),
        }
    }
}
