//! What was captured of one thing that went over a bus, by its link type.
ghost use Rattle.std.specs.Prelude.{◌≡◌, IfOk, option_map};
ghost use Rattle.bus_captures.{specs.FrameValues.{frame_value}, specs.Frames.{unread, IsFrameOf, IsFrameUnder, entry_of}, specs.Values.{entry_value, time_value}};

use crate::capture::{Direction, Entry, Interface, Kind, Time, Unread};
use crate::link::Link;
use std::alloc::{AllocError, Global};

/// Which way it went, on which interface of Linux, what it is, and its bytes behind the header of the link.
#[derive(Clone, Copy, Debug)]
pub struct Frame<'b> {
    pub direction: Option<Direction>,
    pub index: Option<u32>,
    pub kind: Kind,
    pub bytes: &'b [u8],
}

/// What isn't read, and all that was kept of it.
pub fn unread(why: Unread, kept: &[u8]) -> Frame<'_>
    ensures { frame_value result ≡ unread why kept.now }
{
    Frame {
        direction: None,
        index: None,
        kind: Kind::Unread(why),
        bytes: kept,
    }
}

/// What was kept of something that had so many bytes.
pub fn frame_of(link: Link, original: u32, kept: &[u8]) -> Frame<'_>
    ensures { IsFrameOf link original kept.now (frame_value result) }
{
    if kept.len() != original as usize {
        return unread(Unread::Cut, kept);
    }
    if kept.len() < link.length() {
        return unread(Unread::LinkHeader, kept);
    }
    let (kind, bytes) = link.split(kept);
    Frame {
        direction: link.direction(kept),
        index: link.index(kept),
        kind,
        bytes,
    }
}

/// The same under the number of a link type.
pub fn frame_under(number: u32, original: u32, kept: &[u8]) -> Frame<'_>
    ensures { IsFrameUnder number original kept.now (frame_value result) }
{
    match Link::of(number) {
        Some(link) => frame_of(link, original, kept),
        None => unread(Unread::Link(number), kept),
    }
}

impl Frame<'_> {
    /// The entry at a time, on an interface of this number and this name in the file.
    pub fn entry<'a>(
        self,
        alloc: Global,
        time: Time<'a>,
        number: Option<u32>,
        name: Option<&'a [u8]>,
    ) -> Result<Entry<'a>, AllocError>
        ensures { IfOk result (λ entry. entry_value entry ≡ entry_of (time_value time.entry) number (option_map (λ n. n.now) name.entry) (frame_value self.entry)) }
    {
        let bytes = Vec::from_slice(alloc, self.bytes)?;
        Ok(Entry {
            time,
            direction: self.direction,
            interface: Interface {
                number,
                index: self.index,
            },
            name,
            kind: self.kind,
            bytes,
        })
    }
}
