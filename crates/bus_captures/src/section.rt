//! The section of a file, and the packets in it.
ghost use Rattle.std.specs.Prelude.{◌≡◌};
ghost use Rattle.bus_captures.specs.Blocks.{number_of};

use crate::block::{Block, Packet};
use crate::capture::{Entry, Time, Unread};
use crate::format::Order;
use crate::frame::{frame_under, unread};
use crate::interfaces::{Described, describe, time_by};
use std::alloc::{AllocError, Global};

/// The section to which the blocks that were read have come, and the interfaces of the whole file.
#[derive(Drop)]
pub struct Section<'a> {
    /// Its byte order. None before the first section.
    pub order: Option<Order>,
    /// How many of the interfaces are of earlier sections.
    before: usize,
    interfaces: Vec<Described<'a>>,
}

impl<'a> Section<'a> {
    ghost use Rattle.std.specs.Prelude.{◌≡◌, ◌≤◌, length, IfOk, OnOk, option_map, slice_get};
    ghost use Rattle.bus_captures.{specs.Blocks.{IsNext, IsEntryOn}, specs.BlockValues.{block_value, packet_value}, specs.InterfaceValues.{interface_value}, specs.Sections.{IsBefore, Takes, own_of, IsEntryIn}, specs.Values.{entry_value}};

    /// No block was read.
    pub fn new(alloc: Global) -> Section<'a>
        ensures { IsBefore result }
    {
        Section {
            order: None,
            before: 0,
            interfaces: Vec::new(alloc),
        }
    }

    /// Goes on behind a block that has no packet.
    pub fn take(&mut self, block: &Block<'a>) -> Result<(), AllocError>
        requires { IsNext self.old.order (block_value block.now) }
        ensures { OnOk result (Takes self.old self.new (block_value block.now)) }
    {
        if block.is_section() {
            self.order = Some(block.order);
            self.before = self.interfaces.len();
        } else if block.is_interface() {
            self.interfaces.push(describe(block.order, block.body))?;
        }
        Ok(())
    }

    /// The packet of a block as an entry.
    pub fn entry(&self, alloc: Global, block: &Block) -> Result<Entry<'a>, AllocError>
        requires { self.now.before ≤ length self.now.interfaces.items }
        ensures { IfOk result (λ entry. IsEntryIn self.now (block_value block.now) (entry_value entry)) }
    {
        match block.packet(self.interface(0)) {
            Some(packet) => self.entry_of(alloc, &packet),
            None => unread(Unread::Block, block.body).entry(alloc, Time::Unknown, None, None),
        }
    }

    /// The interface of this number in the section.
    fn interface(&self, number: usize) -> Option<&Described<'a>>
        requires { self.now.before ≤ length self.now.interfaces.items }
        ensures { option_map (λ d. interface_value d.now) result ≡ slice_get (own_of self.now) number }
    {
        self.interfaces.get(self.before..)?.get(number)
    }

    fn entry_of(&self, alloc: Global, packet: &Packet) -> Result<Entry<'a>, AllocError>
        requires { self.now.before ≤ length self.now.interfaces.items }
        ensures { IfOk result (λ entry. IsEntryOn self.now.before (packet_value packet.now) (slice_get (own_of self.now) packet.now.interface) (entry_value entry)) }
    {
        let Some(described) = self.interface(packet.interface as usize) else {
            return unread(Unread::Interface, packet.kept).entry(alloc, Time::Unknown, None, None);
        };
        let time = time_by(described.units, packet.stamp);
        let number = number_of(self.before, packet.interface);
        frame_under(described.link, packet.original, packet.kept).entry(
            alloc,
            time,
            Some(number),
            described.name,
        )
    }
}

/// The number of an interface in the file: the largest one of four bytes for a larger number.
fn number_of(before: usize, interface: u32) -> u32
    ensures { result ≡ number_of before interface }
{
    match u32::try_from(before.saturating_add(interface as usize)) {
        Ok(number) => number,
        Err(_) => u32::MAX,
    }
}
