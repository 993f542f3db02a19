//! An assembler for each interface and destination.
ghost use Rattle.std.specs.Prelude.{◌≡◌};
ghost use Rattle.heard_captures.specs.Places.{code_of, place_of};

use bus_captures::Interface;
use mctp_transport::{Assembler, Eid, Heard, MAX_MESSAGE, PacketView, hear};
use std::alloc::{AllocError, Global};
use std::collections::BTreeMap;

/// How many messages an assembler joins at once.
const SLOTS: usize = 16;

/// An assembler for each interface and destination to which a packet went, of 16 slots for messages of at most 4096
/// bytes.
#[derive(Drop)]
pub struct Stations {
    by_place: BTreeMap<(u64, u64, u8), Assembler>,
}

impl Stations {
    ghost use Rattle.std.{specs.Prelude.{◌≡◌, ℕ, false, IfOk, Some}, specs.BTreeMap.{get, is_at}};
    ghost use Rattle.mctp_transport.{specs.Heard.{heard_answer}, specs.Histories.{History}, specs.Packets.{packet_value_of}};
    ghost use Rattle.heard_captures.{specs.Places.{place_cmp}, specs.Stations.{AreIdle, HasBeenGiven, IsFedAt}};

    /// Stations to which nothing was given.
    pub fn new(alloc: Global) -> Stations
        ensures { AreIdle result }
    {
        Stations {
            by_place: BTreeMap::new(alloc),
        }
    }

    /// Gives a packet to the assembler of its interface and destination. A message that comes is copied.
    pub fn feed(
        &mut self,
        alloc: Global,
        interface: Interface,
        packet: PacketView,
    ) -> Result<Heard, AllocError>
        ensures { IfOk result (λ heard. IsFedAt self.old self.new interface (packet_value_of packet.entry) (heard_answer heard)) }
    {
        let place = place_of(interface, packet.header.destination);
        let mut assembler = self.take(alloc, place)?;
        let heard = hear(alloc, &mut assembler, packet)?;
        self.by_place.insert(place, assembler)?;
        Ok(heard)
    }

    /// Takes out the assembler of a key. Where there is none, it is an idle one.
    fn take(&mut self, alloc: Global, place: (u64, u64, u8)) -> Result<Assembler, AllocError>
        ensures given { IfOk result (λ a. (h : History) → HasBeenGiven (get place_cmp self.old.by_place place) h → HasBeenGiven (Some a) h) }
        ensures others { (q : ℕ × ℕ × ℕ) → is_at (place_cmp place) q ≡ false → get place_cmp self.new.by_place q ≡ get place_cmp self.old.by_place q }
    {
        match self.by_place.remove(&place) {
            Some(assembler) => Ok(assembler),
            None => Assembler::new(alloc, SLOTS, MAX_MESSAGE),
        }
    }
}

/// The key of an interface and a destination.
fn place_of(interface: Interface, destination: Eid) -> (u64, u64, u8)
    ensures { result ≡ place_of interface destination.value }
{
    let number = code_of(interface.number);
    let index = code_of(interface.index);
    (number, index, destination.value)
}

/// A number that may be missing, as a number: 0 where it is missing, and else one more than it.
pub fn code_of(number: Option<u32>) -> u64
    ensures { result ≡ code_of number }
{
    match number {
        None => 0,
        Some(number) => u64::from(number) + 1,
    }
}
