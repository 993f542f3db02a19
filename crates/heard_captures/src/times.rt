//! How often messages came on each interface.
ghost use Rattle.std.specs.Prelude.{◌≡◌, IfOk};
ghost use Rattle.heard_captures.{specs.Messages.{message_value}, specs.Said.{spoken}, specs.Places.{pair_of}};

use crate::messages::Message;
use crate::stations::code_of;
use bus_captures::Interface;
use std::alloc::{AllocError, Global};
use std::collections::BTreeMap;

/// How often one message came on each interface, and the most often on one of them.
#[derive(Drop)]
pub struct Times {
    on: BTreeMap<(u64, u64), u64>,
    most: u64,
}

impl Times {
    ghost use Rattle.std.{specs.Prelude.{◌≡◌, IfOk, Some, unwrap_or}, specs.BTreeMap.{get}};
    ghost use Rattle.heard_captures.{specs.Places.{pair_cmp}, specs.Times.{IsNever, Counts}};

    /// It never came.
    fn new(alloc: Global) -> Times
        ensures { IsNever result }
    {
        Times {
            on: BTreeMap::new(alloc),
            most: 0,
        }
    }

    /// Counts that it came on an interface. False where it came more often on another one.
    fn count(&mut self, interface: Interface) -> Result<bool, AllocError>
        ensures { IfOk result (λ is_new. Counts (Some self.old) (Some self.new) interface is_new) }
    {
        let pair = pair_of(interface);
        let before = self.times_on(pair);
        let Some(more) = before.checked_add(1) else {
            // no memory: so large a count has no room.
            return Err(AllocError);
        };
        self.on.insert(pair, more)?;
        if more <= self.most {
            return Ok(false);
        }
        self.most = more;
        Ok(true)
    }

    /// How often it came on the interface of a key.
    fn times_on(&self, pair: (u64, u64)) -> u64
        ensures { result ≡ unwrap_or (get pair_cmp self.now.on pair) 0 }
    {
        self.on.get(&pair).copied().unwrap_or(0)
    }
}

/// The key of an interface.
fn pair_of(interface: Interface) -> (u64, u64)
    ensures { result ≡ pair_of interface }
{
    (code_of(interface.number), code_of(interface.index))
}

/// How often each message came on each interface.
#[derive(Drop)]
pub struct Tally {
    by_message: BTreeMap<Vec<u8>, Times>,
}

impl Tally {
    ghost use Rattle.std.{specs.Prelude.{◌≡◌, ℕ, Bool, false, IfOk, List, Option, Some}, specs.Str.{bytes_eq}};
    ghost use Rattle.bus_captures.specs.declared.capture.Interface.{Interface};
    ghost use Rattle.heard_captures.{specs.Messages.{message_value}, specs.Times.{Counts, IsEmptyTally, Tallies, times_of}, specs.declared.times.Times.{Times}};

    /// Nothing came.
    pub fn new(alloc: Global) -> Tally
        ensures { IsEmptyTally result }
    {
        Tally {
            by_message: BTreeMap::new(alloc),
        }
    }

    /// Counts that a message came on an interface. False where it came more often on another one.
    pub fn count(
        &mut self,
        alloc: Global,
        interface: Interface,
        message: &Message,
    ) -> Result<bool, AllocError>
        ensures { IfOk result (λ is_new. Tallies self.old self.new interface (message_value message.now) is_new) }
    {
        let spoken = spoken(alloc, message)?;
        let mut times = self.take(alloc, spoken.as_slice());
        let is_new = times.count(interface)?;
        self.by_message.insert(spoken, times)?;
        Ok(is_new)
    }

    /// Takes out the counts of what is said by these bytes. Where there are none, it never came.
    fn take(&mut self, alloc: Global, bytes: &[u8]) -> Times
        ensures counts { (new : Option Times) (i : Interface) (is_new : Bool) → Counts (Some result) new i is_new → Counts (times_of self.old bytes.now) new i is_new }
        ensures others { (cs : List ℕ) → bytes_eq bytes.now cs ≡ false → times_of self.new cs ≡ times_of self.old cs }
    {
        match self.by_message.remove(bytes) {
            Some(times) => times,
            None => Times::new(alloc),
        }
    }
}

/// A message as bytes: where it comes from and goes to, its owner's bit, its tag, and its own bytes.
fn spoken(alloc: Global, message: &Message) -> Result<Vec<u8>, AllocError>
    ensures { IfOk result (λ bytes. bytes.items ≡ spoken (message_value message.now)) }
{
    let mut bytes = vec![in alloc;
        message.source.value,
        message.destination.value,
        u8::from(message.owner),
        message.tag.value,
    ]?;
    bytes.extend_from_slice(&message.bytes)?;
    Ok(bytes)
}
