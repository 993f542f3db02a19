//! Events straight from a text.
ghost use Rattle.std.specs.Prelude.{◌≡◌, ◌≤◌, codes, IfSome, ℕ, List, Option, ⊤};
ghost use Rattle.json.specs.Json.{Members, no_members, object};
ghost use Rattle.net_plan.{specs.EventParts.{event_slots, IsEventBy, IsMadeOf, given, keys_given}, specs.EventText.{IsBit}, specs.Gathered.{AreParts, IsNext, IsThere, IsPlain}, specs.JsonWords.{IsNumberWithin}, specs.NameIndexes.{noted}, specs.Trees.{data_of}};
ghost use Rattle.plan_values.specs.EventValues.{event_entry};

use crate::event_text::{LEAST_COUNT, MOST_COUNT};
use crate::gather::{Gather, NextItem, read_object, set_once};
use crate::name_index::NameIndex;
use crate::next_value::{
    next_byte, next_hex, next_name, next_number_within, next_text, next_truth, next_word,
};
use mctp_transport::{Eid, Key, Tag};
use plain_json::PlainReader;
use plan_values::Event;
use std::alloc::Global;

/// What is known so far of an event.
#[derive(Drop)]
pub struct EventParts<'t> {
    does: Option<&'t str>,
    node: Option<&'t str>,
    bytes: Option<Vec<u8>>,
    flight: Option<u32>,
    keep: Option<bool>,
    source: Option<u8>,
    tag: Option<Tag>,
    owner: Option<bool>,
    eid: Option<u8>,
    count: Option<u16>,
    walker: Option<u32>,
}

impl<'t> EventParts<'t> {
    fn none() -> EventParts<'t>
        ensures { AreParts (event_slots result) no_members }
    {
        EventParts {
            does: None,
            node: None,
            bytes: None,
            flight: None,
            keep: None,
            source: None,
            tag: None,
            owner: None,
            eid: None,
            count: None,
            walker: None,
        }
    }

    fn event(self, nodes: &NameIndex) -> Option<Event>
        ensures { IfSome result (λ e. (ms : Members) → AreParts (event_slots self.entry) ms → IsEventBy (noted nodes.now) (data_of (object ms)) (event_entry e) × IsPlain (object ms)) }
    {
        match self.does? {
            "put" => self.put(nodes),
            "move" => self.move_on(),
            "lose" => self.lose(),
            "expire" => self.expire(nodes),
            "answer" => self.answer(nodes),
            "switch" => self.switch(nodes),
            "walk" => self.walk(nodes),
            "ask" => self.ask(),
            "collected" => self.collected(),
            _ => None,
        }
    }

    /// How many keys were read beside `do`.
    fn keys_given(&self) -> usize
        ensures { result ≡ keys_given self.now }
    {
        given(&self.node)
            + given(&self.bytes)
            + given(&self.flight)
            + given(&self.keep)
            + given(&self.source)
            + given(&self.tag)
            + given(&self.owner)
            + given(&self.eid)
            + given(&self.count)
            + given(&self.walker)
    }

    fn put(self, nodes: &NameIndex) -> Option<Event>
        ensures { IfSome result (λ e. IsMadeOf (codes "put") (noted nodes.now) self.entry (event_entry e)) }
    {
        if self.keys_given() != 2 {
            return None;
        }
        let node = self.node?;
        let bytes = self.bytes?;
        let index = nodes.index_of(node)?;
        Some(Event::Put { node: index, bytes })
    }

    fn move_on(&self) -> Option<Event>
        ensures { IfSome result (λ e. (find : List ℕ → Option ℕ) → IsMadeOf (codes "move") find self.now (event_entry e)) }
    {
        if self.keys_given() != 2 {
            return None;
        }
        let flight = self.flight?;
        let keep = self.keep?;
        Some(Event::Move { flight, keep })
    }

    fn lose(&self) -> Option<Event>
        ensures { IfSome result (λ e. (find : List ℕ → Option ℕ) → IsMadeOf (codes "lose") find self.now (event_entry e)) }
    {
        if self.keys_given() != 1 {
            return None;
        }
        let flight = self.flight?;
        Some(Event::Lose { flight })
    }

    fn expire(&self, nodes: &NameIndex) -> Option<Event>
        ensures { IfSome result (λ e. IsMadeOf (codes "expire") (noted nodes.now) self.now (event_entry e)) }
    {
        if self.keys_given() != 4 {
            return None;
        }
        let node = self.node?;
        let source = self.source?;
        let tag = self.tag?;
        let owner = self.owner?;
        let index = nodes.index_of(node)?;
        Some(Event::Expire {
            node: index,
            key: Key {
                source: Eid::new(source),
                tag,
                owner,
            },
        })
    }

    fn answer(&self, nodes: &NameIndex) -> Option<Event>
        ensures { IfSome result (λ e. IsMadeOf (codes "answer") (noted nodes.now) self.now (event_entry e)) }
    {
        if self.keys_given() != 1 {
            return None;
        }
        let node = self.node?;
        let index = nodes.index_of(node)?;
        Some(Event::Answer { node: index })
    }

    fn switch(&self, nodes: &NameIndex) -> Option<Event>
        ensures { IfSome result (λ e. IsMadeOf (codes "switch") (noted nodes.now) self.now (event_entry e)) }
    {
        if self.keys_given() != 1 {
            return None;
        }
        let node = self.node?;
        let index = nodes.index_of(node)?;
        Some(Event::Switch { node: index })
    }

    fn walk(&self, nodes: &NameIndex) -> Option<Event>
        ensures { IfSome result (λ e. IsMadeOf (codes "walk") (noted nodes.now) self.now (event_entry e)) }
    {
        if self.keys_given() != 4 {
            return None;
        }
        let node = self.node?;
        let eid = self.eid?;
        let tag = self.tag?;
        let count = self.count?;
        let index = nodes.index_of(node)?;
        Some(Event::Walk {
            node: index,
            eid: Eid::new(eid),
            tag,
            count,
        })
    }

    fn ask(&self) -> Option<Event>
        ensures { IfSome result (λ e. (find : List ℕ → Option ℕ) → IsMadeOf (codes "ask") find self.now (event_entry e)) }
    {
        if self.keys_given() != 1 {
            return None;
        }
        let walker = self.walker?;
        Some(Event::Ask {
            walker: walker as usize,
        })
    }

    fn collected(&self) -> Option<Event>
        ensures { IfSome result (λ e. (find : List ℕ → Option ℕ) → IsMadeOf (codes "collected") find self.now (event_entry e)) }
    {
        if self.keys_given() != 1 {
            return None;
        }
        let walker = self.walker?;
        Some(Event::Collected {
            walker: walker as usize,
        })
    }
}

impl<'t> Gather<'t> for EventParts<'t> {
    ghost Holds = { λ p. AreParts (event_slots p) };

    ghost Given = { ⊤ };

    ghost given = { λ _. tt };

    fn take(
        &mut self,
        alloc: Global,
        key: &'t str,
        reader: &mut PlainReader<'t>,
        _depth: usize,
    ) -> Option<()> {
        match key {
            "do" => set_once(&mut self.does, next_text(reader)?),
            "node" => set_once(&mut self.node, next_name(reader)?),
            "bytes" => set_once(&mut self.bytes, next_hex(alloc, reader)?),
            "flight" => set_once(&mut self.flight, next_word(reader)?),
            "keep" => set_once(&mut self.keep, next_truth(reader)?),
            "source" => set_once(&mut self.source, next_byte(reader)?),
            "tag" => set_once(&mut self.tag, next_tag(reader)?),
            "owner" => set_once(&mut self.owner, next_bit(reader)?),
            "eid" => set_once(&mut self.eid, next_number_within(reader, 8, 254)? as u8),
            "count" => set_once(
                &mut self.count,
                next_number_within(reader, LEAST_COUNT, MOST_COUNT)? as u16,
            ),
            "walker" => set_once(&mut self.walker, next_word(reader)?),
            _ => None,
        }
    }
}

/// 1 for a key that was read, 0 for one that was not.
fn given<T>(part: &Option<T>) -> usize
    ensures given { result ≡ given part.now }
    ensures one { result ≤ 1 }
{
    match part {
        Some(_) => 1,
        None => 0,
    }
}

/// A message tag.
fn next_tag(reader: &mut PlainReader<'_>) -> Option<Tag>
    ensures { IfSome result (λ tag. IsNext reader.old reader.new (λ j. IsNumberWithin 0 7 (data_of j) tag.value × IsPlain j)) }
{
    Some(Tag::new(next_number_within(reader, 0, 7)? as u8))
}

/// 1 for true, 0 for false.
fn next_bit(reader: &mut PlainReader<'_>) -> Option<bool>
    ensures { IfSome result (λ b. IsNext reader.old reader.new (λ j. IsBit (data_of j) b × IsPlain j)) }
{
    Some(next_number_within(reader, 0, 1)? == 1)
}

/// Reads events at nodes that this index finds.
#[derive(Clone, Copy)]
pub struct NextEvent<'p, 'n> {
    pub nodes: &'p NameIndex<'n>,
}

impl<'p, 'n, 't> NextItem<'t> for NextEvent<'p, 'n> {
    type Item = Event;

    ghost IsOf = { λ s j e. IsEventBy (noted s.nodes.now) (data_of j) (event_entry e) × IsPlain j };

    fn next_item(
        &self,
        alloc: Global,
        reader: &mut PlainReader<'t>,
        depth: usize,
    ) -> Option<Event> {
        let mut parts = EventParts::none();
        read_object(alloc, &mut parts, reader, depth)?;
        parts.event(self.nodes)
    }
}
