//! The events of a text in which nothing is unusual.
ghost use Rattle.std.{specs.Prelude.{◌≡◌, map, IfSome}, specs.List.{list_all}};
ghost use Rattle.json.specs.Json.{Members, no_members, object};
ghost use Rattle.net_plan.{specs.EventParts.{IsEventBy}, specs.EventText.{IsFormat, AreEventsOf}, specs.Gathered.{AreParts, IsNext, IsPlain, IsPlainText}, specs.PlainEvents.{events_slots, AreEventsBy, is_event_in}, specs.NameIndexes.{noted}, specs.Trees.{data_of}, specs.declared.name_index.NameIndex.{NameIndex}};
ghost use Rattle.plan_values.{specs.EventValues.{event_entry}, specs.PlanValues.{plan_value}};

use crate::event_format::{Format, format_of};
use crate::event_parts::NextEvent;
use crate::event_text::MOST_EVENTS;
use crate::gather::{Gather, next_list, read_text, set_once};
use crate::name_index::NameIndex;
use crate::naming::NodeName;
use crate::next_value::next_number_within;
use plain_json::PlainReader;
use plan_values::{Event, Plan};
use std::alloc::Global;

/// What is known so far of a list of events at nodes that this index finds.
#[derive(Drop)]
pub struct EventsParts<'p, 'n> {
    nodes: &'p NameIndex<'n>,
    format: Option<Format>,
    events: Option<Vec<Event>>,
}

impl<'p, 'n> EventsParts<'p, 'n> {
    fn none(nodes: &'p NameIndex<'n>) -> EventsParts<'p, 'n>
        ensures none { AreParts (events_slots result) no_members }
        ensures nodes { result.nodes.now ≡ nodes.now }
    {
        EventsParts {
            nodes,
            format: None,
            events: None,
        }
    }

    fn events(self) -> Option<Vec<Event>>
        ensures { IfSome result (λ v. (ms : Members) → AreParts (events_slots self.entry) ms → AreEventsBy (noted self.entry.nodes.now) (data_of (object ms)) (map event_entry v.items) × IsPlain (object ms)) }
    {
        let format = self.format?;
        let events = self.events?;
        if !are_in(format, events.as_slice()) {
            return None;
        }
        Some(events)
    }
}

impl<'p, 'n, 't> Gather<'t> for EventsParts<'p, 'n> {
    ghost Holds = { λ p. AreParts (events_slots p) };

    ghost Given = { NameIndex };

    ghost given = { λ p. p.nodes.now };

    fn take(
        &mut self,
        alloc: Global,
        key: &'t str,
        reader: &mut PlainReader<'t>,
        depth: usize,
    ) -> Option<()> {
        let nodes = self.nodes;
        match key {
            "format" => set_once(&mut self.format, next_format(reader)?),
            "events" => set_once(
                &mut self.events,
                next_list(alloc, &NextEvent { nodes }, reader, depth, MOST_EVENTS)?,
            ),
            _ => None,
        }
    }
}

/// The format of a list of events.
fn next_format(reader: &mut PlainReader<'_>) -> Option<Format>
    ensures { IfSome result (λ f. IsNext reader.old reader.new (λ j. IsFormat (data_of j) f × IsPlain j)) }
{
    Some(format_of(next_number_within(reader, 1, 3)?))
}

/// Whether lists of a format have these events.
fn are_in(format: Format, events: &[Event]) -> bool
    ensures { result ≡ list_all (λ e. is_event_in format (event_entry e)) events.now }
{
    events.iter().all(|event| is_event_in(format, event))
}

/// Whether lists of a format have an event.
fn is_event_in(format: Format, event: &Event) -> bool
    ensures { result ≡ is_event_in format (event_entry event.now) }
{
    match event {
        Event::Put { .. }
        | Event::Move { .. }
        | Event::Lose { .. }
        | Event::Expire { .. }
        | Event::Answer { .. } => true,
        Event::Switch { .. } => format.has_switches(),
        Event::Walk { .. } | Event::Ask { .. } | Event::Collected { .. } => format.has_walks(),
    }
}

/// The events of a text in which nothing is unusual. Of any other text it says nothing.
pub fn plain_events(alloc: Global, plan: &Plan, text: &str) -> Option<Vec<Event>>
    ensures { IfSome result (λ v. IsPlainText (AreEventsOf (plan_value plan.now)) text.now (map event_entry v.items)) }
{
    let Ok(index) = NameIndex::of(alloc, &NodeName, plan.nodes.as_slice()) else {
        return None;
    };
    let mut parts = EventsParts::none(&index);
    read_text(alloc, &mut parts, text)?;
    parts.events()
}
