//! The places of records straight from a text.
ghost use Rattle.std.specs.Prelude.{IfSome, ⊤};
ghost use Rattle.json.specs.Json.{Members, no_members, object};
ghost use Rattle.plan_values.specs.CertificateValues.{places_value};
ghost use Rattle.net_plan.{specs.Gathered.{AreParts, IsPlain}, specs.JsonWords.{IsNumberWithin}, specs.PlaceParts.{places_slots, ArePlacesBy}, specs.NameIndexes.{noted}, specs.Trees.{data_of}};

use crate::gather::{Gather, NextItem, next_list, read_object, set_once};
use crate::name_index::NameIndex;
use crate::next_value::{next_name, next_number_within};
use plain_json::PlainReader;
use plan_values::{NodePlaces, RecordPlace};
use std::alloc::Global;

/// Reads places of records.
#[derive(Clone, Copy)]
struct NextPlace;

impl<'t> NextItem<'t> for NextPlace {
    type Item = RecordPlace;

    ghost IsOf = { λ _ j place. IsNumberWithin 0 4095 (data_of j) place.value × IsPlain j };

    fn next_item(
        &self,
        _alloc: Global,
        reader: &mut PlainReader<'t>,
        _depth: usize,
    ) -> Option<RecordPlace> {
        let value = next_number_within(reader, 0, 4095)? as u16;
        Some(RecordPlace { value })
    }
}

/// What is known so far of the places of a node's records.
#[derive(Drop)]
pub struct PlacesParts<'t> {
    node: Option<&'t str>,
    places: Option<Vec<RecordPlace>>,
}

impl<'t> PlacesParts<'t> {
    fn none() -> PlacesParts<'t>
        ensures { AreParts (places_slots result) no_members }
    {
        PlacesParts {
            node: None,
            places: None,
        }
    }

    fn places(self, nodes: &NameIndex) -> Option<NodePlaces>
        ensures { IfSome result (λ p. (ms : Members) → AreParts (places_slots self.entry) ms → ArePlacesBy (noted nodes.now) (data_of (object ms)) (places_value p) × IsPlain (object ms)) }
    {
        let node = self.node?;
        let places = self.places?;
        let index = nodes.index_of(node)?;
        Some(NodePlaces {
            node: index,
            places,
        })
    }
}

impl<'t> Gather<'t> for PlacesParts<'t> {
    ghost Holds = { λ p. AreParts (places_slots p) };

    ghost Given = { ⊤ };

    ghost given = { λ _. tt };

    fn take(
        &mut self,
        alloc: Global,
        key: &'t str,
        reader: &mut PlainReader<'t>,
        depth: usize,
    ) -> Option<()> {
        match key {
            "node" => set_once(&mut self.node, next_name(reader)?),
            "places" => set_once(
                &mut self.places,
                next_list(alloc, &NextPlace, reader, depth, usize::MAX)?,
            ),
            _ => None,
        }
    }
}

/// Reads the places of the records of nodes that this index finds.
#[derive(Clone, Copy)]
pub struct NextPlaces<'p, 'n> {
    pub nodes: &'p NameIndex<'n>,
}

impl<'p, 'n, 't> NextItem<'t> for NextPlaces<'p, 'n> {
    type Item = NodePlaces;

    ghost IsOf = { λ s j p. ArePlacesBy (noted s.nodes.now) (data_of j) (places_value p) × IsPlain j };

    fn next_item(
        &self,
        alloc: Global,
        reader: &mut PlainReader<'t>,
        depth: usize,
    ) -> Option<NodePlaces> {
        let mut parts = PlacesParts::none();
        read_object(alloc, &mut parts, reader, depth)?;
        parts.places(self.nodes)
    }
}
