//! A certificate's JSON value.
ghost use Rattle.std.specs.Prelude.{codes, ◌≡◌, IfOk, ℕ, List, map, slice_index_or, [], ◌∷◌};
ghost use Rattle.serde_json.{specs.Data.{Data, object, member, no_members}, specs.View.{view, members_view}};
ghost use Rattle.net_plan.specs.CertificateJson.{list_data, number_data, level_data, places_data, range_data, ranks_data, certificate_data};
ghost use Rattle.plan_values.{specs.CertificateValues.{LevelValue, PlacesValue, RangeValue, NodeRanksValue, level_value, places_value, range_value, node_ranks_value, certificate_value}, specs.PlanValues.{node_value, node_names}};

use plan_values::{Certificate, Node, NodeLevel, NodePlaces, NodeRanks, RankRange, RecordPlace};
use serde_json::{Map, Value, json, put};
use std::alloc::{AllocError, Global};

/// Makes the JSON values of items, all of one kind.
trait WriteItem {
    type Item;

    ghost Meaning: { Type 0 };

    ghost meaning: { Self.Item → Meaning };

    // The JSON value of what an item means.
    ghost data_of: { Self → Meaning → Data };

    fn item_value(&self, alloc: Global, item: &Self::Item) -> Result<Value, AllocError>
        ensures { IfOk result (λ v. view v ≡ data_of self.now (meaning item.now)) };
}

/// The JSON list of items.
fn list_value<W: WriteItem>(
    alloc: Global,
    writer: &W,
    items: &[W::Item],
) -> Result<Value, AllocError>
    ensures { IfOk result (λ v. view v ≡ list_data (W.data_of writer.now) (map W.meaning items.now)) }
{
    let mut list = Vec::new(alloc);
    for item in items {
        list.push(writer.item_value(alloc, item)?)?;
    }
    Ok(Value::Array(list))
}

/// The name of the node at an index; an empty text past the last node.
fn name_at(nodes: &[Node], index: usize) -> &str
    ensures { result.now ≡ slice_index_or (node_names (map node_value nodes.now)) index [] }
{
    match nodes.get(index) {
        Some(node) => node.name.text.as_str(),
        None => "",
    }
}

/// Writes levels of these nodes.
#[derive(Clone, Copy)]
struct LevelWriter<'p> {
    nodes: &'p [Node],
}

impl<'p> WriteItem for LevelWriter<'p> {
    type Item = NodeLevel;

    ghost Meaning = { LevelValue };

    ghost meaning = { level_value };

    ghost data_of = { λ s l. level_data (node_names (map node_value s.nodes.now)) l };

    fn item_value(&self, alloc: Global, item: &NodeLevel) -> Result<Value, AllocError> {
        json!(in alloc; {"level": item.level, "node": name_at(self.nodes, item.node)})
    }
}

/// Writes places of records.
#[derive(Clone, Copy)]
struct RecordPlaceWriter;

impl WriteItem for RecordPlaceWriter {
    type Item = RecordPlace;

    ghost Meaning = { ℕ };

    ghost meaning = { λ place. place.value };

    ghost data_of = { λ _ n. number_data n };

    fn item_value(&self, _alloc: Global, item: &RecordPlace) -> Result<Value, AllocError> {
        Ok(Value::from(item.value))
    }
}

/// Writes the places of the records of these nodes.
#[derive(Clone, Copy)]
struct PlacesWriter<'p> {
    nodes: &'p [Node],
}

impl<'p> WriteItem for PlacesWriter<'p> {
    type Item = NodePlaces;

    ghost Meaning = { PlacesValue };

    ghost meaning = { places_value };

    ghost data_of = { λ s p. places_data (node_names (map node_value s.nodes.now)) p };

    fn item_value(&self, alloc: Global, item: &NodePlaces) -> Result<Value, AllocError> {
        let places = list_value(alloc, &RecordPlaceWriter, item.places.as_slice())?;
        json!(in alloc; {"node": name_at(self.nodes, item.node), "places": places})
    }
}

/// Writes ranges of endpoint IDs of one rank.
#[derive(Clone, Copy)]
struct RangeWriter;

impl WriteItem for RangeWriter {
    type Item = RankRange;

    ghost Meaning = { RangeValue };

    ghost meaning = { range_value };

    ghost data_of = { λ _ r. range_data r };

    fn item_value(&self, alloc: Global, item: &RankRange) -> Result<Value, AllocError> {
        json!(in alloc; {"first": item.first.value, "rank": item.rank, "size": item.size})
    }
}

/// Writes the ranks of these nodes.
#[derive(Clone, Copy)]
struct RanksWriter<'p> {
    nodes: &'p [Node],
}

impl<'p> WriteItem for RanksWriter<'p> {
    type Item = NodeRanks;

    ghost Meaning = { NodeRanksValue };

    ghost meaning = { node_ranks_value };

    ghost data_of = { λ s r. ranks_data (node_names (map node_value s.nodes.now)) r };

    fn item_value(&self, alloc: Global, item: &NodeRanks) -> Result<Value, AllocError> {
        let ranges = list_value(alloc, &RangeWriter, item.ranges.as_slice())?;
        json!(in alloc; {"node": name_at(self.nodes, item.node), "ranges": ranges})
    }
}

/// The JSON value of a certificate of these nodes.
#[tactic(auto, unfolding(crate::specs::CertificateJson::certificate_data))]
pub fn certificate_json(
    alloc: Global,
    nodes: &[Node],
    certificate: &Certificate,
) -> Result<Value, AllocError>
    ensures { IfOk result (λ v. view v ≡ certificate_data (node_names (map node_value nodes.now)) (certificate_value certificate.now)) }
{
    let levels = list_value(alloc, &LevelWriter { nodes }, certificate.levels.as_slice())?;
    let places = list_value(
        alloc,
        &PlacesWriter { nodes },
        certificate.places.as_slice(),
    )?;
    let ranks = list_value(alloc, &RanksWriter { nodes }, certificate.ranks.as_slice())?;
    object_of(alloc, levels, places, ranks)
}

/// The JSON object of these lists.
fn object_of(alloc: Global, levels: Value, places: Value, ranks: Value) -> Result<Value, AllocError>
    ensures { IfOk result (λ v. view v ≡ object (member (codes "format") (number_data 1) (member (codes "levels") (view levels)
        (member (codes "places") (view places) (member (codes "ranks") (view ranks) no_members))))) }
{
    let mut members = first_members(alloc, levels)?;
    put(&mut members, alloc, "places", places)?;
    put(&mut members, alloc, "ranks", ranks)?;
    Ok(Value::Object(members))
}

/// The format and the levels, as members of an object.
fn first_members(alloc: Global, levels: Value) -> Result<Map<String, Value>, AllocError>
    ensures { IfOk result (λ members. members_view members.entries ≡ member (codes "format") (number_data 1)
        (member (codes "levels") (view levels) no_members)) }
{
    let mut members = Map::new(alloc);
    put(&mut members, alloc, "format", Value::from(1u8))?;
    put(&mut members, alloc, "levels", levels)?;
    Ok(members)
}
