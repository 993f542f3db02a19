//! The order of tests: the first fault of a text that is JSON.
ghost use Rattle.std.specs.Prelude.{◌≡◌, true, false, IfOk, MatchOption, codes, map};
ghost use Rattle.json.specs.Value.{value_view};
ghost use Rattle.serde_json.specs.Find.{get};
ghost use Rattle.net_plan.specs.Trees.{view};
ghost use Rattle.net_pointers.{specs.Ascending.{AreFirst, DoOverlap, ranks_ascend}, specs.Asks.{DoDiffer, IsDoubledIn, asks, asks_of, list_key, list_names, name_key, sort_of}, specs.OrderOfTests.{IsFirstTrouble, IsTold, fault_in}};

use crate::doubled::{DoubledKey, TwoIndices, doubled_key, first_doubled};
use crate::known::{known_names, names_of_nodes, texts_at};
use crate::ranges::{Overlap, first_overlap};
use json::Value;
use net_plan::{
    Found, KnownNames, Shape, ValueFault, certificate_shape, events_format, events_shape,
    find_fault, format_of, plan_shape,
};
use plan_values::Plan;
use std::alloc::{AllocError, Global};

/// A list whose entries have different names.
#[derive(Clone, Copy, Debug, PartialEq, Eq)]
pub enum NameList {
    Buses,
    Levels,
    Places,
    Ranks,
}

/// What a text is to be.
#[derive(Clone, Copy)]
pub enum TextSort<'p> {
    Plan,
    /// The certificate of a plan.
    Certificate(&'p Plan),
    /// Events at the nodes of a plan.
    Events(&'p Plan),
}

/// What is asked of a value: what may stand where, which lists name nothing twice, whether ranges of ranks ascend
/// apart, and which names there are.
#[derive(Drop)]
pub struct Asked<'a> {
    pub shape: &'static Shape,
    pub lists: &'static [NameList],
    pub ascending: bool,
    pub known: KnownNames<'a>,
}

/// What is wrong with a value.
#[derive(Drop)]
pub enum Trouble {
    /// A value is wrong in itself.
    Value(Found),
    /// A list has two entries of one name.
    DoubledName(NameList, TwoIndices),
    /// Two ranges don't ascend apart.
    Overlap(Overlap),
    /// An object has a key twice.
    DoubledKey(DoubledKey),
    /// A name is that of no bus, or of no node.
    UnknownName(Found),
}

impl Trouble {
    /// The fault for which it is refused.
    pub fn fault(&self) -> ValueFault
        ensures { result ≡ fault_in self.now }
    {
        match self {
            Trouble::Value(found) => found.fault,
            Trouble::DoubledName(..) | Trouble::Overlap(_) | Trouble::DoubledKey(_) => {
                ValueFault::Doubled
            }
            Trouble::UnknownName(_) => ValueFault::UnknownName,
        }
    }
}

/// What is asked of the value of a text.
pub fn asked_of<'a>(
    alloc: Global,
    sort: TextSort<'a>,
    value: &'a Value<'_>,
) -> Result<Asked<'a>, AllocError>
    ensures { IfOk result (λ asked. asks asked ≡ asks_of (sort_of sort.entry) (view value.now)) }
{
    match sort {
        TextSort::Plan => Ok(Asked {
            shape: plan_shape(format_of(value)),
            lists: &[NameList::Buses],
            ascending: false,
            known: known_names(alloc, value)?,
        }),
        TextSort::Certificate(plan) => Ok(Asked {
            shape: certificate_shape(),
            lists: &[NameList::Levels, NameList::Places, NameList::Ranks],
            ascending: true,
            known: names_of_nodes(alloc, plan.nodes.as_slice())?,
        }),
        TextSort::Events(plan) => Ok(Asked {
            shape: events_shape(events_format(value)),
            lists: &[],
            ascending: false,
            known: names_of_nodes(alloc, plan.nodes.as_slice())?,
        }),
    }
}

/// What is wrong with the value of a text, by the first fault in the order of tests. `None` where it is what the text
/// is to be.
pub fn trouble_of(
    alloc: Global,
    sort: TextSort<'_>,
    asked: &Asked<'_>,
    value: &Value<'_>,
) -> Result<Option<Trouble>, AllocError>
    requires { asks asked.now ≡ asks_of (sort_of sort) (view value.now) }
    ensures { IfOk result (λ trouble. IsTold (sort_of sort.entry) (value_view value.now) trouble) }
{
    first_trouble(alloc, asked, value)
}

fn first_trouble(
    alloc: Global,
    asked: &Asked<'_>,
    value: &Value<'_>,
) -> Result<Option<Trouble>, AllocError>
    ensures { IfOk result (λ trouble. IsFirstTrouble (asks asked.now) (value_view value.now) trouble) }
{
    if let Some(found) = find_fault(alloc, None, asked.shape, value)? {
        return Ok(Some(Trouble::Value(found)));
    }
    if let Some((list, indices)) = doubled_name(alloc, asked.lists, value)? {
        return Ok(Some(Trouble::DoubledName(list, indices)));
    }
    if let Some(overlap) = overlap_in(asked.ascending, value) {
        return Ok(Some(Trouble::Overlap(overlap)));
    }
    if let Some(doubled) = doubled_key(alloc, value)? {
        return Ok(Some(Trouble::DoubledKey(doubled)));
    }
    match find_fault(alloc, Some(&asked.known), asked.shape, value)? {
        Some(found) => Ok(Some(Trouble::UnknownName(found))),
        None => Ok(None),
    }
}

/// The first of the lists that names something twice, and the two entries.
fn doubled_name(
    alloc: Global,
    lists: &[NameList],
    value: &Value<'_>,
) -> Result<Option<(NameList, TwoIndices)>, AllocError>
    ensures { IfOk result (λ found. MatchOption found (DoDiffer lists.now (view value.now)) (λ p. IsDoubledIn lists.now p.0 p.1 (view value.now))) }
{
    for list in lists {
        let names = list_names(alloc, *list, value)?;
        if let Some(indices) = first_doubled(alloc, names.as_slice())? {
            return Ok(Some((*list, indices)));
        }
    }
    Ok(None)
}

/// The first ranges of ranks that don't ascend apart, where they are to.
fn overlap_in(ascending: bool, value: &Value<'_>) -> Option<Overlap>
    ensures { let apart = ranks_ascend (get (codes "ranks") (view value.now)) in
        MatchOption result (ascending ≡ true → apart ≡ true) (λ overlap. (ascending ≡ true) × (apart ≡ false) × AreFirst (DoOverlap (view value.now)) overlap) }
{
    if ascending {
        first_overlap(value)
    } else {
        None
    }
}

/// The names that the entries of a list have.
fn list_names<'v>(
    alloc: Global,
    list: NameList,
    value: &'v Value<'_>,
) -> Result<Vec<&'v str>, AllocError>
    ensures { IfOk result (λ names. map (λ name. name.now) names.items ≡ list_names list (view value.now)) }
{
    texts_at(alloc, value, list_key(list), name_key(list))
}

/// The key at which a list stands.
pub fn list_key(list: NameList) -> &'static str
    ensures { result.now ≡ list_key list }
{
    match list {
        NameList::Buses => "buses",
        NameList::Levels => "levels",
        NameList::Places => "places",
        NameList::Ranks => "ranks",
    }
}

/// The key at which an entry of a list has its name.
pub fn name_key(list: NameList) -> &'static str
    ensures { result.now ≡ name_key list }
{
    match list {
        NameList::Buses => "name",
        NameList::Levels | NameList::Places | NameList::Ranks => "node",
    }
}
