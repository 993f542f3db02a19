//! Names and keys that stand twice.
ghost use Rattle.std.{specs.Prelude.{◌≡◌, true, map, IfOk, MatchOption}, specs.BTreeMap.{get_by}, specs.Cmp.Lexicographic.{slice_cmp}, specs.Ordering.{nat_cmp}};
ghost use Rattle.json.{specs.Json.{array, object}, specs.Strict.{keys}, specs.Value.{value_view, items_view, members_view}};
ghost use Rattle.net_plan.{specs.Names.{names_differ}, specs.SingleKeys.{single, items_single, members_single}};
ghost use Rattle.net_pointers.specs.Doubles.{IsFirstDoubled, IsFirstDoubledKey};

use json::Value;
use std::alloc::{AllocError, Global};
use std::collections::BTreeMap;

/// Two places of a list, from 0.
#[derive(Clone, Copy, Debug, PartialEq, Eq)]
pub struct TwoIndices {
    pub first: usize,
    pub second: usize,
}

/// The object that has a key twice, and the two members.
#[derive(Debug, Drop)]
pub struct DoubledKey {
    /// The index of an item or of a member at each step, from 0.
    pub path: Vec<usize>,
    pub members: TwoIndices,
}

/// The first name of a list that stands before it too. Names are found by comparison, since who writes a text could
/// choose names that collide in a hash.
pub fn first_doubled(alloc: Global, names: &[&str]) -> Result<Option<TwoIndices>, AllocError>
    ensures { IfOk result (λ found. MatchOption found (names_differ (map (λ name. name.now) names.now) ≡ true) (λ places. IsFirstDoubled (map (λ name. name.now) names.now) places)) }
{
    let mut passed = BTreeMap::new(alloc);
    for (second, name) in names.iter().enumerate() {
        if let Some(first) = index_of(&passed, name) {
            return Ok(Some(TwoIndices { first, second }));
        }
        match passed.insert(*name, second) {
            Ok(_) => {}
            // no memory: the map could not grow.
            Err(_) => return Err(AllocError),
        }
    }
    Ok(None)
}

/// The index that was noted for a name, if there is one.
fn index_of(passed: &BTreeMap<&str, usize>, name: &str) -> Option<usize>
    ensures { result ≡ get_by (λ other. slice_cmp nat_cmp name.now other.now) passed.now }
{
    passed.get(name).copied()
}

/// The first object, depth first, that has a key twice.
#[cycle(doubled)]
pub fn doubled_key(alloc: Global, value: &Value<'_>) -> Result<Option<DoubledKey>, AllocError>
    ensures { IfOk result (λ found. MatchOption found (single (value_view value.now) ≡ true) (λ doubled. IsFirstDoubledKey (value_view value.now) doubled)) }
{
    match value {
        Value::Array(items) => doubled_in_items(alloc, items),
        Value::Object(members) => {
            if let Some(members) = doubled_here(alloc, members)? {
                return Ok(Some(DoubledKey {
                    path: Vec::new(alloc),
                    members,
                }));
            }
            doubled_in_members(alloc, members)
        }
        _ => Ok(None),
    }
}

#[cycle(doubled)]
fn doubled_in_items(alloc: Global, items: &Vec<Value<'_>>) -> Result<Option<DoubledKey>, AllocError>
    ensures { IfOk result (λ found. MatchOption found (items_single (items_view items.now.items) ≡ true) (λ doubled. IsFirstDoubledKey (array (items_view items.now.items)) doubled)) }
{
    for (index, item) in items.iter().enumerate() {
        if let Some(doubled) = doubled_key(alloc, item)? {
            return Ok(Some(doubled.under(index)?));
        }
    }
    Ok(None)
}

#[cycle(doubled)]
fn doubled_in_members(
    alloc: Global,
    members: &Vec<(&str, Value<'_>)>,
) -> Result<Option<DoubledKey>, AllocError>
    requires { names_differ (keys (members_view members.now.items)) ≡ true }
    ensures { IfOk result (λ found. MatchOption found (members_single (members_view members.now.items) ≡ true) (λ doubled. IsFirstDoubledKey (object (members_view members.now.items)) doubled)) }
{
    for (index, member) in members.iter().enumerate() {
        if let Some(doubled) = doubled_key(alloc, &member.1)? {
            return Ok(Some(doubled.under(index)?));
        }
    }
    Ok(None)
}

/// The first key of an object that stands before it too.
#[tactic(auto, using(net_plan::proofs::SingleKeys::keys_of))]
fn doubled_here(
    alloc: Global,
    members: &Vec<(&str, Value<'_>)>,
) -> Result<Option<TwoIndices>, AllocError>
    ensures { IfOk result (λ found. MatchOption found (names_differ (keys (members_view members.now.items)) ≡ true) (λ places. IsFirstDoubled (keys (members_view members.now.items)) places)) }
{
    let keys = keys_of(alloc, members.as_slice())?;
    first_doubled(alloc, keys.as_slice())
}

fn keys_of<'v>(alloc: Global, members: &'v [(&str, Value<'_>)]) -> Result<Vec<&'v str>, AllocError>
    ensures { IfOk result (λ keys. map (λ key. key.now) keys.items ≡ map (λ m. m.0.now) members.now) }
{
    let mut keys = Vec::new(alloc);
    for member in members {
        keys.push(member.0)?;
    }
    Ok(keys)
}

impl DoubledKey {
    ghost use Rattle.std.specs.Prelude.{◌≡◌, ◌∷◌, IfOk};

    /// The same, seen one step further out.
    fn under(self, index: usize) -> Result<DoubledKey, AllocError>
        ensures { IfOk result (λ doubled. (doubled.path.items ≡ index ∷ self.path.items) × (doubled.members ≡ self.members)) }
    {
        let mut doubled = self;
        match doubled.path.insert(0, index) {
            Ok(()) => Ok(doubled),
            // no memory: the path could not grow.
            Err(_) => Err(AllocError),
        }
    }
}
