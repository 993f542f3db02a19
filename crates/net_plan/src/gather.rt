//! Objects straight from a text, key by key.
ghost use Rattle.std.specs.Prelude.{◌≡◌, ◌≤◌, Some, None, IfSome, [], length, vec_len};
ghost use Rattle.json.{specs.Json.{Json, Members, no_members, object, members, value}, specs.Lex.{tokens}};
ghost use Rattle.serde_json.specs.Read.{max_depth};
ghost use Rattle.net_plan.specs.Gathered.{IsMore, IsThere, IsArrayOf};

use crate::json_text::MOST_DEPTH;
use plain_json::PlainReader;
use std::alloc::Global;

/// Gathers the members of an object, one after another. It gives up at anything unusual.
pub trait Gather<'t> {
    // What was gathered is that of these members.
    ghost Holds: { Self → Members → Type 0 };

    ghost Given: { Type 0 };

    // What it needs to know, which stays as it is.
    ghost given: { Self → Given };

    fn take(
        &mut self,
        alloc: Global,
        key: &'t str,
        reader: &mut PlainReader<'t>,
        depth: usize,
    ) -> Option<()>
        ensures more { IfSome result (λ _. IsMore depth key.now reader.old reader.new (Holds self.old) (Holds self.new)) }
        ensures kept { given self.new ≡ given self.old };
}

/// Reads an object, and gathers its members.
pub fn read_object<'t, G: Gather<'t>>(
    alloc: Global,
    gathered: &mut G,
    reader: &mut PlainReader<'t>,
    depth: usize,
) -> Option<()>
    ensures read { IfSome result (λ _. (ms : Members) × (value depth reader.old ≡ Some (object ms, reader.new)) × (G.Holds gathered.old no_members → G.Holds gathered.new ms)) }
    ensures kept { G.given gathered.new ≡ G.given gathered.old }
{
    reader.begin_object()?;
    if depth == 0 {
        return None;
    }
    read_members(alloc, gathered, reader, depth - 1)
}

/// Reads a text that is one object, and gathers its members.
pub fn read_text<'t, G: Gather<'t>>(alloc: Global, gathered: &mut G, text: &'t str) -> Option<()>
    ensures read { IfSome result (λ _. (ms : Members) × (value max_depth (tokens text.now) ≡ Some (object ms, [])) × (G.Holds gathered.old no_members → G.Holds gathered.new ms)) }
    ensures kept { G.given gathered.new ≡ G.given gathered.old }
{
    let mut reader = PlainReader::new(text);
    read_object(alloc, gathered, &mut reader, MOST_DEPTH)?;
    if !reader.is_at_end() {
        return None;
    }
    Some(())
}

/// Gathers the members of an object that was begun.
pub fn read_members<'t, G: Gather<'t>>(
    alloc: Global,
    gathered: &mut G,
    reader: &mut PlainReader<'t>,
    depth: usize,
) -> Option<()>
    ensures read { IfSome result (λ _. (ms : Members) × (members (value depth) (length reader.old) reader.old ≡ Some (ms, reader.new)) × (G.Holds gathered.old no_members → G.Holds gathered.new ms)) }
    ensures kept { G.given gathered.new ≡ G.given gathered.old }
{
    'members: while let Some(key) = reader.next_key()? {
        gathered.take(alloc, key, reader, depth)?;
    }
    Some(())
}

/// Puts a value where none stands yet.
#[inline(always)]
pub fn set_once<T: Drop>(slot: &mut Option<T>, value: T) -> Option<()>
    ensures { IfSome result (λ _. (slot.old ≡ None) × (slot.new ≡ Some value)) }
{
    if slot.is_some() {
        return None;
    }
    *slot = Some(value);
    Some(())
}

/// The next value, where it is an item of some kind.
pub trait NextItem<'t> {
    type Item;

    ghost IsOf: { Self → Json → Self.Item → Type 0 };

    fn next_item(
        &self,
        alloc: Global,
        reader: &mut PlainReader<'t>,
        depth: usize,
    ) -> Option<Self::Item>
        ensures { IfSome result (λ x. IsThere depth reader.old reader.new (λ j. IsOf self.now j x)) };
}

/// Reads a list of at most so many items.
pub fn next_list<'t, N: NextItem<'t>>(
    alloc: Global,
    each: &N,
    reader: &mut PlainReader<'t>,
    depth: usize,
    most: usize,
) -> Option<Vec<N::Item>>
where
    N::Item: Drop,
    ensures read { IfSome result (λ v. IsThere depth reader.old reader.new (λ j. IsArrayOf (N.IsOf each.now) j v.items)) }
    ensures within { IfSome result (λ v. vec_len v ≤ most) }
{
    reader.begin_array()?;
    if depth == 0 {
        return None;
    }
    let mut list = Vec::new(alloc);
    'items: while !reader.take_end_array() {
        if list.len() >= most {
            return None;
        }
        let item = each.next_item(alloc, reader, depth - 1)?;
        if list.push(item).is_err() {
            return None;
        }
    }
    Some(list)
}
