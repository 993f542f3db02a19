//! Where in a text the value stands to which a JSON pointer leads.
ghost use Rattle.std.specs.Prelude.{◌≡◌, ◌≢◌, ◌∷◌, ◌<◌, ℕ, Option, Some, None, List, length, map, option_and_then, IfOk, IfSome, IsSome, IsSomeAnd, MatchOption, IsUtf8};
ghost use Rattle.json.{specs.Json.{Json, Members, object}, specs.Lex.{tokens}, specs.Strict.{keys}, specs.Token.{Token}, specs.Value.{value_view}};
ghost use Rattle.net_plan.{specs.Texts.{IsTree}, specs.Trees.{view}, specs.Finding.{step_value}};
ghost use Rattle.net_pointers.{specs.Doubles.{part_at}, specs.Offsets.{IsTextOf, AreTokensFrom, PartStandsAt, KeyStandsAt, LeadsTo, LeadsToKey}, specs.PartTokens.{from_path, from_key}, specs.Pointers.{value_at}, specs.Scans.{Ends, AreLeft}};

use crate::path::path_of;
use crate::scan::token_offset;
use crate::tokens::{count, count_left, follow, follow_to_key};
use json::{Reader, Scratch, Value};
use net_plan::PointerStep;
use std::alloc::{AllocError, Global};

/// The offset at which the value begins to which a pointer leads in the tree of the text. `None` where it leads
/// nowhere.
pub fn offset_of_pointer(
    alloc: Global,
    text: &[u8],
    tree: &Value<'_>,
    pointer: &[PointerStep],
) -> Result<Option<usize>, AllocError>
    requires { IsTextOf text.now (value_view tree.now) }
    ensures { IfOk result (λ found. MatchOption found (value_at (map step_value pointer.now) (view tree.now) ≡ None)
        (LeadsTo text.now (map step_value pointer.now))) }
{
    match path_of(alloc, tree, pointer)? {
        Some(path) => offset_of_part(alloc, text, path.as_slice()),
        None => Ok(None),
    }
}

/// The offset at which the key of a member of an object begins, by the path to the object.
pub fn offset_of_key(
    alloc: Global,
    text: &[u8],
    path: &[usize],
    member: usize,
) -> Result<Option<usize>, AllocError>
    requires { IsUtf8 text.now }
    ensures leads { IfOk result (λ found. IfSome found (LeadsToKey text.now path.now member)) }
    ensures found { IfOk result (λ found. (tree : Json) (ms : Members) → IsTree text.now tree → part_at path.now tree ≡ Some (object ms) → member < length (keys ms) → IsSome found) }
{
    let Ok(text) = simdutf8::compat::from_utf8(text) else {
        unreachable!();
    };
    match left_at_key(alloc, text, path, member)? {
        Some(left) => offset_before(alloc, text, left),
        None => Ok(None),
    }
}

/// Where the part begins to which a path of indices leads.
pub fn offset_of_part(
    alloc: Global,
    text: &[u8],
    path: &[usize],
) -> Result<Option<usize>, AllocError>
    requires { IsUtf8 text.now }
    ensures stands { IfOk result (λ found. IfSome found (PartStandsAt text.now path.now)) }
    ensures found { IfOk result (λ found. (tree part : Json) → IsTree text.now tree → part_at path.now tree ≡ Some part → IsSome found) }
{
    let Ok(text) = simdutf8::compat::from_utf8(text) else {
        unreachable!();
    };
    match left_at_part(alloc, text, path)? {
        Some(left) => offset_before(alloc, text, left),
        None => Ok(None),
    }
}

/// How many tokens are left where a part begins.
#[tactic(auto, using(crate::proofs::Short::tokens_fit, crate::proofs::Short::part_fits))]
fn left_at_part(alloc: Global, text: &str, path: &[usize]) -> Result<Option<usize>, AllocError>
    ensures { IfOk result (AreLeft (from_path path.now (tokens text.now))) }
{
    let mut scratch = Scratch::new(alloc);
    let mut reader = Reader::new(text, &mut scratch)?;
    match follow(&mut reader, path) {
        Some(()) => Ok(count_left(&mut reader)),
        None => Ok(None),
    }
}

/// How many tokens are left where the key of a member begins.
fn left_at_key(
    alloc: Global,
    text: &str,
    path: &[usize],
    member: usize,
) -> Result<Option<usize>, AllocError>
    ensures { IfOk result (AreLeft (option_and_then (from_key member) (from_path path.now (tokens text.now)))) }
{
    let mut scratch = Scratch::new(alloc);
    let mut reader = Reader::new(text, &mut scratch)?;
    match follow_to_key(&mut reader, path, member) {
        Some(()) => Ok(count_left(&mut reader)),
        None => Ok(None),
    }
}

/// Where the token begins with which so many are left.
#[tactic(auto, using(crate::proofs::Short::tokens_fit))]
fn offset_before(alloc: Global, text: &str, left: usize) -> Result<Option<usize>, AllocError>
    ensures { IfOk result (λ found. (u : Token) (us : List Token) → Ends (tokens text.now) (u ∷ us) → length (u ∷ us) ≡ left → u ≢ Token.bad
        → IsSomeAnd found (λ offset. AreTokensFrom text.now offset (u ∷ us))) }
{
    let mut scratch = Scratch::new(alloc);
    let mut reader = Reader::new(text, &mut scratch)?;
    let before = count(&mut reader).saturating_sub(left);
    Ok(token_offset(text.as_bytes(), before))
}
