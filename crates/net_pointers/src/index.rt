//! A text in which the places of many values are looked up.
ghost use Rattle.std.specs.Prelude.{◌≡◌, Some, IfOk, IsSomeAnd, IsUtf8, slice_get};
ghost use Rattle.json.{specs.Json.{Json}, specs.Lex.{tokens}};
ghost use Rattle.net_plan.specs.Texts.{IsTree};
ghost use Rattle.net_pointers.{specs.Doubles.{part_at}, specs.Spots.{PartIsAt}};

use crate::offset::offset_of_part;
use crate::path::path_of;
use crate::position::position_of;
use crate::spots::{Spot, token_spots};
use crate::tape::follow_links;
use json::{Error, Scratch, Tape, Value};
use net_plan::PointerStep;
use std::alloc::{AllocError, Global};
use std::marker::Model;

/// A JSON text, with where each of its tokens begins. One pass over the text makes it, and then no place is looked for
/// from the beginning again.
#[derive(Drop)]
pub struct TextIndex<'t> {
    text: &'t [u8],
    /// The tokens and the links past lists and objects. `None` of a text that no tape takes.
    tape: Option<Tape<'t>>,
    spots: Vec<Spot>,
}

impl<'t> Model for TextIndex<'t> {
    ghost use Rattle.std.specs.Prelude.{◌≡◌, ℕ, List, IfSome, IsUtf8};
    ghost use Rattle.json.specs.Lex.{tokens};
    ghost use Rattle.net_pointers.specs.Spots.{AreSpots};

    ghost Value = { List ℕ };

    ghost view = { λ i. i.text.now };

    ghost invariant = { λ i. IsUtf8 i.text.now × AreSpots i.text.now i.spots.items × IfSome i.tape (λ tape. tape ≡ tokens i.text.now) };
}

impl<'t> TextIndex<'t> {
    ghost use Rattle.std.specs.Prelude.{◌≡◌, map, Some, None, IfOk, IsSomeAnd, MatchOption, IsUtf8};
    ghost use Rattle.json.{specs.Json.{Json}, specs.Lex.{tokens}, specs.Value.{value_view}};
    ghost use Rattle.net_plan.{specs.Texts.{IsTree}, specs.Trees.{view}, specs.Finding.{step_value}};
    ghost use Rattle.net_pointers.{specs.Doubles.{part_at}, specs.Offsets.{IsTextOf, LeadsTo}, specs.Pointers.{value_at}, specs.Spots.{IsAt, PartIsAt}};

    /// Of a text. It takes memory for each of its tokens.
    pub fn of(alloc: Global, text: &'t [u8], scratch: &'t mut Scratch) -> Result<Self, AllocError>
        requires { IsUtf8 text.now }
        ensures { IfOk result (λ index. index ≡ text.now) }
    {
        let Ok(words) = simdutf8::compat::from_utf8(text) else {
            unreachable!();
        };
        let tape = match Tape::parse(words, scratch, Vec::new(alloc)) {
            Ok(tape) => Some(tape),
            Err(Error::OutOfMemory) => return Err(AllocError),
            Err(Error::Invalid | Error::TooLong | Error::DuplicateKey) => None,
        };
        let spots = token_spots(alloc, text)?;
        Ok(TextIndex { text, tape, spots })
    }

    /// Where the value begins to which a pointer leads in the tree of the text. `None` where it leads nowhere.
    pub fn spot_of_pointer(
        &self,
        alloc: Global,
        tree: &Value<'_>,
        pointer: &[PointerStep],
    ) -> Result<Option<Spot>, AllocError>
        requires { IsTextOf self.now (value_view tree.now) }
        ensures { IfOk result (λ found. MatchOption found (value_at (map step_value pointer.now) (view tree.now) ≡ None)
            (λ spot. LeadsTo self.now (map step_value pointer.now) spot.offset × IsAt self.now spot.offset spot.position)) }
    {
        match path_of(alloc, tree, pointer)? {
            Some(path) => self.spot_of_part(alloc, &path),
            None => Ok(None),
        }
    }

    /// Where the part begins to which a path of indices leads.
    fn spot_of_part(&self, alloc: Global, path: &[usize]) -> Result<Option<Spot>, AllocError>
        ensures { IfOk result (λ found. (tree part : Json) → IsTree self.now tree → part_at path.now tree ≡ Some part → IsSomeAnd found (PartIsAt self.now path.now)) }
    {
        match &self.tape {
            Some(tape) => Ok(self.spot_over(tape, path)),
            None => spot_from_start(alloc, self.text, path),
        }
    }

    /// The same over the links of the tape.
    fn spot_over(&self, tape: &Tape<'t>, path: &[usize]) -> Option<Spot>
        requires { tape.now ≡ tokens self.now }
        ensures { (tree part : Json) → IsTree self.now tree → part_at path.now tree ≡ Some part → IsSomeAnd result (PartIsAt self.now path.now) }
    {
        let at = follow_links(tape.nodes(), path)?;
        spot_at(&self.spots, at)
    }
}

/// That of a token, by its index.
fn spot_at(spots: &[Spot], at: usize) -> Option<Spot>
    ensures { result ≡ slice_get spots.now at }
{
    match spots.get(at) {
        Some(spot) => Some(*spot),
        None => None,
    }
}

/// The same by a search from the beginning of the text.
fn spot_from_start(alloc: Global, text: &[u8], path: &[usize]) -> Result<Option<Spot>, AllocError>
    requires { IsUtf8 text.now }
    ensures { IfOk result (λ found. (tree part : Json) → IsTree text.now tree → part_at path.now tree ≡ Some part → IsSomeAnd found (PartIsAt text.now path.now)) }
{
    match offset_of_part(alloc, text, path)? {
        Some(offset) => Ok(Some(Spot {
            offset,
            position: position_of(text, offset),
        })),
        None => Ok(None),
    }
}
