//! JSON values of items of a plan, each with its place in the plan's text.
ghost use Rattle.std.specs.Prelude.{ℕ, List, IfOk};
ghost use Rattle.json.specs.Value.{value_view};
ghost use Rattle.net_pointers.specs.Offsets.{IsTextOf};
ghost use Rattle.serde_json.{specs.Data.{Data}, specs.View.{view}};
ghost use Rattle.command_questions.specs.declared.form.Form.{Form};
ghost use Rattle.json_commands.specs.Values.{IsListTold};

use crate::lists::{Listed, list_of};
use crate::places::Placing;
use command_answers::PlanText;
use command_questions::Form;
use json::{Scratch, Value as Tree};
use net_plan::json_of;
use net_pointers::TextIndex;
use serde_json::Value;
use std::alloc::{AllocError, Global};

/// Makes the JSON values of items, all of one kind, that have places in a text.
pub trait Noted {
    type Item;

    // The JSON value tells the item in the form, with places in the text of this name.
    ghost noted: { Self → Form → List ℕ → List ℕ → Self.Item → Data → Type 0 };

    fn note(
        &self,
        alloc: Global,
        placing: &Placing<'_, '_, '_>,
        item: &Self::Item,
    ) -> Result<Value, AllocError>
        requires { IsTextOf placing.now.index.now (value_view placing.now.tree.now) }
        ensures { IfOk result (λ value. noted self.now placing.now.form placing.now.name.now placing.now.index.now item.now (view value)) };
}

/// The JSON list of items, in their order. The plan's text is read once more, for its tree. The name is that of its file.
pub fn notes_of<N: Noted>(
    alloc: Global,
    form: Form,
    name: &str,
    given: &PlanText,
    noter: &N,
    items: &[N::Item],
) -> Result<Value, AllocError>
    ensures { IfOk result (λ value. IsListTold (N.noted noter.now form name.now given.now.text.items) items.now (view value)) }
{
    let text = given.text.as_slice();
    let mut scratch = Scratch::new(alloc);
    match json_of(alloc, text, &mut scratch) {
        Ok(tree) => notes_in(alloc, form, name, text, &tree, noter, items),
        // no memory: the text was read before, so `json_of` has no other error.
        Err(_) => Err(AllocError),
    }
}

fn notes_in<N: Noted>(
    alloc: Global,
    form: Form,
    name: &str,
    text: &[u8],
    tree: &Tree<'_>,
    noter: &N,
    items: &[N::Item],
) -> Result<Value, AllocError>
    requires { IsTextOf text.now (value_view tree.now) }
    ensures { IfOk result (λ value. IsListTold (N.noted noter.now form name.now text.now) items.now (view value)) }
{
    let mut scratch = Scratch::new(alloc);
    let index = TextIndex::of(alloc, text, &mut scratch)?;
    let placing = Placing {
        form,
        name,
        index: &index,
        tree,
    };
    list_of(alloc, &Placed { placing, noter }, items)
}

/// Writes items over the index of a text.
#[derive(Drop)]
struct Placed<'a, 't, 'i, 'n, N> {
    placing: Placing<'a, 't, 'i>,
    noter: &'n N,
}

impl<'a, 't, 'i, 'n, N: Noted> Listed for Placed<'a, 't, 'i, 'n, N> {
    type Item = N::Item;

    ghost ready = { λ s. IsTextOf s.placing.index.now (value_view s.placing.tree.now) };

    ghost told = { λ s item d. N.noted s.noter.now s.placing.form s.placing.name.now s.placing.index.now item d };

    fn value_of(&self, alloc: Global, item: &N::Item) -> Result<Value, AllocError> {
        self.noter.note(alloc, &self.placing, item)
    }
}
