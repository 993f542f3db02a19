//! Shapes: what may stand where in a text.
ghost use Rattle.std.specs.Prelude.{◌≡◌};
ghost use Rattle.net_plan.specs.Grammar.{grammar, fields_of, fields_view};

use std::slice::from_ref;

/// What a name is the name of.
#[derive(Clone, Copy, Debug, PartialEq, Eq)]
pub enum Named {
    Buses,
    Nodes,
}

/// What a value without parts may be.
#[derive(Clone, Copy, Debug, PartialEq, Eq)]
pub enum Word {
    /// A whole number between two bounds.
    Number { least: u64, most: u64 },
    /// The name that a bus or a node has.
    Name,
    /// The name of one of the plan's buses or nodes.
    Named(Named),
    /// `true` or `false`.
    Truth,
    /// The kind of a node.
    Kind,
    /// Hex text.
    Hex,
    /// Hex text of at most 8 bytes.
    Address,
}

/// What else is asked of an object, beside its keys and what stands at them.
#[derive(Clone, Copy, Debug, PartialEq, Eq)]
pub enum Rule {
    None,
    /// A range of endpoint IDs ends at 255 or before.
    EndsInTime,
}

/// What may stand at one place of a text.
#[derive(Clone, Copy)]
#[cycle(shape)]
pub enum Shape {
    Plain(Word),
    /// One of these words.
    OneOf(&'static [&'static str]),
    /// A list of at most so many items; of any length where there is no bound.
    List {
        most: Option<usize>,
        item: &'static Shape,
    },
    /// `null`, or that.
    Optional(&'static Shape),
    /// An object with exactly these keys, in the order of tests.
    Object {
        rule: Rule,
        fields: &'static [Field],
    },
    /// An object that has this key, by whose word it is one of the choices. What a choice has for a key is its word.
    Choice {
        at: &'static Field,
        choices: &'static [Field],
    },
}

/// A key of an object, and what may stand at it.
#[derive(Clone, Copy)]
#[cycle(shape)]
pub struct Field {
    pub key: &'static str,
    pub shape: Shape,
}

/// The keys of the object that may stand there, with what may stand at them; of a choice the key that decides, and none
/// where no object may.
#[tactic(auto, using(crate::proofs::FieldKeys::fields_cons))]
pub fn fields_of(shape: &'static Shape) -> &'static [Field]
    ensures { fields_view result.now ≡ fields_of (grammar shape.now) }
{
    match shape {
        Shape::Object { rule: _, fields } => fields,
        Shape::Optional(other) => fields_of(other),
        Shape::Choice { at, choices: _ } => from_ref(at),
        Shape::Plain(_) | Shape::OneOf(_) | Shape::List { most: _, item: _ } => &[],
    }
}

/// The names of buses and of nodes that are known where a text is searched.
#[derive(Debug, Drop)]
pub struct KnownNames<'t> {
    pub buses: Vec<&'t str>,
    pub nodes: Vec<&'t str>,
}
