//! What may stand where a value stands.

use net_plan::{Field, PointerStep, Rule, Shape, Word};
use std::alloc::{AllocError, Global};

/// How a name is spelled.
const NAME: &str = "a name has 1 to 32 letters, digits, '-', '_' or '.'";

/// What may stand there.
pub fn shape_words(alloc: Global, noun: &str, shape: &'static Shape) -> Result<String, AllocError> {
    match shape {
        Shape::Plain(word) => word_words(alloc, noun, *word),
        Shape::OneOf(words) => among_words(alloc, noun, words),
        Shape::List { most, item: _ } => list_words(alloc, *most),
        Shape::Optional(other) => {
            let words = shape_words(alloc, noun, other)?;
            format!(in alloc; "null stands there, or {words}")
        }
        Shape::Object { rule, fields } => object_words(alloc, *rule, fields),
        Shape::Choice { at, choices: _ } => {
            let key = at.key;
            format!(in alloc; "an object there has the key {key}, whose word says which others")
        }
    }
}

fn word_words(alloc: Global, noun: &str, word: Word) -> Result<String, AllocError> {
    match word {
        Word::Number { least, most } => number_words(alloc, noun, least, most),
        Word::Name | Word::Named(_) => NAME.to_string(alloc),
        Word::Truth => format!(in alloc; "{noun} is true or false"),
        Word::Kind => "a kind is \"bridge\" or \"endpoint\"".to_string(alloc),
        Word::Hex => "bytes are in hex, two digits each".to_string(alloc),
        Word::Address => "an address has at most 8 bytes in hex, two digits each".to_string(alloc),
    }
}

/// What a number is by the pointer that leads to it: an endpoint ID, or else as its key says.
pub fn number_noun(pointer: &[PointerStep]) -> &'static str {
    match pointer.last().copied() {
        Some(PointerStep::Key("eid")) => "an endpoint ID",
        Some(PointerStep::Key(key)) => key,
        Some(PointerStep::Index(_)) => "a number of the list",
        None => "the whole text",
    }
}

/// What else may stand in a plan where a pointer leads: its other format, and of the endpoint IDs those that a node
/// has.
pub fn also_words(pointer: &[PointerStep]) -> &'static str {
    match pointer.last().copied() {
        Some(PointerStep::Key("format")) => " or 2",
        Some(PointerStep::Key("eid")) => ", and a node's is 8 to 254",
        _ => "",
    }
}

/// One number, or two bounds.
fn number_words(alloc: Global, noun: &str, least: u64, most: u64) -> Result<String, AllocError> {
    if least == most {
        return format!(in alloc; "{noun} is {least}");
    }
    format!(in alloc; "{noun} is {least} to {most}")
}

/// One of these words.
fn among_words(alloc: Global, noun: &str, words: &[&str]) -> Result<String, AllocError> {
    let mut text = String::new(alloc);
    for word in words {
        write!(text, "{word}, ")?;
    }
    format!(in alloc; "{noun} is one of {text}and nothing else")
}

/// How long a list may be.
fn list_words(alloc: Global, most: Option<usize>) -> Result<String, AllocError> {
    match most {
        Some(most) => format!(in alloc; "a list there has at most {most} items"),
        None => "a list stands there".to_string(alloc),
    }
}

/// The keys of an object, and what else is asked of it.
fn object_words(alloc: Global, rule: Rule, fields: &[Field]) -> Result<String, AllocError> {
    let mut keys = String::new(alloc);
    for field in fields {
        let key = field.key;
        write!(keys, "{key}, ")?;
    }
    let rule = match rule {
        Rule::None => "",
        Rule::EndsInTime => ", and first + size is at most 256",
    };
    format!(in alloc; "an object there has the keys {keys}and no others{rule}")
}
