//! The name of a node as it begins a C identifier.
ghost use Rattle.std.{specs.Prelude.{◌≡◌, ◌++◌, ◌∷◌, [], IfOk, OnOk, encode_utf8, string_bytes}, specs.List.{flat_map}};
ghost use Rattle.plan_exports.specs.CSources.{cleaned, identifier, identifier_front, is_letter};

use std::alloc::{AllocError, Global};

/// A name as it begins a C identifier: what is no letter and no digit becomes `_`, and what begins with no letter gets
/// `node_` before it.
pub fn identifier(alloc: Global, name: &str) -> Result<String, AllocError>
    ensures { IfOk result (λ text. string_bytes text ≡ identifier name.now) }
{
    let mut text = String::new(alloc);
    text.push_str(front_of(name.as_bytes()))?;
    push_cleaned(&mut text, name.as_bytes())?;
    Ok(text)
}

/// What stands before a name that begins with no letter.
fn front_of(name: &[u8]) -> &'static str
    ensures { result.now ≡ identifier_front name.now }
{
    match name {
        [first, ..] if is_letter(*first) => "",
        _ => "node_",
    }
}

/// Adds the bytes of a name, of which those that are no letters and no digits become `_`.
fn push_cleaned(text: &mut String, name: &[u8]) -> Result<(), AllocError>
    ensures { OnOk result (string_bytes text.new ≡ string_bytes text.old ++ flat_map (λ b. cleaned b ∷ []) name.now) }
{
    for byte in name {
        text.push(cleaned(*byte))?;
    }
    Ok(())
}

/// A letter or a digit as it is, and `_` for any other byte.
fn cleaned(byte: u8) -> char
    ensures { encode_utf8 result ≡ cleaned byte ∷ [] }
{
    if is_letter(byte) || byte.is_ascii_digit() {
        char::from(byte)
    } else {
        '_'
    }
}

/// Whether a byte is an ASCII letter.
fn is_letter(byte: u8) -> bool
    ensures { result ≡ is_letter byte }
{
    byte.is_ascii_alphabetic()
}
