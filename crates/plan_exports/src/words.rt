//! Bytes in hex.
ghost use Rattle.std.{specs.Prelude.{◌≡◌, ◌∷◌, ◌++◌, [], IfOk, OnOk, string_bytes}, specs.List.{flat_map}};
ghost use Rattle.hex.specs.Hex.{encode_lower};
ghost use Rattle.plan_exports.specs.Words.{hex_list};

use std::alloc::{AllocError, Global};

/// Bytes in hex, two digits each, with a text before each but the first.
pub fn hex_list(alloc: Global, between: &str, bytes: &[u8]) -> Result<String, AllocError>
    ensures { IfOk result (λ text. string_bytes text ≡ hex_list between.now bytes.now) }
{
    match bytes {
        [] => Ok(String::new(alloc)),
        [first, later @ ..] => {
            let mut text = hex::encode(alloc, &[*first])?;
            push_later(alloc, &mut text, between, later)?;
            Ok(text)
        }
    }
}

/// Adds bytes in hex, each after a text.
fn push_later(
    alloc: Global,
    text: &mut String,
    between: &str,
    bytes: &[u8],
) -> Result<(), AllocError>
    ensures { OnOk result (string_bytes text.new ≡ string_bytes text.old ++ flat_map (λ byte. between.now ++ encode_lower (byte ∷ [])) bytes.now) }
{
    for byte in bytes {
        text.push_str(between)?;
        text.push_str(&hex::encode(alloc, &[*byte])?)?;
    }
    Ok(())
}
