//! Numbers, texts and truth values straight from a text.
ghost use Rattle.std.specs.Prelude.{◌≤◌, IfSome};
ghost use Rattle.net_plan.{specs.Gathered.{IsNext, IsPlain}, specs.JsonWords.{IsName, IsNumber, IsNumberWithin, IsHex, IsText, IsTruth}, specs.PlanText.{IsByte, IsWord}, specs.Trees.{data_of}};

use plain_json::PlainReader;
use plan_values::is_name;
use std::alloc::Global;

/// A whole number.
#[inline(always)]
pub fn next_number(reader: &mut PlainReader<'_>) -> Option<u64>
    ensures { IfSome result (λ n. IsNext reader.old reader.new (λ j. IsNumber (data_of j) n × IsPlain j)) }
{
    let number = reader.next_number()?;
    Some(number)
}

/// A whole number between two bounds.
#[inline(always)]
pub fn next_number_within(reader: &mut PlainReader<'_>, least: u64, most: u64) -> Option<u64>
    ensures read { IfSome result (λ n. IsNext reader.old reader.new (λ j. IsNumberWithin least most (data_of j) n × IsPlain j)) }
    ensures bound { IfSome result (λ n. (least ≤ n) × (n ≤ most)) }
{
    let number = next_number(reader)?;
    if number < least || most < number {
        return None;
    }
    Some(number)
}

/// A byte.
#[inline(always)]
pub fn next_byte(reader: &mut PlainReader<'_>) -> Option<u8>
    ensures { IfSome result (λ n. IsNext reader.old reader.new (λ j. IsByte (data_of j) n × IsPlain j)) }
{
    Some(next_number_within(reader, 0, 255)? as u8)
}

/// A number of 32 bits.
pub fn next_word(reader: &mut PlainReader<'_>) -> Option<u32>
    ensures { IfSome result (λ n. IsNext reader.old reader.new (λ j. IsWord (data_of j) n × IsPlain j)) }
{
    Some(next_number_within(reader, 0, 4_294_967_295)? as u32)
}

/// `true` or `false`.
pub fn next_truth(reader: &mut PlainReader<'_>) -> Option<bool>
    ensures { IfSome result (λ b. IsNext reader.old reader.new (λ j. IsTruth (data_of j) b × IsPlain j)) }
{
    let truth = reader.next_truth()?;
    Some(truth)
}

/// A text.
#[inline(always)]
pub fn next_text<'t>(reader: &mut PlainReader<'t>) -> Option<&'t str>
    ensures { IfSome result (λ text. IsNext reader.old reader.new (λ j. IsText text.now (data_of j) × IsPlain j)) }
{
    let text = reader.next_string()?;
    Some(text)
}

/// The text of a name.
pub fn next_name<'t>(reader: &mut PlainReader<'t>) -> Option<&'t str>
    ensures { IfSome result (λ name. IsNext reader.old reader.new (λ j. IsName (data_of j) name.now × IsPlain j)) }
{
    let text = reader.next_string()?;
    if !is_name(text) {
        return None;
    }
    Some(text)
}

/// Hex text.
pub fn next_hex(alloc: Global, reader: &mut PlainReader<'_>) -> Option<Vec<u8>>
    ensures { IfSome result (λ v. IsNext reader.old reader.new (λ j. IsHex (data_of j) v.items × IsPlain j)) }
{
    let text = reader.next_string()?;
    let Ok(bytes) = hex::decode(alloc, text) else {
        return None;
    };
    Some(bytes)
}
