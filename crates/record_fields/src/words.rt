//! What words of the form NAME=VALUE give.
ghost use Rattle.std.specs.Prelude.{IfSome};
ghost use Rattle.record_fields.specs.Said.{IsDecimalReal};

use crate::made::MakeError;
use std::alloc::Global;
use std::num::f32_to_bits_with_nan;

/// Words, each a field's name, a sign of equality and a value.
#[derive(Clone, Copy, Debug)]
pub struct Words<'a> {
    /// Where memory for what they give is from.
    pub alloc: Global,
    /// The words, in their order.
    pub list: &'a [String],
}

impl<'a> Words<'a> {
    /// The value of the first word of the name.
    pub fn value(&self, name: &str) -> Option<&'a str> {
        for word in self.list {
            if let Some((own, value)) = word.as_str().split_once('=') {
                if own.eq_ignore_ascii_case(name) {
                    return Some(value);
                }
            }
        }
        None
    }

    /// The number that the first word of the name gives, as so many bytes have it; another number where there is none.
    pub fn number(&self, name: &str, width: u32, otherwise: u64) -> Result<u64, MakeError> {
        match self.value(name) {
            Some(value) => number_in(value, width).ok_or(MakeError::Wrong),
            None => Ok(otherwise),
        }
    }

    /// The bits of the real number that the first word of the name gives; other bits where there is none.
    pub fn real(&self, name: &str, otherwise: u64) -> Result<u64, MakeError> {
        match self.value(name) {
            Some(value) => real_in(value).ok_or(MakeError::Wrong),
            None => Ok(otherwise),
        }
    }

    /// The bytes that the first word of the name gives in hex, or none.
    pub fn bytes(&self, name: &str) -> Result<Vec<u8>, MakeError> {
        bytes_in(self.alloc, self.value(name).unwrap_or(""))
    }
}

/// The bytes of a text in hex.
pub fn bytes_in(alloc: Global, text: &str) -> Result<Vec<u8>, MakeError> {
    Ok(hex::decode(alloc, text)?)
}

/// The number that a text gives, in so many bytes: in decimal digits, which may follow a minus, or in hexadecimal
/// digits behind 0x. A negative number is two's complement.
pub fn number_in(text: &str, width: u32) -> Option<u64> {
    if let Some(digits) = text.strip_prefix("0x") {
        return u64::from_str_radix(digits, 16).ok();
    }
    match text.strip_prefix('-') {
        Some(digits) => negative(digits.parse().ok()?, width),
        None => text.parse().ok(),
    }
}

/// The bits of the real number of 32 bits that a text gives: in decimal digits, or the bits in hexadecimal digits
/// behind 0x.
fn real_in(text: &str) -> Option<u64> {
    match text.strip_prefix("0x") {
        Some(digits) => u64::from_str_radix(digits, 16).ok(),
        None => bits_in(text),
    }
}

/// The bits of the real number that is nearest to what a text is in decimal digits.
pub fn bits_in(text: &str) -> Option<u64>
    ensures { IfSome result (λ bits. IsDecimalReal text.now bits) }
{
    match text.parse::<f32>() {
        Ok(number) => Some(u64::from(f32_to_bits_with_nan(number))),
        Err(_) => None,
    }
}

/// The two's complement of a number in so many bytes.
fn negative(number: u32, width: u32) -> Option<u64> {
    let above: u64 = match width {
        1 => 1 << 8,
        2 => 1 << 16,
        _ => 1 << 32,
    };
    above.checked_sub(u64::from(number))
}
