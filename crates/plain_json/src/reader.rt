//! A reader of tokens.
ghost use Rattle.std.specs.Prelude.{◌≡◌, [], ◌∷◌, false, Some, IfSome, IsTrue, option_map};
ghost use Rattle.json.{specs.Json.{read_key, after_end_array}, specs.Lex.{tokens}, specs.Token.{begin_object, end_object, begin_array, string, number, boolean, null}};
ghost use Rattle.plain_json.specs.Plain.{BeginAt, IsNextNumber, tokens_at};

use crate::bytes::{
    after_byte, after_spaces, boolean, ends_value, first, null, number, numeral, string,
};
use std::marker::Model;

/// Where a reader stands: behind a value, or where one may begin without a comma.
#[derive(Clone, Copy, Drop)]
enum Place {
    Fresh,
    AfterValue,
}

/// Hands out the tokens of a text. A clause sees the tokens that are still to come.
#[derive(Drop)]
pub struct PlainReader<'t> {
    rest: &'t [u8],
    place: Place,
}

impl<'t> Model for PlainReader<'t> {
    ghost use Rattle.std.specs.Prelude.{List};
    ghost use Rattle.json.specs.Token.{Token, tokens_code};
    ghost use Rattle.plain_json.specs.Plain.{tokens_at};

    ghost Value = { List Token };

    ghost coded = { tokens_code };

    ghost view = { λ a. tokens_at a.place a.rest.now };
}

impl<'t> PlainReader<'t> {
    pub fn new(text: &'t str) -> PlainReader<'t>
        ensures { result ≡ tokens text.now }
    {
        PlainReader {
            rest: text.as_bytes(),
            place: Place::Fresh,
        }
    }

    /// Whether no token is left.
    pub fn is_at_end(&self) -> bool
        ensures { IsTrue result → self.now ≡ [] }
    {
        match first(after_spaces(self.rest)) {
            None => true,
            Some(_) => false,
        }
    }

    /// Passes the brace that begins an object.
    #[inline(always)]
    pub fn begin_object(&mut self) -> Option<()>
        ensures { IfSome result (λ _. self.old ≡ begin_object ∷ self.new) }
    {
        let rest = after_byte(self.begin()?, b'{')?;
        self.stand(rest, Place::Fresh);
        Some(())
    }

    /// Passes the bracket that begins an array.
    #[inline(always)]
    pub fn begin_array(&mut self) -> Option<()>
        ensures { IfSome result (λ _. self.old ≡ begin_array ∷ self.new) }
    {
        let rest = after_byte(self.begin()?, b'[')?;
        self.stand(rest, Place::Fresh);
        Some(())
    }

    /// Passes the bracket that closes an array, if it is next.
    #[inline(always)]
    pub fn take_end_array(&mut self) -> bool
        ensures closed { IsTrue result → after_end_array self.old ≡ Some self.new }
        ensures same { result ≡ false → self.new ≡ self.old }
    {
        let Some(rest) = after_byte(after_spaces(self.rest), b']') else {
            return false;
        };
        self.stand(rest, Place::AfterValue);
        true
    }

    /// The next key, or none at the brace that closes an object.
    #[inline(always)]
    pub fn next_key(&mut self) -> Option<Option<&'t str>>
        ensures { IfSome result (λ k. read_key self.old ≡ Some (option_map (λ s. s.now) k, self.new)) }
    {
        if self.take_end_object() {
            return Some(None);
        }
        let (key, rest) = string(self.begin()?)?;
        let rest = after_byte(after_spaces(rest), b':')?;
        self.stand(rest, Place::Fresh);
        Some(Some(key))
    }

    /// The next value, where it is a string.
    #[inline(always)]
    pub fn next_string(&mut self) -> Option<&'t str>
        ensures { IfSome result (λ text. self.old ≡ string text.now ∷ self.new) }
    {
        let (text, rest) = string(self.begin()?)?;
        if !ends_value(after_spaces(rest)) {
            return None;
        }
        self.stand(rest, Place::AfterValue);
        Some(text)
    }

    /// The next value, where it is a whole number.
    #[inline(always)]
    pub fn next_number(&mut self) -> Option<u64>
        ensures { IfSome result (λ n. IsNextNumber self.old n self.new) }
    {
        let (number, rest) = number(self.begin()?)?;
        self.stand(rest, Place::AfterValue);
        Some(number)
    }

    /// The digits of the next value, where it is a whole number.
    pub(crate) fn next_numeral(&mut self) -> Option<&'t str>
        ensures { IfSome result (λ text. self.old ≡ number text.now ∷ self.new) }
    {
        let (text, rest) = numeral(self.begin()?)?;
        self.stand(rest, Place::AfterValue);
        Some(text)
    }

    /// Passes `null`.
    pub fn next_null(&mut self) -> Option<()>
        ensures { IfSome result (λ _. self.old ≡ null ∷ self.new) }
    {
        let rest = null(self.begin()?)?;
        self.stand(rest, Place::AfterValue);
        Some(())
    }

    /// The next value, where it is `true` or `false`.
    pub fn next_truth(&mut self) -> Option<bool>
        ensures { IfSome result (λ truth. self.old ≡ boolean truth ∷ self.new) }
    {
        let (truth, rest) = boolean(self.begin()?)?;
        self.stand(rest, Place::AfterValue);
        Some(truth)
    }

    /// The first byte of the next value.
    pub fn first_byte(&self) -> Option<u8> {
        let (byte, _) = first(self.begin()?)?;
        Some(byte)
    }

    /// Passes the brace that closes an object, if it is next.
    #[inline(always)]
    fn take_end_object(&mut self) -> bool
        ensures closed { IsTrue result → self.old ≡ end_object ∷ self.new }
        ensures same { result ≡ false → self.new ≡ self.old }
    {
        let Some(rest) = after_byte(after_spaces(self.rest), b'}') else {
            return false;
        };
        self.stand(rest, Place::AfterValue);
        true
    }

    /// The bytes at which the next value or key begins, if one may stand there.
    #[inline(always)]
    fn begin(&self) -> Option<&'t [u8]>
        ensures { IfSome result (λ bytes. BeginAt self.now bytes.now) }
    {
        let bytes = after_spaces(self.rest);
        match self.place {
            Place::Fresh => Some(bytes),
            Place::AfterValue => Some(after_spaces(after_byte(bytes, b',')?)),
        }
    }

    #[inline(always)]
    fn stand(&mut self, rest: &'t [u8], place: Place)
        ensures { self.new ≡ tokens_at place rest.now }
    {
        self.rest = rest;
        self.place = place;
    }
}
