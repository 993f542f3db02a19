//! Spaces, words, strings and numbers at the front of a text.
ghost use Rattle.std.{specs.Prelude.{◌≡◌, [], ◌∷◌, ◌<◌, ◌≤◌, length, slice_index, take, true, false, IfSome, MatchOption, IsTrue}, specs.List.{list_all}, specs.Char.{is_ascii_digit, digit_value}};
ghost use Rattle.json.{specs.Token.{string, number, boolean, null}, specs.Word.{is_space, ends_word}, specs.Lex.{token, lex, between, begins_colon}};
ghost use Rattle.plain_json.specs.Plain.{is_plain, IsEnd, DigitsFollow, IsNumberAt};

/// The first byte, and what follows it.
#[inline(always)]
pub fn first(bytes: &[u8]) -> Option<(u8, &[u8])>
    ensures { MatchOption result (bytes.now ≡ []) (λ p. bytes.now ≡ p.0 ∷ p.1.now) }
{
    match bytes {
        [] => None,
        [byte, rest @ ..] => Some((*byte, rest)),
    }
}

/// What follows this byte, where it is the first.
#[inline(always)]
pub fn after_byte(bytes: &[u8], byte: u8) -> Option<&[u8]>
    ensures { IfSome result (λ rest. bytes.now ≡ byte ∷ rest.now) }
{
    let (found, rest) = first(bytes)?;
    if found != byte {
        return None;
    }
    Some(rest)
}

/// What follows the spaces.
#[inline(always)]
pub fn after_spaces(bytes: &[u8]) -> &[u8]
    ensures { lex between result.now ≡ lex between bytes.now }
{
    match bytes {
        [byte, ..] if *byte > b' ' => bytes,
        _ => after_more_spaces(bytes),
    }
}

#[inline(never)]
#[tactic(auto, using(crate::proofs::Plain::past_space))]
fn after_more_spaces(bytes: &[u8]) -> &[u8]
    ensures { lex between result.now ≡ lex between bytes.now }
{
    let mut rest = bytes;
    'spaces: while let Some((byte, tail)) = first(rest) {
        if !is_space(byte) {
            return rest;
        }
        rest = tail;
    }
    rest
}

#[inline(always)]
fn is_space(byte: u8) -> bool
    ensures { result ≡ is_space byte }
{
    byte == b' ' || byte == b'\t' || byte == b'\n' || byte == b'\r'
}

/// A string, and what follows it.
#[inline(always)]
pub fn string(bytes: &[u8]) -> Option<(&str, &[u8])>
    ensures { IfSome result (λ p. lex between bytes.now ≡ token (string p.0.now) ∷ lex between p.1.now) }
{
    let rest = after_byte(bytes, b'"')?;
    let (text, rest) = rest.split_at(plain_len(rest));
    let rest = after_byte(rest, b'"')?;
    Some((unsafe { std::str::from_utf8_unchecked(text) }, rest))
}

/// How many bytes stand for themselves before one that doesn't.
#[inline(always)]
#[tactic(auto, using(std::proofs::lemmas::List::Folds::list_all_more))]
fn plain_len(bytes: &[u8]) -> usize
    ensures plain { list_all is_plain (take result bytes.now) ≡ true }
    ensures within { result ≤ length bytes.now }
{
    let mut len = 0;
    'plain: while len < bytes.len() {
        if !is_plain(bytes[len]) {
            return len;
        }
        len += 1;
    }
    len
}

/// By byte, 1 where it stands for itself in a string, else 0.
const PLAIN: [u8; 256] = [
    0, 0, 0, 0, 0, 0, 0, 0, 0, 0, 0, 0, 0, 0, 0, 0, 0, 0, 0, 0, 0, 0, 0, 0, 0, 0, 0, 0, 0, 0, 0, 0,
    1, 1, 0, 1, 1, 1, 1, 1, 1, 1, 1, 1, 1, 1, 1, 1, 1, 1, 1, 1, 1, 1, 1, 1, 1, 1, 1, 1, 1, 1, 1, 1,
    1, 1, 1, 1, 1, 1, 1, 1, 1, 1, 1, 1, 1, 1, 1, 1, 1, 1, 1, 1, 1, 1, 1, 1, 1, 1, 1, 1, 0, 1, 1, 1,
    1, 1, 1, 1, 1, 1, 1, 1, 1, 1, 1, 1, 1, 1, 1, 1, 1, 1, 1, 1, 1, 1, 1, 1, 1, 1, 1, 1, 1, 1, 1, 1,
    0, 0, 0, 0, 0, 0, 0, 0, 0, 0, 0, 0, 0, 0, 0, 0, 0, 0, 0, 0, 0, 0, 0, 0, 0, 0, 0, 0, 0, 0, 0, 0,
    0, 0, 0, 0, 0, 0, 0, 0, 0, 0, 0, 0, 0, 0, 0, 0, 0, 0, 0, 0, 0, 0, 0, 0, 0, 0, 0, 0, 0, 0, 0, 0,
    0, 0, 0, 0, 0, 0, 0, 0, 0, 0, 0, 0, 0, 0, 0, 0, 0, 0, 0, 0, 0, 0, 0, 0, 0, 0, 0, 0, 0, 0, 0, 0,
    0, 0, 0, 0, 0, 0, 0, 0, 0, 0, 0, 0, 0, 0, 0, 0, 0, 0, 0, 0, 0, 0, 0, 0, 0, 0, 0, 0, 0, 0, 0, 0,
];

/// Whether a byte stands for itself in a string.
#[inline(always)]
fn is_plain(byte: u8) -> bool
    ensures { result ≡ is_plain byte }
{
    plain_entry(byte) == 1
}

/// What the table has for a byte.
#[inline(always)]
fn plain_entry(byte: u8) -> u8
    ensures { result ≡ slice_index PLAIN byte }
{
    PLAIN[usize::from(byte)]
}

/// What follows `null`.
pub fn null(bytes: &[u8]) -> Option<&[u8]>
    ensures { IfSome result (λ rest. lex between bytes.now ≡ token null ∷ lex between rest.now) }
{
    let rest = after_byte(bytes, b'n')?;
    let rest = after_byte(rest, b'u')?;
    let rest = after_byte(rest, b'l')?;
    let rest = after_byte(rest, b'l')?;
    if !ends_word(rest) {
        return None;
    }
    Some(rest)
}

/// What follows `true`.
fn truth(bytes: &[u8]) -> Option<&[u8]>
    ensures { IfSome result (λ rest. lex between bytes.now ≡ token (boolean true) ∷ lex between rest.now) }
{
    let rest = after_byte(bytes, b't')?;
    let rest = after_byte(rest, b'r')?;
    let rest = after_byte(rest, b'u')?;
    let rest = after_byte(rest, b'e')?;
    if !ends_word(rest) {
        return None;
    }
    Some(rest)
}

/// What follows `false`.
fn falsehood(bytes: &[u8]) -> Option<&[u8]>
    ensures { IfSome result (λ rest. lex between bytes.now ≡ token (boolean false) ∷ lex between rest.now) }
{
    let rest = after_byte(bytes, b'f')?;
    let rest = after_byte(rest, b'a')?;
    let rest = after_byte(rest, b'l')?;
    let rest = after_byte(rest, b's')?;
    let rest = after_byte(rest, b'e')?;
    if !ends_word(rest) {
        return None;
    }
    Some(rest)
}

/// `true` or `false`, and what follows it.
pub fn boolean(bytes: &[u8]) -> Option<(bool, &[u8])>
    ensures { IfSome result (λ p. lex between bytes.now ≡ token (boolean p.0) ∷ lex between p.1.now) }
{
    if let Some(rest) = truth(bytes) {
        return Some((true, rest));
    }
    let rest = falsehood(bytes)?;
    Some((false, rest))
}

/// A whole number, and what follows it.
#[inline(always)]
pub fn number(bytes: &[u8]) -> Option<(u64, &[u8])>
    ensures { IfSome result (λ p. IsNumberAt bytes.now p.0 p.1.now) }
{
    let (byte, rest) = first(bytes)?;
    if byte == b'0' {
        return zero(bytes);
    }
    if !is_digit(byte) {
        return None;
    }
    let (number, rest) = more_digits(digit_of(byte), rest)?;
    if !ends_word(rest) {
        return None;
    }
    Some((number, rest))
}

/// The digits of a whole number, and what follows them.
pub fn numeral(bytes: &[u8]) -> Option<(&str, &[u8])>
    ensures { IfSome result (λ p. lex between bytes.now ≡ token (number p.0.now) ∷ lex between p.1.now) }
{
    let (_, rest) = number(bytes)?;
    if rest.len() > bytes.len() {
        return None;
    }
    let digits = &bytes[..bytes.len() - rest.len()];
    Some((unsafe { std::str::from_utf8_unchecked(digits) }, rest))
}

/// A zero, and what follows it.
#[inline(always)]
fn zero(bytes: &[u8]) -> Option<(u64, &[u8])>
    ensures { IfSome result (λ p. IsNumberAt bytes.now p.0 p.1.now) }
{
    let rest = after_byte(bytes, b'0')?;
    if !ends_word(rest) {
        return None;
    }
    Some((0, rest))
}

/// The number that goes on with these digits, where it is below 10,000,000,010, and what follows them.
#[inline(always)]
fn more_digits(leading: u64, bytes: &[u8]) -> Option<(u64, &[u8])>
    requires { leading < 10 }
    ensures { IfSome result (λ p. DigitsFollow leading bytes.now p.0 p.1.now) }
{
    let mut number = leading;
    let mut rest = bytes;
    'digits: while let Some((byte, tail)) = first(rest) {
        if !is_digit(byte) {
            return Some((number, rest));
        }
        if number > 1_000_000_000 {
            return None;
        }
        number = 10 * number + digit_of(byte);
        rest = tail;
    }
    Some((number, rest))
}

#[inline(always)]
pub fn is_digit(byte: u8) -> bool
    ensures { result ≡ is_ascii_digit byte }
{
    b'0' <= byte && byte <= b'9'
}

/// The digit that a byte from `0` to `9` writes.
#[inline(always)]
pub fn digit_of(byte: u8) -> u64
    requires { is_ascii_digit byte ≡ true }
    ensures { (result ≡ digit_value byte) × (result < 10) }
{
    u64::from(byte) - u64::from(b'0')
}

/// Whether a value may end before these bytes, without a key's colon.
#[inline(always)]
pub fn ends_value(bytes: &[u8]) -> bool
    ensures { IsTrue result → begins_colon (lex between bytes.now) ≡ false }
{
    match first(bytes) {
        None => true,
        Some((byte, _)) => is_end(byte),
    }
}

/// Whether a byte ends a value.
#[inline(always)]
fn is_end(byte: u8) -> bool
    ensures { IsTrue result → IsEnd byte }
{
    byte == b',' || byte == b'}' || byte == b']'
}

/// Whether a word may end before these bytes.
#[inline(always)]
fn ends_word(bytes: &[u8]) -> bool
    ensures { IsTrue result → ends_word bytes.now ≡ true }
{
    match bytes {
        [] => true,
        [byte, ..] => *byte == b',' || *byte == b'}' || *byte == b']' || is_space(*byte),
    }
}
