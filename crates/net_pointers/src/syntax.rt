//! Where a text stops being JSON.
ghost use Rattle.std.specs.Prelude.{◌≤◌, ◌<◌, length, IfOk};
ghost use Rattle.net_pointers.specs.TextTroubles.{IsFaultOfJson};

use json::Scratch;
use net_plan::{PlanError, json_of};
use std::alloc::{AllocError, Global};

/// How many lists and objects may stand open at one place.
const MOST_OPEN: usize = 127;

/// Where a text stops being JSON.
#[derive(Clone, Copy, Debug, PartialEq, Eq)]
pub enum JsonFault {
    /// At the first byte that is no UTF-8.
    NotUtf8(usize),
    /// At an offset, where something else may stand.
    Unreadable(usize, Wanted),
}

/// What may stand where a text stops being JSON.
#[derive(Clone, Copy, Debug, PartialEq, Eq)]
pub enum Wanted {
    Value,
    ValueOrEnd,
    Key,
    KeyOrEnd,
    Colon,
    CommaOrEndOfList,
    CommaOrEndOfObject,
    /// Nothing but the end of the text.
    End,
    /// A list or an object that stands less deep.
    LessDepth,
}

/// A list or an object that stands open.
#[derive(Clone, Copy, PartialEq, Eq)]
enum Open {
    List,
    Object,
}

/// What comes of a place at which something stands.
enum Passing {
    /// It ends behind it, and this may stand there.
    Past(usize, Wanted),
    /// It may not stand there, where this may.
    Stops(Wanted),
}

/// Where a text that is no JSON stops being it: up to there it is JSON as far as it goes, and nothing that is wanted
/// there stands there.
pub fn json_fault(alloc: Global, text: &[u8]) -> Result<JsonFault, AllocError>
    ensures { IfOk result (λ fault. IsFaultOfJson text.now fault) }
{
    match simdutf8::compat::from_utf8(text) {
        Ok(text) => syntax_fault(alloc, text),
        Err(error) => Ok(JsonFault::NotUtf8(error.valid_up_to())),
    }
}

fn syntax_fault(alloc: Global, text: &str) -> Result<JsonFault, AllocError>
    ensures { IfOk result (λ fault. IsFaultOfJson text.now fault) }
{
    let (offset, wanted) = stop_of(alloc, text.as_bytes())?;
    Ok(JsonFault::Unreadable(offset, wanted))
}

/// Goes through a text up to the first place at which nothing that is wanted stands.
fn stop_of(alloc: Global, text: &[u8]) -> Result<(usize, Wanted), AllocError>
    ensures { IfOk result (λ stop. stop.0 ≤ length text.now) }
{
    let mut scratch = Scratch::new(alloc);
    let mut open: Vec<Open> = Vec::new(alloc);
    let mut wanted = Wanted::Value;
    let mut offset = 0;
    for _ in 0..text.len() {
        let start = next_byte(text, offset);
        if start == text.len() {
            return Ok((start, wanted));
        }
        match pass(alloc, text, start, wanted, &mut open, &mut scratch)? {
            Passing::Past(end, next) => {
                offset = end;
                wanted = next;
            }
            Passing::Stops(lacking) => return Ok((start, lacking)),
        }
    }
    Ok((text.len(), wanted))
}

/// Goes past what stands at a place, where it may stand there.
fn pass(
    alloc: Global,
    text: &[u8],
    start: usize,
    wanted: Wanted,
    open: &mut Vec<Open>,
    scratch: &mut Scratch,
) -> Result<Passing, AllocError>
    requires { start < length text.now }
{
    let byte = text[start];
    if !may_begin(wanted, byte) {
        return Ok(Passing::Stops(wanted));
    }
    if is_sign(byte) {
        return pass_sign(text, start, wanted, open);
    }
    pass_token(alloc, text, start, wanted, open, scratch)
}

fn pass_sign(
    text: &[u8],
    start: usize,
    wanted: Wanted,
    open: &mut Vec<Open>,
) -> Result<Passing, AllocError>
    requires { start < length text.now }
{
    let byte = text[start];
    if !has_room(open, byte) {
        return Ok(Passing::Stops(Wanted::LessDepth));
    }
    let next = after_sign(open, byte)?;
    Ok(Passing::Past(start + 1, next))
}

fn pass_token(
    alloc: Global,
    text: &[u8],
    start: usize,
    wanted: Wanted,
    open: &Vec<Open>,
    scratch: &mut Scratch,
) -> Result<Passing, AllocError>
    requires { start < length text.now }
{
    let end = token_end(text, start);
    if !is_json(alloc, text, start, end, scratch)? {
        return Ok(Passing::Stops(wanted));
    }
    Ok(Passing::Past(end, after_token(wanted, innermost(open))))
}

/// Whether what is wanted may begin with a byte.
fn may_begin(wanted: Wanted, byte: u8) -> bool {
    match wanted {
        Wanted::Value => !follows_value(byte),
        Wanted::ValueOrEnd => byte == b']' || !follows_value(byte),
        Wanted::Key => byte == b'"',
        Wanted::KeyOrEnd => byte == b'"' || byte == b'}',
        Wanted::Colon => byte == b':',
        Wanted::CommaOrEndOfList => byte == b',' || byte == b']',
        Wanted::CommaOrEndOfObject => byte == b',' || byte == b'}',
        Wanted::End | Wanted::LessDepth => false,
    }
}

/// Whether one more list or object may stand open, where a byte opens one.
fn has_room(open: &Vec<Open>, byte: u8) -> bool {
    !opens(byte) || open.len() < MOST_OPEN
}

/// Goes past a bracket, a comma or a colon, and tells what may stand behind it.
fn after_sign(open: &mut Vec<Open>, byte: u8) -> Result<Wanted, AllocError> {
    match byte {
        b'[' => {
            open.push(Open::List)?;
            Ok(Wanted::ValueOrEnd)
        }
        b'{' => {
            open.push(Open::Object)?;
            Ok(Wanted::KeyOrEnd)
        }
        b',' => Ok(after_comma(innermost(open))),
        b':' => Ok(Wanted::Value),
        _ => {
            open.pop();
            Ok(after_value(innermost(open)))
        }
    }
}

/// The innermost list or object that stands open.
fn innermost(open: &Vec<Open>) -> Option<Open> {
    open.last().copied()
}

/// What may stand behind a value.
fn after_value(inner: Option<Open>) -> Wanted {
    match inner {
        None => Wanted::End,
        Some(Open::List) => Wanted::CommaOrEndOfList,
        Some(Open::Object) => Wanted::CommaOrEndOfObject,
    }
}

/// What may stand behind a comma.
fn after_comma(inner: Option<Open>) -> Wanted {
    match inner {
        Some(Open::Object) => Wanted::Key,
        _ => Wanted::Value,
    }
}

/// What may stand behind a number, a word or a text in quotes.
fn after_token(wanted: Wanted, inner: Option<Open>) -> Wanted {
    match wanted {
        Wanted::Key | Wanted::KeyOrEnd => Wanted::Colon,
        _ => after_value(inner),
    }
}

/// Where the next byte stands that is no white space; the end of the text where none does.
fn next_byte(text: &[u8], offset: usize) -> usize
    ensures { result ≤ length text.now }
{
    for index in offset..text.len() {
        if !is_blank(text[index]) {
            return index;
        }
    }
    text.len()
}

/// Where the number, the word or the text in quotes ends that begins at a place.
fn token_end(text: &[u8], start: usize) -> usize
    requires { start < length text.now }
    ensures { (start < result) × (result ≤ length text.now) }
{
    if text[start] == b'"' {
        quote_end(text, start)
    } else {
        word_end(text, start)
    }
}

/// The place behind the quote that closes the text that a quote opens; the end of the text where none does.
fn quote_end(text: &[u8], quote: usize) -> usize
    requires { quote < length text.now }
    ensures { (quote < result) × (result ≤ length text.now) }
{
    let rest = &text[quote + 1..];
    let count = closing_quote(rest);
    if count < rest.len() {
        return quote + count + 2;
    }
    text.len()
}

/// Where the first quote stands that no backslash escapes, of the bytes behind an opening quote; the end where there is
/// none.
pub fn closing_quote(bytes: &[u8]) -> usize
    ensures { result ≤ length bytes.now }
{
    let mut escaped = false;
    for index in 0..bytes.len() {
        let byte = bytes[index];
        if byte == b'"' && !escaped {
            return index;
        }
        escaped = byte == b'\\' && !escaped;
    }
    bytes.len()
}

/// Where the number or the word ends that begins at a place.
fn word_end(text: &[u8], start: usize) -> usize
    requires { start < length text.now }
    ensures { (start < result) × (result ≤ length text.now) }
{
    for index in start + 1..text.len() {
        if !is_of_word(text[index]) {
            return index;
        }
    }
    text.len()
}

/// Whether the number, the word or the text in quotes between two places is a value of JSON by itself.
fn is_json(
    alloc: Global,
    text: &[u8],
    start: usize,
    end: usize,
    scratch: &mut Scratch,
) -> Result<bool, AllocError>
    requires { (start ≤ end) × (end ≤ length text.now) }
{
    let token = &text[start..end];
    match json_of(alloc, token, scratch) {
        Ok(_) => Ok(true),
        Err(PlanError::NotJson) => Ok(false),
        // no memory: a part of a text is no longer than a text may be, so the reader's room was refused.
        Err(_) => Err(AllocError),
    }
}

/// White space of JSON.
pub fn is_blank(byte: u8) -> bool {
    matches!(byte, b' ' | b'\t' | b'\n' | b'\r')
}

/// A closing bracket, a comma or a colon.
fn follows_value(byte: u8) -> bool {
    matches!(byte, b']' | b'}' | b',' | b':')
}

/// An opening bracket.
fn opens(byte: u8) -> bool {
    matches!(byte, b'[' | b'{')
}

/// A bracket, a comma or a colon.
fn is_sign(byte: u8) -> bool {
    follows_value(byte) || opens(byte)
}

/// A letter, a digit, a plus, a minus or a point, of which numbers and words are.
fn is_of_word(byte: u8) -> bool {
    matches!(byte, b'0'..=b'9' | b'A'..=b'Z' | b'a'..=b'z' | b'+' | b'-' | b'.')
}
