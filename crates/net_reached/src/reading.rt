//! Reading wishes from a text.
ghost use Rattle.std.{specs.Prelude.{◌≡◌, ◌≢◌, ◌<◌, ◌+◌, ◌↔◌, ◌++◌, ℕ, List, Some, IfOk, IfErr, IfSome, IfNone, IsTrue, MatchOption, OnOk, [], ◌∷◌, ◌^◌, length, map, codes}, specs.Str.Lines.{lines}};
ghost use Rattle.net_reached.{specs.declared.wish.Wish.{Wish}, specs.Reading.{IsRemark, Says, SaysNothing, IsNamed, from_of, SaysBehind, AreWishesOf, IsWhyUnread}};

use crate::names::{first_named, name_of};
use crate::wish::Wish;
use plan_values::Plan;
use std::alloc::{AllocError, Global};

/// A line that says no wish.
#[derive(Clone, Copy, Debug, PartialEq, Eq)]
pub struct BadLine {
    /// Its number, from 1.
    pub line: usize,
    /// Where it goes wrong, in characters, from 1.
    pub column: usize,
    /// Whether the name of a node is wanted there.
    pub is_name: bool,
}

/// Why a text has no wishes.
#[derive(Clone, Copy, Debug, PartialEq, Eq)]
pub enum WishError {
    /// The first line that says no wish.
    Unread(BadLine),
    /// There is too little memory.
    OutOfMemory,
}

impl From<AllocError> for WishError {
    ghost use Rattle.net_reached.specs.declared.reading.WishError.TheVariants.{OutOfMemory};

    ghost from_gives = { λ _ error. error ≡ OutOfMemory };

    fn from(_error: AllocError) -> WishError {
        WishError::OutOfMemory
    }
}

/// The wishes of a text, a line each: `A B`, `A -> *` and `A -/> B`, with names of nodes. A line that is empty or
/// begins with `#` wants nothing.
pub fn wishes_of_text<'t>(
    alloc: Global,
    plan: &Plan,
    text: &'t str,
) -> Result<Vec<Wish<'t>>, WishError>
    ensures read { IfOk result (λ wishes. AreWishesOf plan.now text.now wishes.items) }
    ensures unread { IfErr result (IsWhyUnread plan.now text.now) }
{
    let lines = lines_of(alloc, text)?;
    let mut wishes = Vec::new(alloc);
    for (index, line) in lines.iter().enumerate() {
        match wish_of_line(plan, line) {
            Some(wish) => push_wish(wish, &mut wishes)?,
            None => return Err(WishError::Unread(bad_line(plan, line, index))),
        }
    }
    Ok(wishes)
}

fn lines_of(alloc: Global, text: &str) -> Result<Vec<&str>, AllocError>
    ensures { IfOk result (λ found. map (λ x. x.now) found.items ≡ lines text.now) }
{
    text.lines().collect(alloc)
}

fn push_wish<'t>(wish: Wish<'t>, wishes: &mut Vec<Wish<'t>>) -> Result<(), AllocError>
    ensures { OnOk result (wishes.new.items ≡ wishes.old.items ++ wish.entry ∷ []) }
{
    wishes.push(wish)?;
    Ok(())
}

/// The wish that a line says.
fn wish_of_line<'t>(plan: &Plan, line: &'t str) -> Option<Wish<'t>>
    ensures said { IfSome result (Says plan.now line.now) }
    ensures none { IfNone result (SaysNothing plan.now line.now) }
{
    if is_remark(line.as_bytes()) {
        return Some(Wish::Nothing { line });
    }
    for from in 0..plan.nodes.len() {
        if let Some(wish) = wish_from(plan, line, from) {
            return Some(wish);
        }
    }
    None
}

/// The wish of a line that begins with a node's name.
fn wish_from<'t>(plan: &Plan, line: &'t str, from: usize) -> Option<Wish<'t>>
    requires { from < length plan.now.nodes.items }
    ensures said { IfSome result (Says plan.now line.now) }
    ensures none { IfNone result ((wish : Wish) → from_of wish ≡ Some from → ¬ Says plan.now line.now wish) }
{
    match behind(line, name_of(plan, from)) {
        Some(rest) => wish_behind(plan, rest, from),
        None => None,
    }
}

/// The wish of a node that stands behind its name.
fn wish_behind<'t>(plan: &Plan, rest: &str, from: usize) -> Option<Wish<'t>>
    ensures said { IfSome result (λ wish. (from_of wish ≡ Some from) × SaysBehind plan.now rest.now wish) }
    ensures none { IfNone result ((wish : Wish) → ¬ SaysBehind plan.now rest.now wish) }
{
    if rest == " -> *" {
        return Some(Wish::ReachesAll { from });
    }
    match node_behind(plan, rest, " -/> ") {
        Some(to) => Some(Wish::Avoids { from, to }),
        None => reached_behind(plan, rest, from),
    }
}

/// The wish that names one node behind a space.
fn reached_behind<'t>(plan: &Plan, rest: &str, from: usize) -> Option<Wish<'t>>
    ensures said { IfSome result (λ wish. (from_of wish ≡ Some from) × SaysBehind plan.now rest.now wish) }
    ensures none { IfNone result ((n : ℕ) (name : List ℕ) → IsNamed plan.now n name → rest.now ≢ codes " " ++ name) }
{
    match node_behind(plan, rest, " ") {
        Some(to) => Some(Wish::Reaches { from, to }),
        None => None,
    }
}

/// The node whose name stands behind a front, and nothing else.
fn node_behind(plan: &Plan, text: &str, front: &str) -> Option<usize>
    ensures found { IfSome result (λ n. (name : List ℕ) × IsNamed plan.now n name × (text.now ≡ front.now ++ name)) }
    ensures none { IfNone result ((n : ℕ) (name : List ℕ) → IsNamed plan.now n name → text.now ≢ front.now ++ name) }
{
    match behind(text, front) {
        Some(name) => first_named(plan, name),
        None => None,
    }
}

/// What stands behind the front of a text.
fn behind<'t>(text: &'t str, front: &str) -> Option<&'t str>
    ensures { MatchOption result ((rest : List ℕ) → text.now ≢ front.now ++ rest) (λ rest. text.now ≡ front.now ++ rest.now) }
{
    text.strip_prefix(front)
}

/// Whether a line is a remark.
fn is_remark(line: &[u8]) -> bool
    ensures { IsTrue result ↔ IsRemark line.now }
{
    match line {
        [] | [b'#', ..] => true,
        _ => false,
    }
}

/// What is told of a line that says no wish.
fn bad_line(plan: &Plan, line: &str, index: usize) -> BadLine
    requires { index < 2 ^ 62 }
    ensures { result.line ≡ index + 1 }
{
    let (is_name, before) = trouble(plan, line);
    BadLine {
        line: index + 1,
        column: before.saturating_add(1),
        is_name,
    }
}

/// Whether a name that no node has stands in a line, or what no line has, and how many characters stand before it.
fn trouble(plan: &Plan, line: &str) -> (bool, usize) {
    let Some((name, rest)) = line.split_once(' ') else {
        return (false, line.chars().count());
    };
    if first_named(plan, name).is_none() {
        return (true, 0);
    }
    let before = name.chars().count().saturating_add(1);
    if rest.starts_with("-> ") {
        (false, before.saturating_add(3))
    } else if rest.starts_with("-/> ") {
        (true, before.saturating_add(4))
    } else {
        (true, before)
    }
}
