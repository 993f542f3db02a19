//! The lines that tell how the numbers of two plans' nodes differ.
ghost use Rattle.std.{specs.Prelude.{◌≡◌, ◌++◌, ◌==◌, ◌&&◌, ◌+◌, ℕ, nat_le, nat_lt, IfOk, map, option_map, string_bytes, count_by}, specs.List.{flat_map, find}, specs.Fmt.{decimal}};
ghost use Rattle.board_made.{specs.Numbers.{number_value}, specs.Renumbering.{changed_line, gone_line, is_kept, kept_count, kept_line, moved_line, number_in, part_word, plain_line, owner_text, place_text, reason_text, renumbered_lines, same_begin, same_owner, same_part, same_thing, taken_text, takes}};

use crate::numbers::{Number, numbers_of};
use plan_values::Plan;
use std::alloc::{AllocError, Global};

/// The lines of each number of the new plan that is new or another one than in the old plan, and of each that is gone.
pub fn renumbered_lines(alloc: Global, old: &Plan, new: &Plan) -> Result<String, AllocError>
    ensures { IfOk result (λ text. string_bytes text ≡ renumbered_lines old.now new.now) }
{
    let olds = numbers_of(alloc, old)?;
    let news = numbers_of(alloc, new)?;
    let mut text = changed_lines(alloc, &olds, &news)?;
    text.push_str(&gone_lines(alloc, &olds, &news)?)?;
    Ok(text)
}

fn changed_lines(
    alloc: Global,
    olds: &[Number<'_>],
    news: &[Number<'_>],
) -> Result<String, AllocError>
    ensures { IfOk result (λ text. string_bytes text ≡ flat_map (λ n. changed_line (map number_value news.now) n (number_in (map number_value olds.now) n)) (map number_value news.now)) }
{
    let mut text = String::new(alloc);
    for number in news {
        text.push_str(&change_line(alloc, olds, news, number)?)?;
    }
    Ok(text)
}

fn gone_lines(alloc: Global, olds: &[Number<'_>], news: &[Number<'_>]) -> Result<String, AllocError>
    ensures { IfOk result (λ text. string_bytes text ≡ flat_map (λ o. gone_line o (number_in (map number_value news.now) o)) (map number_value olds.now)) }
{
    let mut text = String::new(alloc);
    for number in olds {
        text.push_str(&loss_line(alloc, news, number)?)?;
    }
    Ok(text)
}

/// The line that counts the numbers of the old plan that the new one has.
pub fn kept_line(alloc: Global, old: &Plan, new: &Plan) -> Result<String, AllocError>
    ensures { IfOk result (λ text. string_bytes text ≡ kept_line old.now new.now) }
{
    let olds = numbers_of(alloc, old)?;
    let news = numbers_of(alloc, new)?;
    let kept = kept_count(&olds, &news);
    let all = olds.len();
    format!(in alloc; "kept {kept} of {all}\n")
}

fn kept_count(olds: &[Number<'_>], news: &[Number<'_>]) -> usize
    ensures { result ≡ kept_count (map number_value olds.now) (map number_value news.now) }
{
    let mut kept = 0usize;
    for number in olds {
        if stays(number, news) {
            kept += 1;
        }
    }
    kept
}

/// Whether a number is the same in the new plan.
fn stays(old: &Number<'_>, news: &[Number<'_>]) -> bool
    ensures { result ≡ is_kept (number_value old.now) (number_in (map number_value news.now) (number_value old.now)) }
{
    is_kept(old, number_in(news, old))
}

fn is_kept(old: &Number<'_>, new: Option<&Number<'_>>) -> bool
    ensures { result ≡ is_kept (number_value old.now) (option_map (λ n. number_value n.now) new.entry) }
{
    match new {
        Some(new) => old.first == new.first,
        None => false,
    }
}

/// The number of the same thing among others, the first if there are several.
fn number_in<'n, 'p>(numbers: &'n [Number<'p>], wanted: &Number<'_>) -> Option<&'n Number<'p>>
    ensures { option_map (λ n. number_value n.now) result ≡ number_in (map number_value numbers.now) (number_value wanted.now) }
{
    first_of_one(numbers, wanted)
}

fn first_of_one<'n, 'p>(numbers: &'n [Number<'p>], wanted: &Number<'_>) -> Option<&'n Number<'p>>
    ensures { option_map (λ n. n.now) result ≡ find (λ m. same_thing (number_value wanted.now) (number_value m)) numbers.now }
{
    numbers.iter().find(|number| are_of_one(wanted, number))
}

/// Whether two numbers are of one thing: the endpoint ID or the pool of nodes of one name.
fn are_of_one(one: &Number<'_>, other: &Number<'_>) -> bool
    ensures { result ≡ same_thing (number_value one.now) (number_value other.now) }
{
    one.node == other.node && are_same_part(one.is_pool, other.is_pool)
}

fn are_same_part(one: bool, other: bool) -> bool
    ensures { result ≡ same_part one other }
{
    if one { other } else { !other }
}

fn change_line(
    alloc: Global,
    olds: &[Number<'_>],
    news: &[Number<'_>],
    new: &Number<'_>,
) -> Result<String, AllocError>
    ensures { IfOk result (λ text. string_bytes text ≡ changed_line (map number_value news.now) (number_value new.now) (number_in (map number_value olds.now) (number_value new.now))) }
{
    changed_line(alloc, news, new, number_in(olds, new))
}

fn loss_line(alloc: Global, news: &[Number<'_>], old: &Number<'_>) -> Result<String, AllocError>
    ensures { IfOk result (λ text. string_bytes text ≡ gone_line (number_value old.now) (number_in (map number_value news.now) (number_value old.now))) }
{
    gone_line(alloc, old, number_in(news, old))
}

fn changed_line(
    alloc: Global,
    news: &[Number<'_>],
    new: &Number<'_>,
    old: Option<&Number<'_>>,
) -> Result<String, AllocError>
    ensures { IfOk result (λ text. string_bytes text ≡ changed_line (map number_value news.now) (number_value new.now) (option_map (λ o. number_value o.now) old.entry)) }
{
    match old {
        None => plain_line(alloc, "new", new),
        Some(old) if old.first == new.first => Ok(String::new(alloc)),
        Some(old) => moved_line(alloc, news, old, new),
    }
}

fn gone_line(
    alloc: Global,
    old: &Number<'_>,
    new: Option<&Number<'_>>,
) -> Result<String, AllocError>
    ensures { IfOk result (λ text. string_bytes text ≡ gone_line (number_value old.now) (option_map (λ n. number_value n.now) new.entry)) }
{
    match new {
        None => plain_line(alloc, "gone", old),
        Some(_) => Ok(String::new(alloc)),
    }
}

fn plain_line(alloc: Global, word: &str, number: &Number<'_>) -> Result<String, AllocError>
    ensures { IfOk result (λ text. string_bytes text ≡ plain_line word.now (number_value number.now)) }
{
    let node = number.node;
    let part = part_word(number);
    let first = number.first;
    format!(in alloc; "{word} {node} {part} {first}\n")
}

fn moved_line(
    alloc: Global,
    news: &[Number<'_>],
    old: &Number<'_>,
    new: &Number<'_>,
) -> Result<String, AllocError>
    ensures { IfOk result (λ text. string_bytes text ≡ moved_line (map number_value news.now) (number_value old.now) (number_value new.now)) }
{
    let node = new.node;
    let part = part_word(new);
    let before = old.first;
    let after = new.first;
    let reason = reason_text(alloc, news, old, new)?;
    format!(in alloc; "moved {node} {part} {before} to {after}{reason}\n")
}

fn part_word(number: &Number<'_>) -> &'static str
    ensures { result.now ≡ part_word (number_value number.now) }
{
    if number.is_pool { "pool" } else { "eid" }
}

/// Why a number is another one than it was, as far as that is told.
fn reason_text(
    alloc: Global,
    news: &[Number<'_>],
    old: &Number<'_>,
    new: &Number<'_>,
) -> Result<String, AllocError>
    ensures { IfOk result (λ text. string_bytes text ≡ reason_text (map number_value news.now) (number_value old.now) (number_value new.now)) }
{
    if owned_alike(old.owner, new.owner) {
        place_text(alloc, news, old, new)
    } else {
        owner_text(alloc, new.owner)
    }
}

fn owner_text(alloc: Global, owner: Option<&str>) -> Result<String, AllocError>
    ensures { IfOk result (λ text. string_bytes text ≡ owner_text (option_map (λ o. o.now) owner.entry)) }
{
    match owner {
        Some(name) => format!(in alloc; ": its owner is {name} now"),
        None => ": it has no owner now".to_string(alloc),
    }
}

fn place_text(
    alloc: Global,
    news: &[Number<'_>],
    old: &Number<'_>,
    new: &Number<'_>,
) -> Result<String, AllocError>
    ensures { IfOk result (λ text. string_bytes text ≡ place_text (map number_value news.now) (number_value old.now) (number_value new.now)) }
{
    if begin_alike(old.within, new.within) {
        taken_by(alloc, news, new, old.first)
    } else {
        ": its owner's pool moved".to_string(alloc)
    }
}

fn taken_by(
    alloc: Global,
    news: &[Number<'_>],
    new: &Number<'_>,
    eid: u8,
) -> Result<String, AllocError>
    ensures { IfOk result (λ text. string_bytes text ≡ taken_text eid (find (takes (number_value new.now) eid) (map number_value news.now))) }
{
    taken_text(alloc, eid, taker_in(news, new, eid))
}

fn taken_text(alloc: Global, eid: u8, taker: Option<&Number<'_>>) -> Result<String, AllocError>
    ensures { IfOk result (λ text. string_bytes text ≡ taken_text eid (option_map (λ n. number_value n.now) taker.entry)) }
{
    match taker {
        Some(number) => {
            let node = number.node;
            format!(in alloc; ": {eid} is of {node} now")
        }
        None => Ok(String::new(alloc)),
    }
}

/// Another number that has the endpoint ID, the first if there are several.
fn taker_in<'n, 'p>(numbers: &'n [Number<'p>], own: &Number<'_>, eid: u8) -> Option<&'n Number<'p>>
    ensures { option_map (λ n. number_value n.now) result ≡ find (takes (number_value own.now) eid) (map number_value numbers.now) }
{
    first_taker(numbers, own, eid)
}

fn first_taker<'n, 'p>(
    numbers: &'n [Number<'p>],
    own: &Number<'_>,
    eid: u8,
) -> Option<&'n Number<'p>>
    ensures { option_map (λ n. n.now) result ≡ find (λ m. takes (number_value own.now) eid (number_value m)) numbers.now }
{
    numbers.iter().find(|number| takes(number, own, eid))
}

/// Whether another number has the endpoint ID: one that a node holds, or a pool beside.
fn takes(number: &Number<'_>, own: &Number<'_>, eid: u8) -> bool
    ensures { result ≡ takes (number_value own.now) eid (number_value number.now) }
{
    !are_of_one(own, number)
        && has(number, eid)
        && (!number.is_pool || begin_alike(own.within, number.within))
}

fn has(number: &Number<'_>, eid: u8) -> bool
    ensures { result ≡ nat_le number.now.first eid && nat_lt eid (number.now.first + number.now.size) }
{
    number.first <= eid && u16::from(eid) < u16::from(number.first) + u16::from(number.size)
}

fn begin_alike(one: Option<u8>, other: Option<u8>) -> bool
    ensures { result ≡ same_begin one other }
{
    match (one, other) {
        (None, None) => true,
        (Some(one), Some(other)) => one == other,
        _ => false,
    }
}

fn owned_alike(one: Option<&str>, other: Option<&str>) -> bool
    ensures { result ≡ same_owner (option_map (λ o. o.now) one.entry) (option_map (λ o. o.now) other.entry) }
{
    match (one, other) {
        (None, None) => true,
        (Some(one), Some(other)) => one == other,
        _ => false,
    }
}
