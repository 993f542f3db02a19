//! Which of two obstacles comes first.
ghost use Rattle.std.specs.Prelude.{◌≡◌, ◌⊎◌, ◌<◌, ◌↔◌, None, IsTrue};
ghost use Rattle.net_rules.specs.Faults.{LessByFirstDifference, order_of, order_of_number};
ghost use Rattle.net_explained.{specs.Obstacles.{IsLater, key_of}, specs.Keys.{numbers_of, numbers_given}};

use net_rules::{CertifyError, Rule};

/// Where an obstacle stands in the order in which `certify` looks for them: numbers, of which the first that differs
/// decides. None comes before each number.
#[derive(Clone, Copy)]
pub struct Key {
    pub rule: usize,
    pub kind: usize,
    pub first: usize,
    pub second: Option<usize>,
    pub third: Option<usize>,
}

/// Whether the second obstacle comes later than the first.
pub fn is_later(first: &CertifyError, second: &CertifyError) -> bool
    ensures { IsTrue result ↔ IsLater first.now second.now }
{
    match (key_of(first), key_of(second)) {
        (Some(a), Some(b)) => comes_before(a, b),
        _ => false,
    }
}

fn comes_before(a: Key, b: Key) -> bool
    ensures { IsTrue result ↔ LessByFirstDifference (numbers_of a) (numbers_of b) }
{
    let third = less_or_none(a.third, b.third, false);
    let second = less_or_none(a.second, b.second, third);
    let first = less(a.first, b.first, second);
    less(a.rule, b.rule, less(a.kind, b.kind, first))
}

/// Whether a number is less than another, or equal where what follows is less.
fn less(number: usize, other: usize, follows: bool) -> bool
    ensures { IsTrue result ↔ (number < other) ⊎ ((number ≡ other) × IsTrue follows) }
{
    number < other || (number == other && follows)
}

/// The same of numbers that may not be given.
fn less_or_none(number: Option<usize>, other: Option<usize>, follows: bool) -> bool
    ensures { IsTrue result ↔ (order_of_number number < order_of_number other) ⊎ ((order_of_number number ≡ order_of_number other) × IsTrue follows) }
{
    match (number, other) {
        (None, None) => follows,
        (None, Some(_)) => true,
        (Some(_), None) => false,
        (Some(number), Some(other)) => less(number, other, follows),
    }
}

/// Where an obstacle stands; none of want of memory.
fn key_of(obstacle: &CertifyError) -> Option<Key>
    ensures { numbers_given result ≡ key_of obstacle.now }
{
    match obstacle {
        CertifyError::Fault(fault) => Some(Key {
            rule: order_of(fault.rule),
            kind: 0,
            first: fault.node,
            second: fault.entry,
            third: fault.eid.map(|eid| usize::from(eid.value)),
        }),
        CertifyError::OwnerLoop(_) => Some(key_of_loop(Rule::C07, 0)),
        CertifyError::Loop(eid, _) => Some(key_of_loop(Rule::C10, usize::from(eid.value))),
        CertifyError::BadChain(node, ..) => Some(key_of_loop(Rule::C14, *node)),
        CertifyError::OutOfMemory => None,
    }
}

/// Where a loop or a chain stands: behind the faults of its rule.
fn key_of_loop(rule: Rule, first: usize) -> Key
    ensures { result ≡ record { rule = order_of rule; kind = 1; first = first; second = None; third = None } }
{
    Key {
        rule: order_of(rule),
        kind: 1,
        first,
        second: None,
        third: None,
    }
}

/// A rule's place in the order of the rules.
fn order_of(rule: Rule) -> usize
    ensures { result ≡ order_of rule }
{
    match rule {
        Rule::C01 => 0,
        Rule::C02 => 1,
        Rule::C03 => 2,
        Rule::C04 => 3,
        Rule::C05 => 4,
        Rule::C06 => 5,
        Rule::C07 => 6,
        Rule::C08 => 7,
        Rule::C09 => 8,
        Rule::C10 => 9,
        Rule::C11 => 10,
        Rule::C12 => 11,
        Rule::C13 => 12,
        Rule::C14 => 13,
        Rule::C15 => 14,
        Rule::C16 => 15,
    }
}
