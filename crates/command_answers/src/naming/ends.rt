//! The ends of a way, by the words that name them.
ghost use Rattle.std.{specs.Prelude.{◌≡◌, ℕ, MatchOption}, specs.Char.{is_ascii_digit}, specs.List.{list_all}};
ghost use Rattle.mctp_transport.specs.PacketValues.{IsAssignable};
ghost use Rattle.command_answers.specs.Naming.{IsFirstNamed, IsEidWord, IsDestination, NameTheEnds};

use crate::naming::first_named;
use mctp_transport::Eid;
use net_tables::lookup::eid_at;
use plan_values::Plan;

/// The index of the node that the one word names, and the endpoint ID that the other word names.
#[tactic(auto, using(crate::proofs::Ends::no_sender, crate::proofs::Ends::no_destination))]
pub fn named_ends(plan: &Plan, from: &str, to: &str) -> Option<(usize, Eid)>
    ensures { MatchOption result (¬ NameTheEnds from.now to.now plan.now)
        (λ ends. IsFirstNamed plan.now from.now ends.0 × IsDestination plan.now to.now ends.1.value) }
{
    let sender = first_named(plan, from)?;
    let destination = destination(plan, to)?;
    Some((sender, destination))
}

/// The endpoint ID of the first node of the name; where no node has the name, the number that the word is.
#[tactic(auto, using(crate::proofs::Ends::by_name, crate::proofs::Ends::by_number))]
fn destination(plan: &Plan, word: &str) -> Option<Eid>
    ensures { MatchOption result ((e : ℕ) → ¬ IsDestination plan.now word.now e) (λ eid. IsDestination plan.now word.now eid.value) }
{
    match first_named(plan, word) {
        Some(index) => eid_at(plan, index),
        None => eid_of_word(word),
    }
}

/// The endpoint ID whose number the word is in ASCII digits, if it can be assigned.
pub fn eid_of_word(word: &str) -> Option<Eid>
    ensures { MatchOption result ((e : ℕ) → ¬ IsEidWord word.now e) (λ eid. IsEidWord word.now eid.value) }
{
    if !has_only_digits(word.as_bytes()) {
        return None;
    }
    match word.parse() {
        Ok(number) => assignable(number),
        Err(_) => None,
    }
}

/// The endpoint ID of a number, if it can be assigned.
fn assignable(number: u8) -> Option<Eid>
    ensures { MatchOption result (¬ IsAssignable number) (λ eid. (eid.value ≡ number) × IsAssignable number) }
{
    let eid = Eid::new(number);
    if eid.is_assignable() { Some(eid) } else { None }
}

/// Whether each byte is an ASCII digit.
fn has_only_digits(bytes: &[u8]) -> bool
    ensures { result ≡ list_all is_ascii_digit bytes.now }
{
    bytes.iter().all(|byte| byte.is_ascii_digit())
}
