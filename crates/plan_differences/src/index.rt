//! Facts, listed by words.
ghost use Rattle.std.{specs.Prelude.{◌≡◌, ◌↔◌, ◌++◌, ◌∷◌, [], ℕ, Contains, IfOk, IsTrue, List, OnOk, map, string_bytes, if◌then◌else◌}, specs.Str.{bytes_eq}};
ghost use Rattle.plan_differences.{specs.DifferenceLines.{fact_text, thing_text}, specs.Facts.{fact_value}, specs.Indexes.{IsIndexBy, listed}};

use crate::fact::{Fact, is_same};
use crate::lines::{fact_text, thing_text};
use std::alloc::{AllocError, Global};
use std::collections::BTreeMap;

/// Facts in their order, by words.
pub type Index<'p> = BTreeMap<String, Vec<Fact<'p>>>;

/// The facts by all that they say.
pub fn by_words<'p>(alloc: Global, facts: &[Fact<'p>]) -> Result<Index<'p>, AllocError>
    ensures { IfOk result (IsIndexBy fact_text facts.now) }
{
    let mut index = BTreeMap::new(alloc);
    for fact in facts {
        note(&mut index, fact_text(alloc, fact)?, *fact)?;
    }
    Ok(index)
}

/// The facts by the words for their things.
pub fn by_things<'p>(alloc: Global, facts: &[Fact<'p>]) -> Result<Index<'p>, AllocError>
    ensures { IfOk result (IsIndexBy thing_text facts.now) }
{
    let mut index = BTreeMap::new(alloc);
    for fact in facts {
        note(&mut index, thing_text(alloc, fact)?, *fact)?;
    }
    Ok(index)
}

/// Adds a fact to those of the words.
fn note<'p>(index: &mut Index<'p>, words: String, fact: Fact<'p>) -> Result<(), AllocError>
    ensures { OnOk result ((q : List ℕ) → listed index.new q ≡ listed index.old q ++ (if bytes_eq q (string_bytes words) then fact.entry ∷ [] else [])) }
{
    index.entry(words)?.or_default().push(fact)?;
    Ok(())
}

/// The facts of these words.
pub fn listed<'p>(
    alloc: Global,
    index: &Index<'p>,
    words: &str,
) -> Result<Vec<Fact<'p>>, AllocError>
    ensures { IfOk result (λ facts. facts.items ≡ listed index.now words.now) }
{
    match index.get(words) {
        Some(facts) => facts.to_vec(alloc),
        None => Ok(Vec::new(alloc)),
    }
}

/// Whether a fact is one of those of the words.
pub fn is_said(index: &Index, words: &str, fact: &Fact) -> bool
    ensures { IsTrue result ↔ Contains (map fact_value (listed index.now words.now)) (fact_value fact.now) }
{
    match index.get(words) {
        Some(facts) => is_among(facts, fact),
        None => false,
    }
}

/// Whether a fact is one of these.
fn is_among(facts: &[Fact], fact: &Fact) -> bool
    ensures { IsTrue result ↔ Contains (map fact_value facts.now) (fact_value fact.now) }
{
    for other in facts {
        if is_same(other, fact) {
            return true;
        }
    }
    false
}
