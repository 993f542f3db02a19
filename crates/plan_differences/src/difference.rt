//! How the facts of two plans differ.
ghost use Rattle.std.specs.Prelude.{◌≡◌, IfOk, map};
ghost use Rattle.plan_differences.{specs.Facts.{fact_value}, specs.Differences.{AreDifferences, AreOnlyIn, of_fact, told_of}, specs.declared.difference.Difference.TheVariants.{Changed}};

use crate::fact::Fact;
use crate::index::{by_things, by_words, is_said, listed};
use crate::lines::{fact_text, thing_text};
use std::alloc::{AllocError, Global};

/// How the facts of two plans differ.
#[derive(Clone, Copy)]
pub enum Difference<'p> {
    /// This fact of the old plan isn't one of the new plan's, which says nothing new of its thing.
    Removed(Fact<'p>),
    /// This fact of the old plan isn't one of the new plan's, and this one of the new plan is of the same thing and
    /// isn't one of the old plan's.
    Changed(Fact<'p>, Fact<'p>),
    /// This fact of the new plan isn't one of the old plan's, of which nothing else is gone that was of its thing.
    Added(Fact<'p>),
}

/// How the facts of two plans differ: first what the old plan says and the new one doesn't, in the old plan's order,
/// then what only the new plan says of things, in its order.
pub fn differences<'p>(
    alloc: Global,
    olds: &[Fact<'p>],
    news: &[Fact<'p>],
) -> Result<Vec<Difference<'p>>, AllocError>
    ensures { IfOk result (λ told. AreDifferences (map fact_value olds.now) (map fact_value news.now) told.items) }
{
    let gone = only_in(alloc, olds, news)?;
    let come = only_in(alloc, news, olds)?;
    let mut told = told_of(alloc, Side::Old, &gone, &come)?;
    told.extend_from_slice(&told_of(alloc, Side::New, &come, &gone)?)?;
    Ok(told)
}

/// Those facts that aren't among the others.
fn only_in<'p>(
    alloc: Global,
    facts: &[Fact<'p>],
    others: &[Fact<'p>],
) -> Result<Vec<Fact<'p>>, AllocError>
    ensures { IfOk result (λ only. AreOnlyIn (map fact_value facts.now) (map fact_value others.now) only.items) }
{
    let index = by_words(alloc, others)?;
    let mut only = Vec::new(alloc);
    for fact in facts {
        let words = fact_text(alloc, fact)?;
        if !is_said(&index, &words, fact) {
            only.push(*fact)?;
        }
    }
    Ok(only)
}

/// Which of the plans alone says a fact.
#[derive(Clone, Copy)]
enum Side {
    Old,
    New,
}

/// What is told of the facts that one plan alone says, beside those that the other one alone says.
fn told_of<'p>(
    alloc: Global,
    side: Side,
    facts: &[Fact<'p>],
    others: &[Fact<'p>],
) -> Result<Vec<Difference<'p>>, AllocError>
    ensures { IfOk result (λ told. told.items ≡ told_of side facts.now others.now) }
{
    let index = by_things(alloc, others)?;
    let mut told = Vec::new(alloc);
    for fact in facts {
        let words = thing_text(alloc, fact)?;
        let alike = listed(alloc, &index, &words)?;
        told.extend_from_slice(&of_fact(alloc, side, *fact, &alike)?)?;
    }
    Ok(told)
}

/// What is told of one of these facts, beside the others of its thing. What is changed is told with the old fact alone.
fn of_fact<'p>(
    alloc: Global,
    side: Side,
    fact: Fact<'p>,
    others: &[Fact<'p>],
) -> Result<Vec<Difference<'p>>, AllocError>
    ensures { IfOk result (λ told. told.items ≡ of_fact side fact.entry others.now) }
{
    match side {
        Side::Old if others.is_empty() => Ok(vec![in alloc; Difference::Removed(fact)]?),
        Side::Old => changes(alloc, fact, others),
        Side::New if others.is_empty() => Ok(vec![in alloc; Difference::Added(fact)]?),
        Side::New => Ok(Vec::new(alloc)),
    }
}

fn changes<'p>(
    alloc: Global,
    fact: Fact<'p>,
    others: &[Fact<'p>],
) -> Result<Vec<Difference<'p>>, AllocError>
    ensures { IfOk result (λ told. told.items ≡ map (Changed fact.entry) others.now) }
{
    let mut told = Vec::new(alloc);
    for other in others {
        told.push(Difference::Changed(fact, *other))?;
    }
    Ok(told)
}
