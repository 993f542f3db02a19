//! What a change of plans does.
ghost use Rattle.std.specs.Prelude.{◌≡◌, ◌≢◌, ◌↔◌, IfOk, IsTrue, MatchOption, codes, map, string_bytes};
ghost use Rattle.net_rules.{specs.Certificates.{NamesObstacle, RulesOutCertificates}, specs.Rules.{Accepts}};
ghost use Rattle.plan_differences.{specs.Facts.{fact_value, plan_facts}, specs.Changes.{AreChangesTold, AreConsequencesTold, AreFactsTold, AreWaysTold, IsReason, IsRuledOut}};

use crate::difference::differences;
use crate::fact::{Fact, is_same};
use crate::facts::facts_of;
use crate::lines::difference_lines;
use crate::way_lines::{need_line, way_lines};
use crate::ways::other_ways;
use command_answers::accepted;
use net_rollout::rollout;
use net_rules::{CertifyError, certify};
use plan_texts::obstacle_line;
use plan_values::{Certificate, Plan};
use std::alloc::{AllocError, Global};

/// What two plans differ in, where they do: facts; then, where each has a certificate, the ways between nodes and what
/// a roll-out needs, and otherwise why a plan has none. `None` where they say the same in the same order.
pub fn changes_told(
    alloc: Global,
    before: &Plan,
    after: &Plan,
) -> Result<Option<String>, AllocError>
    ensures { IfOk result (λ told. MatchOption told (plan_facts before.now ≡ plan_facts after.now) (λ text. (plan_facts before.now ≢ plan_facts after.now) × AreChangesTold before.now after.now (string_bytes text))) }
{
    let olds = facts_of(alloc, before)?;
    let news = facts_of(alloc, after)?;
    if are_same(&olds, &news) {
        return Ok(None);
    }
    let facts = facts_told(alloc, &olds, &news)?;
    let consequences = consequences_told(alloc, before, after)?;
    Ok(Some(format!(in alloc; "{facts}{consequences}")?))
}

/// Whether two lists of facts are the same, in order.
fn are_same(facts: &[Fact], others: &[Fact]) -> bool
    ensures { IsTrue result ↔ (map fact_value facts.now ≡ map fact_value others.now) }
{
    if facts.len() != others.len() {
        return false;
    }
    for index in 0..facts.len() {
        if !is_same(&facts[index], &others[index]) {
            return false;
        }
    }
    true
}

/// A line for each difference, or one that says that the plans list the same otherwise.
fn facts_told(alloc: Global, olds: &[Fact], news: &[Fact]) -> Result<String, AllocError>
    ensures { IfOk result (λ text. AreFactsTold (map fact_value olds.now) (map fact_value news.now) (string_bytes text)) }
{
    let found = differences(alloc, olds, news)?;
    if found.is_empty() {
        return "changed order of lists\n".to_string(alloc);
    }
    difference_lines(alloc, &found)
}

/// What comes of the change: for ways and a roll-out, or the reasons for which a plan has no certificate.
fn consequences_told(alloc: Global, before: &Plan, after: &Plan) -> Result<String, AllocError>
    ensures { IfOk result (λ text. AreConsequencesTold before.now after.now (string_bytes text)) }
{
    match certify(alloc, before) {
        Ok(old) => of_certified(alloc, before, after, &old),
        Err(obstacle) => {
            let line = ruled_out(alloc, "old: ", before, &obstacle)?;
            let other = reason(alloc, after)?;
            format!(in alloc; "{line}{other}")
        }
    }
}

/// The same where the old plan has a certificate.
fn of_certified(
    alloc: Global,
    before: &Plan,
    after: &Plan,
    old: &Certificate,
) -> Result<String, AllocError>
    requires { Accepts before.now old.now }
    ensures { IfOk result (λ text. AreConsequencesTold before.now after.now (string_bytes text)) }
{
    match certify(alloc, after) {
        Ok(new) => of_both(alloc, before, after, old, &new),
        Err(obstacle) => ruled_out(alloc, "new: ", after, &obstacle),
    }
}

/// Why the new plan has no certificate, if it has none.
fn reason(alloc: Global, after: &Plan) -> Result<String, AllocError>
    ensures { IfOk result (λ text. IsReason after.now (codes "new: ") (string_bytes text)) }
{
    match certify(alloc, after) {
        Ok(_) => Ok(String::new(alloc)),
        Err(obstacle) => ruled_out(alloc, "new: ", after, &obstacle),
    }
}

/// The line of what rules certificates of a plan out, behind the words for the plan.
fn ruled_out(
    alloc: Global,
    whose: &str,
    plan: &Plan,
    obstacle: &CertifyError,
) -> Result<String, AllocError>
    requires named { NamesObstacle plan.now obstacle.now }
    requires none { RulesOutCertificates plan.now obstacle.now }
    ensures { IfOk result (λ text. IsRuledOut plan.now whose.now (string_bytes text)) }
{
    let line = obstacle_line(alloc, plan, obstacle)?;
    format!(in alloc; "{whose}{line}")
}

/// What becomes of ways, and what a roll-out needs.
fn of_both(
    alloc: Global,
    before: &Plan,
    after: &Plan,
    old: &Certificate,
    new: &Certificate,
) -> Result<String, AllocError>
    requires old { Accepts before.now old.now }
    requires new { Accepts after.now new.now }
    ensures { IfOk result (λ text. AreWaysTold before.now after.now (string_bytes text)) }
{
    let old = accepted(alloc, before, old)?;
    let new = accepted(alloc, after, new)?;
    let ways = way_lines(alloc, before, &other_ways(alloc, &old, &new)?)?;
    let need = need_line(alloc, before, &rollout(alloc, before, after)?)?;
    format!(in alloc; "{ways}{need}")
}
