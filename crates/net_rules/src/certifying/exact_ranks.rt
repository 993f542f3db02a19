//! The ranks of a plan's certificate.
ghost use Rattle.std.specs.Prelude.{◌≡◌, IfOk, IfErr, filter};
ghost use Rattle.net_tables.specs.Rows.{RowsAreApart, RowsAreInRange};
ghost use Rattle.net_rules.specs.Certificates.{AreExactRanks, NamesRoutingLoop, has_ranges};

use crate::certify_error::CertifyError;
use crate::certifying::next_nodes::walk_for;
use crate::certifying::rank_ranges::{add_ranks, no_ranges};
use crate::certifying::stretches::stretch_from;
use crate::certifying::tables::certifying_tables;
use crate::certifying::walks::Walked;
use mctp_transport::Eid;
use plan_values::{NodeRanks, Plan};
use std::alloc::Global;

/// The ranks of the nodes that have some, in plan order, or the first routing loop.
pub fn exact_ranks(alloc: Global, plan: &Plan) -> Result<Vec<NodeRanks>, CertifyError>
    requires apart { RowsAreApart plan.now }
    requires in_range { RowsAreInRange plan.now }
    ensures exact { IfOk result (λ given. AreExactRanks plan.now given.items) }
    ensures obstacle { IfErr result (λ error. NamesRoutingLoop plan.now error) }
{
    let tables = certifying_tables(alloc, plan)?;
    let mut given = no_ranges(alloc, plan.nodes.len())?;
    let mut first = 8;
    while first < 255 {
        let stretch = stretch_from(plan, &tables, Eid::new(first));
        match walk_for(alloc, plan, &tables, stretch.first)? {
            Walked::Ended(moves) => add_ranks(&mut given, stretch, &moves)?,
            Walked::Circled(nodes) => return Err(CertifyError::Loop(stretch.first, nodes)),
        }
        first = stretch.last.value + 1;
    }
    keep_ranked(&mut given);
    Ok(given)
}

/// Leaves out the nodes that have no ranges.
pub fn keep_ranked(given: &mut Vec<NodeRanks>)
    ensures { given.new.items ≡ filter has_ranges given.old.items }
{
    given.retain(|one| one.ranges.len() > 0);
}
