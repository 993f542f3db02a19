//! H03: the terminus IDs of termini.
ghost use Rattle.std.specs.Prelude.{◌↔◌, IsTrue};
ghost use Rattle.net_questions.specs.Lint.{HaveOneTid, HasItsTid, HaveSharedTid, ShareTid};

use net_tables::lookup::terminus_at;
use plan_values::{Plan, PlannedTerminus};

/// Whether the termini of a node and a later one have one terminus ID.
pub fn share_tid(plan: &Plan, node: usize, other: usize) -> bool
    ensures { IsTrue result ↔ ShareTid plan.now node other }
{
    node < other && have_shared_tid(plan, node, other)
}

/// Whether the termini of two nodes have one terminus ID.
fn have_shared_tid(plan: &Plan, node: usize, other: usize) -> bool
    ensures { IsTrue result ↔ HaveSharedTid plan.now node other }
{
    match terminus_at(plan, node) {
        Some(terminus) => has_its_tid(plan, terminus, other),
        None => false,
    }
}

/// Whether a node's terminus has the terminus ID of this one.
fn has_its_tid(plan: &Plan, terminus: &PlannedTerminus, other: usize) -> bool
    ensures { IsTrue result ↔ HasItsTid plan.now terminus.now other }
{
    match terminus_at(plan, other) {
        Some(other) => have_one_tid(terminus, other),
        None => false,
    }
}

/// Whether two termini have one terminus ID.
fn have_one_tid(terminus: &PlannedTerminus, other: &PlannedTerminus) -> bool
    ensures { IsTrue result ↔ HaveOneTid terminus.now other.now }
{
    terminus.tid == other.tid && terminus.tid != 0
}
