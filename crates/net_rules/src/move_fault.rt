//! The rules that a move breaks, and where.
ghost use Rattle.std.specs.Prelude.{◌≡◌};
ghost use Rattle.net_rules.specs.MoveFaults.{code_of_move};

use crate::rule::Rule;
use mctp_transport::Eid;

/// A rule of a move. M01, that the plans differ in rows alone, is not among them: where it is broken no row is named.
#[derive(Clone, Copy, Debug, PartialEq, Eq)]
pub enum MoveRule {
    /// A rule of one plan and its certificate.
    OfPlan(Rule),
    /// A row leads an endpoint ID that another node holds to a node that holds it, or to a bridge with a row for it in
    /// both plans.
    M02,
    /// The certificate gives no level or index that the old plan has no use for, and no rank that neither plan has a
    /// use for.
    M03,
}

impl MoveRule {
    /// The code that users see, as `C01` or `M02`.
    pub fn code(self) -> &'static str
        ensures { result.now ≡ code_of_move self }
    {
        match self {
            MoveRule::OfPlan(rule) => rule.code(),
            MoveRule::M02 => "M02",
            MoveRule::M03 => "M03",
        }
    }
}

/// A broken rule of a move, and where. Of several faults the first is answered: by rule, then node, then entry, then
/// endpoint ID, where none comes before each number.
#[derive(Clone, Copy, Debug, PartialEq, Eq)]
pub struct MoveFault {
    pub rule: MoveRule,
    /// The index of the node in the plans' lists.
    pub node: usize,
    /// The index of the row in the node's list, or of the record in its terminus's, where the rule speaks of one.
    pub entry: Option<usize>,
    /// The endpoint ID, where the rule speaks of one.
    pub eid: Option<Eid>,
}
