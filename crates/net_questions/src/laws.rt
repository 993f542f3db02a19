//! Laws of the ways of packets. The functions do nothing: their contracts are the laws.
ghost use Rattle.std.specs.Prelude.{◌↔◌, ℕ, List};
ghost use Rattle.plan_values.{specs.declared.plan.Plan.{Plan}, specs.declared.certificate.Certificate.{Certificate}};
ghost use Rattle.net_rules.specs.Rules.{Accepts};
ghost use Rattle.net_questions.{specs.declared.step.WayStep.{WayStep}, specs.declared.way.End.{End}, specs.Reaching.{Reaches}, specs.Ways.{IsWay, SameWays, ArrivesAfter}, specs.Packets.{KeepsToWays}};

/// Two ways of packets for one endpoint ID from one node are the same, where no two rows of a node cover one endpoint
/// ID; so it is in an accepted plan.
pub fn ways_are_alone()
    ensures { (plan : Plan) (cert : Certificate) (e from last end_at : ℕ) (steps others : List WayStep) (one other : End) → Accepts plan cert
        → IsWay plan e from steps last one → IsWay plan e from others end_at other → SameWays steps others last end_at one other }
{}

/// In an accepted plan so many moves along rows lead to the holder of an endpoint ID exactly where a packet for it
/// makes as many steps and arrives.
pub fn ways_reach()
    ensures { (plan : Plan) (cert : Certificate) (e from moves : ℕ) → Accepts plan cert
        → (Reaches plan e from moves ↔ ArrivesAfter plan e from moves) }
{}

/// In every run of an accepted plan's network each flight stands on the way of its packet, and each of its moves makes
/// the next step of that way.
#[tactic(auto, using(crate::proofs::Packets::keeps_to_ways))]
pub fn packets_keep_to_their_ways()
    ensures { (plan : Plan) (cert : Certificate) → Accepts plan cert → KeepsToWays plan cert }
{}
