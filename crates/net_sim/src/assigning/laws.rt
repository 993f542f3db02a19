//! A law of assignments. The function does nothing: its contract is the law.
ghost use Rattle.std.specs.Prelude.{◌≡◌, List};
ghost use Rattle.plan_values.{specs.declared.plan.Plan.{Plan}, specs.declared.certificate.Certificate.{Certificate}};
ghost use Rattle.net_sim.specs.Assignments.{AssignmentValue, IsAssignmentOf};

/// A plan and a certificate have one assignment at most.
pub fn one_assignment()
    ensures { (plan : Plan) (cert : Certificate) (list other : List AssignmentValue)
        → IsAssignmentOf plan cert list → IsAssignmentOf plan cert other → list ≡ other }
{}
