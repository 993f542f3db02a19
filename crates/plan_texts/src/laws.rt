//! Laws of lines. The functions do nothing: their contracts are the laws.
ghost use Rattle.std.specs.Prelude.{◌≡◌};
ghost use Rattle.plan_values.{specs.declared.plan.Plan.{Plan}, specs.PlanValues.{plan_value}};
ghost use Rattle.net_rules.{specs.declared.fault.Fault.{Fault}, specs.declared.certify_error.CertifyError.{CertifyError}, specs.declared.move_error.MoveError.{MoveError}, specs.declared.move_obstacle.MoveObstacle.{MoveObstacle}};
ghost use Rattle.plan_texts.{specs.Lines.{fault_text, obstacle_text}, specs.MoveLines.{move_error_text, move_obstacle_text}};

/// The lines of a fault, of what rules certificates out, and of both of a move, depend on what the plan says alone.
pub fn lines_depend_on_values_alone()
    ensures fault { (plan other : Plan) → plan_value plan ≡ plan_value other → (fault : Fault) → fault_text plan fault ≡ fault_text other fault }
    ensures obstacle { (plan other : Plan) → plan_value plan ≡ plan_value other → (e : CertifyError) → obstacle_text plan e ≡ obstacle_text other e }
    ensures move_error { (plan other : Plan) → plan_value plan ≡ plan_value other → (e : MoveError) → move_error_text plan e ≡ move_error_text other e }
    ensures move_obstacle { (plan other : Plan) → plan_value plan ≡ plan_value other → (o : MoveObstacle) → move_obstacle_text plan o ≡ move_obstacle_text other o }
{}
