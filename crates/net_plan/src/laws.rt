//! A law of texts. The function does nothing: its contract is the law.
ghost use Rattle.std.specs.Prelude.{◌≡◌, ℕ, List};
ghost use Rattle.plan_values.{specs.PlanValues.{PlanValue}, specs.CertificateValues.{CertificateValue}, specs.EventValues.{EventEntry}};
ghost use Rattle.net_plan.{specs.PlanText.{IsPlanOf}, specs.CertificateText.{IsCertificateOf}, specs.EventText.{AreEventsOf}, specs.Texts.{IsJsonTextOf}};

/// A text stands for one plan at most, and of a plan for one certificate and for one list of events.
pub fn one_reading()
    ensures plan { (text : List ℕ) (p q : PlanValue) → IsJsonTextOf IsPlanOf text p → IsJsonTextOf IsPlanOf text q → p ≡ q }
    ensures certificate { (plan : PlanValue) (text : List ℕ) (c d : CertificateValue) → IsJsonTextOf (IsCertificateOf plan) text c → IsJsonTextOf (IsCertificateOf plan) text d → c ≡ d }
    ensures events { (plan : PlanValue) (text : List ℕ) (es fs : List EventEntry) → IsJsonTextOf (AreEventsOf plan) text es → IsJsonTextOf (AreEventsOf plan) text fs → es ≡ fs }
{}
