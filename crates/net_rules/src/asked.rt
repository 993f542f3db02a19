//! Which rules are asked of a plan.
ghost use Rattle.std.specs.Prelude.{◌≡◌};
ghost use Rattle.net_rules.specs.Asked.{is_asked};

use crate::rule::Rule;

/// Which rules are asked of a plan and its certificate.
#[derive(Clone, Copy)]
pub enum Asked {
    /// Of a plan alone: all.
    Alone,
    /// Of the plan before a move: all but C16, which M03 asks of both plans together.
    Before,
    /// Of the plan after a move: those that speak of rows. Of what is not in its rows the plan before has the same.
    After,
}

impl Asked {
    /// Whether the rule is asked.
    pub fn asks(self, rule: Rule) -> bool
        ensures { result ≡ is_asked self rule }
    {
        match self {
            Asked::Alone => true,
            Asked::Before => !matches!(rule, Rule::C16),
            Asked::After => matches!(
                rule,
                Rule::C04 | Rule::C05 | Rule::C06 | Rule::C10 | Rule::C11
            ),
        }
    }
}
