//! Who is given lines: a planned node.
ghost use Rattle.std.specs.Prelude.{◌≡◌, ℕ, List, IfOk, string_bytes};
ghost use Rattle.command_questions.specs.declared.emulation.LineForm.{LineForm};
ghost use Rattle.emulated_node.{specs.Nodes.{NodeState, Setting}, specs.Standing.{HasNodeState, setting_of}};
ghost use Rattle.bus_commands.specs.Turns.{Takes};

use crate::turn::{Turn, take_line};
use command_questions::LineForm;
use emulated_node::Emulated;
use pdr_repository::Terminus;
use std::alloc::{AllocError, Global};

/// Who is given lines of the line protocol, one after another.
pub trait Player {
    // What it is throughout, and what it holds at one moment.
    ghost Nature: { Type 0 };

    ghost State: { Type 0 };

    ghost nature: { Self → Nature };

    ghost stands: { Self → State → Type 0 };

    // In a state, of a line: what is sent for it, what is noted of it, and the state then.
    ghost takes: { Nature → State → List ℕ → List ℕ → List ℕ → State → Type 0 };

    /// Takes a line, and says what is written for it.
    fn take(&mut self, line: &[u8]) -> Result<Turn, AllocError>
        ensures same { nature self.new ≡ nature self.old }
        ensures taken { IfOk result (λ turn. (s : State) → stands self.old s
            → (next : State) × takes (nature self.old) s line.now (string_bytes turn.answer) turn.note.items next × stands self.new next) };
}

/// A node of a plan that is given lines.
#[derive(Drop)]
pub struct NodePlayer<'a, T> {
    pub alloc: Global,
    /// What the lines have.
    pub form: LineForm,
    pub emulated: Emulated<'a, T>,
}

impl<'a, T: Terminus> Player for NodePlayer<'a, T> {
    ghost Nature = { LineForm × Setting };

    ghost State = { NodeState };

    ghost nature = { λ p. (p.form, setting_of p.emulated) };

    ghost stands = { λ p s. HasNodeState T.tid T.records p.emulated s };

    ghost takes = { λ (form, set). Takes form set };

    fn take(&mut self, line: &[u8]) -> Result<Turn, AllocError> {
        take_line(self.alloc, self.form, &mut self.emulated, line)
    }
}
