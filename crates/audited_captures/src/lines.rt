//! The lines of an audit.
ghost use Rattle.std.specs.Prelude.{◌≡◌, ◌∷◌, ◌++◌, [], IfOk, OnOk, map, string_bytes};
ghost use Rattle.audited_captures.specs.Lines.{line_value, difference, note, silence, differences_or, differs, compares};

use std::alloc::{AllocError, Global};

/// What a line says of what was captured beside what is planned.
#[derive(Clone, Copy, Debug)]
pub enum Finding {
    /// It compares nothing: nothing was captured that could be laid beside the plan, or it is a remark.
    Silent,
    /// It is as planned.
    AsPlanned,
    /// It differs from the plan.
    Differs,
}

/// A line of an audit, without its end.
#[derive(Debug, Drop)]
pub struct Line {
    pub text: String,
    pub finding: Finding,
}

/// Lines, and the number of what they tell of.
#[derive(Debug, Drop)]
pub struct Counted {
    pub lines: Vec<Line>,
    pub count: usize,
}

impl Line {
    /// Whether it tells a difference between what was said and the plan.
    pub fn differs(&self) -> bool
        ensures { result ≡ differs (line_value self.now) }
    {
        match self.finding {
            Finding::Differs => true,
            Finding::AsPlanned | Finding::Silent => false,
        }
    }

    /// Whether something that was captured was laid beside the plan.
    pub fn compares(&self) -> bool
        ensures { result ≡ compares (line_value self.now) }
    {
        match self.finding {
            Finding::Differs | Finding::AsPlanned => true,
            Finding::Silent => false,
        }
    }
}

/// Adds a line that tells a difference.
pub fn add_difference(lines: &mut Vec<Line>, text: String) -> Result<(), AllocError>
    ensures { OnOk result (map line_value lines.new.items ≡ map line_value lines.old.items ++ difference (string_bytes text) ∷ []) }
{
    lines.push(Line {
        text,
        finding: Finding::Differs,
    })?;
    Ok(())
}

/// The lines, or where there are none a line that says that all is as planned.
pub fn differences_or(text: String, mut lines: Vec<Line>) -> Result<Vec<Line>, AllocError>
    ensures { IfOk result (λ all. map line_value all.items ≡ differences_or (note (string_bytes text)) (map line_value lines.items)) }
{
    if lines.is_empty() {
        lines.push(Line {
            text,
            finding: Finding::AsPlanned,
        })?;
    }
    Ok(lines)
}

/// One line that compares nothing.
pub fn silence(alloc: Global, text: String) -> Result<Vec<Line>, AllocError>
    ensures { IfOk result (λ all. map line_value all.items ≡ silence (string_bytes text) ∷ []) }
{
    let mut lines = Vec::new(alloc);
    lines.push(Line {
        text,
        finding: Finding::Silent,
    })?;
    Ok(lines)
}
