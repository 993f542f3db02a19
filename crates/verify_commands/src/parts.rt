//! The parts of a folder, and how they are judged.
ghost use Rattle.std.specs.Prelude.{◌≡◌, ◌++◌, ◌∷◌, [], IfOk, OnOk};
ghost use Rattle.verify_commands.specs.declared.parts.Verdict.TheVariants as verdict;

use std::alloc::{AllocError, Global};

/// A part of a folder.
#[derive(Drop)]
pub enum Part {
    /// The plan is the one that is made of the board.
    Board,
    /// A certificate fits the plan.
    Check,
    /// Nothing rules certificates of the plan out.
    Faults,
    /// Nothing in the plan looks wrong.
    Lint,
    /// The nodes reach whom they are to reach.
    Require,
    /// What comes of the events of the run of this name are its lines.
    Run(String),
}

/// How a part is judged.
#[derive(Clone, Copy, PartialEq, Eq)]
pub enum Verdict {
    Holds,
    /// It doesn't hold, and that doesn't count.
    Noted,
    Fails,
}

/// A part that was judged, and lines that say why it doesn't hold.
#[derive(Drop)]
pub struct Judged {
    pub part: Part,
    pub verdict: Verdict,
    pub lines: String,
}

impl Judged {
    /// A part that holds.
    pub fn holds(alloc: Global, part: Part) -> Judged
        ensures part { result.part ≡ part }
        ensures verdict { result.verdict ≡ verdict.Holds }
    {
        Judged {
            part,
            verdict: Verdict::Holds,
            lines: String::new(alloc),
        }
    }

    /// A part that doesn't hold, with the lines that another command has for that.
    pub fn fails(alloc: Global, part: Part, lines: &str) -> Result<Judged, AllocError>
        ensures part { IfOk result (λ judged. judged.part ≡ part) }
        ensures verdict { IfOk result (λ judged. judged.verdict ≡ verdict.Fails) }
    {
        Ok(Judged {
            part,
            verdict: Verdict::Fails,
            lines: indented(alloc, lines)?,
        })
    }

    /// The same of one that doesn't count.
    pub fn noted(alloc: Global, part: Part, lines: &str) -> Result<Judged, AllocError>
        ensures part { IfOk result (λ judged. judged.part ≡ part) }
        ensures verdict { IfOk result (λ judged. judged.verdict ≡ verdict.Noted) }
    {
        Ok(Judged {
            part,
            verdict: Verdict::Noted,
            lines: indented(alloc, lines)?,
        })
    }
}

/// Lines, each of which stands further in.
fn indented(alloc: Global, lines: &str) -> Result<String, AllocError> {
    let mut text = String::new(alloc);
    for line in lines.lines() {
        text.push_str("  ")?;
        text.push_str(line)?;
        text.push_str("\n")?;
    }
    Ok(text)
}

/// Adds a part to those that were judged.
pub fn add(judged: Judged, told: &mut Vec<Judged>) -> Result<(), AllocError>
    ensures { OnOk result (told.new.items ≡ told.old.items ++ judged ∷ []) }
{
    told.push(judged)?;
    Ok(())
}
