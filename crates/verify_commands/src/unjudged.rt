//! Why a folder is not judged.
ghost use Rattle.std.specs.Prelude.{◌≡◌, ◌⊎◌};
ghost use Rattle.verify_commands.{specs.declared.unjudged.Unjudged.TheVariants.{NoMemory}, specs.Folders.{IsFault}};

use crate::folder::FolderText;
use net_plan::PlanError;
use reading_texts::unread_line;
use std::alloc::{AllocError, AllocFailed, Global};

/// Why a folder is not judged.
#[derive(Drop)]
pub enum Unjudged {
    /// A text can't be read: these lines say which, and why.
    Unread(String),
    /// There is too little memory.
    NoMemory,
}

impl From<AllocError> for Unjudged {
    ghost use Rattle.std.specs.Prelude.{◌≡◌};
    ghost use Rattle.verify_commands.specs.declared.unjudged.Unjudged.TheVariants.{NoMemory};

    ghost from_gives = { λ _ why. why ≡ NoMemory };

    fn from(_error: AllocError) -> Unjudged {
        Unjudged::NoMemory
    }
}

impl<T: Drop> From<AllocFailed<T>> for Unjudged {
    ghost use Rattle.std.specs.Prelude.{◌≡◌};
    ghost use Rattle.verify_commands.specs.declared.unjudged.Unjudged.TheVariants.{NoMemory};

    ghost from_gives = { λ _ why. why ≡ NoMemory };

    fn from(_error: AllocFailed<T>) -> Unjudged {
        Unjudged::NoMemory
    }
}

/// A text can't be read: a line in the words of the other commands, and one with its path.
pub fn unread(alloc: Global, text: FolderText<'_>, cause: PlanError) -> Unjudged
    ensures { (result ≡ NoMemory) ⊎ IsFault cause }
{
    match cause {
        PlanError::OutOfMemory => Unjudged::NoMemory,
        cause => told_unread(alloc, text, cause),
    }
}

fn told_unread(alloc: Global, text: FolderText<'_>, cause: PlanError) -> Unjudged {
    match unread_lines(alloc, text, cause) {
        Ok(lines) => Unjudged::Unread(lines),
        // no memory: there was no room for the lines.
        Err(AllocError) => Unjudged::NoMemory,
    }
}

fn unread_lines(
    alloc: Global,
    text: FolderText<'_>,
    cause: PlanError,
) -> Result<String, AllocError> {
    let mut lines = unread_line(alloc, text.role(), cause)?;
    lines.push_str(&text.path(alloc)?)?;
    lines.push_str("\n")?;
    Ok(lines)
}
