//! Why the program gives no answer.
ghost use Rattle.std.{specs.Prelude.{◌≡◌, IfOk, IfErr}, specs.Cow.{cow_str_bytes}};
ghost use Rattle.command_answers.specs.Statuses.{refusal_text, IsReportedFor};

use crate::status::Status;
use net_plan::PlanError;
use reading_texts::unread_line;
use std::alloc::{AllocError, Global};
use std::borrow::CowStr;
use std::io;

/// A file that the program reads.
#[derive(Clone, Copy, PartialEq, Eq)]
pub enum Input {
    Plan,
    Certificate,
    Events,
    Lines,
}

/// Why the program gives no answer on standard output.
#[derive(Clone, Copy, PartialEq, Eq)]
pub enum Refused {
    /// The words fit no command.
    Usage,
    /// A file can't be read, and the cause says why. Out of memory is no such cause: `NoMemory` tells it.
    Unreadable { input: Input, cause: PlanError },
    /// The plan has no node of the name, or none with a terminus where one is asked for.
    UnknownNode,
    /// A hex text is no hex: an odd number of digits, or a character that is none.
    UnreadableHex,
    /// The records of a terminus have more bytes than a walk collects.
    TooMuch,
    /// Standard output failed; a beginning of the answer may be out.
    Unwritten,
    /// There is too little memory to tell.
    NoMemory,
}

impl Refused {
    ghost use Rattle.command_answers.specs.Statuses.{refused_at, status_of};

    /// Why there is no answer, where reading an input ended in an error.
    pub fn at_input(input: Input, error: PlanError) -> Refused
        ensures { result ≡ refused_at input error }
    {
        match error {
            PlanError::OutOfMemory => Refused::NoMemory,
            cause => Refused::Unreadable { input, cause },
        }
    }

    /// How the run ends.
    pub fn status(self) -> Status
        ensures { result ≡ status_of self }
    {
        match self {
            Refused::Usage
            | Refused::Unreadable { .. }
            | Refused::UnknownNode
            | Refused::UnreadableHex
            | Refused::TooMuch
            | Refused::Unwritten => Status::Unreadable,
            Refused::NoMemory => Status::NoMemory,
        }
    }
}

impl From<AllocError> for Refused {
    ghost use Rattle.command_answers.specs.declared.refused.Refused.TheVariants.{NoMemory};

    ghost from_gives = { λ _ refused. refused ≡ NoMemory };

    fn from(_error: AllocError) -> Refused {
        Refused::NoMemory
    }
}

/// The words that the process was started with can't be read: there is no memory for them, or one is not UTF-8.
impl From<io::Error> for Refused {
    fn from(error: io::Error) -> Refused {
        match error.kind() {
            io::ErrorKind::OutOfMemory => Refused::NoMemory,
            _ => Refused::Usage,
        }
    }
}

/// What is said where there is too little memory, also too little for any other line.
pub const NO_MEMORY: &str = "no memory\n";

/// Why there is no answer. Only the line of an input that can't be read takes memory.
pub fn refusal_line(alloc: Global, refused: Refused) -> Result<CowStr<'static>, AllocError>
    ensures line { IfOk result (λ line. cow_str_bytes line ≡ refusal_text refused) }
    ensures lacks { IfErr result (λ _. IsReportedFor refused Refused.NoMemory) }
{
    match refused {
        Refused::Usage => Ok(CowStr::Borrowed("usage\n")),
        Refused::Unreadable { input, cause } => {
            let line = unread_line(alloc, input.role(), cause)?;
            Ok(CowStr::Owned(line))
        }
        Refused::UnknownNode => Ok(CowStr::Borrowed("unreadable node: J06\n")),
        Refused::UnreadableHex => Ok(CowStr::Borrowed("unreadable hex: J07\n")),
        Refused::TooMuch => Ok(CowStr::Borrowed("unreadable walk: G09\n")),
        Refused::Unwritten => Ok(CowStr::Borrowed("unreadable output: file\n")),
        Refused::NoMemory => Ok(CowStr::Borrowed(NO_MEMORY)),
    }
}

impl Input {
    ghost use Rattle.command_answers.specs.Statuses.{role_of};

    /// What the program calls the file.
    pub fn role(self) -> &'static str
        ensures { result.now ≡ role_of self }
    {
        match self {
            Input::Plan => "plan",
            Input::Certificate => "certificate",
            Input::Events => "events",
            Input::Lines => "lines",
        }
    }
}
