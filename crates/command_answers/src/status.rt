//! How a run of the program ends.
ghost use Rattle.std.specs.Prelude.{◌≡◌};

/// How a run of the program ends; the number is its exit status.
#[derive(Clone, Copy, PartialEq, Eq)]
pub enum Status {
    /// The certificate fits the plan, the plan has a certificate, or what was asked for is told.
    Yes = 0,
    /// The plan has a fault, it has no certificate, or the bytes are refused.
    Fault = 1,
    /// The words fit no command, an input can't be read, or the output can't be written.
    Unreadable = 2,
    /// There is too little memory to tell.
    NoMemory = 3,
}

impl Status {
    ghost use Rattle.command_answers.specs.Statuses.{number_of};

    /// The exit status.
    pub fn number(self) -> u8
        ensures { result ≡ number_of self }
    {
        self as u8
    }
}
