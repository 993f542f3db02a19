//! Lines that are gathered, so that many are written at once.
ghost use Rattle.std.{specs.Prelude.{◌≡◌, ◌++◌, [], OnOk, OnErr, IfErr, string_bytes}, specs.Io.KnownBytes.{Appends}};
ghost use Rattle.net_plan.specs.Stream.{HasRoom, HasFailed, AppendsBeginning};
ghost use Rattle.command_answers.{specs.declared.refused.Refused.TheVariants.{Unwritten}, specs.Gathering.{AppendsAllBut}};

use crate::answer::print;
use crate::refused::Refused;
use net_plan::Sink;
use std::alloc::Global;

/// How many bytes are gathered at least before they are written.
const ENOUGH: usize = 8192;

/// Whole lines that wait to be written.
#[derive(Drop)]
pub struct Gathered {
    lines: String,
}

impl Gathered {
    /// No line waits.
    pub fn new(alloc: Global) -> Gathered
        ensures { string_bytes result.lines ≡ [] }
    {
        Gathered {
            lines: String::new(alloc),
        }
    }

    /// Adds a line, and writes all that wait where they are enough. Where there is no memory for it to wait, it is
    /// written.
    pub fn add<O: Sink>(&mut self, line: &str, output: &mut O) -> Result<(), Refused>
        requires { HasRoom (O.account output.old) }
        ensures added { OnOk result (AppendsAllBut (string_bytes self.new.lines) (O.account output.old).bytes (O.account output.new).bytes
            (string_bytes self.old.lines ++ line.now)) }
        ensures unwritten { IfErr result (λ refused. refused ≡ Unwritten) }
        ensures beginning { OnErr result (AppendsBeginning (O.account output.old).bytes (O.account output.new).bytes (string_bytes self.old.lines ++ line.now)) }
        ensures fails { OnErr result (HasFailed (O.account output.old) (O.account output.new) 1) }
        ensures kept { OnOk result ((O.account output.new).failures ≡ (O.account output.old).failures) }
    {
        if self.lines.push_str(line).is_err() {
            self.write(output)?;
            return print(output, line);
        }
        if self.lines.len() < ENOUGH {
            return Ok(());
        }
        self.write(output)
    }

    /// Writes all lines that wait.
    pub fn write<O: Sink>(&mut self, output: &mut O) -> Result<(), Refused>
        requires { HasRoom (O.account output.old) }
        ensures written { OnOk result (Appends (O.account output.old).bytes (O.account output.new).bytes (string_bytes self.old.lines)) }
        ensures none_waits { OnOk result (string_bytes self.new.lines ≡ []) }
        ensures unwritten { IfErr result (λ refused. refused ≡ Unwritten) }
        ensures beginning { OnErr result (AppendsBeginning (O.account output.old).bytes (O.account output.new).bytes (string_bytes self.old.lines)) }
        ensures fails { OnErr result (HasFailed (O.account output.old) (O.account output.new) 1) }
        ensures kept { OnOk result ((O.account output.new).failures ≡ (O.account output.old).failures) }
    {
        print(output, &self.lines)?;
        self.lines.clear();
        Ok(())
    }
}
