//! Where files are written.
ghost use Rattle.std.specs.Prelude.{◌≡◌, ◌+◌, ◌∷◌, [], OnErr, OnOk, map};
ghost use Rattle.net_plan.specs.Stream.{failure_count};
ghost use Rattle.step_files.{specs.StepFiles.{file_value}, specs.Writes.{AddsFiles, FilesAccount, MayFail, WritesAll, WritesFirst, WritesNone, writes}};

use crate::texts::TextFile;
use net_plan::Failed;

/// Writes texts, each as a file of its own.
pub trait TextFiles {
    // The files that were written so far, where they are known, and how many writes have failed.
    ghost account: { Self → FilesAccount };

    /// Writes the file at a path, which then has this text. Where that fails, the file may have a beginning of it.
    fn write(&mut self, path: &str, text: &str) -> Result<(), Failed>
        requires { MayFail (account self.old) }
        ensures written { OnOk result (AddsFiles (account self.old).files (account self.new).files (record { path = path.now; text = text.now } ∷ [])) }
        ensures kept { OnErr result (AddsFiles (account self.old).files (account self.new).files []) }
        ensures counts { (account self.new).failures ≡ (account self.old).failures + failure_count result };
}

/// Writes files, one after the other, up to one that can't be written.
#[tactic(auto, using(crate::proofs::Adding::breaks_at))]
pub fn write_files<F: TextFiles>(files: &mut F, texts: &[TextFile]) -> Result<(), Failed>
    requires { MayFail (F.account files.old) }
    ensures written { OnOk result (WritesAll (writes F.account files.old files.new) (map file_value texts.now)) }
    ensures broken { OnErr result (WritesFirst (writes F.account files.old files.new) (map file_value texts.now)) }
{
    for index in 0..texts.len() {
        write_one(files, &texts[index])?;
    }
    Ok(())
}

fn write_one<F: TextFiles>(files: &mut F, text: &TextFile) -> Result<(), Failed>
    requires { MayFail (F.account files.old) }
    ensures written { OnOk result (WritesAll (writes F.account files.old files.new) (file_value text.now ∷ [])) }
    ensures broken { OnErr result (WritesNone (writes F.account files.old files.new)) }
{
    files.write(&text.path, &text.text)
}
