//! Where the files of a board are read.
ghost use Rattle.std.specs.Prelude.{ℕ, List, IfOk};

use net_plan::TextFault;
use std::alloc::Global;

/// Files that the records of a board name.
pub trait RecordFiles {
    // What the files hold, by their names, as far as that is known.
    ghost holds: { Self → List ℕ → List ℕ → Type 0 };

    /// The bytes of a file, if they are no more than a record has.
    fn read(&self, alloc: Global, name: &str) -> Result<Vec<u8>, TextFault>
        ensures { IfOk result (λ bytes. holds self.now name.now bytes.items) };
}
