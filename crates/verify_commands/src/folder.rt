//! What a folder has of a network, and how it is read.
ghost use Rattle.std.specs.Prelude.{◌≡◌, ◌++◌, ℕ, List, Some, Result, Ok, Err, IfOk, IfErr, MatchResult, codes, map, option_map, string_bytes};
ghost use Rattle.net_plan.specs.declared.stream.TextFault.{TextFault};
ghost use Rattle.verify_commands.specs.Folders.{IsNeeded, IsUnjudged, Reading, path_of, role_of};

use crate::unjudged::{Unjudged, unread};
use net_plan::{PlanError, TextFault};
use std::alloc::{AllocError, Global};

/// The files of a folder.
pub trait FolderFiles {
    // What reading a file gives, by its path in the folder, and what listing the folder `runs` in it gives, as far as
    // that is known.
    ghost reads: { Self → List ℕ → Reading → Type 0 };

    ghost lists: { Self → Result (List (List ℕ)) TextFault → Type 0 };

    /// The bytes of a file, if there is one.
    fn read(&self, alloc: Global, path: &str) -> Result<Option<Vec<u8>>, TextFault>
        ensures { MatchResult result (λ found. reads self.now path.now (Ok (option_map (λ bytes. bytes.items) found)))
            (λ why. reads self.now path.now (Err why)) };

    /// The names of what stands in the folder `runs`, in any order; none where there is no such folder.
    fn list_runs(&self, alloc: Global) -> Result<Vec<String>, TextFault>
        ensures { MatchResult result (λ files. lists self.now (Ok (map string_bytes files.items))) (λ why. lists self.now (Err why)) };
}

/// A text of a folder.
#[derive(Clone, Copy)]
pub enum FolderText<'r> {
    Board,
    Plan,
    Certificate,
    Wanted,
    /// The events of the run of this name.
    Events(&'r str),
    /// The lines that come of them.
    Lines(&'r str),
}

impl FolderText<'_> {
    /// What the program calls the text.
    pub fn role(self) -> &'static str
        ensures { result.now ≡ role_of self.entry }
    {
        match self {
            FolderText::Board => "board",
            FolderText::Plan => "plan",
            FolderText::Certificate => "certificate",
            FolderText::Wanted => "wanted",
            FolderText::Events(_) => "events",
            FolderText::Lines(_) => "lines",
        }
    }

    /// Where it stands in the folder.
    pub fn path(self, alloc: Global) -> Result<String, AllocError>
        ensures { IfOk result (λ path. string_bytes path ≡ path_of self.entry) }
    {
        match self {
            FolderText::Board => "board.toml".to_string(alloc),
            FolderText::Plan => "plan.json".to_string(alloc),
            FolderText::Certificate => "certificate.json".to_string(alloc),
            FolderText::Wanted => "wanted.txt".to_string(alloc),
            FolderText::Events(name) => path_in_runs(alloc, name, ".json"),
            FolderText::Lines(name) => path_in_runs(alloc, name, ".txt"),
        }
    }
}

fn path_in_runs(alloc: Global, name: &str, ending: &str) -> Result<String, AllocError>
    ensures { IfOk result (λ path. string_bytes path ≡ codes "runs/" ++ (name.now ++ ending.now)) }
{
    format!(in alloc; "runs/{name}{ending}")
}

/// The bytes of a text, if the folder has it.
pub fn held_text<F: FolderFiles>(
    alloc: Global,
    folder: &F,
    text: FolderText<'_>,
) -> Result<Option<Vec<u8>>, Unjudged>
    ensures held { IfOk result (λ found. F.reads folder.now (path_of text.entry) (Ok (option_map (λ bytes. bytes.items) found))) }
    ensures unread { IfErr result (IsUnjudged (F.reads folder.now) (F.lists folder.now)) }
{
    let path = text.path(alloc)?;
    match folder.read(alloc, &path) {
        Ok(found) => Ok(found),
        Err(fault) => Err(unread(alloc, text, PlanError::from(fault))),
    }
}

/// The bytes of a text that the folder must have.
pub fn needed_text<F: FolderFiles>(
    alloc: Global,
    folder: &F,
    text: FolderText<'_>,
) -> Result<Vec<u8>, Unjudged>
    requires { IsNeeded text }
    ensures held { IfOk result (λ bytes. F.reads folder.now (path_of text.entry) (Ok (Some bytes.items))) }
    ensures unread { IfErr result (IsUnjudged (F.reads folder.now) (F.lists folder.now)) }
{
    match held_text(alloc, folder, text)? {
        Some(bytes) => Ok(bytes),
        None => Err(unread(alloc, text, PlanError::Device)),
    }
}
