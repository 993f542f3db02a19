//! The names of the runs of a folder.
ghost use Rattle.std.specs.Prelude.{◌≡◌, ◌≢◌, ◌++◌, ◌∷◌, ◌⊎◌, [], ◌↔◌, List, ℕ, IfOk, OnOk, IsTrue, MatchOption, codes, map, string_bytes, Contains};
ghost use Rattle.verify_commands.specs.Runs.{AddsOnce, AddsStem, AreNames, AreRuns, AreStems, IsFileOf};

use std::alloc::{AllocError, Global};

/// The runs of which files have these names: the events, the lines or both of each.
pub fn run_names(alloc: Global, files: &[String]) -> Result<Vec<String>, AllocError>
    ensures { IfOk result (λ runs. AreRuns (map string_bytes files.now) (map string_bytes runs.items)) }
{
    let mut stems = stems_of(alloc, files)?;
    stems.sort()?;
    each_once(alloc, &stems)
}

/// What stands before the endings of names.
fn stems_of(alloc: Global, files: &[String]) -> Result<Vec<String>, AllocError>
    ensures { IfOk result (λ stems. AreStems (map string_bytes files.now) (map string_bytes stems.items)) }
{
    let mut stems = Vec::new(alloc);
    for index in 0..files.len() {
        add_stem(alloc, &files[index], &mut stems)?;
    }
    Ok(stems)
}

/// Adds the run that a file is of, if it is of one.
fn add_stem(alloc: Global, file: &str, stems: &mut Vec<String>) -> Result<(), AllocError>
    ensures { OnOk result (AddsStem file.now (map string_bytes stems.old.items) (map string_bytes stems.new.items)) }
{
    if let Some(stem) = stem_of(file) {
        stems.push(stem.to_string(alloc)?)?;
    }
    Ok(())
}

/// The run that a file is of, by its name.
fn stem_of(file: &str) -> Option<&str>
    ensures { MatchOption result ((name : List ℕ) → ¬ IsFileOf name file.now) (λ stem. IsFileOf stem.now file.now) }
{
    match before(file, ".json") {
        Some(stem) => Some(stem),
        None => before(file, ".txt"),
    }
}

/// What stands before the ending of a text.
fn before<'t>(text: &'t str, ending: &str) -> Option<&'t str>
    ensures { MatchOption result ((name : List ℕ) → text.now ≢ name ++ ending.now) (λ stem. text.now ≡ stem.now ++ ending.now) }
{
    text.strip_suffix(ending)
}

/// Names, each of them once.
fn each_once(alloc: Global, names: &[String]) -> Result<Vec<String>, AllocError>
    ensures { IfOk result (λ once. AreNames (map string_bytes names.now) (map string_bytes once.items)) }
{
    let mut once = Vec::new(alloc);
    for index in 0..names.len() {
        add_once(alloc, &names[index], &mut once)?;
    }
    Ok(once)
}

/// Adds a name that isn't there yet.
fn add_once(alloc: Global, name: &str, names: &mut Vec<String>) -> Result<(), AllocError>
    ensures { OnOk result (AddsOnce name.now (map string_bytes names.old.items) (map string_bytes names.new.items)) }
{
    if !is_among(name, names) {
        names.push(name.to_string(alloc)?)?;
    }
    Ok(())
}

/// Whether a name is one of a list.
fn is_among(name: &str, names: &[String]) -> bool
    ensures { IsTrue result ↔ Contains (map string_bytes names.now) name.now }
{
    for index in 0..names.len() {
        if names[index].as_str() == name {
            return true;
        }
    }
    false
}
