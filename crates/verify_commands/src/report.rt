//! What is told of parts that were judged.
ghost use Rattle.std.specs.Prelude.{◌≡◌, IfOk, string_bytes, length};
ghost use Rattle.verify_commands.specs.Reports.{failed_count, last_line, name_of, part_text, parts_text, report_text, word_of};

use crate::parts::{Judged, Part, Verdict};
use std::alloc::{AllocError, Global};
use std::borrow::CowStr;

/// A line for each part, with those that say why it doesn't hold, and one that counts the parts.
pub fn report_of(alloc: Global, told: &[Judged], failed: usize) -> Result<String, AllocError>
    requires { failed ≡ failed_count told.now }
    ensures { IfOk result (λ text. string_bytes text ≡ report_text told.now) }
{
    let mut text = parts_text(alloc, told)?;
    text.push_str(&last_line(alloc, told.len(), failed)?)?;
    Ok(text)
}

fn parts_text(alloc: Global, told: &[Judged]) -> Result<String, AllocError>
    ensures { IfOk result (λ text. string_bytes text ≡ parts_text told.now) }
{
    let mut text = String::new(alloc);
    for judged in told {
        text.push_str(&part_text(alloc, judged)?)?;
    }
    Ok(text)
}

fn part_text(alloc: Global, judged: &Judged) -> Result<String, AllocError>
    ensures { IfOk result (λ text. string_bytes text ≡ part_text judged.now) }
{
    let name = name_of(alloc, &judged.part)?;
    let word = word_of(judged.verdict);
    let lines = &judged.lines;
    format!(in alloc; "{name} {word}\n{lines}")
}

fn name_of(alloc: Global, part: &Part) -> Result<String, AllocError>
    ensures { IfOk result (λ name. string_bytes name ≡ name_of part.now) }
{
    match part {
        Part::Board => "board".to_string(alloc),
        Part::Check => "check".to_string(alloc),
        Part::Faults => "faults".to_string(alloc),
        Part::Lint => "lint".to_string(alloc),
        Part::Require => "require".to_string(alloc),
        Part::Run(name) => format!(in alloc; "run {name}"),
    }
}

fn word_of(verdict: Verdict) -> &'static str
    ensures { result.now ≡ word_of verdict }
{
    match verdict {
        Verdict::Holds => "ok",
        Verdict::Noted => "noted",
        Verdict::Fails => "failed",
    }
}

fn last_line(alloc: Global, count: usize, failed: usize) -> Result<String, AllocError>
    ensures { IfOk result (λ line. string_bytes line ≡ last_line count failed) }
{
    if failed == 0 {
        format!(in alloc; "verified {count}\n")
    } else {
        format!(in alloc; "failed {failed} of {count}\n")
    }
}

/// How many parts fail.
pub fn failed_count(told: &[Judged]) -> usize
    ensures { result ≡ failed_count told.now }
{
    let mut failed = 0;
    for judged in told {
        if judged.verdict == Verdict::Fails {
            failed += 1;
        }
    }
    failed
}
