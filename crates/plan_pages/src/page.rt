//! The page: its front with the verdict, and its sections.
ghost use Rattle.std.specs.Prelude.{◌≡◌, ◌++◌, IfOk, codes, string_bytes};
ghost use Rattle.plan_pages.specs.Pages.{TellsVerdict, verdict_text};

use crate::escaping::escaped;
use crate::style::STYLE;
use std::alloc::{AllocError, Global};

/// The page with a title, a verdict of a class, and what stands below it.
pub fn page_of(
    alloc: Global,
    title: &str,
    class: &str,
    verdict: &str,
    body: &str,
) -> Result<String, AllocError>
    ensures { IfOk result (λ page. TellsVerdict class.now verdict.now (string_bytes page)) }
{
    let front = front(alloc, title)?;
    let verdict = verdict_text(alloc, class, verdict)?;
    whole(alloc, &front, &verdict, body)
}

fn front(alloc: Global, title: &str) -> Result<String, AllocError> {
    let title = escaped(alloc, title)?;
    let style = STYLE;
    format!(in alloc;
        "<!DOCTYPE html>\n<html lang=\"en\">\n<head>\n<meta charset=\"utf-8\">\n\
        <meta name=\"viewport\" content=\"width=device-width\">\n<title>{title}</title>\n<style>{style}</style>\n</head>\n\
        <body>\n<h1>{title}</h1>\n"
    )
}

fn verdict_text(alloc: Global, class: &str, verdict: &str) -> Result<String, AllocError>
    ensures { IfOk result (λ text. string_bytes text ≡ verdict_text class.now verdict.now) }
{
    let verdict = escaped(alloc, verdict)?;
    format!(in alloc; "<p class=\"verdict {class}\">{verdict}</p>\n")
}

fn whole(alloc: Global, front: &str, verdict: &str, body: &str) -> Result<String, AllocError>
    ensures { IfOk result (λ page. string_bytes page ≡ front.now ++ (verdict.now ++ (body.now ++ codes "</body>\n</html>\n"))) }
{
    format!(in alloc; "{front}{verdict}{body}</body>\n</html>\n")
}
