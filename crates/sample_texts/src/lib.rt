//! Texts of networks that the crates of tests share, changes of texts, and marks around calls whose growths are
//! refused.
#![tactic(auto)]

pub mod certificates;
pub mod marks;
pub mod riser;
pub mod two_ways;

use std::alloc::Global;
use std::test::Fail;

/// Texts, each with what is put in its place.
pub type Changes = &'static [(&'static str, &'static str)];

/// A text with these changes, each of which it must have something for.
pub fn edited(alloc: Global, text: &str, changes: &[(&str, &str)]) -> Result<String, Fail> {
    let mut text = String::from_str(alloc, text)?;
    for (from, to) in changes {
        if !text.as_str().contains(*from) {
            return Err(Fail::new("nothing to change"));
        }
        text = text.as_str().replacen(alloc, *from, *to, 1)?;
    }
    Ok(text)
}
