//! What a change from one plan to another does.
#![tactic(auto)]

mod difference;
mod fact;
mod facts;
mod index;
mod lines;
mod run;
mod told;
mod way_lines;
mod ways;

pub use difference::{Difference, differences};
pub use fact::Fact;
pub use facts::facts_of;
pub use run::Diff;
pub use told::changes_told;
pub use ways::{OtherWay, other_ways};
