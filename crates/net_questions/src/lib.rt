//! Questions about a plan: who reaches whom and by which way, where it is checked, and what is lawful and looks wrong.
#![tactic(auto)]

mod code;
mod finding;
mod hops;
mod laws;
mod linting;
mod lints;
mod lookup;
mod pair;
mod reaching;
mod step;
mod way;

pub use finding::Finding;
pub use laws::{packets_keep_to_their_ways, ways_are_alone, ways_reach};
pub use linting::lint;
pub use pair::Pair;
pub use reaching::reach;
pub use step::WayStep;
pub use way::{End, Way, follow};
