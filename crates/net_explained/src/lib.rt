//! Why a plan breaks a rule: what is wrong at the spot, and who else is involved; which edits take that away; and the
//! most hops that a certificate allows.
#![tactic(auto)]

mod candidates;
mod cause;
mod causes;
mod circle;
mod edit;
mod finding;
mod holders;
mod hops;
mod laws;
mod order;
mod trial;

pub use cause::Cause;
pub use circle::circle_from;
pub use edit::{Change, Edit, edited};
pub use finding::find_cause;
pub use hops::{MostHops, most_hops, rank_of};
pub use laws::tried_edits_take_faults_away;
pub use trial::{Tried, tried_edits};
