//! The commands of `mctpplan` that explain what is wrong, and mend it: `explain` and `fix`.
#![tactic(auto)]

mod explain;
mod fix;

pub use explain::certified::run_explain_certified;
pub use explain::events::run_explain_events;
pub use explain::moved::run_explain_move;
pub use explain::run_explain;
pub use fix::run_fix;
