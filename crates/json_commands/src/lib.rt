//! The commands of `mctpplan` that answer in JSON, for programs: `explain`, `faults`, `lint`, `reach` and `trace`. Of
//! faults there is a log in SARIF 2.1.0 too, which CI jobs take.
#![tactic(auto)]

mod certified;
mod edits;
mod explained;
mod faults;
mod findings;
mod lists;
mod noted;
mod notes;
mod places;
mod planned;
mod reports;
mod said;
mod unread;
mod ways;

pub use certified::run_certified_json;
pub use command_questions::{CertifiedJson, Form, PlanJson};
pub use planned::run_planned_json;
