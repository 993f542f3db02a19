//! What the commands of `mctpplan` have in common: why there is no answer, how a run ends, what files give, what names
//! stand for, answers that several commands give, and how an answer is told.
#![tactic(auto)]

mod answer;
mod bytes_answer;
mod certify;
mod command;
mod faults;
mod files;
mod gathered;
mod inputs;
mod known;
mod naming;
mod refused;
mod repositories;
mod status;
mod termini;
mod unread_texts;

pub use answer::{Answer, YES, give, print, refuse, tell, tell_made};
pub use bytes_answer::{BytesAnswer, tell_bytes};
pub use certify::{accepted, certificate_of_plan, others_of};
pub use command::{Command, Reads, run_command};
pub use faults::{fault_answer, fault_text, move_fault_answer};
pub use files::{
    Beside, ByteFile, CertificateFile, Certified, EventFile, LineFile, PlanFile, Plans, Then,
    plan_and_certificate, two_plans,
};
pub use gathered::Gathered;
pub use inputs::{
    PlanText, Unread, certificate_or_text, given_events, given_lines, given_plan, given_plan_text,
    plan_or_text, read_inputs, read_move, read_plans, read_texts, without_text,
};
pub use known::run_known;
pub use naming::ends::{eid_of_word, named_ends};
pub use naming::first_named;
pub use naming::terminus::named_terminus;
pub use refused::{Input, Refused};
pub use repositories::records_by_place;
pub use status::Status;
pub use termini::{planned_network, planned_terminus};
pub use unread_texts::{unread_answer, unread_text};
