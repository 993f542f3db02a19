//! What the commands of `mctpplan` are asked: the questions that words stand for, and where the files of a board are
//! read.
#![tactic(auto)]

mod certified;
mod drawn_rows;
mod emulation;
mod exports;
mod flights;
mod form;
mod make_files;
mod part_size;
mod planned;
mod record_files;
mod walk_script;
mod words;

pub use certified::{CertifiedJson, Question};
pub use drawn_rows::DrawnRows;
pub use emulation::{Emulation, LineForm};
pub use exports::{Export, ExportKind};
pub use flights::Flights;
pub use form::Form;
pub use make_files::MakeFiles;
pub use part_size::PartSize;
pub use planned::{PlanJson, PlanQuestion};
pub use record_files::RecordFiles;
pub use walk_script::WalkScript;
pub use words::{ShownKind, WordQuestion};
