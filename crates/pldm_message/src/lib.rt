//! PLDM messages (DSP0240, DSP0248): their headers, the base commands of termini, requests for parts of records and
//! their answers, and instance IDs. Parts of the standards are those of DSP0240 1.1 and DSP0248 1.2.
#![tactic(auto)]

mod command;
mod completion_code;
mod error_response;
mod fields;
mod get_pdr_answer;
mod get_pdr_request;
mod get_pldm_types;
mod get_tid;
mod head;
mod header;
mod instance;
mod instance_ids;
mod kind;
mod laws;
mod pdr_part;
mod pldm_error;
mod pldm_types;
mod set_tid;
mod tid;
mod transfer;

pub use command::Command;
pub use completion_code::CompletionCode;
pub use error_response::ErrorResponse;
pub use get_pdr_answer::GetPdrAnswer;
pub use get_pdr_request::GetPdrRequest;
pub use get_pldm_types::{GetPldmTypes, GetPldmTypesAnswer};
pub use get_tid::{GetTid, GetTidAnswer};
pub use head::{RequestHead, ResponseHead};
pub use header::{HEADER_LENGTH, PldmHeader, PldmType};
pub use instance::InstanceId;
pub use instance_ids::InstanceIds;
pub use kind::{MessageKind, RequestKind};
pub use laws::one_fault;
pub use pdr_part::PdrPart;
pub use pldm_error::PldmError;
pub use pldm_types::PldmTypes;
pub use set_tid::{SetTid, SetTidAnswer};
pub use tid::Tid;
pub use transfer::{TransferFlag, TransferOperation};
