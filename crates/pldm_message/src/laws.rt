//! Laws that hold of all messages. The functions do nothing: their contracts are the laws.
ghost use Rattle.std.specs.Prelude.{◌≡◌, ℕ, List, Option};
ghost use Rattle.pldm_message.{specs.declared.command.Command.{Command}, specs.declared.pldm_error.PldmError.{PldmError}, specs.Faults.{MessageFault, IsRequestOf, IsAnswerOf}};

/// Any bytes have one first fault at most, whether they are read as a request or as an answer.
#[tactic(auto, using(crate::proofs::FirstFaults::same_fault))]
pub fn one_fault()
    ensures request { (c : Command) (long : ℕ) (bytes : List ℕ) (e f : Option PldmError) → MessageFault (IsRequestOf c bytes) long bytes e → MessageFault (IsRequestOf c bytes) long bytes f → e ≡ f }
    ensures answer { (c : Command) (long : ℕ) (bytes : List ℕ) (e f : Option PldmError) → MessageFault (IsAnswerOf c bytes) long bytes e → MessageFault (IsAnswerOf c bytes) long bytes f → e ≡ f }
{}
