//! What going from one entry of a capture to the next keeps.
ghost use Rattle.heard_captures.specs.Steps.{SeesOneMore};

/// What became of one entry more. The function does nothing: its contract is the law.
#[tactic(auto, using(crate::proofs::SeenLaws::one_more))]
pub fn one_entry_more()
    ensures { SeesOneMore }
{}
