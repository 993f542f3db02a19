//! A law of edits that were tried. The function does nothing: its contract is the law.
ghost use Rattle.net_explained.specs.Obstacles.{EditsTakeFaultsAway};

/// After an edit that was tried on a fault, the plan has neither that fault nor one that comes before it, whatever else
/// is left of it.
pub fn tried_edits_take_faults_away()
    ensures { EditsTakeFaultsAway }
{}
