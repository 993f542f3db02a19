//! Whether a checked plan is fit for a board.
ghost use Rattle.std.specs.Prelude.{OnOk};
ghost use Rattle.toml.specs.View.{view};
ghost use Rattle.net_reached.specs.Wishes.{ReachesNode};
ghost use Rattle.board_kept.specs.Made.{AsksFor, ReachesAllAsked, AllReachAsked, IsFitFor};

use crate::asked::asks_for;
use crate::kept::keeps;
use crate::unfit::Unfit;
use board::RecordFile;
use net_check::Checked;
use net_reached::reaches;
use std::alloc::Global;
use toml::Value;

/// That a checked plan has all that a board gives, and that every node reaches those for which the board asks.
pub fn judge(
    alloc: Global,
    files: &[RecordFile],
    board: &Value,
    checked: &Checked,
) -> Result<(), Unfit>
    ensures { OnOk result (IsFitFor files.now (view board.now) checked.now.0 checked.now.1) }
{
    if !keeps(alloc, files, board, checked.plan())? {
        return Err(Unfit::NotKept);
    }
    judge_all(alloc, board, checked)
}

/// That every node reaches those for which the board asks.
fn judge_all(alloc: Global, board: &Value, checked: &Checked) -> Result<(), Unfit>
    ensures { OnOk result (AllReachAsked (view board.now) checked.now.0) }
{
    for from in 0..checked.plan().nodes.len() {
        judge_from(alloc, board, checked, from)?;
    }
    Ok(())
}

/// That a node reaches those for which the board asks.
fn judge_from(alloc: Global, board: &Value, checked: &Checked, from: usize) -> Result<(), Unfit>
    ensures { OnOk result (ReachesAllAsked (view board.now) checked.now.0 from) }
{
    for to in 0..checked.plan().nodes.len() {
        judge_asked(alloc, board, checked, from, to)?;
    }
    Ok(())
}

/// That a node reaches another, if the board asks for it.
fn judge_asked(
    alloc: Global,
    board: &Value,
    checked: &Checked,
    from: usize,
    to: usize,
) -> Result<(), Unfit>
    ensures { OnOk result (AsksFor (view board.now) checked.now.0 from to → ReachesNode checked.now.0 from to) }
{
    if !asks_for(board, checked.plan(), from, to) {
        return Ok(());
    }
    judge_pair(alloc, checked, from, to)
}

/// That a node reaches another.
pub fn judge_pair(alloc: Global, checked: &Checked, from: usize, to: usize) -> Result<(), Unfit>
    ensures { OnOk result (ReachesNode checked.now.0 from to) }
{
    if reaches(alloc, checked, from, to)? {
        Ok(())
    } else {
        Err(Unfit::Unreached { from, to })
    }
}
