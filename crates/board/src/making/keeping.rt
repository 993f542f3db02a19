//! Keeping the endpoint IDs and pools of an earlier plan where the board leaves them open.
use super::eids::{
    FIRST, Known, LAST, choose_rest, is_eid_free, is_short, known_at, level_of, owned_range,
    owner_of,
};
use super::pools::{Runs, can_be_pool, has_run, is_below, is_wanted, open_size};
use super::ways::{Net, is_reached};
use super::{MadePool, NoPlan, covers, is_given};
use crate::board::{Board, BoardNode, BoardPool};
use plan_values::{Node, Plan};
use std::alloc::{AllocError, Global};

/// For what numbers are kept.
#[derive(Clone, Copy)]
pub struct Keeping<'k> {
    pub alloc: Global,
    pub board: &'k Board,
    pub net: &'k Net,
    pub runs: Runs,
    /// What the board gives.
    pub given: &'k [Known],
}

impl<'k> Keeping<'k> {
    /// What is given, what stays of an earlier plan, and what is chosen for the rest. Where an owner has no room for
    /// that, the numbers of its nodes give way, and then those of all nodes below it.
    pub fn kept_of(&self, old: &Plan) -> Result<Vec<Known>, NoPlan> {
        let all = wishes_of(self.alloc, self.board, old)?;
        let mut wishes = Vec::from_slice(self.alloc, &all)?;
        for _ in 0..self.board.nodes.len().saturating_mul(2) {
            match self.kept_with(&wishes) {
                Ok(known) => return self.kept_in_turn(&all, wishes, known),
                Err(why) => {
                    if !give_way(self.board, &mut wishes, why) {
                        return Err(why);
                    }
                }
            }
        }
        choose_rest(self.alloc, self.board, self.net, self.runs, self.given)
    }

    /// What is given, which of the wishes stay, and what is chosen for the rest.
    fn kept_with(&self, wishes: &[Known]) -> Result<Vec<Known>, NoPlan> {
        let mut known = Vec::from_slice(self.alloc, self.given)?;
        for level in 0..self.board.nodes.len() {
            self.keep_level(wishes, &mut known, level)?;
        }
        choose_rest(self.alloc, self.board, self.net, self.runs, &known)
    }

    /// What is known where the wishes that gave way are tried one by one, outer owners first, then in the order of the
    /// nodes: each stays if there is room for the rest.
    fn kept_in_turn(
        &self,
        all: &[Known],
        wishes: Vec<Known>,
        known: Vec<Known>,
    ) -> Result<Vec<Known>, NoPlan> {
        let mut wishes = wishes;
        let mut best = known;
        for level in 0..self.board.nodes.len() {
            for (index, wish) in all.iter().enumerate() {
                if wish.level == level {
                    let eid = wish.eid;
                    let own = known_at(&wishes, index);
                    self.try_wish(&mut wishes, &mut best, index, Known { eid, ..own })?;
                    let pool = wish.pool;
                    let own = known_at(&wishes, index);
                    self.try_wish(&mut wishes, &mut best, index, Known { pool, ..own })?;
                }
            }
        }
        Ok(best)
    }

    fn try_wish(
        &self,
        wishes: &mut Vec<Known>,
        best: &mut Vec<Known>,
        index: usize,
        wish: Known,
    ) -> Result<(), NoPlan> {
        let before = known_at(wishes, index);
        if index >= wishes.len() || count_of(wish) == count_of(before) {
            return Ok(());
        }
        wishes[index] = wish;
        match self.kept_with(wishes) {
            Ok(known) => *best = known,
            Err(why) if is_short(why) => wishes[index] = before,
            Err(why) => return Err(why),
        }
        Ok(())
    }

    /// Makes known what stays of the nodes of a level, in their order, and then where the other pools are, so that most
    /// of what is wished below them can stay.
    fn keep_level(
        &self,
        wishes: &[Known],
        known: &mut Vec<Known>,
        level: usize,
    ) -> Result<(), AllocError> {
        for (index, wish) in wishes.iter().enumerate() {
            if wish.level == level {
                self.keep_eid(known, index, wish.eid)?;
                self.keep_pool(known, index, wish.pool);
            }
        }
        for (index, node) in self.board.nodes.iter().enumerate() {
            if known_at(known, index).level == level {
                self.keep_below(wishes, known, index, node.pool);
            }
        }
        Ok(())
    }

    /// Keeps an endpoint ID that is the owner's to give, is free, and is reached by those that are to reach the node.
    fn keep_eid(
        &self,
        known: &mut Vec<Known>,
        index: usize,
        wish: Option<u8>,
    ) -> Result<(), AllocError> {
        if let Some(eid) = wish {
            let can_stay = self.is_led(index, eid)? && can_be_eid(self.board, known, index, eid);
            if can_stay && index < known.len() {
                known[index].eid = wish;
            }
        }
        Ok(())
    }

    /// Whether no given row keeps an endpoint ID from those that are to reach the node.
    fn is_led(&self, index: usize, eid: u8) -> Result<bool, AllocError> {
        if !is_given(self.board, eid) {
            return Ok(true);
        }
        is_reached(self.alloc, self.board, self.net, index, eid)
    }

    /// Keeps a pool that is the owner's to give and is free.
    fn keep_pool(&self, known: &mut Vec<Known>, index: usize, wish: Option<MadePool>) {
        if let Some(run) = wish {
            let is_wanted = is_wanted(self.board, run, self.runs);
            if is_wanted && can_be_pool(self.board, known, index, run) && index < known.len() {
                known[index].pool = wish;
            }
        }
    }

    /// Chooses a pool that doesn't stay where it has most of what is wished below it, if it can have any of that.
    fn keep_below(
        &self,
        wishes: &[Known],
        known: &mut Vec<Known>,
        index: usize,
        given: Option<BoardPool>,
    ) {
        if let Some(size) = open_size(known_at(known, index), given) {
            let run = best_run(self.board, wishes, known, index, size);
            if run.is_some() && index < known.len() {
                known[index].pool = run;
            }
        }
    }
}

/// What an earlier plan has of each node, where the board leaves it open.
fn wishes_of(alloc: Global, board: &Board, old: &Plan) -> Result<Vec<Known>, AllocError> {
    let mut wishes = Vec::new(alloc);
    for (index, node) in board.nodes.iter().enumerate() {
        let before = node_named(old, node.name.as_str());
        wishes.push(Known {
            eid: eid_before(node, before),
            pool: pool_before(node, before),
            level: level_of(board, index),
        })?;
    }
    Ok(wishes)
}

/// The node of a plan of this name.
pub fn node_named<'p>(plan: &'p Plan, name: &str) -> Option<&'p Node> {
    for node in &plan.nodes {
        if node.name.text.as_str() == name {
            return Some(node);
        }
    }
    None
}

fn eid_before(node: &BoardNode, before: Option<&Node>) -> Option<u8> {
    match node.eid {
        Some(_) => None,
        None => Some(before?.eid.value),
    }
}

/// A pool that begins where it did, and has the size that the board gives.
fn pool_before(node: &BoardNode, before: Option<&Node>) -> Option<MadePool> {
    match node.pool {
        Some(BoardPool::Size(size)) => Some(MadePool {
            first: before?.pool?.first.value,
            size,
        }),
        _ => None,
    }
}

/// How many numbers are wished for a node.
fn count_of(wish: Known) -> usize {
    usize::from(wish.eid.is_some()) + usize::from(wish.pool.is_some())
}

/// Drops the wishes of the nodes of the owner who has no room, or, where these have none, of all nodes below it. Tells
/// whether there were any.
fn give_way(board: &Board, wishes: &mut Vec<Known>, why: NoPlan) -> bool {
    let (NoPlan::NoEid { owner, .. } | NoPlan::NoRun { owner, .. }) = why else {
        return false;
    };
    let mut were_some = false;
    for index in 0..wishes.len() {
        if owner_of(board, index) == owner {
            were_some = drop_wish(wishes, index) || were_some;
        }
    }
    if were_some {
        return true;
    }
    for index in 0..wishes.len() {
        if stands_below(board, index, owner) {
            were_some = drop_wish(wishes, index) || were_some;
        }
    }
    were_some
}

/// Drops the wishes of a node, and tells whether there were any.
fn drop_wish(wishes: &mut Vec<Known>, index: usize) -> bool {
    let Some(wish) = wishes.get_mut(index) else {
        return false;
    };
    let are_some = count_of(*wish) > 0;
    wish.eid = None;
    wish.pool = None;
    are_some
}

/// Whether a node stands below an owner; each does where there is none.
fn stands_below(board: &Board, node: usize, owner: Option<usize>) -> bool {
    match owner {
        Some(owner) => is_below(board, node, owner),
        None => true,
    }
}

fn can_be_eid(board: &Board, known: &[Known], index: usize, eid: u8) -> bool {
    let owner = owner_of(board, index);
    let Ok((first, last)) = owned_range(known, index, owner) else {
        return false;
    };
    first <= eid && eid <= last && is_eid_free(board, known, owner, eid)
}

/// The first run that can be a node's pool and has most of what is wished below it, and of those that have as much the
/// one with the least of what is wished elsewhere. None where no run has any.
fn best_run(
    board: &Board,
    wishes: &[Known],
    known: &[Known],
    index: usize,
    size: u8,
) -> Option<MadePool> {
    let mut best = None;
    let mut most = 0;
    let mut least = 0;
    for first in FIRST..=LAST {
        let run = MadePool { first, size };
        let (below, elsewhere) = wished_in(board, wishes, index, run);
        let is_better = below > most || (below == most && elsewhere < least);
        if below > 0 && is_better && can_be_pool(board, known, index, run) {
            best = Some(run);
            most = below;
            least = elsewhere;
        }
    }
    best
}

/// How many of the wished endpoint IDs and pools a run has: of the nodes below a node, and of the others.
fn wished_in(board: &Board, wishes: &[Known], index: usize, run: MadePool) -> (usize, usize) {
    let mut below = 0usize;
    let mut elsewhere = 0usize;
    for (other, wish) in wishes.iter().enumerate() {
        let count = wishes_in(wish, run);
        if count > 0 && is_below(board, other, index) {
            below = below.saturating_add(count);
        } else if other != index {
            elsewhere = elsewhere.saturating_add(count);
        }
    }
    (below, elsewhere)
}

/// How many of a node's wishes a run has.
fn wishes_in(wish: &Known, run: MadePool) -> usize {
    let has_eid = match wish.eid {
        Some(eid) => covers(run.first, run.size, eid),
        None => false,
    };
    let has_pool = match wish.pool {
        Some(pool) => has_run(run, pool),
        None => false,
    };
    usize::from(has_eid) + usize::from(has_pool)
}
