//! What a walker has collected is told.

use crate::network::Network;
use crate::outcome::Outcome;
use crate::walk_refusal::WalkRefusal;
use pdr_repository::Terminus;

impl<'a, T: Terminus> Network<'a, T> {
    ghost use Rattle.net_runs.specs.Walkers.{TellWalk};
    ghost use Rattle.net_sim.specs.Networks.{HasOutcome};

    /// Tells how many records the walker of this number has collected, and how its walk stands.
    pub(super) fn tell(&self, number: usize) -> Outcome
        ensures { HasOutcome T.tid T.records self.now (TellWalk number) result self.now }
    {
        let Some(index) = self.index_of(number) else {
            return Outcome::Refused(WalkRefusal::NoWalker);
        };
        let walker = &self.walkers[index];
        Outcome::Collected {
            walker: index + 1,
            records: walker.records().len(),
            standing: walker.standing(),
        }
    }
}
