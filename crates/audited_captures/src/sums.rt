//! The numbers of an audit's last line.
ghost use Rattle.std.specs.Prelude.{◌≡◌, IfOk, string_bytes};
ghost use Rattle.audited_captures.specs.Sums.{sum_words};

use std::alloc::{AllocError, Global};

/// What an audit has seen, in numbers.
#[derive(Clone, Copy, Debug)]
pub struct Sum {
    /// The nodes of the plan of which something that they said was laid beside it.
    pub compared: usize,
    /// All nodes of the plan.
    pub nodes: usize,
    /// The packets of the capture.
    pub packets: usize,
    /// The entries that should be packets and are none.
    pub refused: usize,
}

/// The numbers in words, as they end the last line.
pub fn sum_words(alloc: Global, sum: Sum) -> Result<String, AllocError>
    ensures { IfOk result (λ words. string_bytes words ≡ sum_words sum) }
{
    let Sum {
        compared,
        nodes,
        packets,
        refused,
    } = sum;
    format!(in alloc; ": {compared} of {nodes} nodes, {packets} packets, {refused} refused\n")
}
