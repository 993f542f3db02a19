//! Packets for the node, and the messages that come with them.
ghost use Rattle.std.specs.Prelude.{◌≡◌, ◌<◌, ℕ, IfOk, length};
ghost use Rattle.mctp_transport.{specs.Heard.{heard_answer}, specs.Hearing.{Hears}, specs.Histories.{History}, specs.Packets.{packet_value_of}};
ghost use Rattle.emulated_node.specs.Heard.{AreSized, HaveBeenGiven, with_arrival};

use mctp_transport::{Assembler, Heard, PacketView, hear};
use std::alloc::{AllocError, Global};

/// Gives a packet to the assembler of the bus over which it came. A message that comes is copied.
pub fn hear_over(
    alloc: Global,
    assemblers: &mut Vec<Assembler>,
    bus: usize,
    packet: PacketView,
) -> Result<Heard, AllocError>
    requires bus { bus < length assemblers.old.items }
    requires sized { AreSized assemblers.old.items }
    ensures many { length assemblers.new.items ≡ length assemblers.old.items }
    ensures sized { AreSized assemblers.new.items }
    ensures hears { IfOk result (λ heard. (history : ℕ → History) → HaveBeenGiven assemblers.old.items history
        → Hears 16 4096 (history bus) (packet_value_of packet.entry) (heard_answer heard)) }
    ensures given { (history : ℕ → History) → HaveBeenGiven assemblers.old.items history
        → HaveBeenGiven assemblers.new.items (with_arrival history bus (packet_value_of packet.entry)) }
{
    hear(alloc, &mut assemblers[bus], packet)
}
