//! A planned node to which no packet has come yet.
ghost use Rattle.std.specs.Prelude.{◌≡◌, ◌<◌, IfOk, length, None};
ghost use Rattle.emulated_node.{specs.Nodes.{NodeState}, specs.Standing.{HasNodeState, setting_of}};
ghost use Rattle.mctp_control.specs.Devices.{configured_pool, device_value, size_of};
ghost use Rattle.net_tables.specs.Names.{device_kind};
ghost use Rattle.net_sim.specs.AssignmentRuns.{empty, holding, planned_pool, planned_size};
ghost use Rattle.pdr_repository.specs.BlockTermini.{block_tid, block_records};
ghost use Rattle.bus_commands.specs.Starting.{HoldsLawfully, IsStart, device_at_start};

use command_answers::planned_terminus;
use emulated_node::Emulated;
use mctp_control::{Device, EidRange};
use net_check::Checked;
use net_tables::lookup::device_kind;
use pdr_repository::BlockTerminus;
use plan_exports::{planned_entries, range_table};
use plan_values::{Kind, Node};
use std::alloc::{AllocError, Global};

/// A node of a checked plan, with its rows and its terminus as they are planned. Its device holds its planned endpoint
/// ID and its pool, as it was configured with them; or it is as an assignment finds it.
pub fn start<'a>(
    alloc: Global,
    checked: &Checked<'a>,
    node: usize,
    is_configured: bool,
) -> Result<Emulated<'a, BlockTerminus>, AllocError>
    requires { node < length checked.now.0.nodes.items }
    ensures { IfOk result (λ emulated. (s : NodeState) × IsStart is_configured checked.now.0 checked.now.1 node (setting_of emulated) s
        × HasNodeState block_tid block_records emulated s) }
{
    let plan = checked.plan();
    let table = range_table(alloc, plan, node)?;
    let entries = planned_entries(alloc, plan, node)?;
    let terminus = planned_terminus(alloc, plan, checked.certificate(), node)?;
    let planned = &plan.nodes[node];
    let kind = device_kind(planned.kind);
    let device = device_at_start(planned, is_configured);
    Emulated::new(alloc, plan, node, kind, table, entries, device, terminus)
}

/// The device of a node.
fn device_at_start(node: &Node, is_configured: bool) -> Device
    requires { HoldsLawfully node.now }
    ensures { device_value result ≡ device_at_start is_configured node.now }
{
    if is_configured {
        return holding(node);
    }
    match node.owner {
        Some(_) => empty(node),
        None => holding(node),
    }
}

/// A device that was configured with the node's endpoint ID and pool.
fn holding(node: &Node) -> Device
    requires { HoldsLawfully node.now }
    ensures { device_value result ≡ holding node.now None }
{
    Device::configured(device_kind(node.kind), node.eid, range_of(node))
}

/// A device that holds nothing, and wants a pool of the planned size.
fn empty(node: &Node) -> Device
    requires { HoldsLawfully node.now }
    ensures { device_value result ≡ empty node.now }
{
    match node.kind {
        Kind::Bridge => Device::bridge(node.pool.map_or(0, |pool| pool.size)),
        Kind::Endpoint => Device::endpoint(),
    }
}

/// The pool of a node, if it has one.
fn range_of(node: &Node) -> Option<EidRange>
    requires { HoldsLawfully node.now }
    ensures size { size_of result ≡ planned_size node.now.pool }
    ensures pool { configured_pool result ≡ planned_pool node.now.pool None }
    ensures bridge { node.now.kind ≡ Kind.Endpoint → result ≡ None }
{
    let pool = node.pool?;
    EidRange::of(pool.first, pool.size)
}
