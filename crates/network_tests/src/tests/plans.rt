//! The riser network's plan.
use mctp_transport::Eid;
use plan_values::{Kind, Node, Plan, Pool, Row};

fn row(first: u8, size: u8, port: u8, next: usize) -> Row {
    Row {
        first: Eid::new(first),
        size,
        port,
        next,
    }
}

/// Whether a node has these ports, each a bus and an address.
fn has_ports(node: &Node, wanted: &[(usize, &[u8])]) -> bool {
    for (port, (bus, address)) in node.ports.iter().zip(wanted) {
        if port.bus != *bus || port.address.as_slice() != *address {
            return false;
        }
    }
    node.ports.len() == wanted.len()
}

/// Whether a node's terminus has this terminus ID and one record, of this handle, next handle and bytes.
fn has_one_record(node: &Node, tid: u8, handle: u32, next: u32, bytes: &[u8]) -> bool {
    let Some(terminus) = &node.terminus else {
        return false;
    };
    for record in &terminus.records {
        if record.handle != handle || record.next != next || record.bytes.as_slice() != bytes {
            return false;
        }
    }
    terminus.tid == tid && terminus.records.len() == 1
}

fn is_the_riser(node: &Node) -> bool {
    let pool = Pool {
        first: Eid::new(17),
        size: 7,
    };
    let rows = [row(8, 1, 0, 0), row(17, 1, 1, 2), row(18, 1, 1, 3)];
    node.name.text.as_str() == "riser"
        && node.kind == Kind::Bridge
        && node.eid.value == 16
        && node.owner == Some(0)
        && node.pool == Some(pool)
        && has_ports(node, &[(0, &[0x20]), (1, &[0x22])])
        && node.rows.as_slice() == rows.as_slice()
        && node.terminus.is_none()
}

fn is_the_nic(node: &Node) -> bool {
    let bytes = [1, 0, 0, 0, 1, 1, 0, 0, 9, 0, 1, 0, 1, 1, 0, 0, 1, 1, 17];
    node.kind == Kind::Endpoint && node.pool.is_none() && has_one_record(node, 1, 1, 0, &bytes)
}

/// Whether a plan has two buses, of which the second is the riser's lower one, and four nodes, of which the first has
/// no owner.
pub(super) fn is_the_riser_network(plan: &Plan) -> bool {
    plan.buses.len() == 2
        && plan.buses[1].name.text.as_str() == "b1"
        && plan.buses[1].binding == 1
        && plan.buses[1].media == 4
        && plan.nodes.len() == 4
        && plan.nodes[0].owner.is_none()
        && is_the_riser(&plan.nodes[1])
        && is_the_nic(&plan.nodes[2])
}
