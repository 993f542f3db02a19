//! What a plan says, thing by thing.
ghost use Rattle.std.{specs.Prelude.{◌≡◌, IfOk, map, option_map}, specs.List.{flat_map}};
ghost use Rattle.net_tables.specs.Names.{bus_name, node_name};
ghost use Rattle.plan_differences.specs.Facts.{fact_value, bus_fact, facts_of_node, node_fact, plan_facts, pool_facts, port_fact, port_facts, record_fact, row_fact, terminus_facts};

use crate::fact::Fact;
use net_tables::lookup::{bus_name, node_name};
use plan_values::{Bus, Node, Plan, PlannedRecord, PlannedTerminus, Pool, Port, Row};
use std::alloc::{AllocError, Global};

/// What a plan says: of itself, of its buses, and of each node with its pool, ports, rows and records, in its order.
pub fn facts_of<'p>(alloc: Global, plan: &'p Plan) -> Result<Vec<Fact<'p>>, AllocError>
    ensures { IfOk result (λ facts. map fact_value facts.items ≡ plan_facts plan.now) }
{
    let mut facts = Vec::new(alloc);
    facts.push(Fact::Unit(plan.unit))?;
    facts.extend_from_slice(&facts_of_buses(alloc, &plan.buses)?)?;
    facts.extend_from_slice(&facts_of_nodes(alloc, plan)?)?;
    Ok(facts)
}

fn facts_of_buses<'p>(alloc: Global, buses: &'p [Bus]) -> Result<Vec<Fact<'p>>, AllocError>
    ensures { IfOk result (λ facts. map fact_value facts.items ≡ map bus_fact buses.now) }
{
    let mut facts = Vec::new(alloc);
    for bus in buses {
        facts.push(Fact::Bus {
            name: bus.name.text.as_str(),
            binding: bus.binding,
            media: bus.media,
        })?;
    }
    Ok(facts)
}

fn facts_of_nodes<'p>(alloc: Global, plan: &'p Plan) -> Result<Vec<Fact<'p>>, AllocError>
    ensures { IfOk result (λ facts. map fact_value facts.items ≡ flat_map (facts_of_node plan.now) plan.now.nodes.items) }
{
    let mut facts = Vec::new(alloc);
    for node in &plan.nodes {
        facts.extend_from_slice(&facts_of_node(alloc, plan, node)?)?;
    }
    Ok(facts)
}

fn facts_of_node<'p>(
    alloc: Global,
    plan: &'p Plan,
    node: &'p Node,
) -> Result<Vec<Fact<'p>>, AllocError>
    ensures { IfOk result (λ facts. map fact_value facts.items ≡ facts_of_node plan.now node.now) }
{
    let name = node.name.text.as_str();
    let mut facts = Vec::new(alloc);
    facts.push(Fact::Node {
        name,
        kind: node.kind,
        eid: node.eid,
        owner: owner_name(plan, node.owner),
    })?;
    facts.extend_from_slice(&facts_of_pool(alloc, name, node.pool)?)?;
    facts.extend_from_slice(&facts_of_ports(alloc, plan, name, &node.ports)?)?;
    facts.extend_from_slice(&facts_of_rows(alloc, plan, name, &node.rows)?)?;
    facts.extend_from_slice(&facts_of_terminus(alloc, name, &node.terminus)?)?;
    Ok(facts)
}

fn owner_name<'p>(plan: &'p Plan, owner: Option<usize>) -> Option<&'p str>
    ensures { option_map (λ o. o.now) result ≡ option_map (node_name plan.now) owner }
{
    match owner {
        Some(owner) => Some(node_name(plan, owner)),
        None => None,
    }
}

fn facts_of_pool<'p>(
    alloc: Global,
    node: &'p str,
    pool: Option<Pool>,
) -> Result<Vec<Fact<'p>>, AllocError>
    ensures { IfOk result (λ facts. map fact_value facts.items ≡ pool_facts node.now pool) }
{
    let mut facts = Vec::new(alloc);
    if let Some(pool) = pool {
        facts.push(Fact::Pool { node, pool })?;
    }
    Ok(facts)
}

fn facts_of_ports<'p>(
    alloc: Global,
    plan: &'p Plan,
    node: &'p str,
    ports: &'p [Port],
) -> Result<Vec<Fact<'p>>, AllocError>
    ensures { IfOk result (λ facts. map fact_value facts.items ≡ port_facts plan.now node.now 0 ports.now) }
{
    let mut facts = Vec::new(alloc);
    for index in 0..ports.len() {
        facts.push(fact_of_port(plan, node, index, &ports[index]))?;
    }
    Ok(facts)
}

fn fact_of_port<'p>(plan: &'p Plan, node: &'p str, index: usize, port: &'p Port) -> Fact<'p>
    ensures { fact_value result ≡ port_fact plan.now node.now index port.now }
{
    Fact::Port {
        node,
        index,
        bus: bus_name(plan, port.bus),
        address: port.address.as_slice(),
    }
}

fn facts_of_rows<'p>(
    alloc: Global,
    plan: &'p Plan,
    node: &'p str,
    rows: &[Row],
) -> Result<Vec<Fact<'p>>, AllocError>
    ensures { IfOk result (λ facts. map fact_value facts.items ≡ map (row_fact plan.now node.now) rows.now) }
{
    let mut facts = Vec::new(alloc);
    for row in rows {
        facts.push(Fact::Row {
            node,
            first: row.first,
            size: row.size,
            port: row.port,
            next: node_name(plan, row.next),
        })?;
    }
    Ok(facts)
}

fn facts_of_terminus<'p>(
    alloc: Global,
    node: &'p str,
    terminus: &'p Option<PlannedTerminus>,
) -> Result<Vec<Fact<'p>>, AllocError>
    ensures { IfOk result (λ facts. map fact_value facts.items ≡ terminus_facts node.now terminus.now) }
{
    let mut facts = Vec::new(alloc);
    if let Some(terminus) = terminus {
        facts.push(Fact::Terminus {
            node,
            tid: terminus.tid,
        })?;
        facts.extend_from_slice(&facts_of_records(alloc, node, &terminus.records)?)?;
    }
    Ok(facts)
}

fn facts_of_records<'p>(
    alloc: Global,
    node: &'p str,
    records: &'p [PlannedRecord],
) -> Result<Vec<Fact<'p>>, AllocError>
    ensures { IfOk result (λ facts. map fact_value facts.items ≡ map (record_fact node.now) records.now) }
{
    let mut facts = Vec::new(alloc);
    for listed in records {
        facts.push(Fact::Record {
            node,
            handle: listed.handle,
            next: listed.next,
            bytes: listed.bytes.as_slice(),
        })?;
    }
    Ok(facts)
}
