//! All that is lawful in a plan and still looks wrong.
ghost use Rattle.std.specs.Prelude.{◌<◌, ◌≡◌, ◌↔◌, [], ◌∷◌, IsTrue, IfOk, OnOk};
ghost use Rattle.net_questions.{specs.RecordIndexes.{AreRecordIndexes}, specs.Findings.{IsSo, AreFindings, Adds, IsUnder, order_of, key_of, sites_of, items_of, others_of, other_items_of}};

use crate::code::{CODES, Code};
use crate::finding::Finding;
use crate::lints::record_index::{RecordIndex, record_indexes};
use crate::lints::{
    addresses, buses, entities, handles, locators, ports, rows, sensors, termini, thresholds, ways,
};
use mctp_transport::Eid;
use net_tables::lookup::{ports_at, records_at, rows_at};
use plan_values::Plan;
use std::alloc::{AllocError, Global};

/// All that is lawful in the plan and still looks wrong, by the order of the codes, and then in plan order. The plan
/// needs no check before.
pub fn lint(alloc: Global, plan: &Plan) -> Result<Vec<Finding>, AllocError>
    ensures { IfOk result (λ findings. AreFindings plan.now findings.items) }
{
    let indexes = record_indexes(alloc, plan)?;
    let mut findings = Vec::new(alloc);
    for code in CODES {
        add_of_code(&mut findings, plan, &indexes, code)?;
    }
    Ok(findings)
}

/// Adds what a code finds.
fn add_of_code(
    findings: &mut Vec<Finding>,
    plan: &Plan,
    indexes: &[RecordIndex],
    code: Code,
) -> Result<(), AllocError>
    requires { AreRecordIndexes plan.now indexes.now }
    ensures { OnOk result (Adds (IsUnder plan.now (order_of code ∷ [])) findings.old.items findings.new.items) }
{
    for site in 0..sites(plan, code) {
        add_at_site(findings, plan, indexes, code, site)?;
    }
    Ok(())
}

/// Adds what a code finds at a node or a bus.
fn add_at_site(
    findings: &mut Vec<Finding>,
    plan: &Plan,
    indexes: &[RecordIndex],
    code: Code,
    site: usize,
) -> Result<(), AllocError>
    requires { AreRecordIndexes plan.now indexes.now }
    ensures { OnOk result (Adds (IsUnder plan.now (order_of code ∷ site ∷ [])) findings.old.items findings.new.items) }
{
    for item in 0..items(plan, code, site) {
        add_at_item(findings, plan, indexes, code, site, item)?;
    }
    Ok(())
}

/// Adds what a code finds at an item.
fn add_at_item(
    findings: &mut Vec<Finding>,
    plan: &Plan,
    indexes: &[RecordIndex],
    code: Code,
    site: usize,
    item: usize,
) -> Result<(), AllocError>
    requires item { item < items_of plan.now code site }
    requires indexes { AreRecordIndexes plan.now indexes.now }
    ensures { OnOk result (Adds (IsUnder plan.now (order_of code ∷ site ∷ item ∷ [])) findings.old.items findings.new.items) }
{
    for other in 0..others(plan, code) {
        add_between(findings, plan, indexes, code, site, item, other)?;
    }
    Ok(())
}

/// Adds what a code finds at an item and another node.
fn add_between(
    findings: &mut Vec<Finding>,
    plan: &Plan,
    indexes: &[RecordIndex],
    code: Code,
    site: usize,
    item: usize,
    other: usize,
) -> Result<(), AllocError>
    requires item { item < items_of plan.now code site }
    requires other { other < others_of plan.now code }
    requires indexes { AreRecordIndexes plan.now indexes.now }
    ensures { OnOk result (Adds (IsUnder plan.now (order_of code ∷ site ∷ item ∷ other ∷ [])) findings.old.items findings.new.items) }
{
    for other_item in 0..other_items(plan, code, other) {
        let finding = finding_at(plan, code, site, item, other, other_item);
        add_if_so(findings, plan, indexes, finding)?;
    }
    Ok(())
}

/// Adds what may be found, if it is so.
fn add_if_so(
    findings: &mut Vec<Finding>,
    plan: &Plan,
    indexes: &[RecordIndex],
    finding: Finding,
) -> Result<(), AllocError>
    requires { AreRecordIndexes plan.now indexes.now }
    ensures { OnOk result (Adds (IsUnder plan.now (key_of finding)) findings.old.items findings.new.items) }
{
    if is_so(plan, indexes, finding) {
        findings.push(finding)?;
        return Ok(());
    }
    Ok(())
}

/// How many buses a code looks at, or how many nodes.
fn sites(plan: &Plan, code: Code) -> usize
    ensures { result ≡ sites_of plan.now code }
{
    match code {
        Code::ForeignMedia | Code::ReservedBinding | Code::EmptyBus => plan.buses.len(),
        Code::UncarriedUnit => plan.buses.len(),
        _ => plan.nodes.len(),
    }
}

/// How many items of a node a code looks at, one where it speaks of none.
fn items(plan: &Plan, code: Code, site: usize) -> usize
    ensures { result ≡ items_of plan.now code site }
{
    match code {
        Code::SharedAddress | Code::MissingAddress | Code::LonePort => ports_at(plan, site).len(),
        Code::IdleRow => rows_at(plan, site).len(),
        Code::PoolEidNotLedOn => 256,
        Code::SharedSensorId | Code::EmptyReadableRange => records_at(plan, site).len(),
        Code::ReservedAddress | Code::OddAddress | Code::ForeignLength | Code::SharedSevenBits => {
            ports_at(plan, site).len()
        }
        Code::CrossedThresholds | Code::UnknownTerminusHandle | Code::UncontainedEntity => {
            records_at(plan, site).len()
        }
        Code::SharedTid | Code::MissingLocator | Code::Isolated => 1,
        Code::ForeignMedia | Code::ReservedBinding | Code::EmptyBus => 1,
        Code::UncarriedUnit => 1,
        Code::OwnerHasNoWay | Code::NoWayToOwner => 1,
    }
}

/// How many other nodes a code looks at, one where it speaks of none.
fn others(plan: &Plan, code: Code) -> usize
    ensures { result ≡ others_of plan.now code }
{
    match code {
        Code::SharedAddress | Code::SharedSevenBits | Code::SharedTid => plan.nodes.len(),
        Code::OwnerHasNoWay | Code::NoWayToOwner => plan.nodes.len(),
        _ => 1,
    }
}

/// How many items of the other node a code looks at, one where it speaks of none.
fn other_items(plan: &Plan, code: Code, other: usize) -> usize
    ensures { result ≡ other_items_of plan.now code other }
{
    match code {
        Code::SharedAddress | Code::SharedSevenBits => ports_at(plan, other).len(),
        _ => 1,
    }
}

/// What a code may find there.
fn finding_at(
    plan: &Plan,
    code: Code,
    site: usize,
    item: usize,
    other: usize,
    other_item: usize,
) -> Finding
    requires item { item < items_of plan.now code site }
    requires other { other < others_of plan.now code }
    requires other_item { other_item < other_items_of plan.now code other }
    ensures { key_of result ≡ order_of code ∷ site ∷ item ∷ other ∷ other_item ∷ [] }
{
    match code {
        Code::SharedAddress => Finding::SharedAddress {
            node: site,
            port: item,
            other,
            other_port: other_item,
        },
        Code::MissingAddress => Finding::MissingAddress {
            node: site,
            port: item,
        },
        Code::SharedTid => Finding::SharedTid { node: site, other },
        Code::MissingLocator => Finding::MissingLocator { node: site },
        Code::SharedSensorId => Finding::SharedSensorId {
            node: site,
            record: item,
        },
        Code::OwnerHasNoWay => Finding::OwnerHasNoWay {
            node: site,
            owner: other,
        },
        Code::NoWayToOwner => Finding::NoWayToOwner {
            node: site,
            owner: other,
        },
        Code::IdleRow => Finding::IdleRow {
            node: site,
            row: item,
        },
        Code::PoolEidNotLedOn => Finding::PoolEidNotLedOn {
            node: site,
            eid: Eid::new(item as u8),
        },
        Code::LonePort => Finding::LonePort {
            node: site,
            port: item,
        },
        Code::EmptyReadableRange => Finding::EmptyReadableRange {
            node: site,
            record: item,
        },
        Code::Isolated => Finding::Isolated { node: site },
        Code::ForeignMedia => Finding::ForeignMedia { bus: site },
        Code::ReservedBinding => Finding::ReservedBinding { bus: site },
        Code::ReservedAddress => Finding::ReservedAddress {
            node: site,
            port: item,
        },
        Code::EmptyBus => Finding::EmptyBus { bus: site },
        Code::CrossedThresholds => Finding::CrossedThresholds {
            node: site,
            record: item,
        },
        Code::UnknownTerminusHandle => Finding::UnknownTerminusHandle {
            node: site,
            record: item,
        },
        Code::UncontainedEntity => Finding::UncontainedEntity {
            node: site,
            record: item,
        },
        Code::OddAddress => Finding::OddAddress {
            node: site,
            port: item,
        },
        Code::ForeignLength => Finding::ForeignLength {
            node: site,
            port: item,
        },
        Code::UncarriedUnit => Finding::UncarriedUnit { bus: site },
        Code::SharedSevenBits => Finding::SharedSevenBits {
            node: site,
            port: item,
            other,
            other_port: other_item,
        },
    }
}

/// Whether the finding is so.
fn is_so(plan: &Plan, indexes: &[RecordIndex], finding: Finding) -> bool
    requires { AreRecordIndexes plan.now indexes.now }
    ensures { IsTrue result ↔ IsSo plan.now finding }
{
    match finding {
        Finding::SharedAddress {
            node,
            port,
            other,
            other_port,
        } => ports::share_address(plan, node, port, other, other_port),
        Finding::MissingAddress { node, port } => ports::lacks_address(plan, node, port),
        Finding::SharedTid { node, other } => termini::share_tid(plan, node, other),
        Finding::MissingLocator { node } => locators::lacks_locator(plan, node),
        Finding::SharedSensorId { node, record } => {
            sensors::shares_sensor_id(plan, indexes, node, record)
        }
        Finding::OwnerHasNoWay { node, owner } => ways::has_no_way_from_owner(plan, node, owner),
        Finding::NoWayToOwner { node, owner } => ways::has_no_way_to_owner(plan, node, owner),
        Finding::IdleRow { node, row } => rows::has_idle_row(plan, node, row),
        Finding::PoolEidNotLedOn { node, eid } => rows::leaves_held(plan, node, eid),
        Finding::LonePort { node, port } => ports::is_alone_on_bus(plan, node, port),
        Finding::EmptyReadableRange { node, record } => {
            sensors::has_empty_readable_range(plan, node, record)
        }
        Finding::Isolated { node } => rows::is_isolated(plan, node),
        Finding::ForeignMedia { bus } => buses::has_foreign_media(plan, bus),
        Finding::ReservedBinding { bus } => buses::has_reserved_binding(plan, bus),
        Finding::ReservedAddress { node, port } => buses::is_reserved_port(plan, node, port),
        Finding::EmptyBus { bus } => buses::is_empty_bus(plan, bus),
        Finding::CrossedThresholds { node, record } => {
            thresholds::has_crossed_thresholds(plan, node, record)
        }
        Finding::UnknownTerminusHandle { node, record } => {
            handles::names_no_terminus(plan, indexes, node, record)
        }
        Finding::UncontainedEntity { node, record } => {
            entities::measures_uncontained(plan, indexes, node, record)
        }
        Finding::OddAddress { node, port } => addresses::is_odd_port(plan, node, port),
        Finding::ForeignLength { node, port } => addresses::is_foreign_port(plan, node, port),
        Finding::UncarriedUnit { bus } => addresses::has_uncarried_unit(plan, bus),
        Finding::SharedSevenBits {
            node,
            port,
            other,
            other_port,
        } => addresses::share_seven_bits(plan, node, port, other, other_port),
    }
}
