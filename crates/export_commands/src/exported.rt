//! What a node of a checked plan is in each form.
ghost use Rattle.std.specs.Prelude.{◌≡◌, ◌↔◌, ℕ, Some, IfOk, IsTrue, All, string_bytes};
ghost use Rattle.export_commands.specs.Exporting.{HasBus, HasForm, IsExported, terminus_at};
ghost use Rattle.net_tables.{specs.Repositories.{records_by_place}, specs.Routing.{IsBridge, eid_of}};
ghost use Rattle.plan_exports.{specs.CSources.{IsCSource}, specs.DeviceTrees.{IsDeviceTree}, specs.LinuxScripts.{IsLinuxScript}, specs.MctpdScripts.{IsMctpdScript}, specs.Repositories.{joined_bytes}, specs.TableAnswers.{AreEntryLines}};

use command_answers::records_by_place;
use command_questions::ExportKind;
use net_check::Checked;
use net_tables::lookup::{bus_named, eid_at, terminus_at};
use plan_exports::{
    CTerminus, Link, c_source, device_tree, entry_lines, joined_records, linux_script, mctpd_script,
};
use plan_values::Plan;
use std::alloc::{AllocError, Global};

/// The bytes of a node in a form.
pub fn exported(
    alloc: Global,
    checked: &Checked,
    kind: ExportKind,
    links: &[Link],
    node: usize,
) -> Result<Vec<u8>, AllocError>
    requires { HasForm kind checked.now.0 node }
    ensures { IfOk result (λ bytes. IsExported kind links.now checked.now.0 checked.now.1 node bytes.items) }
{
    match kind {
        ExportKind::Linux => Ok(script_of(alloc, checked, links, node)?.into_bytes()),
        ExportKind::Mctpd => Ok(daemon_of(alloc, checked, links, node)?.into_bytes()),
        ExportKind::DeviceTree => Ok(tree_of(alloc, checked, links, node)?.into_bytes()),
        ExportKind::C => Ok(source_of(alloc, checked, node)?.into_bytes()),
        ExportKind::Entries => Ok(entries_of(alloc, checked, node)?.into_bytes()),
        ExportKind::Records => records_of(alloc, checked, node),
    }
}

/// The script of a node, with the devices of the links.
fn script_of(
    alloc: Global,
    checked: &Checked,
    links: &[Link],
    node: usize,
) -> Result<String, AllocError>
    ensures { IfOk result (λ text. IsLinuxScript checked.now.0 node links.now (string_bytes text)) }
{
    let text = linux_script(alloc, checked.plan(), node, links)?;
    Ok(text)
}

/// The script of a node for `mctpd`, with the devices of the links.
fn daemon_of(
    alloc: Global,
    checked: &Checked,
    links: &[Link],
    node: usize,
) -> Result<String, AllocError>
    ensures { IfOk result (λ text. IsMctpdScript checked.now.0 node links.now (string_bytes text)) }
{
    mctpd_script(alloc, checked.plan(), node, links)
}

/// The device tree of a node's buses, with the labels of the links.
fn tree_of(
    alloc: Global,
    checked: &Checked,
    links: &[Link],
    node: usize,
) -> Result<String, AllocError>
    ensures { IfOk result (λ text. IsDeviceTree checked.now.0 node links.now (string_bytes text)) }
{
    device_tree(alloc, checked.plan(), node, links)
}

/// The C source of a node, with its terminus.
fn source_of(alloc: Global, checked: &Checked, node: usize) -> Result<String, AllocError>
    ensures { IfOk result (λ text. IsCSource checked.now.0 node (terminus_at checked.now.0 checked.now.1 node) (string_bytes text)) }
{
    let plan = checked.plan();
    let records = records_by_place(alloc, plan, checked.certificate(), node)?;
    let terminus = terminus_at(plan, node).map(|terminus| CTerminus {
        tid: terminus.tid,
        records: &records,
    });
    c_source(alloc, plan, node, terminus)
}

/// The answers of a bridge that tell its routing table.
fn entries_of(alloc: Global, checked: &Checked, node: usize) -> Result<String, AllocError>
    requires { IsBridge checked.now.0 node }
    ensures { IfOk result (λ text. (e : ℕ) × (eid_of checked.now.0 node ≡ Some e) × AreEntryLines checked.now.0 node e (string_bytes text)) }
{
    let plan = checked.plan();
    match eid_at(plan, node) {
        Some(eid) => entry_lines(alloc, plan, node, eid),
        None => unreachable!(),
    }
}

/// The records of a node by place, joined.
fn records_of(alloc: Global, checked: &Checked, node: usize) -> Result<Vec<u8>, AllocError>
    ensures { IfOk result (λ bytes. bytes.items ≡ joined_bytes (records_by_place checked.now.0 checked.now.1 node)) }
{
    let records = records_by_place(alloc, checked.plan(), checked.certificate(), node)?;
    let bytes = joined_records(alloc, &records)?;
    Ok(bytes)
}

/// Whether each link's bus is one of the plan's.
pub fn knows_buses(plan: &Plan, links: &[Link]) -> bool
    ensures { IsTrue result ↔ All (λ link. HasBus plan.now link.bus.now) links.now }
{
    links.iter().all(|link| has_bus(plan, link.bus))
}

/// Whether a bus of the plan has the name.
#[tactic(auto, unfolding(crate::specs::Exporting::HasBus))]
fn has_bus(plan: &Plan, name: &str) -> bool
    ensures { IsTrue result ↔ HasBus plan.now name.now }
{
    bus_named(plan, name).is_some()
}
