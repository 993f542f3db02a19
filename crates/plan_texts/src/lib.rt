//! The lines that answers about plans have.
#![tactic(auto)]

ghost use Rattle.std.specs.Prelude.{◌≡◌, Some, IfOk, string_bytes};
ghost use Rattle.net_tables.specs.Names.{bus_name, node_name};
ghost use Rattle.plan_texts.specs.Lines.{names_text, as_line, fault_words, fault_text, owner_loop_words, loop_words, chain_words, obstacle_words, obstacle_text};

mod differences;
mod drawings;
mod laws;
mod lookups;
mod moves;
mod shown;
mod walks;

pub use differences::first_difference;
pub use drawings::{bundle_drawing, drawing, way_drawing};
pub use laws::lines_depend_on_values_alone;
pub use lookups::{address_text, bus_text, from_to, name_or_none, number_text, span_text};
use mctp_transport::Eid;
pub use moves::steps::rollout_lines;
pub use moves::{move_error_line, move_obstacle_line};
use net_rules::{CertifyError, ChainFault, Fault};
use net_tables::lookup::{bus_name, node_name};
use plan_values::Plan;
pub use shown::{packet_text, record_text, refused_text};
use std::alloc::{AllocError, Global};
use std::fmt;
pub use walks::walk_text;

/// The answer where a plan has a fault.
pub fn fault_line(alloc: Global, plan: &Plan, fault: &Fault) -> Result<String, AllocError>
    ensures { IfOk result (λ line. string_bytes line ≡ fault_text plan.now fault.now) }
{
    as_line(alloc, &fault_words(alloc, plan, fault)?)
}

/// The line that says why a plan has no certificate. Out of memory is an error, and has no such line.
#[tactic(auto, using(crate::proofs::ObstacleLines::line_of_words))]
pub fn obstacle_line(
    alloc: Global,
    plan: &Plan,
    obstacle: &CertifyError,
) -> Result<String, AllocError>
    ensures { IfOk result (λ line. obstacle_text plan.now obstacle.now ≡ Some (string_bytes line)) }
{
    as_line(alloc, &obstacle_words(alloc, plan, obstacle)?)
}

fn as_line(alloc: Global, words: &str) -> Result<String, AllocError>
    ensures { IfOk result (λ line. string_bytes line ≡ as_line words.now) }
{
    format!(in alloc; "{words}\n")
}

/// Why a plan has no certificate, as the line says it.
pub fn obstacle_words(
    alloc: Global,
    plan: &Plan,
    obstacle: &CertifyError,
) -> Result<String, AllocError>
    ensures { IfOk result (λ words. obstacle_words plan.now obstacle.now ≡ Some (string_bytes words)) }
{
    match obstacle {
        CertifyError::Fault(fault) => fault_words(alloc, plan, fault),
        CertifyError::OwnerLoop(nodes) => owner_loop_words(alloc, plan, nodes),
        CertifyError::Loop(eid, nodes) => loop_words(alloc, plan, *eid, nodes),
        CertifyError::BadChain(node, kind, entry) => chain_words(alloc, plan, *node, *kind, *entry),
        CertifyError::OutOfMemory => Err(AllocError),
    }
}

fn fault_words(alloc: Global, plan: &Plan, fault: &Fault) -> Result<String, AllocError>
    ensures { IfOk result (λ words. string_bytes words ≡ fault_words plan.now fault.now) }
{
    let rule = fault.rule.code();
    let name = node_name(plan, fault.node);
    let entry = OrDash(fault.entry);
    let eid = OrDash(fault.eid.map(|eid| eid.value));
    format!(in alloc; "fault {rule} node {name} entry {entry} eid {eid}")
}

fn owner_loop_words(alloc: Global, plan: &Plan, nodes: &[usize]) -> Result<String, AllocError>
    ensures { IfOk result (λ words. string_bytes words ≡ owner_loop_words plan.now nodes.now) }
{
    let names = names_after_spaces(alloc, plan, nodes)?;
    format!(in alloc; "owner loop nodes{names}")
}

fn loop_words(alloc: Global, plan: &Plan, eid: Eid, nodes: &[usize]) -> Result<String, AllocError>
    ensures { IfOk result (λ words. string_bytes words ≡ loop_words plan.now eid.value nodes.now) }
{
    let eid = eid.value;
    let names = names_after_spaces(alloc, plan, nodes)?;
    format!(in alloc; "loop eid {eid} nodes{names}")
}

fn chain_words(
    alloc: Global,
    plan: &Plan,
    node: usize,
    kind: ChainFault,
    entry: usize,
) -> Result<String, AllocError>
    ensures { IfOk result (λ words. string_bytes words ≡ chain_words plan.now node kind entry) }
{
    let name = node_name(plan, node);
    let word = kind.word();
    format!(in alloc; "chain node {name} {word} entry {entry}")
}

/// The names of nodes, each after a space.
fn names_after_spaces(alloc: Global, plan: &Plan, nodes: &[usize]) -> Result<String, AllocError>
    ensures { IfOk result (λ names. string_bytes names ≡ names_text plan.now nodes.now) }
{
    let mut names = String::new(alloc);
    for &node in nodes {
        names.push_str(" ")?;
        names.push_str(node_name(plan, node))?;
    }
    Ok(names)
}

/// A value that may be absent, which a dash tells.
#[derive(Clone, Copy)]
struct OrDash<T>(Option<T>);

impl<T: fmt::Display> fmt::Display for OrDash<T> {
    ghost use Rattle.plan_texts.specs.Lines.{or_dash};

    ghost output = { λ shown. or_dash T.output shown.0 };

    fn fmt<W: fmt::Write>(&self, f: &mut fmt::Formatter<W>) -> fmt::Result {
        match &self.0 {
            Some(value) => fmt::Display::fmt(value, f),
            None => f.write_str("-"),
        }
    }
}
