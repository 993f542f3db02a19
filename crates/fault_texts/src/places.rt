//! Where in the text of a plan a fault stands.
ghost use Rattle.std.specs.Prelude.{◌≡◌, ◌≤◌, IfOk, IfSome, length, map, string_bytes};
ghost use Rattle.json.specs.Value.{value_view};
ghost use Rattle.net_plan.{specs.Finding.{step_value}, specs.Trees.{view}};
ghost use Rattle.net_pointers.specs.Offsets.{IsTextOf};
ghost use Rattle.fault_texts.specs.Places.{IsAtTold, IsPlaceTold, entry_pointer, first_of, node_pointer, obstacle_pointer, own_pointer, part_pointer, place_line, place_text, plan_fault_pointer, position_text, record_pointer, row_pointer, run_pointer, site_pointer, spot_words, way_pointer};
ghost use Rattle.reading_texts.specs.TroubleLines.{IsOffsetOf};

use explanation_texts::index_for;
use json::{Scratch, Value};
use net_faults::PlanFault;
use net_plan::{PointerStep, json_of};
use net_pointers::{Position, Spot, TextIndex, offset_of_pointer, position_of};
use net_rules::{CertifyError, FaultRun, Rule};
use plan_values::Plan;
use reading_texts::pointer_text;
use std::alloc::{AllocError, Global};

/// The line that tells where in its text what rules certificates of a plan out stands: the file, by its name, the line,
/// the column and the JSON pointer.
pub fn obstacle_place(
    alloc: Global,
    name: &str,
    text: &[u8],
    plan: &Plan,
    obstacle: &CertifyError,
) -> Result<String, AllocError>
    ensures { IfOk result (λ line. IsPlaceTold name.now text.now (obstacle_pointer plan.now obstacle.now) (string_bytes line)) }
{
    let pointer = obstacle_pointer(alloc, plan, obstacle)?;
    pointer_place(alloc, name, text, &pointer)
}

/// The line that tells where in its text a pointer leads.
pub fn pointer_place(
    alloc: Global,
    name: &str,
    text: &[u8],
    pointer: &[PointerStep],
) -> Result<String, AllocError>
    ensures { IfOk result (λ line. IsPlaceTold name.now text.now (map step_value pointer.now) (string_bytes line)) }
{
    let mut scratch = Scratch::new(alloc);
    match json_of(alloc, text, &mut scratch) {
        Ok(tree) => place_in(alloc, name, text, &tree, pointer),
        // no memory: the text was read before, so `json_of` has no other error.
        Err(_) => Err(AllocError),
    }
}

fn place_in(
    alloc: Global,
    name: &str,
    text: &[u8],
    tree: &Value<'_>,
    pointer: &[PointerStep],
) -> Result<String, AllocError>
    requires { IsTextOf text.now (value_view tree.now) }
    ensures { IfOk result (λ line. IsPlaceTold name.now text.now (map step_value pointer.now) (string_bytes line)) }
{
    let offset = offset_in(alloc, text, tree, pointer)?;
    place_line(alloc, name, text, pointer, offset)
}

/// The words that tell behind a line where in its text, which has this index, a pointer leads.
pub fn at_in(
    alloc: Global,
    name: &str,
    index: &TextIndex<'_>,
    tree: &Value<'_>,
    pointer: &[PointerStep],
) -> Result<String, AllocError>
    requires { IsTextOf index.now (value_view tree.now) }
    ensures { IfOk result (λ words. IsAtTold name.now index.now (map step_value pointer.now) (string_bytes words)) }
{
    let spot = index.spot_of_pointer(alloc, tree, pointer)?;
    spot_words(alloc, name, spot)
}

/// The offset to which a pointer leads in a text, where it leads to a value.
fn offset_in(
    alloc: Global,
    text: &[u8],
    tree: &Value<'_>,
    pointer: &[PointerStep],
) -> Result<Option<usize>, AllocError>
    requires { IsTextOf text.now (value_view tree.now) }
    ensures found { IfOk result (IsOffsetOf text.now (view tree.now) (map step_value pointer.now)) }
    ensures within { IfOk result (λ found. IfSome found (λ offset. offset ≤ length text.now)) }
{
    offset_of_pointer(alloc, text, tree, pointer)
}

// ---- words

fn place_line(
    alloc: Global,
    name: &str,
    text: &[u8],
    pointer: &[PointerStep],
    offset: Option<usize>,
) -> Result<String, AllocError>
    requires { IfSome offset (λ at. at ≤ length text.now) }
    ensures { IfOk result (λ line. string_bytes line ≡ place_line name.now text.now (map step_value pointer.now) offset) }
{
    match offset {
        Some(offset) => {
            let place = place_text(alloc, name, text, offset)?;
            let pointer = pointer_text(alloc, pointer)?;
            format!(in alloc; "{place}: {pointer}\n")
        }
        None => Ok(String::new(alloc)),
    }
}

/// The file, the line and the column behind a line, where they are known.
fn spot_words(alloc: Global, name: &str, spot: Option<Spot>) -> Result<String, AllocError>
    ensures { IfOk result (λ words. string_bytes words ≡ spot_words name.now spot) }
{
    match spot {
        Some(spot) => {
            let place = position_text(alloc, name, spot.position)?;
            format!(in alloc; " at {place}")
        }
        None => Ok(String::new(alloc)),
    }
}

/// The file, the line and the column, as editors take them.
fn place_text(alloc: Global, name: &str, text: &[u8], offset: usize) -> Result<String, AllocError>
    requires { offset ≤ length text.now }
    ensures { IfOk result (λ words. string_bytes words ≡ place_text name.now text.now offset) }
{
    position_text(alloc, name, position_of(text, offset))
}

fn position_text(alloc: Global, name: &str, position: Position) -> Result<String, AllocError>
    ensures { IfOk result (λ words. string_bytes words ≡ position_text name.now position) }
{
    let (line, column) = (position.line, position.column);
    format!(in alloc; "{name}:{line}:{column}")
}

// ---- pointers

/// The pointer to what a fault speaks of.
pub fn plan_fault_pointer(
    alloc: Global,
    plan: &Plan,
    fault: &PlanFault,
) -> Result<Vec<PointerStep>, AllocError>
    ensures { IfOk result (λ pointer. map step_value pointer.items ≡ plan_fault_pointer plan.now fault.now) }
{
    match fault {
        PlanFault::Broken(run) => run_pointer(alloc, run),
        PlanFault::Obstacle(obstacle, _) => obstacle_pointer(alloc, plan, obstacle),
    }
}

/// The pointer to what is at fault at the sites of a run.
pub fn run_pointer(alloc: Global, run: &FaultRun) -> Result<Vec<PointerStep>, AllocError>
    ensures { IfOk result (λ pointer. map step_value pointer.items ≡ run_pointer run.now) }
{
    site_pointer(alloc, run.rule, run.node, run.entry)
}

/// The pointer to what rules certificates of a plan out.
pub fn obstacle_pointer(
    alloc: Global,
    plan: &Plan,
    obstacle: &CertifyError,
) -> Result<Vec<PointerStep>, AllocError>
    ensures { IfOk result (λ pointer. map step_value pointer.items ≡ obstacle_pointer plan.now obstacle.now) }
{
    match obstacle {
        CertifyError::Fault(fault) => site_pointer(alloc, fault.rule, fault.node, fault.entry),
        CertifyError::OwnerLoop(nodes) => part_pointer(alloc, first_of(nodes), "owner"),
        CertifyError::Loop(eid, nodes) => {
            let node = first_of(nodes);
            way_pointer(alloc, node, index_for(plan, *eid, node))
        }
        CertifyError::BadChain(node, _, entry) => record_pointer(alloc, *node, *entry),
        CertifyError::OutOfMemory => Err(AllocError),
    }
}

/// The first node of a loop.
fn first_of(nodes: &[usize]) -> usize
    ensures { result ≡ first_of nodes.now }
{
    nodes.first().copied().unwrap_or(0)
}

/// The pointer to what is at fault where a rule is broken at a node or at one of its entries.
fn site_pointer(
    alloc: Global,
    rule: Rule,
    node: usize,
    entry: Option<usize>,
) -> Result<Vec<PointerStep>, AllocError>
    ensures { IfOk result (λ pointer. map step_value pointer.items ≡ site_pointer rule node entry) }
{
    match entry {
        Some(index) => entry_pointer(alloc, rule, node, index),
        None => own_pointer(alloc, rule, node),
    }
}

/// The pointer to what a rule speaks of at a node itself.
fn own_pointer(alloc: Global, rule: Rule, node: usize) -> Result<Vec<PointerStep>, AllocError>
    ensures { IfOk result (λ pointer. map step_value pointer.items ≡ own_pointer rule node) }
{
    match rule {
        Rule::C01 => part_pointer(alloc, node, "name"),
        Rule::C02 | Rule::C03 | Rule::C08 => part_pointer(alloc, node, "eid"),
        Rule::C07 => part_pointer(alloc, node, "owner"),
        Rule::C09 => part_pointer(alloc, node, "pool"),
        Rule::C12 => part_pointer(alloc, node, "terminus"),
        Rule::C04
        | Rule::C05
        | Rule::C06
        | Rule::C10
        | Rule::C11
        | Rule::C13
        | Rule::C14
        | Rule::C15
        | Rule::C16 => node_pointer(alloc, node),
    }
}

/// The pointer to the row or the record of which a rule speaks.
fn entry_pointer(
    alloc: Global,
    rule: Rule,
    node: usize,
    index: usize,
) -> Result<Vec<PointerStep>, AllocError>
    ensures { IfOk result (λ pointer. map step_value pointer.items ≡ entry_pointer rule node index) }
{
    match rule {
        Rule::C12 | Rule::C13 | Rule::C14 | Rule::C15 => record_pointer(alloc, node, index),
        Rule::C01
        | Rule::C02
        | Rule::C03
        | Rule::C04
        | Rule::C05
        | Rule::C06
        | Rule::C07
        | Rule::C08
        | Rule::C09
        | Rule::C10
        | Rule::C11
        | Rule::C16 => row_pointer(alloc, node, index),
    }
}

/// The pointer to a row, or to its node where none is given.
pub fn way_pointer(
    alloc: Global,
    node: usize,
    row: Option<usize>,
) -> Result<Vec<PointerStep>, AllocError>
    ensures { IfOk result (λ pointer. map step_value pointer.items ≡ way_pointer node row) }
{
    match row {
        Some(row) => row_pointer(alloc, node, row),
        None => node_pointer(alloc, node),
    }
}

fn node_pointer(alloc: Global, node: usize) -> Result<Vec<PointerStep>, AllocError>
    ensures { IfOk result (λ pointer. map step_value pointer.items ≡ node_pointer node) }
{
    [PointerStep::Key("nodes"), PointerStep::Index(node)].to_vec(alloc)
}

/// The pointer to what a node says at a key.
pub fn part_pointer(
    alloc: Global,
    node: usize,
    key: &'static str,
) -> Result<Vec<PointerStep>, AllocError>
    ensures { IfOk result (λ pointer. map step_value pointer.items ≡ part_pointer node key.now) }
{
    [
        PointerStep::Key("nodes"),
        PointerStep::Index(node),
        PointerStep::Key(key),
    ]
    .to_vec(alloc)
}

/// The pointer to a row of a node.
pub fn row_pointer(alloc: Global, node: usize, row: usize) -> Result<Vec<PointerStep>, AllocError>
    ensures { IfOk result (λ pointer. map step_value pointer.items ≡ row_pointer node row) }
{
    [
        PointerStep::Key("nodes"),
        PointerStep::Index(node),
        PointerStep::Key("rows"),
        PointerStep::Index(row),
    ]
    .to_vec(alloc)
}

/// The pointer to a record of a node's terminus.
pub fn record_pointer(
    alloc: Global,
    node: usize,
    index: usize,
) -> Result<Vec<PointerStep>, AllocError>
    ensures { IfOk result (λ pointer. map step_value pointer.items ≡ record_pointer node index) }
{
    [
        PointerStep::Key("nodes"),
        PointerStep::Index(node),
        PointerStep::Key("terminus"),
        PointerStep::Key("records"),
        PointerStep::Index(index),
    ]
    .to_vec(alloc)
}
