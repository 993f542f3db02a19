//! The value of a plan without its rows and its termini, which are read straight from the text.
ghost use Rattle.std.{specs.Prelude.{◌≡◌, codes, map, false, IfSome, ⊤}, specs.Str.{bytes_eq}};
ghost use Rattle.json.{specs.Json.{no_members}, specs.Value.{value_view, members_view}};
ghost use Rattle.net_plan.{specs.Gathered.{IsMore, IsPlainText, with_last}, specs.NameIndexes.{find_in}, specs.PlanText.{IsPlanOf}, specs.RowParts.{named_row}, specs.Skeleton.{AreNodeParts, IsNodeSkeleton, ArePlanParts, IsPlanSkeleton, cut_value, placed_value, found_row, found_value, with_part, with_parts}};
ghost use Rattle.plan_values.specs.PlanValues.{plan_value, node_value, row_value};

use crate::gather::{Gather, NextItem, next_list, read_object, read_text};
use crate::json_keys::has_single_keys;
use crate::json_text::fits;
use crate::name_index::NameIndex;
use crate::naming::NodeName;
use crate::plan_text::read_plan_value;
use crate::row_parts::{NamedRow, NextRow};
use crate::terminus_parts::next_terminus;
use json::Value;
use mctp_transport::Eid;
use plain_json::{PlainReader, read_value};
use plan_values::{Node, Plan, PlannedTerminus, Row};
use std::alloc::Global;

/// The rows of a node, whose next nodes are still names, and its terminus.
#[derive(Drop)]
pub struct CutParts<'t> {
    rows: Vec<NamedRow<'t>>,
    terminus: Option<PlannedTerminus>,
}

/// The rows of a node, and its terminus.
#[derive(Drop)]
pub struct PlacedParts {
    rows: Vec<Row>,
    terminus: Option<PlannedTerminus>,
}

/// What is known so far of a node: its members, with no rows and `null` for its terminus, and these.
#[derive(Drop)]
pub struct NodeParts<'t> {
    found: Vec<(&'t str, Value<'t>)>,
    rows: Option<Vec<NamedRow<'t>>>,
    terminus: Option<Option<PlannedTerminus>>,
}

/// The value of a node, with no rows and `null` for its terminus, and these.
#[derive(Drop)]
pub struct NodeSkeleton<'t> {
    value: Value<'t>,
    parts: CutParts<'t>,
}

/// What is known so far of a plan: its members, with nodes that have no rows and no termini, and these.
#[derive(Drop)]
pub struct PlanParts<'t> {
    found: Vec<(&'t str, Value<'t>)>,
    parts: Option<Vec<CutParts<'t>>>,
}

impl<'t> NodeParts<'t> {
    fn none(alloc: Global) -> NodeParts<'t>
        ensures { AreNodeParts result no_members }
    {
        let found = Vec::new(alloc);
        NodeParts {
            found,
            rows: None,
            terminus: None,
        }
    }

    #[inline(never)]
    fn take_rows(&mut self, alloc: Global, reader: &mut PlainReader<'t>, depth: usize) -> Option<()>
        ensures { IfSome result (λ _. IsMore depth (codes "rows") reader.old reader.new (AreNodeParts self.old) (AreNodeParts self.new)) }
    {
        if self.rows.is_some() {
            return None;
        }
        let rows = next_list(alloc, &NextRow, reader, depth, 256)?;
        let none = Vec::new(alloc);
        note(&mut self.found, "rows", Value::Array(none))?;
        self.rows = Some(rows);
        Some(())
    }

    fn take_terminus(
        &mut self,
        alloc: Global,
        reader: &mut PlainReader<'t>,
        depth: usize,
    ) -> Option<()>
        ensures { IfSome result (λ _. IsMore depth (codes "terminus") reader.old reader.new (AreNodeParts self.old) (AreNodeParts self.new)) }
    {
        if self.terminus.is_some() {
            return None;
        }
        let terminus = next_terminus(alloc, reader, depth)?;
        note(&mut self.found, "terminus", Value::Null)?;
        self.terminus = Some(terminus);
        Some(())
    }

    fn take_other(
        &mut self,
        alloc: Global,
        key: &'t str,
        reader: &mut PlainReader<'t>,
        depth: usize,
    ) -> Option<()>
        requires terminus { bytes_eq key.now (codes "terminus") ≡ false }
        requires rows { bytes_eq key.now (codes "rows") ≡ false }
        ensures { IfSome result (λ _. IsMore depth key.now reader.old reader.new (AreNodeParts self.old) (AreNodeParts self.new)) }
    {
        let value = read_value(alloc, reader, depth)?;
        note(&mut self.found, key, value)
    }
}

impl<'t> Gather<'t> for NodeParts<'t> {
    ghost Holds = { AreNodeParts };

    ghost Given = { ⊤ };

    ghost given = { λ _. tt };

    fn take(
        &mut self,
        alloc: Global,
        key: &'t str,
        reader: &mut PlainReader<'t>,
        depth: usize,
    ) -> Option<()> {
        if key == "terminus" {
            self.take_terminus(alloc, reader, depth)
        } else if key == "rows" {
            self.take_rows(alloc, reader, depth)
        } else {
            self.take_other(alloc, key, reader, depth)
        }
    }
}

/// Reads nodes.
#[derive(Clone, Copy)]
struct NextNode;

impl<'t> NextItem<'t> for NextNode {
    type Item = NodeSkeleton<'t>;

    ghost IsOf = { λ _ j s. IsNodeSkeleton j s };

    fn next_item(
        &self,
        alloc: Global,
        reader: &mut PlainReader<'t>,
        depth: usize,
    ) -> Option<NodeSkeleton<'t>> {
        let mut parts = NodeParts::none(alloc);
        read_object(alloc, &mut parts, reader, depth)?;
        let NodeParts {
            found,
            rows,
            terminus,
        } = parts;
        let rows = rows?;
        let terminus = terminus?;
        Some(NodeSkeleton {
            value: Value::Object(found),
            parts: CutParts { rows, terminus },
        })
    }
}

/// The values of nodes, and their parts.
fn parted<'t>(
    alloc: Global,
    nodes: Vec<NodeSkeleton<'t>>,
) -> Option<(Vec<Value<'t>>, Vec<CutParts<'t>>)>
    ensures { IfSome result (λ both. (both.0.items ≡ map (λ s. s.value) nodes.entry.items) × (both.1.items ≡ map (λ s. s.parts) nodes.entry.items)) }
{
    let mut values = Vec::new(alloc);
    let mut list = Vec::new(alloc);
    let mut rest = nodes.into_iter();
    'nodes: while let Some(node) = rest.next() {
        let NodeSkeleton { value, parts } = node;
        if values.push(value).is_err() || list.push(parts).is_err() {
            return None;
        }
    }
    Some((values, list))
}

/// Puts one more member to those that were found.
fn note<'t>(found: &mut Vec<(&'t str, Value<'t>)>, key: &'t str, value: Value<'t>) -> Option<()>
    ensures { IfSome result (λ _. members_view found.new.items ≡ with_last (members_view found.old.items) key.now (value_view value.entry)) }
{
    if found.push((key, value)).is_err() {
        return None;
    }
    Some(())
}

impl<'t> PlanParts<'t> {
    fn none(alloc: Global) -> PlanParts<'t>
        ensures { ArePlanParts result no_members }
    {
        PlanParts {
            found: Vec::new(alloc),
            parts: None,
        }
    }

    fn take_nodes(
        &mut self,
        alloc: Global,
        reader: &mut PlainReader<'t>,
        depth: usize,
    ) -> Option<()>
        ensures { IfSome result (λ _. IsMore depth (codes "nodes") reader.old reader.new (ArePlanParts self.old) (ArePlanParts self.new)) }
    {
        if self.parts.is_some() {
            return None;
        }
        let nodes = next_list(alloc, &NextNode, reader, depth, 64)?;
        let (values, parts) = parted(alloc, nodes)?;
        note(&mut self.found, "nodes", Value::Array(values))?;
        self.parts = Some(parts);
        Some(())
    }

    fn take_other(
        &mut self,
        alloc: Global,
        key: &'t str,
        reader: &mut PlainReader<'t>,
        depth: usize,
    ) -> Option<()>
        requires { bytes_eq key.now (codes "nodes") ≡ false }
        ensures { IfSome result (λ _. IsMore depth key.now reader.old reader.new (ArePlanParts self.old) (ArePlanParts self.new)) }
    {
        let value = read_value(alloc, reader, depth)?;
        note(&mut self.found, key, value)
    }
}

impl<'t> Gather<'t> for PlanParts<'t> {
    ghost Holds = { ArePlanParts };

    ghost Given = { ⊤ };

    ghost given = { λ _. tt };

    fn take(
        &mut self,
        alloc: Global,
        key: &'t str,
        reader: &mut PlainReader<'t>,
        depth: usize,
    ) -> Option<()> {
        if key == "nodes" {
            self.take_nodes(alloc, reader, depth)
        } else {
            self.take_other(alloc, key, reader, depth)
        }
    }
}

/// The value of a plan, with no rows and `null` for each terminus, and these.
#[derive(Drop)]
struct PlanSkeleton<'t> {
    value: Value<'t>,
    parts: Vec<CutParts<'t>>,
}

/// The skeleton of the plan that a text is.
fn skeleton_of<'t>(alloc: Global, text: &'t str) -> Option<PlanSkeleton<'t>>
    ensures { IfSome result (λ s. IsPlanSkeleton text.now s) }
{
    let mut parts = PlanParts::none(alloc);
    read_text(alloc, &mut parts, text)?;
    let PlanParts { found, parts } = parts;
    let parts = parts?;
    let value = Value::Object(found);
    if !fits(&value) {
        return None;
    }
    Some(PlanSkeleton { value, parts })
}

/// The plan of a text in which nothing is unusual. Of any other text it says nothing.
pub fn plain_plan(alloc: Global, text: &str) -> Option<Plan>
    ensures { IfSome result (λ plan. IsPlainText IsPlanOf text.now (plan_value plan)) }
{
    let skeleton = skeleton_of(alloc, text)?;
    let PlanSkeleton { value, parts } = skeleton;
    let Ok(plan) = read_plan_value(alloc, &value) else {
        return None;
    };
    if !has_single_keys(&value) {
        return None;
    }
    let Plan { unit, buses, nodes } = plan;
    let Ok(index) = NameIndex::of(alloc, &NodeName, nodes.as_slice()) else {
        return None;
    };
    let parts = placed(alloc, &index, parts)?;
    drop(index);
    Plan::of(unit, buses, with_parts(alloc, nodes, parts)?)
}

/// The rows and termini of nodes that this index finds.
fn placed(alloc: Global, nodes: &NameIndex, parts: Vec<CutParts<'_>>) -> Option<Vec<PlacedParts>>
    ensures { IfSome result (λ v. map placed_value v.items ≡ map (found_value (find_in nodes.now)) (map cut_value parts.entry.items)) }
{
    let mut list = Vec::new(alloc);
    let mut rest = parts.into_iter();
    'parts: while let Some(part) = rest.next() {
        let CutParts { rows, terminus } = part;
        let rows = found_rows(alloc, nodes, rows.as_slice())?;
        if list.push(PlacedParts { rows, terminus }).is_err() {
            return None;
        }
    }
    Some(list)
}

/// Rows that lead to nodes that this index finds. Rows that follow one another often lead to the same node, which is
/// then looked up once.
#[inline(never)]
fn found_rows(alloc: Global, nodes: &NameIndex, rows: &[NamedRow<'_>]) -> Option<Vec<Row>>
    ensures { IfSome result (λ v. map row_value v.items ≡ map (found_row (find_in nodes.now)) (map named_row rows.now)) }
{
    let Ok(mut list) = Vec::with_capacity(alloc, rows.len()) else {
        return None;
    };
    let mut last = None;
    for row in rows {
        let next = find_after(nodes, last, row.next);
        last = Some(next);
        if list.push(row_to(row, next)).is_err() {
            return None;
        }
    }
    Some(list)
}

/// A node's name that was looked up, and the node's index.
#[derive(Clone, Copy)]
struct FoundName<'t> {
    name: &'t str,
    index: usize,
}

/// Finds a name, unless it is the one that was found last.
fn find_after<'t>(nodes: &NameIndex, last: Option<FoundName<'t>>, name: &'t str) -> FoundName<'t>
    requires { IfSome last (λ f. f.index ≡ find_in nodes.now f.name.now) }
    ensures name { result.name.now ≡ name.now }
    ensures index { result.index ≡ find_in nodes.now name.now }
{
    match last {
        Some(found) if found.name == name => found,
        _ => FoundName {
            name,
            index: nodes.find(name),
        },
    }
}

/// A row whose next node was found.
fn row_to(row: &NamedRow<'_>, next: FoundName<'_>) -> Row
    ensures { row_value result ≡ found_row (λ _. next.entry.index) (named_row row.now) }
{
    Row {
        first: Eid::new(row.first),
        size: row.size,
        port: row.port,
        next: next.index,
    }
}

/// Nodes with these rows and termini, one by one.
fn with_parts(alloc: Global, nodes: Vec<Node>, parts: Vec<PlacedParts>) -> Option<Vec<Node>>
    ensures { IfSome result (λ v. map node_value v.items ≡ with_parts (map node_value nodes.items) (map placed_value parts.items)) }
{
    let mut filled = Vec::new(alloc);
    let mut rest = nodes.into_iter();
    let mut parts = parts.into_iter();
    'nodes: while let Some(node) = rest.next() {
        let part = parts.next()?;
        let node = with_part(node, part)?;
        if filled.push(node).is_err() {
            return None;
        }
    }
    Some(filled)
}

/// A node with these rows and this terminus.
fn with_part(mut node: Node, part: PlacedParts) -> Option<Node>
    ensures { IfSome result (λ n. node_value n ≡ with_part (node_value node) (placed_value part)) }
{
    let PlacedParts { rows, terminus } = part;
    if rows.len() > 256 {
        return None;
    }
    node.rows = rows;
    node.terminus = terminus;
    Some(node)
}
