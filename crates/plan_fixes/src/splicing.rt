//! An edit of a plan, made in its text.
ghost use Rattle.std.specs.Prelude.{◌≡◌, ◌≤◌, ◌++◌, ◌∷◌, [], IfOk, IfSome, length, map, take, drop, string_bytes};
ghost use Rattle.json.specs.Value.{value_view};
ghost use Rattle.fault_texts.specs.Places.{record_pointer};
ghost use Rattle.net_plan.specs.Finding.{Step, step_value};
ghost use Rattle.net_pointers.specs.Offsets.{IsTextOf};
ghost use Rattle.plan_fixes.specs.Splices.{IsSpan, IsSpliced, changed_pointer};

use explanation_texts::value_text;
use fault_texts::{part_pointer, record_pointer, row_pointer};
use json::{Scratch, Value};
use net_explained::{Change, Edit};
use net_plan::{PlanError, PointerStep, json_of};
use net_pointers::offset_of_pointer;
use net_tables::lookup::rows_at;
use plan_values::Plan;
use std::alloc::{AllocError, Global};

/// Where a value stands in a text: from one offset up to another.
#[derive(Clone, Copy)]
struct Span {
    from: usize,
    to: usize,
}

/// The text of a plan with an edit made in it. None where the edit's place is not found. All but the value in which the
/// change is made stays as it is. Of what stands there then nothing is promised: who calls reads the text.
pub fn spliced(
    alloc: Global,
    text: &[u8],
    plan: &Plan,
    edit: &Edit,
) -> Result<Option<Vec<u8>>, AllocError>
    ensures { IfOk result (λ found. IfSome found (λ after. IsSpliced text.now edit.now after.items)) }
{
    let mut scratch = Scratch::new(alloc);
    match json_of(alloc, text, &mut scratch) {
        Ok(tree) => spliced_in(alloc, text, &tree, plan, edit),
        // no memory: the text was read before, so `json_of` has no other error.
        Err(_) => Err(AllocError),
    }
}

fn spliced_in(
    alloc: Global,
    text: &[u8],
    tree: &Value<'_>,
    plan: &Plan,
    edit: &Edit,
) -> Result<Option<Vec<u8>>, AllocError>
    requires { IsTextOf text.now (value_view tree.now) }
    ensures { IfOk result (λ found. IfSome found (λ after. IsSpliced text.now edit.now after.items)) }
{
    let pointer = changed_pointer(alloc, edit.node, &edit.change)?;
    let Some(span) = span_in(alloc, text, tree, &pointer)? else {
        return Ok(None);
    };
    match middle_text(alloc, text, tree, span, plan, edit)? {
        Some(middle) => Ok(Some(with_middle(alloc, text, span, middle.as_slice())?)),
        None => Ok(None),
    }
}

/// The text with these bytes in place of a span.
fn with_middle(alloc: Global, text: &[u8], span: Span, middle: &[u8]) -> Result<Vec<u8>, AllocError>
    requires from { span.from ≤ length text.now }
    requires to { span.to ≤ length text.now }
    ensures { IfOk result (λ after. after.items ≡ take span.from text.now ++ (middle.now ++ drop span.to text.now)) }
{
    let mut after = text[..span.from].to_vec(alloc)?;
    after.extend_from_slice(middle)?;
    after.extend_from_slice(&text[span.to..])?;
    Ok(after)
}

/// Where the value stands to which a pointer leads, if it leads to one.
fn span_in(
    alloc: Global,
    text: &[u8],
    tree: &Value<'_>,
    pointer: &[PointerStep],
) -> Result<Option<Span>, AllocError>
    requires { IsTextOf text.now (value_view tree.now) }
    ensures { IfOk result (λ found. IfSome found (λ span. IsSpan text.now (map step_value pointer.now) span.from span.to)) }
{
    let Some(from) = offset_of_pointer(alloc, text, tree, pointer)? else {
        return Ok(None);
    };
    let to = value_end(text, from);
    if from > to || to > text.len() {
        return Ok(None);
    }
    let mut scratch = Scratch::new(alloc);
    match json_of(alloc, &text[from..to], &mut scratch) {
        Ok(_) => Ok(Some(Span { from, to })),
        Err(PlanError::OutOfMemory) => Err(AllocError),
        Err(_) => Ok(None),
    }
}

/// Where the value ends that begins at an offset of a JSON text.
fn value_end(text: &[u8], from: usize) -> usize {
    let mut depth = 0usize;
    let mut in_text = false;
    let mut in_escape = false;
    for offset in from..text.len() {
        let byte = text[offset];
        if in_text {
            in_text = in_escape || byte != b'"';
            in_escape = !in_escape && byte == b'\\';
            if !in_text && depth == 0 {
                return offset + 1;
            }
        } else {
            match byte {
                b'"' => in_text = true,
                b'[' | b'{' => depth = depth.saturating_add(1),
                b']' | b'}' if depth <= 1 => return offset + depth,
                b']' | b'}' => depth -= 1,
                b',' | b' ' | b'\t' | b'\n' | b'\r' if depth == 0 => return offset,
                _ => {}
            }
        }
    }
    text.len()
}

/// The pointer to what a change of a node is made in.
fn changed_pointer(
    alloc: Global,
    node: usize,
    change: &Change,
) -> Result<Vec<PointerStep>, AllocError>
    ensures { IfOk result (λ pointer. map step_value pointer.items ≡ changed_pointer node change.now) }
{
    match change {
        Change::Name(_) => part_pointer(alloc, node, "name"),
        Change::Kind(_) => part_pointer(alloc, node, "kind"),
        Change::Eid(_) => part_pointer(alloc, node, "eid"),
        Change::Owner(_) => part_pointer(alloc, node, "owner"),
        Change::Pool(_) => part_pointer(alloc, node, "pool"),
        Change::NoTerminus => part_pointer(alloc, node, "terminus"),
        Change::Row(at, _) => row_pointer(alloc, node, *at),
        Change::LessRow(_) | Change::MoreRow(_) => part_pointer(alloc, node, "rows"),
        Change::Handle(at, _) => field_pointer(alloc, node, *at, "handle"),
        Change::Next(at, _) => field_pointer(alloc, node, *at, "next"),
        Change::Bytes(at, _) => field_pointer(alloc, node, *at, "bytes"),
    }
}

/// The pointer to what a record has at a key.
fn field_pointer(
    alloc: Global,
    node: usize,
    index: usize,
    key: &'static str,
) -> Result<Vec<PointerStep>, AllocError>
    ensures { IfOk result (λ pointer. map step_value pointer.items ≡ record_pointer node index ++ Step.key key.now ∷ []) }
{
    let mut pointer = record_pointer(alloc, node, index)?;
    pointer.push(PointerStep::Key(key))?;
    Ok(pointer)
}

// ---- what is to stand there

/// What is to stand in place of a span after an edit. None where a row of the list is not found.
fn middle_text(
    alloc: Global,
    text: &[u8],
    tree: &Value<'_>,
    span: Span,
    plan: &Plan,
    edit: &Edit,
) -> Result<Option<Vec<u8>>, AllocError>
    requires { IsTextOf text.now (value_view tree.now) }
{
    let rows = Rows {
        node: edit.node,
        count: rows_at(plan, edit.node).len(),
        list: span,
    };
    let value = value_text(alloc, plan, &edit.change)?;
    match &edit.change {
        Change::LessRow(at) => rows_without(alloc, text, tree, rows, *at),
        Change::MoreRow(_) => rows_with(alloc, text, tree, rows, &value),
        _ => Ok(Some(value.as_bytes().to_vec(alloc)?)),
    }
}

/// The rows of a node: how many there are, and where their list stands.
#[derive(Clone, Copy)]
struct Rows {
    node: usize,
    count: usize,
    list: Span,
}

/// The list without the row at the index. What stands between two rows goes with it.
fn rows_without(
    alloc: Global,
    text: &[u8],
    tree: &Value<'_>,
    rows: Rows,
    at: usize,
) -> Result<Option<Vec<u8>>, AllocError>
    requires { IsTextOf text.now (value_view tree.now) }
{
    let Some(row) = row_in(alloc, text, tree, rows.node, at)? else {
        return Ok(None);
    };
    let Some(next) = row_in(alloc, text, tree, rows.node, at.saturating_add(1))? else {
        let from = end_before(alloc, text, tree, rows.node, at)?.unwrap_or(row.from);
        let cut = Span { from, to: row.to };
        return Ok(Some(list_with(alloc, text, rows.list, cut, &[])?));
    };
    let cut = Span {
        from: row.from,
        to: next.from,
    };
    Ok(Some(list_with(alloc, text, rows.list, cut, &[])?))
}

/// The list with one more row behind the last one, set apart as the last one is.
fn rows_with(
    alloc: Global,
    text: &[u8],
    tree: &Value<'_>,
    rows: Rows,
    value: &str,
) -> Result<Option<Vec<u8>>, AllocError>
    requires { IsTextOf text.now (value_view tree.now) }
{
    let list = rows.list;
    if rows.count == 0 {
        let only = format!(in alloc; "[{value}]")?;
        return Ok(Some(only.as_bytes().to_vec(alloc)?));
    }
    let Some(last) = row_in(alloc, text, tree, rows.node, rows.count - 1)? else {
        return Ok(None);
    };
    let end = end_before(alloc, text, tree, rows.node, rows.count - 1)?;
    let mut more = ",".as_bytes().to_vec(alloc)?;
    match end {
        Some(end) => more.extend_from_slice(between(text, end.saturating_add(1), last.from))?,
        None => more.extend_from_slice(between(text, list.from.saturating_add(1), last.from))?,
    }
    more.extend_from_slice(value.as_bytes())?;
    let behind = Span {
        from: last.to,
        to: last.to,
    };
    Ok(Some(list_with(alloc, text, list, behind, more.as_slice())?))
}

/// Where the row before that at the index ends, if there is one.
fn end_before(
    alloc: Global,
    text: &[u8],
    tree: &Value<'_>,
    node: usize,
    at: usize,
) -> Result<Option<usize>, AllocError>
    requires { IsTextOf text.now (value_view tree.now) }
{
    if at == 0 {
        return Ok(None);
    }
    Ok(row_in(alloc, text, tree, node, at - 1)?.map(|row| row.to))
}

/// Where a row of a node stands, if it has one at the index.
fn row_in(
    alloc: Global,
    text: &[u8],
    tree: &Value<'_>,
    node: usize,
    at: usize,
) -> Result<Option<Span>, AllocError>
    requires { IsTextOf text.now (value_view tree.now) }
{
    let pointer = row_pointer(alloc, node, at)?;
    span_in(alloc, text, tree, &pointer)
}

/// The list with these bytes in place of what is cut.
fn list_with(
    alloc: Global,
    text: &[u8],
    list: Span,
    cut: Span,
    bytes: &[u8],
) -> Result<Vec<u8>, AllocError> {
    let mut written = between(text, list.from, cut.from).to_vec(alloc)?;
    written.extend_from_slice(bytes)?;
    written.extend_from_slice(between(text, cut.to, list.to))?;
    Ok(written)
}

/// The bytes of a text from an offset up to another.
fn between(text: &[u8], from: usize, to: usize) -> &[u8] {
    if from <= to && to <= text.len() {
        &text[from..to]
    } else {
        &[]
    }
}
