//! Where something stands in the text of a board.

/// Where a value stands: in a table of a list of tables, or of one inside it, at a key and an index of the list there.
#[derive(Clone, Copy)]
pub struct Place<'a> {
    /// `bus` or `node`, and the index of the table; none at the top.
    pub table: Option<(&'static str, usize)>,
    /// The index of a record of the node.
    pub record: Option<usize>,
    pub key: &'a str,
    /// The index in the list at the key.
    pub item: Option<usize>,
}

/// The line and the column, both from 1, where a value stands, if it stands there as most write it: a line for each
/// key, below the header of its table. Otherwise of the header, or of the text's beginning.
pub fn position(text: &str, place: Place) -> (usize, usize) {
    let (start, line) = table_start(text, place);
    let mut number = line;
    for row in text.lines().skip(start) {
        if is_header(row) {
            break;
        }
        number = number.saturating_add(1);
        if let Some(column) = value_column(row, place.key) {
            return item_position(text, number, column, place.item.unwrap_or(0));
        }
    }
    (line.max(1), 1)
}

/// The line of the header of the node at an index, from 1.
pub fn line_of_node(text: &str, node: usize) -> usize {
    header_line(text, "[[node]]", node, 0).unwrap_or(0).max(1)
}

/// The line of the header of a record of the node at an index, from 1; that of the node where the record has none.
pub fn line_of_record(text: &str, node: usize, record: usize) -> usize {
    let line = line_of_node(text, node);
    header_line(text, "[[node.record]]", record, line).unwrap_or(line)
}

/// How many lines stand before those of a table, and the line of its header; 0 and 0 at the top.
fn table_start(text: &str, place: Place) -> (usize, usize) {
    let Some((table, index)) = place.table else {
        return (0, 0);
    };
    let header = match table {
        "bus" => "[[bus]]",
        _ => "[[node]]",
    };
    let line = header_line(text, header, index, 0).unwrap_or(0);
    match place.record {
        Some(record) => {
            let inner = header_line(text, "[[node.record]]", record, line).unwrap_or(line);
            (inner, inner)
        }
        None => (line, line),
    }
}

/// The line, from 1, of the header of this index, behind so many lines.
fn header_line(text: &str, header: &str, index: usize, behind: usize) -> Option<usize> {
    let mut number = behind;
    let mut left = index;
    for row in text.lines().skip(behind) {
        number = number.saturating_add(1);
        if row.trim_start().starts_with(header) {
            if left == 0 {
                return Some(number);
            }
            left -= 1;
        }
    }
    None
}

fn is_header(row: &str) -> bool {
    row.trim_start().starts_with("[")
}

/// The column, from 1, where the value of a key stands in a line.
fn value_column(row: &str, key: &str) -> Option<usize> {
    let rest = row.trim_start().strip_prefix(key)?;
    let value = rest.trim_start().strip_prefix("=")?.trim_start();
    let before = row.len().saturating_sub(value.len());
    Some(before.saturating_add(1))
}

/// Where the item of a list stands that begins at a line and a column, as long as the list stands in this line.
fn item_position(text: &str, line: usize, column: usize, item: usize) -> (usize, usize) {
    let Some(row) = text.lines().nth(line.saturating_sub(1)) else {
        return (line, column);
    };
    let mut left = item;
    let mut is_quoted = false;
    let mut at = column;
    for byte in row.bytes().skip(column.saturating_sub(1)) {
        if left == 0 && byte != b' ' && byte != b'[' {
            return (line, at);
        }
        if byte == b'"' {
            is_quoted = !is_quoted;
        }
        if byte == b',' && !is_quoted && left > 0 {
            left -= 1;
        }
        at = at.saturating_add(1);
    }
    (line, column)
}
