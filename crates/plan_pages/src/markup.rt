//! Sections, tables and lists.

use crate::escaping::escaped;
use std::alloc::{AllocError, Global};

/// Adds a section with a heading, to which a link leads by its name.
pub fn push_section(
    text: &mut String,
    id: &str,
    heading: &str,
    inside: &str,
) -> Result<(), AllocError> {
    write!(
        text,
        "<section id=\"{id}\">\n<h2>{heading}</h2>\n{inside}</section>\n"
    )
}

/// A table with a heading for each column. Where there is no row it says so.
pub fn table(alloc: Global, headings: &[&str], rows: &str) -> Result<String, AllocError> {
    if rows.is_empty() {
        return none(alloc);
    }
    let mut table = "<div class=\"wide\">\n<table>\n<thead><tr>".to_string(alloc)?;
    for heading in headings {
        write!(table, "<th scope=\"col\">{heading}</th>")?;
    }
    write!(
        table,
        "</tr></thead>\n<tbody>\n{rows}</tbody>\n</table>\n</div>\n"
    )?;
    Ok(table)
}

/// What stands where there would be nothing.
pub fn none(alloc: Global) -> Result<String, AllocError> {
    "<p class=\"note\">None.</p>\n".to_string(alloc)
}

/// Begins a row of a table with its heading.
pub fn begin_row(alloc: Global, heading: &str, rows: &mut String) -> Result<(), AllocError> {
    let heading = escaped(alloc, heading)?;
    write!(rows, "<tr><th scope=\"row\">{heading}</th>")
}

/// Adds a cell; a dash where the text is empty.
pub fn push_cell(alloc: Global, text: &str, rows: &mut String) -> Result<(), AllocError> {
    if text.is_empty() {
        return rows.push_str("<td>-</td>");
    }
    let text = escaped(alloc, text)?;
    write!(rows, "<td>{text}</td>")
}

/// Ends a row of a table.
pub fn end_row(rows: &mut String) -> Result<(), AllocError> {
    rows.push_str("</tr>\n")
}

/// Lines as they stand, in a block of their own.
pub fn block(alloc: Global, lines: &str) -> Result<String, AllocError> {
    let lines = escaped(alloc, lines)?;
    format!(in alloc; "<pre>{lines}</pre>\n")
}

/// A text in a picture, with the attributes of its element.
pub fn label(alloc: Global, attributes: &str, text: &str) -> Result<String, AllocError> {
    let text = escaped(alloc, text)?;
    format!(in alloc; "<text {attributes}>{text}</text>\n")
}

/// Adds a text to a list of texts, behind a comma where there are some.
pub fn push_listed(list: &mut String, text: &str) -> Result<(), AllocError> {
    if !list.is_empty() {
        list.push_str(", ")?;
    }
    list.push_str(text)
}
