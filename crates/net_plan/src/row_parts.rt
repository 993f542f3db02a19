//! Rows straight from a text.
ghost use Rattle.std.specs.Prelude.{IfSome, ⊤};
ghost use Rattle.json.specs.Json.{Members, no_members, object};
ghost use Rattle.net_plan.{specs.Gathered.{AreParts, IsNext, IsPlain}, specs.JsonWords.{IsNumberWithin}, specs.RowParts.{row_slots, IsNamedRowOf, named_row}, specs.Trees.{data_of}};

use crate::gather::{Gather, NextItem, read_object, set_once};
use crate::next_value::{next_byte, next_number_within, next_text};
use plain_json::PlainReader;
use std::alloc::Global;

/// A row whose next node is still a text. Whether that is a node's name shows once all nodes are read.
#[derive(Clone, Copy)]
pub struct NamedRow<'t> {
    pub next: &'t str,
    pub first: u8,
    pub size: u8,
    pub port: u8,
}

/// What is known so far of a row.
#[derive(Clone, Copy)]
pub struct RowParts<'t> {
    first: Option<u8>,
    size: Option<u8>,
    port: Option<u8>,
    next: Option<&'t str>,
}

impl<'t> RowParts<'t> {
    fn none() -> RowParts<'t>
        ensures { AreParts (row_slots result) no_members }
    {
        RowParts {
            first: None,
            size: None,
            port: None,
            next: None,
        }
    }

    fn row(&self) -> Option<NamedRow<'t>>
        ensures { IfSome result (λ r. (ms : Members) → AreParts (row_slots self.now) ms → IsNamedRowOf (data_of (object ms)) (named_row r) × IsPlain (object ms)) }
    {
        Some(NamedRow {
            first: self.first?,
            size: self.size?,
            port: self.port?,
            next: self.next?,
        })
    }
}

impl<'t> Gather<'t> for RowParts<'t> {
    ghost Holds = { λ p. AreParts (row_slots p) };

    ghost Given = { ⊤ };

    ghost given = { λ _. tt };

    #[inline(always)]
    fn take(
        &mut self,
        _alloc: Global,
        key: &'t str,
        reader: &mut PlainReader<'t>,
        _depth: usize,
    ) -> Option<()> {
        match key {
            "first" => set_once(&mut self.first, next_byte(reader)?),
            "size" => set_once(&mut self.size, next_byte(reader)?),
            "port" => set_once(&mut self.port, next_port(reader)?),
            "next" => set_once(&mut self.next, next_text(reader)?),
            _ => None,
        }
    }
}

/// Reads rows.
#[derive(Clone, Copy)]
pub struct NextRow;

impl<'t> NextItem<'t> for NextRow {
    type Item = NamedRow<'t>;

    ghost IsOf = { λ _ j r. IsNamedRowOf (data_of j) (named_row r) × IsPlain j };

    fn next_item(
        &self,
        alloc: Global,
        reader: &mut PlainReader<'t>,
        depth: usize,
    ) -> Option<NamedRow<'t>> {
        let mut parts = RowParts::none();
        read_object(alloc, &mut parts, reader, depth)?;
        parts.row()
    }
}

/// The index of a port.
fn next_port(reader: &mut PlainReader<'_>) -> Option<u8>
    ensures { IfSome result (λ n. IsNext reader.old reader.new (λ j. IsNumberWithin 0 31 (data_of j) n × IsPlain j)) }
{
    Some(next_number_within(reader, 0, 31)? as u8)
}
