//! Records straight from a text.
ghost use Rattle.std.specs.Prelude.{IfSome, ⊤};
ghost use Rattle.json.specs.Json.{Members, no_members, object};
ghost use Rattle.net_plan.{specs.Gathered.{AreParts, IsPlain}, specs.PlanText.{IsRecordOf}, specs.RecordParts.{record_slots}, specs.Trees.{data_of}};
ghost use Rattle.plan_values.specs.NodeValues.{record_value};

use crate::gather::{Gather, NextItem, read_object, set_once};
use crate::next_value::{next_hex, next_word};
use plain_json::PlainReader;
use plan_values::PlannedRecord;
use std::alloc::Global;

/// What is known so far of a record.
#[derive(Drop)]
pub struct RecordParts {
    handle: Option<u32>,
    next: Option<u32>,
    bytes: Option<Vec<u8>>,
}

impl RecordParts {
    fn none() -> RecordParts
        ensures { AreParts (record_slots result) no_members }
    {
        RecordParts {
            handle: None,
            next: None,
            bytes: None,
        }
    }

    fn record(self) -> Option<PlannedRecord>
        ensures { IfSome result (λ r. (ms : Members) → AreParts (record_slots self) ms → IsRecordOf (data_of (object ms)) (record_value r) × IsPlain (object ms)) }
    {
        Some(PlannedRecord {
            handle: self.handle?,
            next: self.next?,
            bytes: self.bytes?,
        })
    }
}

impl<'t> Gather<'t> for RecordParts {
    ghost Holds = { λ p. AreParts (record_slots p) };

    ghost Given = { ⊤ };

    ghost given = { λ _. tt };

    fn take(
        &mut self,
        alloc: Global,
        key: &'t str,
        reader: &mut PlainReader<'t>,
        _depth: usize,
    ) -> Option<()> {
        match key {
            "handle" => set_once(&mut self.handle, next_word(reader)?),
            "next" => set_once(&mut self.next, next_word(reader)?),
            "bytes" => set_once(&mut self.bytes, next_hex(alloc, reader)?),
            _ => None,
        }
    }
}

/// Reads records.
#[derive(Clone, Copy)]
pub struct NextRecord;

impl<'t> NextItem<'t> for NextRecord {
    type Item = PlannedRecord;

    ghost IsOf = { λ _ j r. IsRecordOf (data_of j) (record_value r) × IsPlain j };

    fn next_item(
        &self,
        alloc: Global,
        reader: &mut PlainReader<'t>,
        depth: usize,
    ) -> Option<PlannedRecord> {
        let mut parts = RecordParts::none();
        read_object(alloc, &mut parts, reader, depth)?;
        parts.record()
    }
}
