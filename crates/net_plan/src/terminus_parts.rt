//! Termini straight from a text.
ghost use Rattle.std.specs.Prelude.{option_map, IfSome, ⊤};
ghost use Rattle.json.specs.Json.{Members, no_members, object};
ghost use Rattle.net_plan.{specs.Gathered.{AreParts, IsThere, IsPlain}, specs.JsonWords.{IsOptional}, specs.PlanText.{IsTerminusOf}, specs.TerminusParts.{terminus_slots}, specs.Trees.{data_of}};
ghost use Rattle.plan_values.specs.NodeValues.{terminus_value};

use crate::gather::{Gather, next_list, read_object, set_once};
use crate::next_value::next_number_within;
use crate::record_parts::NextRecord;
use plain_json::PlainReader;
use plan_values::{PlannedRecord, PlannedTerminus};
use std::alloc::Global;

/// What is known so far of a terminus.
#[derive(Drop)]
pub struct TerminusParts {
    tid: Option<u8>,
    records: Option<Vec<PlannedRecord>>,
}

impl TerminusParts {
    fn none() -> TerminusParts
        ensures { AreParts (terminus_slots result) no_members }
    {
        TerminusParts {
            tid: None,
            records: None,
        }
    }

    fn terminus(self) -> Option<PlannedTerminus>
        ensures { IfSome result (λ t. (ms : Members) → AreParts (terminus_slots self) ms → IsTerminusOf (data_of (object ms)) (terminus_value t) × IsPlain (object ms)) }
    {
        let tid = self.tid?;
        let records = self.records?;
        if tid > 254 || records.len() > 4096 {
            return None;
        }
        Some(PlannedTerminus { tid, records })
    }
}

impl<'t> Gather<'t> for TerminusParts {
    ghost Holds = { λ p. AreParts (terminus_slots p) };

    ghost Given = { ⊤ };

    ghost given = { λ _. tt };

    fn take(
        &mut self,
        alloc: Global,
        key: &'t str,
        reader: &mut PlainReader<'t>,
        depth: usize,
    ) -> Option<()> {
        match key {
            "tid" => set_once(&mut self.tid, next_number_within(reader, 0, 254)? as u8),
            "records" => set_once(
                &mut self.records,
                next_list(alloc, &NextRecord, reader, depth, 4096)?,
            ),
            _ => None,
        }
    }
}

/// The next value, where it is `null` or a terminus.
pub fn next_terminus(
    alloc: Global,
    reader: &mut PlainReader<'_>,
    depth: usize,
) -> Option<Option<PlannedTerminus>>
    ensures { IfSome result (λ t. IsThere depth reader.old reader.new (λ j. IsOptional IsTerminusOf (data_of j) (option_map terminus_value t) × IsPlain j)) }
{
    match reader.first_byte()? {
        b'n' => {
            reader.next_null()?;
            Some(None)
        }
        _ => {
            let mut parts = TerminusParts::none();
            read_object(alloc, &mut parts, reader, depth)?;
            Some(Some(parts.terminus()?))
        }
    }
}
