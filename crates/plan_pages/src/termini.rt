//! The termini of a plan, with their records decoded.

use crate::escaping::escaped;
use crate::markup::{block, none};
use mctp_transport::Wire;
use net_tables::lookup::places_at;
use pdr_record::Record;
use plan_texts::number_text;
use plan_values::{Certificate, Plan, PlannedRecord, PlannedTerminus, RecordPlace};
use record_fields::description;
use std::alloc::{AllocError, Global};

/// How many records of a terminus are shown.
const SHOWN_RECORDS: usize = 64;

/// How many bytes a record may have of which the fields are shown.
const DECODED_BYTES: usize = 512;

/// The termini, each with its first records and the places that a certificate gives them.
pub fn terminus_list(
    alloc: Global,
    plan: &Plan,
    certificate: Option<&Certificate>,
) -> Result<String, AllocError> {
    let mut list = String::new(alloc);
    for (index, node) in plan.nodes.iter().enumerate() {
        if let Some(terminus) = &node.terminus {
            let places = places_of(certificate, index);
            let name = node.name.text.as_str();
            list.push_str(&terminus_shown(alloc, name, terminus, places)?)?;
        }
    }
    if list.is_empty() {
        return none(alloc);
    }
    Ok(list)
}

/// The places that a certificate gives the records of a node.
fn places_of(certificate: Option<&Certificate>, node: usize) -> &[RecordPlace] {
    match certificate {
        Some(certificate) => places_at(certificate, node),
        None => &[],
    }
}

fn terminus_shown(
    alloc: Global,
    name: &str,
    terminus: &PlannedTerminus,
    places: &[RecordPlace],
) -> Result<String, AllocError> {
    let name = escaped(alloc, name)?;
    let tid = terminus.tid;
    let count = terminus.records.len();
    let records = records_shown(alloc, &terminus.records, places)?;
    let rest = rest_text(alloc, count.saturating_sub(SHOWN_RECORDS))?;
    format!(in alloc;
        "<h3>{name}: terminus ID {tid}, records {count}</h3>\n<dl>\n{records}</dl>\n{rest}"
    )
}

/// How many records are not shown, where there are some.
fn rest_text(alloc: Global, left: usize) -> Result<String, AllocError> {
    if left == 0 {
        return Ok(String::new(alloc));
    }
    format!(in alloc; "<p class=\"note\">And {left} more records.</p>\n")
}

/// The first records of a terminus.
fn records_shown(
    alloc: Global,
    records: &[PlannedRecord],
    places: &[RecordPlace],
) -> Result<String, AllocError> {
    let mut shown = String::new(alloc);
    for (index, record) in records.iter().enumerate() {
        if index < SHOWN_RECORDS {
            let place = places.get(index).map(|place| usize::from(place.value));
            shown.push_str(&record_shown(alloc, index, place, record)?)?;
        }
    }
    Ok(shown)
}

/// A record: where it stands in its list and along the next handles, its handles, and its fields.
fn record_shown(
    alloc: Global,
    index: usize,
    place: Option<usize>,
    record: &PlannedRecord,
) -> Result<String, AllocError> {
    let place = number_text(alloc, place)?;
    let handle = record.handle;
    let next = record.next;
    let length = record.bytes.len();
    let fields = fields_shown(alloc, &record.bytes)?;
    format!(in alloc;
        "<dt>record {index}: place {place}, handle {handle}, next {next}, bytes {length}</dt>\n<dd>{fields}</dd>\n"
    )
}

/// The fields of a record, or why none are shown.
fn fields_shown(alloc: Global, bytes: &[u8]) -> Result<String, AllocError> {
    if bytes.len() > DECODED_BYTES {
        return format!(in alloc;
            "<p class=\"note\">Records of more than {DECODED_BYTES} bytes are not decoded here.</p>\n"
        );
    }
    match Record::read(bytes) {
        Ok(record) => block(alloc, &description(alloc, &record)?),
        Err(error) => {
            let code = error.code();
            format!(in alloc; "<p class=\"note\">No record: {code}.</p>\n")
        }
    }
}
