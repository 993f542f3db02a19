//! The terminus of nic, over a list of the record that is planned, or of others.
use net_sim::Network;
use pdr_repository::{ListTerminus, Terminus, is_lawful_list};
use pldm_message::Tid;
use std::alloc::{AllocError, Global};
use std::test::Fail;

/// A record's handle and its bytes.
type Record = (u32, Vec<u8>);

/// A record of another type than those that are known, with so many bytes of data.
fn record_of(alloc: Global, handle: u32, data: u16) -> Result<Vec<u8>, AllocError> {
    let mut bytes = handle.to_le_bytes().to_vec(alloc)?;
    bytes.extend_from_slice(&[1, 200, 0, 0])?;
    bytes.extend_from_slice(&data.to_le_bytes())?;
    for at in 0..data {
        bytes.push((at % 251) as u8)?;
    }
    Ok(bytes)
}

/// Records with handles from 1 to 20, each with one byte of data more than the one before.
pub fn twenty_records(alloc: Global) -> Result<Vec<Record>, AllocError> {
    let mut records = Vec::new(alloc);
    for data in 0..20u16 {
        let handle = u32::from(data).saturating_add(1);
        records.push((handle, record_of(alloc, handle, data)?))?;
    }
    Ok(records)
}

/// The one record that is planned at nic.
pub fn planned_record(alloc: Global) -> Result<Vec<Record>, AllocError> {
    let bytes = [1, 0, 0, 0, 1, 1, 0, 0, 9, 0, 1, 0, 1, 1, 0, 0, 1, 1, 17];
    let mut records = Vec::new(alloc);
    records.push((1, bytes.to_vec(alloc)?))?;
    Ok(records)
}

/// A terminus over a list of records.
fn list_of(alloc: Global, records: Vec<Record>) -> Result<ListTerminus, Fail> {
    if !is_lawful_list(&records) {
        return Err(Fail::new("no lawful list"));
    }
    Ok(ListTerminus::new(alloc, Tid::new(1), records)?)
}

/// A list of records, as the only terminus.
pub fn termini_of(alloc: Global, records: Vec<Record>) -> Result<Vec<Box<dyn Terminus>>, Fail> {
    let mut termini: Vec<Box<dyn Terminus>> = Vec::new(alloc);
    termini.push(Box::new(alloc, list_of(alloc, records)?)?)?;
    Ok(termini)
}

/// Whether the walker has collected exactly these records.
pub fn has_collected(network: &Network, walker: usize, wanted: &[Record]) -> bool {
    match network.collected(walker) {
        Some(records) => {
            records.len() == wanted.len()
                && records.iter().zip(wanted).all(|(record, wanted)| record.as_slice()
                    == wanted.1.as_slice())
        }
        None => false,
    }
}
