//! The PLDM terminus of a node, with its repository of records.
ghost use Rattle.std.specs.Prelude.{◌≤◌, vec_len};

/// A platform descriptor record (DSP0248) as it stands in a repository.
#[derive(Debug, Drop)]
pub struct PlannedRecord {
    /// The record handle, by which the record is asked for.
    pub handle: u32,
    /// The record handle of the record that follows; 0 where none does.
    pub next: u32,
    /// The record's bytes: its common header (10 bytes, DSP0248), then its body. `check` asks whether they are well
    /// formed.
    pub bytes: Vec<u8>,
}

/// The PLDM terminus of a node.
#[derive(Debug, Drop)]
pub struct PlannedTerminus {
    /// The terminus ID (DSP0240), 0 to 254; 0 where it has none yet.
    pub tid: u8,
    /// At most 4,096, in any order: each names the one that follows it.
    pub records: Vec<PlannedRecord>,
    pub ghost lawful_tid: { tid ≤ 254 },
    pub ghost few_records: { vec_len records ≤ 4096 },
}
