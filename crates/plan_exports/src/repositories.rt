//! The records of a repository, one after another.
ghost use Rattle.std.specs.Prelude.{◌≡◌, IfOk};
ghost use Rattle.pdr_repository.specs.Records.{entries};
ghost use Rattle.plan_exports.specs.Repositories.{joined_bytes};

use std::alloc::{AllocError, Global};

/// The bytes of records, one after another.
pub fn joined_records(alloc: Global, records: &[(u32, Vec<u8>)]) -> Result<Vec<u8>, AllocError>
    ensures { IfOk result (λ bytes. bytes.items ≡ joined_bytes (entries records.now)) }
{
    let mut bytes = Vec::new(alloc);
    for record in records {
        bytes.extend_from_slice(&record.1)?;
    }
    Ok(bytes)
}
