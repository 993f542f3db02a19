//! A terminus over one block of records.
ghost use Rattle.std.specs.Prelude.{◌≡◌, ◌≤◌, length, IfOk, None, option_map};
ghost use Rattle.pdr_repository.{specs.Records.{entries, IsLawful}, specs.LentParts.{LendsPart}};

use crate::answering::answer_request;
use crate::lawful_list::MAX_RECORDS;
use crate::parts::cut;
use crate::record_block::RecordBlock;
use crate::terminus::{MAX_ANSWER, Terminus};
use arrayvec::ArrayVec;
use pldm_message::Tid;
use std::alloc::{AllocError, Global};

/// A terminus that keeps the bytes of all its records in one block, by place. It takes three allocations whatever the
/// number of records, and lends parts of records by `part`. To make it, the records are copied once.
///
/// A record is found by halving in an index of the handles, as in a [`ListTerminus`](crate::ListTerminus), which keeps
/// the list that it is given and copies nothing. Both give the same answers.
#[derive(Debug, Drop)]
pub struct BlockTerminus {
    tid: Tid,
    records: RecordBlock,
}

impl BlockTerminus {
    ghost use Rattle.pdr_repository.specs.BlockTermini.{block_tid, block_records};

    /// A terminus of this TID over these records, by place: at most 4096 of them, a lawful list, as `is_lawful_list`
    /// tests.
    pub fn new(alloc: Global, tid: Tid, records: Vec<(u32, Vec<u8>)>) -> Result<Self, AllocError>
        requires few { length records.items ≤ MAX_RECORDS }
        requires lawful { IsLawful (entries records.items) }
        ensures tid { IfOk result (λ terminus. block_tid terminus ≡ tid.value) }
        ensures records { IfOk result (λ terminus. block_records terminus ≡ entries records.items) }
    {
        let records = RecordBlock::new(alloc, records.as_slice())?;
        Ok(BlockTerminus { tid, records })
    }

    /// Lends the bytes of the record of a handle from `offset` on: `count` of them, or all that are left if they are
    /// fewer. None where no record has the handle, as for 0, or the offset isn't below the record's length. It takes no
    /// memory.
    pub fn part(&self, handle: u32, offset: usize, count: usize) -> Option<&[u8]>
        ensures lent { LendsPart (block_records self.now) handle offset count (option_map (λ part. part.now) result) }
        ensures zero { handle ≡ 0 → result ≡ None }
    {
        let bytes = self.records.bytes_of(handle)?;
        if offset >= bytes.len() {
            return None;
        }
        Some(cut(bytes, offset, count))
    }
}

impl Terminus for BlockTerminus {
    ghost use Rattle.pdr_repository.specs.BlockTermini.{block_tid, block_records};

    ghost tid = { block_tid };

    ghost records = { block_records };

    fn answer(&mut self, request: &[u8], out: &mut ArrayVec<u8, MAX_ANSWER>) -> bool {
        answer_request(&mut self.tid, &self.records, request, out)
    }
}
