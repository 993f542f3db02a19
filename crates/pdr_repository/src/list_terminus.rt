//! A terminus over a plain list of records.
ghost use Rattle.std.specs.Prelude.{◌≡◌, ◌≤◌, length, IfOk};
ghost use Rattle.pdr_repository.specs.Records.{entries, IsLawful};

use crate::answering::answer_request;
use crate::lawful_list::MAX_RECORDS;
use crate::record_list::RecordList;
use crate::terminus::{MAX_ANSWER, Terminus};
use arrayvec::ArrayVec;
use pldm_message::Tid;
use std::alloc::{AllocError, Global};

/// A terminus over a list of handles and record bytes, by place. It keeps the list that it is given, and beside it an
/// index of the handles, so that a record is found by halving.
///
/// It is the kind for records that stand in a list already. A [`BlockTerminus`](crate::BlockTerminus) copies them into
/// one block, and lends parts of them. Both give the same answers.
#[derive(Debug, Drop)]
pub struct ListTerminus {
    tid: Tid,
    records: RecordList,
}

impl ListTerminus {
    ghost use Rattle.pdr_repository.specs.ListTermini.{list_tid, list_records};

    /// A terminus of this TID over these records, by place: at most 4096 of them, a lawful list, as `is_lawful_list`
    /// tests.
    pub fn new(alloc: Global, tid: Tid, records: Vec<(u32, Vec<u8>)>) -> Result<Self, AllocError>
        requires few { length records.items ≤ MAX_RECORDS }
        requires lawful { IsLawful (entries records.items) }
        ensures tid { IfOk result (λ terminus. list_tid terminus ≡ tid.value) }
        ensures records { IfOk result (λ terminus. list_records terminus ≡ entries records.items) }
    {
        let records = RecordList::new(alloc, records)?;
        Ok(ListTerminus { tid, records })
    }
}

impl Terminus for ListTerminus {
    ghost use Rattle.pdr_repository.specs.ListTermini.{list_tid, list_records};

    ghost tid = { list_tid };

    ghost records = { list_records };

    fn answer(&mut self, request: &[u8], out: &mut ArrayVec<u8, MAX_ANSWER>) -> bool {
        answer_request(&mut self.tid, &self.records, request, out)
    }
}
