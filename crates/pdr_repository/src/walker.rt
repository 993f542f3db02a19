//! A walk through the records of a terminus (DSP0248, section 26.2), fed one answer at a time.
ghost use Rattle.std.specs.Prelude.{◌≡◌, ◌≢◌, ◌⊎◌, ◌+◌, ◌<◌, ◌≤◌, ◌^◌, length, sum_by, map, true, false, Some, is_some};
ghost use Rattle.pdr_repository.specs.declared.walker.due.Due.{Due};

mod collected;
mod due;
mod judging;
mod pieces;

use crate::parts::change_of;
use crate::walk_fault::{Step, WalkFault};
use collected::Collected;
use due::Due;
use judging::{Limits, is_last, judge};
use mctp_transport::Wire;
use pieces::record_length;
use pldm_message::{
    CompletionCode, GetPdrAnswer, GetPdrRequest, InstanceId, PdrPart, PldmHeader, TransferFlag,
    TransferOperation,
};
use std::alloc::{AllocError, Global};
use std::mem;

/// A walk under way: from the first record on, each record part by part, until an answer names no next record.
///
/// The contracts speak of lists of exchanges, the requests and answers so far: `HasTakenIn` says which of them fit what
/// a walker holds.
#[derive(Debug, Drop)]
pub struct Walker {
    alloc: Global,
    count: u16,
    max_records: usize,
    max_bytes: usize,
    collected: Collected,
    /// The parts of the record under way, joined.
    under_way: Vec<u8>,
    /// How many bytes are in the records and under way.
    bytes: usize,
    /// What is asked next, nothing once the walk is done.
    due: Option<Due>,
    /// The ID under which that is outstanding.
    waiting: Option<InstanceId>,
    failed: bool,
    taken: usize,
    ghost least: { 8 ≤ count },
    ghost most: { count ≤ 4079 },
    ghost room: { max_bytes + 1 < 2 ^ 64 },
    ghost few: { failed ≡ false → taken ≤ bytes },
    ghost fewer: { taken ≤ bytes + 1 },
    ghost asked: { is_some due ≡ false → is_some waiting ≡ false },
    ghost fresh: { (d : Due) → due ≡ Some d → d.operation.value ≡ 1 → length under_way.items ≡ 0 },
    ghost counted: { bytes ≡ sum_by length (map (λ v. v.items) collected.records.items) + length under_way.items },
    ghost within: { bytes ≤ max_bytes },
}

impl Walker {
    ghost use Rattle.std.specs.Prelude.{◌↔◌, List, IsTrue, IfOk, OnOk, OnErr, Ok, None, [], option_map, vec_len, vec_capacity};
    ghost use Rattle.pldm_message.{specs.PdrValues.{part}, specs.Pdrs.{Part}, specs.Heads.{outcome_value}};
    ghost use Rattle.pdr_repository.{specs.Walks.{Exchange, Collects, first_part}, specs.Faults.{Judges}, specs.Dues.{request_of}, specs.Walkers.{room_of, fresh, HasTakenIn, Asks, AsksWhatIsDue, Fails, Proceeds, TakesOutcome, TakesMessage, Takes, Tells, TakesDueAnswer}, specs.WalkerStates.{state_of}, specs.WalkerRooms.{HasRoom, LacksRoom, BringsTooMuch}};

    /// A walk that has not begun, with parts of at most `count` bytes, 8 to 4079. It collects at most `max_records`
    /// records and `max_bytes` bytes, which is below `usize::MAX`.
    #[tactic(auto, using(crate::proofs::Taking::fresh_stands))]
    pub fn new(
        alloc: Global,
        count: u16,
        max_records: usize,
        max_bytes: usize,
    ) -> Result<Self, AllocError>
        requires count { (8 ≤ count) × (count ≤ 4079) }
        requires max_bytes { max_bytes + 1 < 2 ^ 64 }
        ensures state { IfOk result (λ walker. state_of walker ≡ fresh count max_records max_bytes) }
        ensures stands { IfOk result (λ walker. HasTakenIn (state_of walker) []) }
    {
        let under_way = Vec::with_capacity(alloc, usize::from(count))?;
        Ok(Walker {
            alloc,
            count,
            max_records,
            max_bytes,
            collected: Collected::new(alloc),
            under_way,
            bytes: 0,
            due: Some(Due {
                record_handle: 0,
                data_transfer_handle: 0,
                operation: TransferOperation::FIRST_PART,
                record_change_number: 0,
            }),
            waiting: None,
            failed: false,
            taken: 0,
        })
    }

    /// The next request, under an instance ID. None once the walk is done or has failed. Asked again before an answer
    /// was taken it gives the same request under the new ID. It takes no memory, and it keeps the room that `reserve`
    /// made.
    #[tactic(auto, using(crate::proofs::Telling::asks_what_is_due))]
    pub fn next_request(&mut self, id: InstanceId) -> Option<[u8; GetPdrRequest::LENGTH]>
        ensures asks { Asks (state_of self.old) id.value result (state_of self.new) }
        ensures due { AsksWhatIsDue (state_of self.old) id.value result (state_of self.new) }
        ensures room { HasRoom self.old → HasRoom self.new }
    {
        if self.failed {
            return None;
        }
        let due = self.due?;
        self.waiting = Some(id);
        Some(due.request(id, self.count))
    }

    /// Takes a part that goes on, of which no fault was found.
    fn go_on(&mut self, due: Due, given: &PdrPart) -> Result<Step, WalkFault>
        requires some { 0 < length given.now.bytes.now }
        requires few { self.old.taken ≤ self.old.bytes }
        requires fits { self.old.bytes + length given.now.bytes.now ≤ self.old.max_bytes }
        requires goes_on { (given.now.flag.value ≡ 0) ⊎ (given.now.flag.value ≡ 1) }
        requires starts { given.now.flag.value ≡ 0 → self.old.under_way.items ≡ [] }
        ensures proceeds { Proceeds (state_of self.old) (request_of self.old.count due) (part given.now) result (state_of self.new) }
        ensures wants { OnErr result (vec_capacity self.old.under_way < vec_len self.old.under_way + length given.now.bytes.now) }
    {
        if given.flag == TransferFlag::START {
            // Where so much memory is refused, the room grows part by part.
            let most = self.max_bytes - self.bytes;
            let _ = self
                .under_way
                .reserve_exact(record_length(given.bytes).min(most));
        }
        if self.under_way.extend_from_slice(given.bytes).is_err() {
            // no memory: the record under way could not grow.
            return Err(WalkFault::OutOfMemory);
        }
        self.bytes += given.bytes.len();
        self.waiting = None;
        self.taken += 1;
        let record_change_number = if given.flag == TransferFlag::START {
            change_of(given.bytes)
        } else {
            due.record_change_number
        };
        self.due = Some(Due {
            record_handle: due.record_handle,
            data_transfer_handle: given.next_data_transfer_handle,
            operation: TransferOperation::NEXT_PART,
            record_change_number,
        });
        Ok(Step::More)
    }

    /// Takes a part that completes a record, of which no fault was found.
    fn complete(&mut self, given: &PdrPart) -> Result<Step, WalkFault>
        requires some { 0 < length given.now.bytes.now }
        requires few { self.old.taken ≤ self.old.bytes }
        requires fits { self.old.bytes + length given.now.bytes.now ≤ self.old.max_bytes }
        requires completes { (given.now.flag.value ≡ 4) ⊎ (given.now.flag.value ≡ 5) }
        requires starts { given.now.flag.value ≡ 5 → self.old.under_way.items ≡ [] }
        ensures proceeds { Proceeds (state_of self.old) (first_part self.old.count 0) (part given.now) result (state_of self.new) }
        ensures wants { OnErr result ((vec_capacity self.old.under_way < vec_len self.old.under_way + length given.now.bytes.now)
            ⊎ (vec_capacity self.old.collected.records ≤ vec_len self.old.collected.records)) }
    {
        if self.collected.reserve().is_err()
            || self.under_way.extend_from_slice(given.bytes).is_err()
        {
            // no memory: the list of records or the one under way could not grow.
            return Err(WalkFault::OutOfMemory);
        }
        self.bytes += given.bytes.len();
        self.waiting = None;
        self.taken += 1;
        let bytes = mem::replace(&mut self.under_way, Vec::new(self.alloc));
        self.collected.push_reserved(bytes);
        if given.next_record_handle == 0 {
            self.due = None;
            return Ok(Step::Done);
        }
        self.due = Some(Due {
            record_handle: given.next_record_handle,
            data_transfer_handle: 0,
            operation: TransferOperation::FIRST_PART,
            record_change_number: 0,
        });
        Ok(Step::Record)
    }

    /// The first fault of a part.
    fn first_fault(&self, due: &Due, given: &PdrPart) -> Option<WalkFault>
        ensures { Judges (room_of (state_of self.now)) (state_of self.now).records (state_of self.now).under_way (request_of self.now.count due.now) (part given.now) result }
    {
        let limits = Limits {
            max_records: self.max_records,
            max_bytes: self.max_bytes,
            records: self.collected.records.len(),
            bytes: self.bytes,
        };
        judge(
            &limits,
            &self.collected,
            self.under_way.as_slice(),
            self.count,
            due,
            given,
        )
    }

    /// Fails from now on.
    fn fail(&mut self, fault: WalkFault) -> Result<Step, WalkFault>
        requires { self.old.failed ≡ false }
        ensures { Fails (state_of self.old) fault result (state_of self.new) }
    {
        self.taken += 1;
        self.failed = true;
        Err(fault)
    }

    /// Takes the part that an answer gives.
    fn take_part(&mut self, due: Due, given: &PdrPart) -> Result<Step, WalkFault>
        requires due { self.old.due ≡ Some due }
        requires goes { self.old.failed ≡ false }
        ensures takes { TakesOutcome (state_of self.old) (request_of self.old.count due) (Ok (part given.now)) result (state_of self.new) }
        ensures wants { result ≡ Err WalkFault.OutOfMemory → LacksRoom self.old (part given.now) }
    {
        match self.first_fault(&due, given) {
            Some(fault) => self.fail(fault),
            None => {
                if is_last(given) {
                    self.complete(given)
                } else {
                    self.go_on(due, given)
                }
            }
        }
    }

    /// Takes the outcome of the outstanding request.
    fn take_outcome(
        &mut self,
        due: Due,
        outcome: &Result<PdrPart, CompletionCode>,
    ) -> Result<Step, WalkFault>
        requires due { self.old.due ≡ Some due }
        requires goes { self.old.failed ≡ false }
        ensures takes { TakesOutcome (state_of self.old) (request_of self.old.count due) (outcome_value part outcome.now) result (state_of self.new) }
        ensures wants { result ≡ Err WalkFault.OutOfMemory → (p : Part) × (outcome_value part outcome.now ≡ Ok p) × LacksRoom self.old p }
    {
        match outcome {
            Err(code) => self.fail(if *code == CompletionCode::INVALID_RECORD_CHANGE_NUMBER {
                WalkFault::RecordChanged
            } else {
                WalkFault::OtherCode
            }),
            Ok(given) => self.take_part(due, given),
        }
    }

    /// Takes a message under the outstanding ID.
    fn take_message(&mut self, due: Due, answer: &[u8]) -> Result<Step, WalkFault>
        requires due { self.old.due ≡ Some due }
        requires goes { self.old.failed ≡ false }
        ensures takes { TakesMessage (state_of self.old) answer.now result (state_of self.new) }
        ensures wants { result ≡ Err WalkFault.OutOfMemory → BringsTooMuch self.old answer.now }
    {
        match GetPdrAnswer::read(answer) {
            Ok(read) => self.take_outcome(due, &read.outcome),
            Err(_) => self.fail(WalkFault::Unreadable),
        }
    }

    /// Makes room for one more record, and for as many bytes of the record under way as are asked for. So the next
    /// `take` doesn't run out of memory, whatever bytes it is given. Where memory was refused, the walk is as before.
    pub fn reserve(&mut self) -> Result<(), AllocError>
        ensures state { state_of self.new ≡ state_of self.old }
        ensures room { OnOk result (HasRoom self.new) }
        ensures full { OnErr result (¬ HasRoom self.old) }
        ensures lacks { OnErr result (¬ HasRoom self.new) }
    {
        self.collected.reserve()?;
        self.under_way.reserve(usize::from(self.count))
    }

    /// Takes the bytes of an answer to the outstanding request. Out of memory is answered only where the room did not
    /// suffice for the part that they bring.
    ///
    /// A terminus over a lawful list answers so that there is no fault but G09 and out of memory.
    pub fn take(&mut self, answer: &[u8]) -> Result<Step, WalkFault>
        ensures takes { Takes (state_of self.old) answer.now result (state_of self.new) }
        ensures tells { Tells result (state_of self.old) (state_of self.new) }
        ensures goes_on { TakesDueAnswer (state_of self.old) answer.now result (state_of self.new) }
        ensures wants { result ≡ Err WalkFault.OutOfMemory → BringsTooMuch self.old answer.now }
        ensures room { HasRoom self.old → result ≢ Err WalkFault.OutOfMemory }
    {
        self.take_bytes(answer)
    }

    /// Takes bytes, by the tests in their order. What `take` promises beside is drawn from this for all tests at once.
    fn take_bytes(&mut self, answer: &[u8]) -> Result<Step, WalkFault>
        ensures takes { Takes (state_of self.old) answer.now result (state_of self.new) }
        ensures wants { result ≡ Err WalkFault.OutOfMemory → BringsTooMuch self.old answer.now }
    {
        if self.failed {
            return Err(WalkFault::FailedBefore);
        }
        let (Some(id), Some(due)) = (self.waiting, self.due) else {
            return Err(WalkFault::NotAsked);
        };
        let Ok(header) = PldmHeader::front(answer) else {
            return self.fail(WalkFault::Unreadable);
        };
        if header.instance.value != id.value {
            return Err(WalkFault::NotAsked);
        }
        self.take_message(due, answer)
    }

    /// The records that are complete, by place.
    pub fn records(&self) -> &[Vec<u8>]
        ensures records { map (λ v. v.items) result.now ≡ (state_of self.now).records }
        ensures collected { (xs : List Exchange) → HasTakenIn (state_of self.now) xs → Collects xs (map (λ v. v.items) result.now) (state_of self.now).under_way }
    {
        self.collected.records.as_slice()
    }

    /// Whether the last record is complete, so that nothing is due.
    pub fn is_done(&self) -> bool
        ensures { IsTrue result ↔ ((state_of self.now).due ≡ None) }
    {
        self.due.is_none()
    }

    /// Whether nothing is asked any more: the walk is done, or has failed.
    pub fn is_over(&self) -> bool
        ensures { IsTrue result ↔ (((state_of self.now).failed ≡ true) ⊎ ((state_of self.now).due ≡ None)) }
    {
        self.failed || self.is_done()
    }

    /// How many answers were taken: all but those that were not asked for, that came after a failure or that memory
    /// refused.
    pub fn taken(&self) -> usize
        ensures count { result ≡ (state_of self.now).taken }
        ensures most { result ≤ (state_of self.now).max_bytes + 1 }
    {
        self.taken
    }
}
