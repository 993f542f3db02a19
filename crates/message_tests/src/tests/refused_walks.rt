//! A walk in which any growth of memory may be refused: an answer that is handed in again is then taken.
//! `tools/try growths` refuses the growths one after another.
use super::repositories::{block_over, record_of};
use arrayvec::ArrayVec;
use pdr_repository::{Step, Terminus, WalkFault, Walker};
use pldm_message::InstanceIds;
use std::alloc::{AllocError, Global};
use std::test::Fail;

/// What a mark tells.
#[derive(Clone, Copy)]
enum Mark {
    /// The growths from here on are counted, and may be refused.
    Begins,
    /// Those from here on are not.
    Ends,
    /// A call has answered that memory ran out.
    Lacked,
}

/// Sets a mark: memory of a size that nothing else asks for, and that is let go of at once. The tool never refuses it.
fn set_mark(alloc: Global, mark: Mark) {
    let size = match mark {
        Mark::Begins => 1_000_003usize,
        Mark::Ends => 1_000_033,
        Mark::Lacked => 1_000_037,
    };
    let _ = Vec::<u8>::with_capacity(alloc, size);
}

/// How many records are walked over.
const RECORDS: u8 = 20;

/// The records of handles 20 to 1, each one byte longer than the next.
fn records(alloc: Global) -> Result<Vec<(u32, Vec<u8>)>, AllocError> {
    let mut records = Vec::new(alloc);
    for index in 0..RECORDS {
        let handle = RECORDS.saturating_sub(index);
        let record = record_of(alloc, handle, u32::from(handle).saturating_add(20))?;
        records.push((u32::from(handle), record))?;
    }
    Ok(records)
}

/// Takes an answer. Where memory ran out, it is handed in again.
fn take(alloc: Global, walker: &mut Walker, answer: &[u8]) -> Result<Step, WalkFault> {
    set_mark(alloc, Mark::Begins);
    let taken = walker.take(answer);
    set_mark(alloc, Mark::Ends);
    if taken != Err(WalkFault::OutOfMemory) {
        return taken;
    }
    set_mark(alloc, Mark::Lacked);
    walker.take(answer)
}

/// Walks to the end or the first fault.
fn walk(
    alloc: Global,
    walker: &mut Walker,
    terminus: &mut Box<dyn Terminus>,
) -> Result<(), WalkFault> {
    let mut ids = InstanceIds::new();
    let mut out = ArrayVec::new();
    for _ in 0..100u32 {
        let Some(id) = ids.take() else {
            break;
        };
        let Some(request) = walker.next_request(id) else {
            break;
        };
        let _ = terminus.answer(&request, &mut out);
        take(alloc, walker, out.as_slice())?;
        let _ = ids.give_back(id);
    }
    Ok(())
}

/// Each record comes in two parts.
#[test]
fn refused_walker_take(rt: HostRuntime) -> Result<(), Fail> {
    let alloc = rt.alloc();
    let block = block_over(alloc, records(alloc)?)?.ok_or("lawful")?;
    let mut terminus: Box<dyn Terminus> = Box::new(alloc, block)?;
    let mut walker = Walker::new(alloc, 20, 20, 1000)?;
    assert_eq!(rt; walk(alloc, &mut walker, &mut terminus), Ok(()));
    let wanted = records(alloc)?;
    let are_equal = walker.records().iter().zip(&wanted).all(|(record, wanted)| record.as_slice()
        == wanted.1.as_slice());
    assert!(rt; are_equal && (walker.records().len(), walker.taken()) == (20, 40));
    Ok(())
}
