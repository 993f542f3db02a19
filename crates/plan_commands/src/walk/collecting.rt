//! A walk over a terminus, from its first record to its last.
ghost use Rattle.std.specs.Prelude.{◌≡◌, ◌≤◌, ℕ, false, length, IfOk, IfErr};
ghost use Rattle.pldm_message.specs.InstanceIdValues.{ids_of};
ghost use Rattle.pdr_repository.{specs.ListTermini.{list_records}, specs.Records.{IsLawful}, specs.WalkerStates.{state_of}};
ghost use Rattle.plan_commands.specs.Collecting.{Goes, EndsEarlyFor, HasCollected};

use arrayvec::ArrayVec;
use command_answers::Refused;
use command_questions::PartSize;
use pdr_repository::{ListTerminus, MAX_RECORDS, Step, Terminus, WalkFault, Walker};
use pldm_message::{InstanceId, InstanceIds};
use std::alloc::Global;

/// The most bytes that a walk collects.
const MAX_BYTES: usize = 16_777_216;

/// Collects all records of a terminus, part by part. The walker that is given back has taken the answer to each
/// request.
pub fn collect(
    alloc: Global,
    terminus: &mut ListTerminus,
    part: PartSize,
) -> Result<Walker, Refused>
    requires few { length (list_records terminus.old) ≤ 4096 }
    requires lawful { IsLawful (list_records terminus.old) }
    ensures collected { IfOk result (λ walker. HasCollected (list_records terminus.old) part.bytes (state_of walker)) }
    ensures early { IfErr result (EndsEarlyFor (list_records terminus.old)) }
{
    let mut walker = Walker::new(alloc, part.bytes, MAX_RECORDS, MAX_BYTES)?;
    let mut ids = InstanceIds::new();
    while exchange(&mut walker, terminus, &mut ids)? != Step::Done {}
    Ok(walker)
}

/// One exchange under an instance ID of its own, which is given back afterwards.
fn exchange(
    walker: &mut Walker,
    terminus: &mut ListTerminus,
    ids: &mut InstanceIds,
) -> Result<Step, Refused>
    requires few { length (list_records terminus.old) ≤ 4096 }
    requires lawful { IsLawful (list_records terminus.old) }
    requires free { (id : ℕ) → (ids_of ids.old).out id ≡ false }
    ensures free { (id : ℕ) → (ids_of ids.new).out id ≡ false }
    ensures kept { list_records terminus.new ≡ list_records terminus.old }
    ensures goes { Goes (list_records terminus.old) (state_of walker.old) result (state_of walker.new) }
{
    let Some(id) = ids.take() else {
        return Ok(Step::Done);
    };
    let step = exchange_under(walker, terminus, id);
    ids.give_back(id);
    step
}

/// Makes the request that is due, if there is one, and takes its answer.
fn exchange_under(
    walker: &mut Walker,
    terminus: &mut ListTerminus,
    id: InstanceId,
) -> Result<Step, Refused>
    requires few { length (list_records terminus.old) ≤ 4096 }
    requires lawful { IsLawful (list_records terminus.old) }
    ensures kept { list_records terminus.new ≡ list_records terminus.old }
    ensures goes { Goes (list_records terminus.old) (state_of walker.old) result (state_of walker.new) }
{
    let Some(request) = walker.next_request(id) else {
        return Ok(Step::Done);
    };
    let mut answer = ArrayVec::new();
    terminus.answer(&request, &mut answer);
    match walker.take(answer.as_slice()) {
        Ok(step) => Ok(step),
        Err(fault) => Err(refused_at(fault)),
    }
}

/// Why a walk over a lawful list ended, where it met a fault.
fn refused_at(fault: WalkFault) -> Refused
    ensures memory { fault ≡ WalkFault.OutOfMemory → result ≡ Refused.NoMemory }
    ensures much { fault ≡ WalkFault.TooMuch → result ≡ Refused.TooMuch }
{
    match fault {
        WalkFault::OutOfMemory => Refused::NoMemory,
        _ => Refused::TooMuch,
    }
}
