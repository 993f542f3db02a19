//! What is told of the cause of a fault of a plan.
ghost use Rattle.std.specs.Prelude.{◌≡◌, ◌++◌, ◌∷◌, [], IfOk};
ghost use Rattle.net_tables.specs.Routing.{eid_number};
ghost use Rattle.explanation_texts.{specs.CauseSubjects.{cause_subjects, entry_of, led_subjects, overlap_subjects, peer_subjects, why_subjects}, specs.Pieces.{subjects}, specs.declared.pieces.Piece.TheVariants.{At, Code, Number}};

use crate::pieces::Piece::{
    At, BusName, BytesBehind, Code, DataLength, Given, Handle, Length, Name, Number, OwnerName,
    PoolFirst, PoolSize, PoolSpan, PortCount, RowFirst, RowNext, RowPort, RowSize, RowSpan, Tid,
    Words,
};
use crate::pieces::{Entry, Piece, byte, entry_at, followed_by, told};
use mctp_transport::Eid;
use net_explained::Cause;
use net_rules::Fault;
use net_tables::lookup::owner_at;
use pdr_record::RecordError;
use plan_values::Plan;
use std::alloc::{AllocError, Global};

/// The sentences that tell the cause of a fault in the plan's own names and numbers.
pub fn cause_pieces(
    alloc: Global,
    plan: &Plan,
    fault: &Fault,
    cause: Cause,
) -> Result<Vec<Piece>, AllocError>
    ensures { IfOk result (λ pieces. subjects pieces.items ≡ cause_subjects plan.now fault.now cause) }
{
    let node = fault.node;
    let name = Name(node);
    let at = entry_of(fault);
    let eid = Given(eid_of_fault(fault));
    match cause {
        Cause::SharedName { earlier } => told!(alloc;
            "Nodes " {Number(earlier)} " and " {Number(node)} ", counted from 0, are both named " {name} ".\n"),
        Cause::UnassignableEid => told!(alloc;
            {name} " has endpoint ID " {eid} "; a node's endpoint ID is 8 to 254.\n"),
        Cause::SharedEid { earlier } => told!(alloc;
            {Name(earlier)} " and " {name} " both have endpoint ID " {eid} ".\n"),
        Cause::RowOutOfRange => told!(alloc;
            "Row " {At(at)} " has first " {RowFirst(at)} " and size " {RowSize(at)}
            ".\nA row covers one or more endpoint IDs, all of 8 to 254.\n"),
        Cause::OverlappedRow { earlier, eid } => overlap_pieces(alloc, at, earlier, eid),
        Cause::NextIsItself => told!(alloc; "Row " {At(at)} " leads to " {name} " itself.\n"),
        Cause::NoSuchPort => told!(alloc;
            "Row " {At(at)} " leaves by port " {RowPort(at)} ".\n" {name} " has " {PortCount(node)} ".\n"),
        Cause::NextNotOnBus { bus } => told!(alloc;
            "Row " {At(at)} " leads by port " {RowPort(at)} " to " {RowNext(at)}
            ".\nThat port is on bus " {BusName(bus)} ", and " {RowNext(at)} " is not.\n"),
        Cause::EndpointForSeveral => told!(alloc;
            "Row " {At(at)} " covers " {RowSpan(at)} ".\nIt leads to " {RowNext(at)}
            ", an endpoint.\nOnly a bridge can forward more than one endpoint ID.\n"),
        Cause::OwnerIsEndpoint { owner } => told!(alloc;
            "The owner of " {name} " is " {Name(owner)} ", an endpoint.\nOnly a bridge can be an owner.\n"),
        Cause::OwnerSharesNoBus { owner } => told!(alloc;
            "The owner of " {name} " is " {Name(owner)} ".\nNo bus has a port of both.\n"),
        Cause::OutsideOwnersPool { owner } => told!(alloc;
            {name} " has endpoint ID " {eid} ".\nThe pool of its owner, " {Name(owner)} ", is " {PoolSpan(owner)} ".\n"),
        Cause::InPeersPool { peer } => peer_pieces(alloc, plan, fault, peer),
        Cause::PoolOfEndpoint => told!(alloc;
            {name} " is an endpoint and has a pool: " {PoolSpan(node)} ".\nOnly a bridge has a pool.\n"),
        Cause::PoolOutOfRange => told!(alloc;
            "The pool of " {name} " has first " {PoolFirst(node)} " and size " {PoolSize(node)}
            ".\nA pool has one or more endpoint IDs, all of 8 to 254.\n"),
        Cause::PoolBeyondOwners { owner, eid } => told!(alloc;
            "The pool of " {name} ", " {PoolSpan(node)} ", has endpoint ID " {byte(eid.value)}
            ".\nThe pool of its owner, " {Name(owner)} ", is " {PoolSpan(owner)} ".\n"),
        Cause::PoolsMeet { earlier, eid } => told!(alloc;
            "The pool of " {Name(earlier)} ", " {PoolSpan(earlier)} ", has endpoint ID " {byte(eid.value)}
            ".\nThe pool of " {name} ", " {PoolSpan(node)} ", has it too.\n"),
        Cause::NextIsEndpoint { holder } => led_past(alloc, fault, holder, " is an endpoint"),
        Cause::NextHasNoRow { holder } => led_past(alloc, fault, holder, " has no row for it"),
        Cause::NoRecords => told!(alloc; {name} " has a terminus without records.\n"),
        Cause::HandleIsZero => told!(alloc;
            "Record " {At(at)} " has handle 0, by which no record can be asked for.\n"),
        Cause::SharedHandle { earlier } => told!(alloc;
            "Records " {Number(earlier)} " and " {At(at)} " both have handle " {Handle(at)} ".\n"),
        Cause::UnreadableRecord { why } => invalid_pieces(alloc, at, why),
        Cause::OtherHandle { handle } => told!(alloc;
            "Record " {At(at)} " has handle " {Handle(at)} ".\nIts bytes have handle " {Number(handle as usize)} ".\n"),
        Cause::LongLocator { tid } => told!(alloc;
            "Record " {At(at)} " locates terminus " {byte(tid)} " by MCTP.\nIts value is not one byte long.\n"),
        Cause::NobodyHolds { tid } => told!(alloc;
            "Record " {At(at)} " locates terminus " {byte(tid)} " at endpoint ID " {eid} ".\nNo node has that.\n"),
        Cause::OtherTerminus { holder, tid } => told!(alloc;
            "Record " {At(at)} " locates terminus " {byte(tid)} " at endpoint ID " {eid} ".\n"
            {Name(holder)} " has it; its tid is " {Tid(holder)} ".\n"),
    }
}

/// The row or the record of a fault.
pub fn entry_of(fault: &Fault) -> Entry
    ensures { result ≡ entry_of fault.now }
{
    Entry {
        node: fault.node,
        index: fault.entry,
    }
}

/// The number of the endpoint ID that a fault names.
pub fn eid_of_fault(fault: &Fault) -> Option<usize>
    ensures { result ≡ eid_number fault.now.eid }
{
    Some(usize::from(fault.eid?.value))
}

/// Two rows of a node, an endpoint ID that both cover, and all that each does.
fn overlap_pieces(
    alloc: Global,
    at: Entry,
    earlier: usize,
    eid: Eid,
) -> Result<Vec<Piece>, AllocError>
    ensures { IfOk result (λ pieces. subjects pieces.items ≡ overlap_subjects at earlier eid.value) }
{
    let other = entry_at(at.node, earlier);
    told!(alloc;
        "Rows " {Number(earlier)} " and " {At(at)} " both cover endpoint ID " {byte(eid.value)} ".\nRow "
        {Number(earlier)} " covers " {RowSpan(other)} ", and row " {Given(at.index)} " covers " {RowSpan(at)} ".\n")
}

/// Whose pool has the endpoint ID of a node, and who owns both.
fn peer_pieces(
    alloc: Global,
    plan: &Plan,
    fault: &Fault,
    peer: usize,
) -> Result<Vec<Piece>, AllocError>
    ensures { IfOk result (λ pieces. subjects pieces.items ≡ peer_subjects plan.now fault.now peer) }
{
    let node = fault.node;
    let eid = Given(eid_of_fault(fault));
    match owner_at(plan, node) {
        _ if peer == node => told!(alloc;
            {Name(node)} " has endpoint ID " {eid} ".\nIt is in its own pool, " {PoolSpan(node)} ".\n"),
        Some(_) => told!(alloc;
            {Name(node)} " has endpoint ID " {eid} ".\nIt is in the pool of " {Name(peer)} ": " {PoolSpan(peer)}
            ".\nBoth are owned by " {OwnerName(node)} ".\n"),
        None => told!(alloc;
            {Name(node)} " has endpoint ID " {eid} ".\nIt is in the pool of " {Name(peer)} ": " {PoolSpan(peer)}
            ".\nNeither has an owner.\n"),
    }
}

/// A row that leads an endpoint ID to a node, what is wrong with that one, and who has it.
fn led_past(
    alloc: Global,
    fault: &Fault,
    holder: usize,
    why: &'static str,
) -> Result<Vec<Piece>, AllocError>
    ensures { IfOk result (λ pieces. subjects pieces.items ≡ led_subjects fault.now holder) }
{
    let at = entry_of(fault);
    let eid = Given(eid_of_fault(fault));
    told!(alloc;
        "Row " {At(at)} " leads " {eid} " to " {RowNext(at)} ".\n" {RowNext(at)} {Words(why)} ".\n"
        {Name(holder)} " has endpoint ID " {eid} ".\n")
}

/// Why bytes are no record, in the record's own numbers.
fn invalid_pieces(alloc: Global, at: Entry, why: RecordError) -> Result<Vec<Piece>, AllocError>
    ensures { IfOk result (λ pieces. subjects pieces.items ≡ At at ∷ Code why ∷ why_subjects at why) }
{
    let code = told!(alloc; "Record " {At(at)} " isn't a valid PDR: " {Code(why)} ".\n")?;
    followed_by(code, &why_pieces(alloc, at, why)?)
}

fn why_pieces(alloc: Global, at: Entry, why: RecordError) -> Result<Vec<Piece>, AllocError>
    ensures { IfOk result (λ pieces. subjects pieces.items ≡ why_subjects at why) }
{
    match why {
        RecordError::Short =>
            told!(alloc; "It has " {Length(at)} " bytes, and the header alone has 10.\n"),
        RecordError::Version => told!(alloc; "Its header version, byte 4, is not 01.\n"),
        RecordError::Length => told!(alloc;
            "Its data length says " {DataLength(at)} ", and " {BytesBehind(at)} " bytes follow the header.\n"),
        RecordError::Ends => told!(alloc; "Its bytes end before its fields do.\n"),
        RecordError::LeftOver => told!(alloc; "Bytes follow its last field.\n"),
        RecordError::Unsupported => told!(alloc;
            "Its sensor data size or its range field format is not supported.\n"),
    }
}
