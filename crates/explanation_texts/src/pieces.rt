//! What a message is made of: words of the program, and what it names of a plan. What it names is a place in the plan,
//! which is looked up when the message is rendered.
ghost use Rattle.std.specs.Prelude.{◌≡◌, ◌++◌, IfOk, string_bytes};
ghost use Rattle.explanation_texts.{specs.Pieces.{entry_at, piece_text, rendered, subjects, Tells}, specs.declared.pieces.Piece.TheVariants.{Number}};

use crate::lookups::{
    address_to, at_text, bus_of_row, data_length_of, handle_of, owner_name, pool_span, ports_text,
    record_of, row_of, row_span, tid_of,
};
use net_tables::lookup::{node_name, owner_at, pool_at, ports_at};
use pdr_record::{HEADER_LENGTH, RecordError};
use plan_texts::{bus_text, name_or_none, number_text};
use plan_values::Plan;
use std::alloc::{AllocError, Global};

/// A row or a record: the index of its node, and its own in the node's list, if it is given.
#[derive(Clone, Copy)]
pub struct Entry {
    pub node: usize,
    pub index: Option<usize>,
}

/// A row or a record of a node.
pub fn entry_at(node: usize, index: usize) -> Entry
    ensures { result ≡ entry_at node index }
{
    Entry {
        node,
        index: Some(index),
    }
}

/// A piece of a message. A node or a bus is named by its index.
#[derive(Clone, Copy)]
pub enum Piece {
    /// Words of the program.
    Words(&'static str),
    /// A number.
    Number(usize),
    /// A number that may not be given: an index or an endpoint ID.
    Given(Option<usize>),
    /// The code for which bytes are no record.
    Code(RecordError),
    Name(usize),
    /// The name of a node's owner.
    OwnerName(usize),
    BusName(usize),
    /// How many ports a node has.
    PortCount(usize),
    /// The terminus ID of a node.
    Tid(usize),
    /// What a node's pool has, its first endpoint ID and its size.
    PoolSpan(usize),
    PoolFirst(usize),
    PoolSize(usize),
    /// The index of a row or a record, and the name of its node.
    At(Entry),
    /// What a row covers, its first endpoint ID and its size.
    RowSpan(Entry),
    RowFirst(Entry),
    RowSize(Entry),
    /// A row's port, the name of its next node, the bus between them and the address there.
    RowPort(Entry),
    RowNext(Entry),
    RowBus(Entry),
    RowAddress(Entry),
    /// A record's handle, and the next handle.
    Handle(Entry),
    NextHandle(Entry),
    /// How many bytes a record has, how many behind the header, and how many these are by its header.
    Length(Entry),
    BytesBehind(Entry),
    DataLength(Entry),
}

/// A number of one byte.
pub fn byte(number: u8) -> Piece
    ensures { result ≡ Number number }
{
    Piece::Number(usize::from(number))
}

/// A piece: words as they stand, anything else in braces.
macro_rules! piece {
    ($words:literal) => {
        $crate::pieces::Piece::Words($words)
    };
    ({ $subject:expr }) => {
        $subject
    };
}

/// The pieces of a message, one after the other.
macro_rules! told {
    ($alloc:expr; $($piece:tt)*) => {
        [$($crate::pieces::piece!($piece)),*].to_vec($alloc)
    };
}

pub(crate) use piece;
pub(crate) use told;

/// The text of a message.
pub fn render(alloc: Global, plan: &Plan, pieces: &[Piece]) -> Result<String, AllocError>
    ensures exact { IfOk result (λ text. string_bytes text ≡ rendered plan.now pieces.now) }
    ensures tells { IfOk result (λ text. Tells plan.now (subjects pieces.now) (string_bytes text)) }
{
    rendered_text(alloc, plan, pieces)
}

fn rendered_text(alloc: Global, plan: &Plan, pieces: &[Piece]) -> Result<String, AllocError>
    ensures { IfOk result (λ text. string_bytes text ≡ rendered plan.now pieces.now) }
{
    let mut text = String::new(alloc);
    for &piece in pieces {
        text.push_str(&piece_text(alloc, plan, piece)?)?;
    }
    Ok(text)
}

/// A message behind another.
pub fn followed_by(mut first: Vec<Piece>, then: &[Piece]) -> Result<Vec<Piece>, AllocError>
    ensures { IfOk result (λ pieces. subjects pieces.items ≡ subjects first.items ++ subjects then.now) }
{
    first.extend_from_slice(then)?;
    Ok(first)
}

/// The text of a piece.
fn piece_text(alloc: Global, plan: &Plan, piece: Piece) -> Result<String, AllocError>
    ensures { IfOk result (λ text. string_bytes text ≡ piece_text plan.now piece) }
{
    match piece {
        Piece::Words(words) => words.to_string(alloc),
        Piece::Number(number) => number_text(alloc, Some(number)),
        Piece::Given(number) => number_text(alloc, number),
        Piece::Code(why) => why.code().to_string(alloc),
        Piece::Name(node) => node_name(plan, node).to_string(alloc),
        Piece::OwnerName(node) => owner_name(plan, owner_at(plan, node)).to_string(alloc),
        Piece::BusName(bus) => bus_text(plan, Some(bus)).to_string(alloc),
        Piece::PortCount(node) => ports_text(alloc, ports_at(plan, node).len()),
        Piece::Tid(node) => number_text(alloc, tid_of(plan, node).map(|tid| usize::from(tid))),
        Piece::PoolSpan(node) => pool_span(alloc, pool_at(plan, node)),
        Piece::PoolFirst(node) => number_text(
            alloc,
            pool_at(plan, node).map(|pool| usize::from(pool.first.value)),
        ),
        Piece::PoolSize(node) => number_text(
            alloc,
            pool_at(plan, node).map(|pool| usize::from(pool.size)),
        ),
        Piece::At(at) => at_text(alloc, plan, at),
        Piece::RowSpan(at) => row_span(alloc, row_of(plan, at)),
        Piece::RowFirst(at) => number_text(
            alloc,
            row_of(plan, at).map(|row| usize::from(row.first.value)),
        ),
        Piece::RowSize(at) => number_text(alloc, row_of(plan, at).map(|row| usize::from(row.size))),
        Piece::RowPort(at) => number_text(alloc, row_of(plan, at).map(|row| usize::from(row.port))),
        Piece::RowNext(at) => name_or_none(plan, row_of(plan, at).map(|row| row.next)).to_string(
            alloc,
        ),
        Piece::RowBus(at) => bus_text(plan, bus_of_row(plan, at)).to_string(alloc),
        Piece::RowAddress(at) => address_to(alloc, plan, bus_of_row(plan, at), row_of(plan, at)),
        Piece::Handle(at) => number_text(alloc, handle_of(plan, at).map(|handle| handle as usize)),
        Piece::NextHandle(at) => number_text(
            alloc,
            record_of(plan, at).map(|record| record.next as usize),
        ),
        Piece::DataLength(at) => number_text(alloc, data_length_of(plan, at)),
        Piece::Length(at) => number_text(
            alloc,
            record_of(plan, at).map(|record| record.bytes.len()),
        ),
        Piece::BytesBehind(at) => number_text(
            alloc,
            record_of(plan, at).map(|record| record.bytes.len().saturating_sub(HEADER_LENGTH)),
        ),
    }
}
