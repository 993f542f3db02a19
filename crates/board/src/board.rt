//! What a board says: buses and nodes, with whatever is given of them.
use plan_values::Kind;

/// What an engineer says of a network.
#[derive(Drop)]
pub struct Board {
    /// The transmission unit in bytes, 64 to 1024.
    pub unit: u16,
    pub buses: Vec<BoardBus>,
    /// At most 64.
    pub nodes: Vec<BoardNode>,
}

/// A bus.
#[derive(Drop)]
pub struct BoardBus {
    pub name: String,
    pub binding: u8,
    pub media: u8,
}

/// A node, with what is given of it. Nodes are named by their indices.
#[derive(Drop)]
pub struct BoardNode {
    pub name: String,
    pub kind: Option<Kind>,
    pub eid: Option<u8>,
    pub owner: Option<usize>,
    pub pool: Option<BoardPool>,
    pub ports: Vec<BoardPort>,
    /// The nodes that it is to reach; all where none are given.
    pub reaches: Option<Vec<usize>>,
    /// The rows that are given.
    pub rows: Vec<BoardRow>,
    pub tid: Option<u8>,
    pub records: Vec<BoardRecord>,
}

/// A pool.
#[derive(Clone, Copy)]
pub enum BoardPool {
    /// These endpoint IDs.
    Range { first: u8, size: u8 },
    /// So many endpoint IDs, whichever they are.
    Size(u8),
}

/// A port: the index of its bus, and its address on the wire in hex.
#[derive(Drop)]
pub struct BoardPort {
    pub bus: usize,
    pub address: String,
}

/// A row. Rows are in order by their next nodes, then by their endpoint IDs.
#[derive(Clone, Copy, PartialEq, Eq, PartialOrd, Ord)]
pub struct BoardRow {
    /// The index of the next node.
    pub next: usize,
    pub first: u8,
    /// How many endpoint IDs the row covers.
    pub size: u8,
    /// The index of the port.
    pub port: usize,
}

/// A record.
#[derive(Drop)]
pub struct BoardRecord {
    pub handle: Option<u32>,
    pub next: Option<u32>,
    pub content: RecordContent,
}

/// What a record holds.
#[derive(Drop)]
pub enum RecordContent {
    /// These bytes, in hex.
    Hex(String),
    /// The bytes of the file of this name.
    File(String),
    /// A record of a type, with these fields.
    Fields { kind: String, words: Vec<FieldWord> },
}

/// A field of a record.
#[derive(Drop)]
pub struct FieldWord {
    pub name: String,
    pub text: FieldText,
}

/// What a field holds.
#[derive(Drop)]
pub enum FieldText {
    Text(String),
    /// The endpoint ID of the node at an index.
    EidOf(usize),
}

/// A file that records of a board name, and its bytes.
#[derive(Drop)]
pub struct RecordFile {
    pub name: String,
    pub bytes: Vec<u8>,
}
