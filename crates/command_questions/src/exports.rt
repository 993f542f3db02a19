//! What `export` is asked.

/// In which form a node is exported.
#[derive(Clone, Copy)]
pub enum ExportKind {
    /// A shell script with the commands for a Linux node.
    Linux,
    /// A shell script that has `mctpd` on a Linux node give the endpoint IDs.
    Mctpd,
    /// The source of a device tree with the buses of a Linux node.
    DeviceTree,
    /// A C99 source of the node's tables.
    C,
    /// The responses of Get Routing Table Entries, each in a line in hex.
    Entries,
    /// The bytes of the node's records, one record after another.
    Records,
}

/// A node and the form in which it is exported.
#[derive(Clone, Copy)]
pub struct Export<'a> {
    pub kind: ExportKind,
    /// The name of the node.
    pub node: &'a str,
}
