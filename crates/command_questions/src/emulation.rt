//! What `emulate` is asked.

/// A node that is emulated, whether its device was configured, and what its lines have.
#[derive(Clone, Copy)]
pub struct Emulation<'a> {
    /// The name of the node.
    pub node: &'a str,
    /// Whether its device holds its planned endpoint ID and its pool. Otherwise it is as an assignment finds it:
    /// without them where another node owns it.
    pub is_configured: bool,
    pub form: LineForm,
}

/// What the lines of `emulate` have.
#[derive(Clone, Copy)]
pub struct LineForm {
    /// Whether a physical address stands behind the name of a bus: that to which the packet is sent.
    pub is_addressed: bool,
    /// Whether a line `.` stands behind what is sent for each line that isn't empty.
    pub has_ends: bool,
}
