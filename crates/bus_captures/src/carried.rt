//! Packets that are written into a capture file.
ghost use Rattle.std.specs.Prelude.{◌≤◌, length};

/// A packet that went over a bus.
#[derive(Clone, Copy, Debug)]
pub struct CarriedPacket<'a> {
    /// When it did, from where the file counts, and nanoseconds behind that.
    pub seconds: u32,
    pub nanoseconds: u32,
    /// The number of the bus: Linux counts its interfaces from 1.
    pub interface: u32,
    /// The sender's physical address: at most 8 bytes.
    pub address: &'a [u8],
    /// The packet of MCTP, its header of four bytes first: at most 1028 bytes.
    pub bytes: &'a [u8],
    pub ghost short: { length address.now ≤ 8 },
    pub ghost few: { length bytes.now ≤ 1028 },
}
