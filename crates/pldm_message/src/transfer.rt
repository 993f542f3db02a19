//! How a record's bytes are transferred: in one part or in several.
ghost use Rattle.std.specs.Prelude.{◌≡◌, ◌<◌};

/// Whether a first or a next part of a record is asked for: the transfer operation flag, one byte (DSP0248, GetPDR).
/// Other bytes can be read too, and a terminus refuses them.
#[derive(Clone, Copy, Debug, PartialEq, Eq)]
pub struct TransferOperation {
    /// One byte: 0 for the next part, 1 for the first.
    pub value: u8,
    pub ghost in_range: { value < 256 },
}

impl TransferOperation {
    /// The part from the data transfer handle on.
    pub const NEXT_PART: TransferOperation = TransferOperation { value: 0 };
    /// The record from its first byte on.
    pub const FIRST_PART: TransferOperation = TransferOperation { value: 1 };

    /// The flag of any byte.
    pub fn new(value: u8) -> Self
        ensures { result.value ≡ value }
    {
        TransferOperation { value }
    }
}

/// Which part of a record an answer has: the transfer flag, one byte (DSP0248, GetPDR). Other bytes can be read too,
/// and a walker refuses them.
#[derive(Clone, Copy, Debug, PartialEq, Eq)]
pub struct TransferFlag {
    /// One byte: 0 start, 1 middle, 4 end, 5 start and end.
    pub value: u8,
    pub ghost in_range: { value < 256 },
}

impl TransferFlag {
    /// The first of several parts.
    pub const START: TransferFlag = TransferFlag { value: 0 };
    /// Neither the first nor the last of several parts.
    pub const MIDDLE: TransferFlag = TransferFlag { value: 1 };
    /// The last of several parts, with the record's check byte behind it.
    pub const END: TransferFlag = TransferFlag { value: 4 };
    /// The only part.
    pub const START_AND_END: TransferFlag = TransferFlag { value: 5 };

    /// The flag of any byte.
    pub fn new(value: u8) -> Self
        ensures { result.value ≡ value }
    {
        TransferFlag { value }
    }
}
