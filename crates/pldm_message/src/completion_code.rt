//! Completion codes that say why a request was not carried out (DSP0240, completion codes; DSP0248, GetPDR).
ghost use Rattle.std.specs.Prelude.{◌≡◌, ◌<◌};

/// The completion code of a request that was carried out.
pub const SUCCESS: u8 = 0;

/// A completion code other than 0, which is success (DSP0240, completion codes; of GetPDR DSP0248, GetPDR).
#[derive(Clone, Copy, Debug, PartialEq, Eq)]
pub struct CompletionCode {
    /// 1 to 255.
    pub value: u8,
    pub ghost some: { 0 < value },
    pub ghost in_range: { value < 256 },
}

impl CompletionCode {
    /// Any other failure.
    pub const ERROR: CompletionCode = CompletionCode { value: 0x01 };
    /// A field of the request has a value that is not allowed.
    pub const INVALID_DATA: CompletionCode = CompletionCode { value: 0x02 };
    /// The request has more or fewer bytes than its command.
    pub const INVALID_LENGTH: CompletionCode = CompletionCode { value: 0x03 };
    /// The terminus can not answer yet.
    pub const NOT_READY: CompletionCode = CompletionCode { value: 0x04 };
    /// The terminus has no such command of this PLDM type.
    pub const UNSUPPORTED_COMMAND: CompletionCode = CompletionCode { value: 0x05 };
    /// The terminus has no such PLDM type.
    pub const INVALID_PLDM_TYPE: CompletionCode = CompletionCode { value: 0x20 };
    /// GetPDR: no part begins at the data transfer handle.
    pub const INVALID_TRANSFER_HANDLE: CompletionCode = CompletionCode { value: 0x80 };
    /// GetPDR: the transfer operation flag is neither that of a first nor of a next part.
    pub const INVALID_TRANSFER_OPERATION: CompletionCode = CompletionCode { value: 0x81 };
    /// GetPDR: no record has the handle.
    pub const INVALID_RECORD_HANDLE: CompletionCode = CompletionCode { value: 0x82 };
    /// GetPDR: the change number is not the record's.
    pub const INVALID_RECORD_CHANGE_NUMBER: CompletionCode = CompletionCode { value: 0x83 };

    /// The code of any byte but 0.
    pub fn new(value: u8) -> Self
        requires { 0 < value }
        ensures { result.value ≡ value }
    {
        CompletionCode { value }
    }
}
