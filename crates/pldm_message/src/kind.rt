//! What a message is (DSP0240, PLDM message fields).
ghost use Rattle.std.specs.Prelude.{◌≡◌};

/// What a message is, by the bits Rq and D of its header (DSP0240, PLDM message fields).
#[derive(Clone, Copy, Debug, PartialEq, Eq)]
pub enum MessageKind {
    /// Rq 1, D 0: a request that is to be answered.
    Request,
    /// Rq 1, D 1: a request that asks for no answer.
    Datagram,
    /// Rq 0, D 0: the answer to a request.
    Response,
}

impl MessageKind {
    ghost use Rattle.pldm_message.specs.Headers.{kind_bits};

    /// Rq in bit 1 and D in bit 0.
    pub fn bits(self) -> u8
        ensures { result ≡ kind_bits self }
    {
        match self {
            MessageKind::Request => 2,
            MessageKind::Datagram => 3,
            MessageKind::Response => 0,
        }
    }
}

/// Whether a request is to be answered.
#[derive(Clone, Copy, Debug, PartialEq, Eq)]
pub enum RequestKind {
    /// It is to be answered.
    Request,
    /// It asks for no answer.
    Datagram,
}

impl RequestKind {
    ghost use Rattle.pldm_message.specs.Messages.{message_kind};

    /// The kind of the message: a request or a datagram.
    pub fn message_kind(self) -> MessageKind
        ensures { result ≡ message_kind self }
    {
        match self {
            RequestKind::Request => MessageKind::Request,
            RequestKind::Datagram => MessageKind::Datagram,
        }
    }
}
