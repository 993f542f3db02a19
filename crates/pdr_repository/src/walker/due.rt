//! What a walker asks next.

use mctp_transport::Wire;
use pldm_message::{GetPdrRequest, InstanceId, RequestHead, TransferOperation};

/// The part that is asked for next.
#[derive(Clone, Copy, Debug)]
pub(crate) struct Due {
    pub(crate) record_handle: u32,
    pub(crate) data_transfer_handle: u32,
    pub(crate) operation: TransferOperation,
    pub(crate) record_change_number: u16,
}

impl Due {
    ghost use Rattle.std.specs.Prelude.{◌≡◌};
    ghost use Rattle.pldm_message.specs.Pdrs.{IsPartRequest, get_pdr_request_bytes};
    ghost use Rattle.pdr_repository.{specs.Dues.{request_of}, specs.Walkers.{asked_under}};

    /// The bytes of its request for at most `count` bytes, under an instance ID.
    pub(super) fn request(self, id: InstanceId, count: u16) -> [u8; GetPdrRequest::LENGTH]
        ensures lawful { IsPartRequest (request_of count self) }
        ensures bytes { result ≡ get_pdr_request_bytes (asked_under id.value (request_of count self)) }
    {
        let request = GetPdrRequest {
            head: RequestHead::new(id),
            record_handle: self.record_handle,
            data_transfer_handle: self.data_transfer_handle,
            operation: self.operation,
            request_count: count,
            record_change_number: self.record_change_number,
        };
        let mut bytes = [0; GetPdrRequest::LENGTH];
        let _ = request.put(&mut bytes);
        bytes
    }
}
