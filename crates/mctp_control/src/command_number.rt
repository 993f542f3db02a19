//! The numbers of the commands.
ghost use Rattle.std.specs.Prelude.{◌≡◌};

/// The number of a command (DSP0236, "MCTP control message command numbers").
#[derive(Clone, Copy, Debug, PartialEq, Eq)]
pub enum CommandNumber {
    /// Gives a device its endpoint ID.
    SetEndpointId = 0x01,
    /// Asks a device for its endpoint ID and its kind.
    GetEndpointId = 0x02,
    /// Gives a bridge its pool of endpoint IDs.
    AllocateEndpointIds = 0x08,
    /// Asks a bridge for entries of its routing table.
    GetRoutingTableEntries = 0x0a,
}

impl CommandNumber {
    ghost use Rattle.std.specs.Prelude.{◌↔◌, IfSome, IfNone};
    ghost use Rattle.mctp_control.{specs.Numbers.{command_number}, specs.Refusals.{IsUnknown}};

    /// The command of this number.
    pub(crate) fn of(number: u8) -> Option<Self>
        ensures some { IfSome result (λ c. command_number c ≡ number) }
        ensures none { (result ≡ None) ↔ IsUnknown number }
    {
        match number {
            1 => Some(CommandNumber::SetEndpointId),
            2 => Some(CommandNumber::GetEndpointId),
            8 => Some(CommandNumber::AllocateEndpointIds),
            10 => Some(CommandNumber::GetRoutingTableEntries),
            _ => None,
        }
    }
}
