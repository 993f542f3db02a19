//! A law of all devices. The function does nothing: its contract is the law.
ghost use Rattle.std.specs.Prelude.{ℕ, List};
ghost use Rattle.mctp_control.{specs.RouteEntries.{EntryValue}, specs.Devices.{DeviceValue}, specs.Replies.{IsBytes, HasOneReply}};

/// What a device replies to a body, and what it holds afterwards, is fixed by what it holds, the bus, its routing table
/// and the body.
pub fn one_reply()
    ensures { (d : DeviceValue) (bus : ℕ) (table : List EntryValue) (body : List ℕ) → IsBytes body → HasOneReply d bus table body }
{}
