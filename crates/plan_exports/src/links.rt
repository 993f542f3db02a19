//! A Linux network device, and the bus that it is on.
ghost use Rattle.std.specs.Prelude.{◌≡◌, ◌++◌, codes, IfSome, IsTrue};
ghost use Rattle.plan_exports.specs.DeviceNames.{is_device};

use plan_values::is_name;

/// The Linux network device that is on a bus of a plan.
#[derive(Clone, Copy, Debug, PartialEq, Eq)]
pub struct Link<'a> {
    /// The name of the bus.
    pub bus: &'a str,
    /// The name of the device: 1 to 15 ASCII letters, digits, `-`, `.` or `_`.
    pub device: &'a str,
    pub ghost spelled: { IsTrue (is_device device.now) },
}

impl<'a> Link<'a> {
    /// The link that a word BUS=DEV is. `None` where it has no such form, where BUS is no name that a bus can have, or
    /// DEV none of a device.
    pub fn of(word: &'a str) -> Option<Link<'a>>
        ensures { IfSome result (λ link. word.now ≡ link.bus.now ++ (codes "=" ++ link.device.now)) }
    {
        let (bus, device) = word.split_once('=')?;
        if !is_name(bus) || !is_device(device) {
            return None;
        }
        Some(Link { bus, device })
    }
}

/// Whether a text is the name of a device.
fn is_device(text: &str) -> bool
    ensures { result ≡ is_device text.now }
{
    text.len() <= 15 && is_name(text)
}
