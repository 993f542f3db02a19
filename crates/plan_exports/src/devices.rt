//! The Linux network devices of a plan's buses.
ghost use Rattle.std.specs.Prelude.{◌≡◌, ◌≢◌, IfOk, All, map, MatchBool, MatchOption};
ghost use Rattle.plan_exports.specs.Devices.{AreDevices, IsDeviceOf, IsLinked};

use crate::links::Link;
use net_tables::lookup::bus_name;
use plan_values::Plan;
use std::alloc::{AllocError, Global};

/// The device of each bus of a plan.
pub fn devices_of<'a>(
    alloc: Global,
    plan: &'a Plan,
    links: &[Link<'a>],
) -> Result<Vec<&'a str>, AllocError>
    ensures { IfOk result (λ devices. AreDevices plan.now links.now (map (λ d. d.now) devices.items)) }
{
    let mut devices = Vec::with_capacity(alloc, plan.buses.len())?;
    for bus in 0..plan.buses.len() {
        devices.push(device_of(plan, links, bus))?;
    }
    Ok(devices)
}

/// The device of a bus: that of the first link of its name, or else one of the bus's own name.
fn device_of<'a>(plan: &'a Plan, links: &[Link<'a>], bus: usize) -> &'a str
    ensures { IsDeviceOf plan.now links.now bus result.now }
{
    let name = bus_name(plan, bus);
    match linked(links, name) {
        Some(device) => device,
        None => name,
    }
}

/// The device of the first link of a bus of this name.
fn linked<'a>(links: &[Link<'a>], name: &str) -> Option<&'a str>
    ensures { MatchOption result (All (λ other. other.bus.now ≢ name.now) links.now) (λ device. IsLinked links.now name.now device.now) }
{
    for link in links {
        if is_of(link, name) {
            return Some(link.device);
        }
    }
    None
}

/// Whether a link is that of a bus of this name.
fn is_of(link: &Link, name: &str) -> bool
    ensures { MatchBool result (link.now.bus.now ≡ name.now) (link.now.bus.now ≢ name.now) }
{
    link.bus == name
}
