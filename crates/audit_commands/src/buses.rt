//! The bus that a name stands for.
ghost use Rattle.std.specs.Prelude.{IfOk, IfErr, option_map};
ghost use Rattle.audit_commands.specs.Buses.{IsBusOf, NamesNoBus};

use net_tables::lookup::bus_named;
use plan_values::Plan;

/// A name that no bus of a plan has.
#[derive(Clone, Copy)]
pub struct UnknownBus;

/// The index of the first bus of the name, where one is given.
pub fn bus_of(plan: &Plan, name: Option<&str>) -> Result<Option<usize>, UnknownBus>
    ensures known { IfOk result (IsBusOf plan.now (option_map (λ n. n.now) name.entry)) }
    ensures unknown { IfErr result (λ _. NamesNoBus plan.now (option_map (λ n. n.now) name.entry)) }
{
    let Some(name) = name else {
        return Ok(None);
    };
    match bus_named(plan, name) {
        Some(bus) => Ok(Some(bus)),
        None => Err(UnknownBus),
    }
}
