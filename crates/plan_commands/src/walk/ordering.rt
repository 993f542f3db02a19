//! The terminus that a walk asks, with its records in the order of a certificate's places.
ghost use Rattle.std.specs.Prelude.{◌≡◌, ◌≤◌, Some, length, IfOk};
ghost use Rattle.net_tables.specs.Repositories.{terminus_of, records_by_place};
ghost use Rattle.net_rules.specs.Rules.{Accepts};
ghost use Rattle.pdr_repository.{specs.ListTermini.{list_records}, specs.Records.{IsLawful}};

use command_answers::records_by_place;
use pdr_repository::ListTerminus;
use plan_values::{Certificate, Plan, PlannedTerminus};
use pldm_message::Tid;
use std::alloc::{AllocError, Global};

/// The terminus of a node of an accepted plan, as it answers for its records.
pub fn terminus_by_place(
    alloc: Global,
    plan: &Plan,
    certificate: &Certificate,
    node: usize,
    terminus: &PlannedTerminus,
) -> Result<ListTerminus, AllocError>
    requires accepted { Accepts plan.now certificate.now }
    requires there { terminus_of plan.now node ≡ Some terminus.now }
    ensures records { IfOk result (λ list. list_records list ≡ records_by_place plan.now certificate.now node) }
    ensures few { IfOk result (λ list. length (list_records list) ≤ 4096) }
    ensures lawful { IfOk result (λ list. IsLawful (list_records list)) }
{
    let records = records_by_place(alloc, plan, certificate, node)?;
    ListTerminus::new(alloc, Tid::new(terminus.tid), records)
}
