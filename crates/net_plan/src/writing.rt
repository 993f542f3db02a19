//! Certificates to texts.
ghost use Rattle.std.{specs.Prelude.{◌≡◌, ◌<◌, ◌≤◌, ◌+◌, length, ◌-◌, ◌^◌, ◌⊎◌, IfOk, IfErr, MatchResult, OnOk, Some, string_bytes}, specs.Io.KnownBytes.{Appends}};
ghost use Rattle.net_plan.{specs.CertificateJson.{certificate_data, certificate_text}, specs.CertificateText.{IsCertificateOf}, specs.Texts.{IsJsonTextOf, HasSingleKeys}, specs.Stream.{HasRoom, HasFailed, AppendsBeginning}, specs.TextFaults.{failed_count}};
ghost use Rattle.serde_json.{specs.Read.{read}, specs.Written.{compact_text}};
ghost use Rattle.plan_values.{specs.CertificateValues.{certificate_value}, specs.PlanValues.{node_names, plan_value}, specs.ShortText.{HasFewPlaces}, specs.WellFormed.{IsWellFormed}};

use crate::certificate_json::certificate_json;
use crate::error::PlanError;
use crate::reading::certificate_of_text;
use crate::stream::{Sink, write_whole};
use plan_values::{Certificate, Plan};
use std::alloc::{AllocError, Global};

/// The text of a certificate of a plan: one line of compact JSON, each object's keys in the order of their letters.
///
/// It fails where there is too little memory for the JSON value and the text.
pub fn text_of_certificate(
    alloc: Global,
    plan: &Plan,
    certificate: &Certificate,
) -> Result<String, AllocError>
    ensures text { IfOk result (λ text. string_bytes text ≡ certificate_text (node_names (plan_value plan.now).nodes) (certificate_value certificate.now)) }
    ensures reads_back { IfOk result (λ text. IsWellFormed (plan_value plan.now) (certificate_value certificate.now)
        → IsJsonTextOf (IsCertificateOf (plan_value plan.now)) (string_bytes text) (certificate_value certificate.now)) }
    ensures short { IfOk result (λ text. IsWellFormed (plan_value plan.now) (certificate_value certificate.now)
        → HasFewPlaces (certificate_value certificate.now) → length (string_bytes text) ≤ 2097152) }
{
    let mut text = compact_text(alloc, plan, certificate)?;
    text.push_str("\n")?;
    Ok(text)
}

/// The text without its line's end.
fn compact_text(alloc: Global, plan: &Plan, certificate: &Certificate) -> Result<String, AllocError>
    ensures text { IfOk result (λ text. string_bytes text ≡ compact_text (certificate_data (node_names (plan_value plan.now).nodes) (certificate_value certificate.now))) }
    ensures reads_back { IfOk result (λ text. read (string_bytes text) ≡ Some (certificate_data (node_names (plan_value plan.now).nodes) (certificate_value certificate.now))) }
    ensures single { IfOk result (λ text. HasSingleKeys (string_bytes text)) }
{
    certificate_json(alloc, plan.nodes.as_slice(), certificate)?.to_string(alloc)
}

/// Gives the text of a certificate of a plan to a sink.
///
/// The text is made whole first, so that the sink has taken nothing where there is too little memory (`OutOfMemory`).
/// Where the sink failed (`Device`), it has taken a beginning of the text.
#[tactic(auto, using(crate::proofs::ReadsBack::text_stands))]
pub fn write_certificate<S: Sink>(
    alloc: Global,
    plan: &Plan,
    certificate: &Certificate,
    sink: &mut S,
) -> Result<(), PlanError>
    requires { HasRoom (S.account sink.old) }
    ensures written { OnOk result (Appends (S.account sink.old).bytes (S.account sink.new).bytes
        (certificate_text (node_names (plan_value plan.now).nodes) (certificate_value certificate.now))) }
    ensures reads_back { OnOk result (IsWellFormed (plan_value plan.now) (certificate_value certificate.now)
        → IsJsonTextOf (IsCertificateOf (plan_value plan.now)) (certificate_text (node_names (plan_value plan.now).nodes) (certificate_value certificate.now))
        (certificate_value certificate.now)) }
    ensures no_memory { IfErr result (λ e. (e ≡ PlanError.Device) ⊎ ((e ≡ PlanError.OutOfMemory) × (sink.new ≡ sink.old))) }
    ensures beginning { IfErr result (λ e. e ≡ PlanError.Device → AppendsBeginning (S.account sink.old).bytes (S.account sink.new).bytes
        (certificate_text (node_names (plan_value plan.now).nodes) (certificate_value certificate.now))) }
    ensures counts { HasFailed (S.account sink.old) (S.account sink.new) (failed_count result) }
{
    let Ok(text) = text_of_certificate(alloc, plan, certificate) else {
        // no memory: the text of the certificate could not grow.
        return Err(PlanError::OutOfMemory);
    };
    match write_whole(sink, text.as_str().as_bytes()) {
        Ok(()) => Ok(()),
        Err(_) => Err(PlanError::Device),
    }
}

/// The certificate that is read of a certificate's text: itself, where it is well formed for its plan.
pub fn read_back(
    alloc: Global,
    plan: &Plan,
    certificate: &Certificate,
) -> Result<Certificate, PlanError>
    ensures same { IsWellFormed (plan_value plan.now) (certificate_value certificate.now)
        → MatchResult result (λ back. certificate_value back ≡ certificate_value certificate.now) (λ e. (e ≡ PlanError.OutOfMemory) ⊎ (e ≡ PlanError.OverLimit)) }
    ensures within { IsWellFormed (plan_value plan.now) (certificate_value certificate.now)
        → HasFewPlaces (certificate_value certificate.now) → IfErr result (λ e. e ≡ PlanError.OutOfMemory) }
{
    let Ok(text) = text_of_certificate(alloc, plan, certificate) else {
        // no memory: the text of the certificate could not grow.
        return Err(PlanError::OutOfMemory);
    };
    certificate_of_text(alloc, plan, text.as_str().as_bytes())
}
