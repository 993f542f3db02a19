//! Certificates that are written as they were read.
use net_plan::{certificate_of_text, plan_of_text, read_back, text_of_certificate};
use plan_values::Plan;
use sample_texts::riser;
use std::alloc::Global;
use std::test::Fail;

/// Entries stand as they were given, those without ranges or places too.
const KEPT: [&str; 3] = [
    riser::CERTIFICATE,
    "{\"format\":1,\"levels\":[],\"places\":[],\"ranks\":[]}\n",
    "{\"format\":1,\"levels\":[{\"level\":63,\"node\":\"ssd\"},{\"level\":1,\"node\":\"host\"}],\
\"places\":[{\"node\":\"riser\",\"places\":[]},{\"node\":\"nic\",\"places\":[4095,0]}],\"ranks\":[{\"node\":\"ssd\",\"ranges\":[]},{\"node\":\"nic\",\"ranges\":[]}]}\n",
];

/// Whether a certificate's text is written as it was read, and read back with as many ranks.
fn is_kept(alloc: Global, plan: &Plan, text: &str) -> Result<bool, Fail> {
    let certificate = certificate_of_text(alloc, plan, text.as_bytes())?;
    let written = text_of_certificate(alloc, plan, &certificate)?;
    let back = read_back(alloc, plan, &certificate)?;
    Ok(written.as_str() == text && back.ranks.len() == certificate.ranks.len())
}

/// The first text that is written otherwise.
fn first_other(
    alloc: Global,
    plan: &Plan,
    texts: &[&'static str],
) -> Result<Option<&'static str>, Fail> {
    for text in texts {
        if !is_kept(alloc, plan, text)? {
            return Ok(Some(*text));
        }
    }
    Ok(None)
}

#[test]
fn writes_what_was_read(rt: HostRuntime) -> Result<(), Fail> {
    let plan = plan_of_text(rt.alloc(), riser::PLAN.as_bytes())?;
    assert_eq!(rt; first_other(rt.alloc(), &plan, &KEPT)?, None);
    Ok(())
}
