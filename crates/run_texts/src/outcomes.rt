//! The lines that tell what comes of events.
ghost use Rattle.std.specs.Prelude.{◌≡◌, ◌++◌, IfOk, OnOk, Some, string_bytes};
ghost use Rattle.net_sim.{specs.Effects.{effect_value}, specs.Outcomes.{outcome_value, handed_value, standing_value}};
ghost use Rattle.run_texts.specs.OutcomeLines.{whole_text, effect_text, walk_fault_text, step_text, handed_text, standing_text, outcome_text, outcome_line};

use net_sim::{Effect, Handed, Outcome, Standing};
use net_tables::lookup::node_name;
use pdr_repository::{Step, WalkFault};
use plan_values::Plan;
use std::alloc::{AllocError, Global};

/// How many bytes most lines have at most. Room for so many is made at once.
const MOST_BYTES: usize = 64;

/// What came of the event of a number.
pub fn outcome_line(
    alloc: Global,
    plan: &Plan,
    number: usize,
    outcome: &Outcome,
) -> Result<String, AllocError>
    ensures { IfOk result (λ line. string_bytes line ≡ outcome_line plan.now number (outcome_value outcome.now)) }
{
    let mut line = String::with_capacity(alloc, MOST_BYTES)?;
    write!(line, "{number} ")?;
    push_outcome(alloc, &mut line, plan, outcome)?;
    line.push_str("\n")?;
    Ok(line)
}

fn push_outcome(
    alloc: Global,
    line: &mut String,
    plan: &Plan,
    outcome: &Outcome,
) -> Result<(), AllocError>
    ensures { OnOk result (string_bytes line.new ≡ string_bytes line.old ++ outcome_text plan.now (outcome_value outcome.now)) }
{
    match outcome {
        Outcome::Happened { effect, handed } => {
            push_effect(alloc, line, plan, effect)?;
            match handed {
                Some(handed) => push_handed(line, handed),
                None => Ok(()),
            }
        }
        Outcome::Begun { walker } => write!(line, "walker {walker}"),
        Outcome::Asked { walker, number } => write!(line, "asked {walker} flight {number}"),
        Outcome::Collected {
            walker,
            records,
            standing,
        } => {
            let standing = standing_word(*standing);
            write!(line, "collected {walker} records {records} {standing}")
        }
        Outcome::Refused(why) => {
            let code = why.code();
            write!(line, "refused {code}")
        }
    }
}

/// Adds the walker that was handed the message of an effect, and what it made of it.
fn push_handed(line: &mut String, handed: &Handed) -> Result<(), AllocError>
    ensures { OnOk result (string_bytes line.new ≡ string_bytes line.old ++ handed_text (Some (handed_value handed.now))) }
{
    let number = handed.walker;
    let word = step_word(handed.result);
    write!(line, " walker {number} {word}")
}

/// What an answer led to, or the code of the fault for which it was not taken.
fn step_word(made: Result<Step, WalkFault>) -> &'static str
    ensures { result.now ≡ step_text made }
{
    match made {
        Ok(Step::More) => "more",
        Ok(Step::Record) => "record",
        Ok(Step::Done) => "done",
        Err(fault) => fault_word(fault),
    }
}

/// Whether a walk goes on, is done, or was ended by a fault, which its code tells.
fn standing_word(standing: Standing) -> &'static str
    ensures { result.now ≡ standing_text (standing_value standing) }
{
    match standing {
        Standing::Open => "open",
        Standing::Done => "done",
        Standing::Ended(fault) => fault_word(fault),
    }
}

/// The code of a fault of a walk. Out of memory has none, and gets a dash.
fn fault_word(fault: WalkFault) -> &'static str
    ensures { result.now ≡ walk_fault_text fault }
{
    fault.code().unwrap_or("-")
}

/// Adds what an event did to the packets.
fn push_effect(
    alloc: Global,
    line: &mut String,
    plan: &Plan,
    effect: &Effect,
) -> Result<(), AllocError>
    ensures { OnOk result (string_bytes line.new ≡ string_bytes line.old ++ effect_text plan.now (effect_value effect.now)) }
{
    match effect {
        Effect::PutIn { number, node } => {
            let name = node_name(plan, *node);
            write!(line, "put {number} at {name}")
        }
        Effect::Moved { number, node, hops } => {
            let name = node_name(plan, *node);
            write!(line, "moved {number} to {name} hops {hops}")
        }
        Effect::Held { number, .. } => write!(line, "held {number}"),
        Effect::Whole {
            number,
            node,
            bytes,
            ..
        } => {
            let bytes = hex::encode(alloc, bytes)?;
            push_whole(line, *number, node_name(plan, *node), &bytes)
        }
        Effect::Dropped { number, why, .. } => {
            let code = why.code();
            write!(line, "dropped {number} {code}")
        }
        Effect::Stopped { number, why } => {
            let code = why.code();
            write!(line, "dropped {number} {code}")
        }
        Effect::Lost { number } => write!(line, "lost {number}"),
        Effect::Expired { node, was_open } => {
            let name = node_name(plan, *node);
            let open = if *was_open { "open" } else { "none" };
            write!(line, "expired {name} {open}")
        }
        Effect::Answered { node, first, last } => {
            let name = node_name(plan, *node);
            write!(line, "answered {name} flights {first} to {last}")
        }
        Effect::Silent { node } => {
            let name = node_name(plan, *node);
            write!(line, "silent {name}")
        }
        Effect::Switched { node } => {
            let name = node_name(plan, *node);
            write!(line, "switched {name}")
        }
        Effect::Refused(why) => {
            let code = why.code();
            write!(line, "refused {code}")
        }
    }
}

/// Adds a message that came whole at the node of a name, its bytes in hex.
fn push_whole(line: &mut String, number: u32, name: &str, hex: &str) -> Result<(), AllocError>
    ensures { OnOk result (string_bytes line.new ≡ string_bytes line.old ++ whole_text number name.now hex.now) }
{
    write!(line, "whole {number} at {name} bytes {hex}")
}
