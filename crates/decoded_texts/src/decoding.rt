//! All lines of a capture.
ghost use Rattle.std.specs.Prelude.{◌≡◌, ◌+◌, IfOk, string_bytes, map, length, option_map};
ghost use Rattle.bus_captures.specs.Values.{entry_value};
ghost use Rattle.decoded_texts.specs.Decoding.{fault_words, end_line, IsDecodedBy, IsDecodedCapture, IsNamedCapture};

use crate::entries::{link_words, push_entry};
use crate::names::Names;
use bus_captures::{Capture, CaptureFault, End};
use heard_captures::Stations;
use plan_values::Plan;
use std::alloc::{AllocError, Global};

/// For each entry of a capture a line with its number, its time, its interface and its way, as far as the capture has
/// them, and what became of it, and behind it what its message says; and last how many entries there are and how reading
/// them ended.
///
/// The packets to one destination on one interface are joined by an assembler of 16 slots for messages of at most 4096
/// bytes.
pub fn decoded_lines(alloc: Global, capture: &Capture) -> Result<String, AllocError>
    ensures { IfOk result (λ text. IsDecodedCapture capture.now (string_bytes text)) }
{
    lines_by(alloc, None, capture)
}

/// The same, and behind each packet the names of the nodes that hold its source and its destination by a plan.
pub fn named_lines(alloc: Global, plan: &Plan, capture: &Capture) -> Result<String, AllocError>
    ensures { IfOk result (λ text. IsNamedCapture plan.now capture.now (string_bytes text)) }
{
    let names = Names::of(alloc, plan)?;
    lines_by(alloc, Some(&names), capture)
}

fn lines_by(alloc: Global, names: Option<&Names>, capture: &Capture) -> Result<String, AllocError>
    ensures { IfOk result (λ text. IsDecodedBy (option_map (λ n. n.now.plan.now) names.entry) (map entry_value capture.now.entries.items) capture.now.end (string_bytes text)) }
{
    let mut stations = Stations::new(alloc);
    let mut text = String::new(alloc);
    for (i, entry) in capture.entries.iter().enumerate() {
        push_entry(alloc, &mut text, &mut stations, names, i + 1, entry)?;
    }
    let end = end_line(alloc, capture.entries.len(), capture.end)?;
    text.push_str(&end)?;
    Ok(text)
}

fn end_line(alloc: Global, count: usize, end: End) -> Result<String, AllocError>
    ensures { IfOk result (λ line. string_bytes line ≡ end_line count end) }
{
    match end {
        End::Whole => format!(in alloc; "entries {count}\n"),
        End::Full => format!(in alloc; "entries {count} of more\n"),
        End::Broken { place, fault } => {
            let words = fault_words(alloc, fault)?;
            format!(in alloc; "entries {count} broken {place} {words}\n")
        }
    }
}

fn fault_words(alloc: Global, fault: CaptureFault) -> Result<String, AllocError>
    ensures { IfOk result (λ words. string_bytes words ≡ fault_words fault) }
{
    match fault {
        CaptureFault::Header => String::from_str(alloc, "header"),
        CaptureFault::Link(number) => link_words(alloc, number),
        CaptureFault::Record => String::from_str(alloc, "record"),
        CaptureFault::Block => String::from_str(alloc, "block"),
        CaptureFault::Line => String::from_str(alloc, "line"),
    }
}
