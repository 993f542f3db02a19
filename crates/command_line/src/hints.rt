//! What a person at a terminal is told beside the line of a refusal. Want of memory for it and a sink that fails are
//! passed over.
ghost use Rattle.net_plan.specs.Stream.{HasRoom};

use crate::subcommand::{command_names, form_of, part_size_of};
use command_answers::{eid_of_word, first_named, named_terminus};
use command_questions::Question;
use net_plan::{Sink, Source, read_plan, write_whole};
use net_pointers::nearest_name;
use plan_values::Plan;
use program_texts::{guide_to, text_of};
use record_fields::made_record;
use std::alloc::{AllocError, Global};

/// Says what is wrong with words that fit no command, and what the command's words are.
pub fn hint_words<E: Sink>(alloc: Global, words: &[String], errors: &mut E)
    requires { HasRoom (E.account errors.old) }
{
    if let Ok(text) = words_hint(alloc, words) {
        let _ = write_whole(errors, text.as_bytes());
    }
}

/// Says what is wrong with the words of a record, if anything is.
pub fn hint_record<E: Sink>(alloc: Global, words: &[String], errors: &mut E)
    requires { HasRoom (E.account errors.old) }
{
    if let [_, _, kind, said @ ..] = words {
        if made_record(alloc, kind, said).is_err() {
            hint_words(alloc, words, errors);
        }
    }
}

/// Says that a name is none of the plan's, if it is none, and which is the nearest.
pub fn hint_node<P: Source, E: Sink>(alloc: Global, name: &str, plan: &mut P, errors: &mut E)
    requires plan { HasRoom (P.account plan.old) }
    requires errors { HasRoom (E.account errors.old) }
{
    hint_nodes(
        alloc,
        &Question::Trace {
            from: name,
            to: name,
        },
        plan,
        errors,
    );
}

/// Says which name that a question has is none of the plan's, and which is the nearest.
pub fn hint_nodes<P: Source, E: Sink>(
    alloc: Global,
    question: &Question,
    plan: &mut P,
    errors: &mut E,
)
    requires plan { HasRoom (P.account plan.old) }
    requires errors { HasRoom (E.account errors.old) }
{
    if let Ok(plan) = read_plan(alloc, plan) {
        if let Ok(text) = nodes_hint(alloc, question, &plan) {
            let _ = write_whole(errors, text.as_bytes());
        }
    }
}

fn words_hint(alloc: Global, words: &[String]) -> Result<String, AllocError> {
    let Some(command) = words.get(1) else {
        return "mctpplan guide lists the commands\n".to_string(alloc);
    };
    match first_line_of_guide(command) {
        Some(usage) => arguments_hint(alloc, command, usage, words),
        None => command_hint(alloc, command),
    }
}

/// The words of a command, as its guide gives them.
fn first_line_of_guide(command: &str) -> Option<&'static str> {
    let (usage, _) = guide_to(command)?.split_once('\n')?;
    Some(usage)
}

/// What is said of a command that isn't there.
fn command_hint(alloc: Global, command: &str) -> Result<String, AllocError> {
    match near_name(alloc, command, &command_names(alloc)?)? {
        Some(index) => named_hint(alloc, command, index),
        None => format!(in alloc;
            "there is no command {command}; mctpplan guide lists the commands\n"
        ),
    }
}

fn named_hint(alloc: Global, command: &str, index: usize) -> Result<String, AllocError> {
    let names = command_names(alloc)?;
    let nearest = names.get(index).copied().unwrap_or("guide");
    format!(in alloc; "there is no command {command}; the nearest is {nearest}\n")
}

/// What is said of a command's arguments.
fn arguments_hint(
    alloc: Global,
    command: &str,
    usage: &str,
    words: &[String],
) -> Result<String, AllocError> {
    let wrong = wrong_argument(alloc, command, words)?;
    format!(in alloc; "{usage}\n{wrong}mctpplan guide {command} tells more\n")
}

/// The line of the argument that is wrong, where it can be told.
fn wrong_argument(alloc: Global, command: &str, words: &[String]) -> Result<String, AllocError> {
    match (command, words) {
        ("walk", [_, _, _, _, _, count]) => count_hint(alloc, count),
        ("export", [_, _, form, others @ ..]) => form_hint(alloc, form, others),
        ("script", [_, _, _, _, what, _, eid, count, ..]) => script_hint(alloc, what, eid, count),
        ("explain", [_, _, others @ ..]) if has_option(others, "--move") => {
            "the other form is explain OLD --move NEW\n".to_string(alloc)
        }
        ("draw", [.., option, eid]) if option.as_str() == "--rows" && eid_of_word(eid).is_none() =>
            { eid_hint(alloc, eid) }
        ("show", [_, _, what, ..]) if what.as_str() != "packet" && what.as_str() != "record" => {
            format!(in alloc; "{what} is neither packet nor record\n")
        }
        ("code", [_, _, code]) if text_of(code).is_none() => {
            format!(in alloc; "there is no code {code}\n")
        }
        ("schema", [_, _, kind]) => {
            format!(in alloc; "{kind} is none of plan, certificate, events, board and answer\n")
        }
        ("guide", [_, _, other]) => command_hint(alloc, other),
        ("record", [_, _, kind, said @ ..]) => wrong_word(alloc, kind, said),
        _ => Ok(String::new(alloc)),
    }
}

/// The first of these arguments of `script` that is wrong, where one is.
fn script_hint(alloc: Global, what: &str, eid: &str, count: &str) -> Result<String, AllocError> {
    if what != "walk" {
        return format!(in alloc; "the word is walk, and not {what}\n");
    }
    if eid_of_word(eid).is_none() {
        return eid_hint(alloc, eid);
    }
    if part_size_of(count).is_none() {
        return count_hint(alloc, count);
    }
    "behind --lose and --repeat, each once, stand numbers with commas between them\n".to_string(
        alloc,
    )
}

fn eid_hint(alloc: Global, eid: &str) -> Result<String, AllocError> {
    format!(in alloc; "EID is a number of 8 to 254, and not {eid}\n")
}

/// What is said of a form that isn't there, or else of links, if there are any.
fn form_hint(alloc: Global, form: &str, others: &[String]) -> Result<String, AllocError> {
    if form_of(form).is_none() {
        return format!(in alloc;
            "{form} is none of linux, mctpd, devicetree, c, entries and records\n"
        );
    }
    if has_option(others, "--link") {
        return "--link is for linux, mctpd and devicetree, as --link b0=mctpi2c0, once for each bus and each device\n".to_string(
            alloc,
        );
    }
    Ok(String::new(alloc))
}

/// Whether one of the words is this option.
fn has_option(words: &[String], option: &str) -> bool {
    words.iter().any(|word| word.as_str().starts_with(option))
}

fn count_hint(alloc: Global, count: &str) -> Result<String, AllocError> {
    format!(in alloc; "COUNT is a number of 8 to 4079, and not {count}\n")
}

/// The first word that a record can't have, where there is one.
fn wrong_word(alloc: Global, kind: &str, words: &[String]) -> Result<String, AllocError> {
    for (index, word) in words.iter().enumerate() {
        if made_record(alloc, kind, &words[..=index]).is_err() {
            return format!(in alloc; "{kind} can't have {word}\n");
        }
    }
    Ok(String::new(alloc))
}

fn nodes_hint(alloc: Global, question: &Question, plan: &Plan) -> Result<String, AllocError> {
    match *question {
        Question::Walk { node, .. } => walk_hint(alloc, plan, node),
        Question::Trace { from, to } => trace_hint(alloc, plan, from, to),
        _ => Ok(String::new(alloc)),
    }
}

fn walk_hint(alloc: Global, plan: &Plan, node: &str) -> Result<String, AllocError> {
    if first_named(plan, node).is_none() {
        return node_hint(alloc, plan, node);
    }
    if named_terminus(plan, node).is_none() {
        return format!(in alloc; "{node} has no terminus\n");
    }
    Ok(String::new(alloc))
}

fn trace_hint(alloc: Global, plan: &Plan, from: &str, to: &str) -> Result<String, AllocError> {
    if first_named(plan, from).is_none() {
        return node_hint(alloc, plan, from);
    }
    if first_named(plan, to).is_none() {
        return node_hint(alloc, plan, to);
    }
    Ok(String::new(alloc))
}

/// What is said of a node that isn't there.
fn node_hint(alloc: Global, plan: &Plan, name: &str) -> Result<String, AllocError> {
    let names = node_names(alloc, plan)?;
    match near_name(alloc, name, &names)? {
        Some(index) => nearest_hint(alloc, name, names.get(index).copied().unwrap_or("-")),
        None => format!(in alloc; "there is no node {name}\n"),
    }
}

/// The index of a name that is close to this one, or in which two letters have changed places.
fn near_name(alloc: Global, name: &str, names: &[&str]) -> Result<Option<usize>, AllocError> {
    match nearest_name(alloc, name, names)? {
        Some(index) => Ok(Some(index)),
        None => Ok(
            names
                .iter()
                .position(|other| has_swapped(name.as_bytes(), other.as_bytes())),
        ),
    }
}

/// Whether two letters beside one another have changed places.
fn has_swapped(name: &[u8], other: &[u8]) -> bool {
    let Some(at) = name.iter().zip(other).position(|(one, two)| one != two) else {
        return false;
    };
    match (name.get(at..), other.get(at..)) {
        (Some([first, second, rest @ ..]), Some([one, two, end @ ..])) => {
            first == two && second == one && rest == end
        }
        _ => false,
    }
}

fn nearest_hint(alloc: Global, name: &str, nearest: &str) -> Result<String, AllocError> {
    format!(in alloc; "there is no node {name}; the nearest is {nearest}\n")
}

fn node_names(alloc: Global, plan: &Plan) -> Result<Vec<&str>, AllocError> {
    let mut names = Vec::new(alloc);
    for node in &plan.nodes {
        names.push(node.name.text.as_str())?;
    }
    Ok(names)
}
