//! What is told of notes: the JSON value that the commands share, or a log of SARIF.
ghost use Rattle.std.specs.Prelude.{◌≡◌, IfOk, codes};
ghost use Rattle.serde_json.specs.View.{view};
ghost use Rattle.command_questions.specs.declared.form.Form.TheVariants.{Json};
ghost use Rattle.json_commands.{specs.Answers.{IsAnswer, IsLog}, specs.Values.{Has, one_data}};

use crate::said::Said;
use command_answers::Status;
use command_questions::Form;
use program_texts::{VERSION, text_of};
use serde_json::{Value, json};
use std::alloc::{AllocError, Global};

/// What a command answers that tells notes alone, in a run that ends so.
pub fn report(
    alloc: Global,
    form: Form,
    command: &str,
    status: Status,
    results: Value,
) -> Result<Said, AllocError>
    ensures { IfOk result (λ said. (said.status ≡ status) × IsAnswer form status (view results) (view said.value)) }
{
    let value = match form {
        Form::Json => found_value(alloc, command, status, results)?,
        Form::Sarif => log_value(alloc, results, tool_value(alloc)?)?,
    };
    Ok(Said { status, value })
}

fn found_value(
    alloc: Global,
    command: &str,
    status: Status,
    results: Value,
) -> Result<Value, AllocError>
    ensures { IfOk result (λ value. IsAnswer Json status (view results) (view value)) }
{
    json!(in alloc; {"command": command, "format": 1u8, "results": results, "status": status.number()})
}

// ---- SARIF

/// Where the schema of logs is published.
const SCHEMA: &str = "https://json.schemastore.org/sarif-2.1.0.json";

/// A log of one run (SARIF 2.1.0, section 3.13).
fn log_value(alloc: Global, results: Value, tool: Value) -> Result<Value, AllocError>
    ensures { IfOk result (λ value. IsLog (view results) (view value)) }
{
    let run = run_value(alloc, results, tool)?;
    log_of(alloc, run)
}

fn log_of(alloc: Global, run: Value) -> Result<Value, AllocError>
    ensures { IfOk result (λ value. Has (codes "runs") (one_data (view run)) (view value)) }
{
    json!(in alloc; {"$schema": SCHEMA, "runs": [run], "version": "2.1.0"})
}

/// A run (SARIF 2.1.0, section 3.14). Columns count characters, and not units of UTF-16 as they do by default.
fn run_value(alloc: Global, results: Value, tool: Value) -> Result<Value, AllocError>
    ensures { IfOk result (λ value. Has (codes "results") (view results) (view value)) }
{
    json!(in alloc; {"columnKind": "unicodeCodePoints", "results": results, "tool": tool})
}

/// The tool: this program, with the rules that its results name.
fn tool_value(alloc: Global) -> Result<Value, AllocError> {
    json!(in alloc; {"driver": {"name": "mctpplan", "rules": rules_value(alloc)?, "version": version()}})
}

/// The version of this program.
fn version() -> &'static str {
    let (line, _) = VERSION.split_once("\n").unwrap_or((VERSION, ""));
    line.strip_prefix("mctpplan ").unwrap_or(line)
}

/// The codes that results may have.
static CODES: [&str; 25] = [
    "C01", "C02", "C03", "C04", "C05", "C06", "C07", "C08", "C09", "C10", "C11", "C12", "C13",
    "C14", "C15", "C16", "J01", "J02", "J03", "J04", "J05", "J06", "J07", "J08", "J09",
];

/// The rules (SARIF 2.1.0, section 3.49), one for each code.
fn rules_value(alloc: Global) -> Result<Value, AllocError> {
    let mut rules = Vec::new(alloc);
    for &code in &CODES {
        rules.push(rule_value(alloc, code)?)?;
    }
    Ok(Value::Array(rules))
}

fn rule_value(alloc: Global, code: &str) -> Result<Value, AllocError> {
    json!(in alloc; {"id": code, "shortDescription": {"text": description_of(alloc, code)?}})
}

/// What a code means, on one line.
fn description_of(alloc: Global, code: &str) -> Result<String, AllocError> {
    let text = text_of(code).unwrap_or(code);
    let (meaning, _) = text.split_once("\nHint: ").unwrap_or((text, ""));
    meaning.trim_end().replace(alloc, "\n", " ")
}
