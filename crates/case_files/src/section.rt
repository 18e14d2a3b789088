// A section: the cases of a file, and the call that answers them.
use crate::Outcome;
use anyhow::{Context, Result};
use serde_json::Value;
use std::alloc::Global;
use std::fs;
use std::rt::Files;

// The name of a case, and the answer that it wants.
const NAME: &str = "case";

const WANTED: &str = "is";

fn name_of(case: &Value) -> Result<&str> {
    case.get(NAME)
        .and_then(Value::as_str)
        .context("a case without a name")
}

fn compare_case<F: Fn(Global, &Value) -> Result<Value>>(
    alloc: Global,
    line: &str,
    case: &Value,
    answer: &F,
    outcome: &mut Outcome,
) -> Result<()>
    requires { F.IsAlwaysCallable answer.now }
{
    let name = match name_of(case) {
        Ok(name) => name,
        Err(fault) => return outcome.count_unread(alloc, line, &fault),
    };
    let Some(wanted) = case.get(WANTED) else {
        return outcome.count_unread(alloc, name, &"no answer is wanted");
    };
    match answer(alloc, case) {
        Ok(came) => outcome.count_answer(alloc, name, wanted, &came),
        Err(fault) => outcome.count_unread(alloc, name, &fault),
    }
}

/// Compares each case of the text, one a line, with the answer that comes. A line that is no case, and one whose inputs
/// do not read, counts as a case that differs.
pub fn compare<F: Fn(Global, &Value) -> Result<Value>>(
    alloc: Global,
    text: &str,
    answer: F,
) -> Result<Outcome>
    requires { F.IsAlwaysCallable answer }
{
    let mut outcome = Outcome::new(alloc);
    for line in text.lines() {
        match Value::from_str(alloc, line) {
            Ok(case) => compare_case(alloc, line, &case, &answer, &mut outcome)?,
            Err(fault) => outcome.count_unread(alloc, line, &fault)?,
        }
    }
    Ok(outcome)
}

/// Compares the cases of the section's file in the folder, `SECTION.jsonl`, and prints its line.
pub fn print_section<F: Fn(Global, &Value) -> Result<Value>>(
    rt: &(impl Files + Print + AllocGlobal),
    folder: &str,
    section: &str,
    answer: F,
) -> Result<()>
    requires { F.IsAlwaysCallable answer }
{
    let path = format!(in rt.alloc(); "{folder}/{section}.jsonl")?;
    let text = fs::read_to_string(rt, path.as_str())?;
    let outcome = compare(rt.alloc(), text.as_str(), answer)?;
    outcome.print(rt, section)
}
