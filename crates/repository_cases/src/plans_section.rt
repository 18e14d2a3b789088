// Plans of runs: the tasks, their inputs and settings, and the line of each refusal.
use crate::planning::{Answer, planned};
use crate::repositories::{refused, task_value};
use anyhow::{Result, bail};
use case_files::{answers, inputs};
use listing::{Listing, Part};
use rel_path::Text;
use run_core::Mode;
use run_plan::Plan;
use serde_json::{Value, json};
use std::alloc::Global;
use turbo_config::{LogMode, TaskId};

fn needs(alloc: Global, task: Value, part: &Part) -> Result<Value> {
    let places = answers::places(alloc, part.deps.as_slice())?;
    Ok(json!(in alloc; {"task": task, "needs": places})?)
}

fn words(alloc: Global, task: Value, part: &Part) -> Result<Value> {
    let words = answers::texts(alloc, part.args.as_slice())?;
    Ok(json!(in alloc; {"task": task, "words": words})?)
}

fn variables(alloc: Global, task: Value, part: &Part, given: &[(Text, Text)]) -> Result<Value> {
    let hashed = answers::pairs(alloc, part.env.as_slice())?;
    let given = answers::pairs(alloc, given)?;
    Ok(json!(in alloc; {"task": task, "hashed": hashed, "handed on": given})?)
}

// All that a task's result depends on but other tasks.
fn parts(alloc: Global, task: Value, part: &Part) -> Result<Value> {
    let folder = answers::path(alloc, &part.folder)?;
    let scripts = answers::texts(alloc, part.scripts.as_slice())?;
    let hashed = answers::pairs(alloc, part.env.as_slice())?;
    let files = answers::paths(alloc, part.inputs.as_slice())?;
    let installed = answers::pairs(alloc, part.externals.as_slice())?;
    Ok(json!(in alloc; {
        "task": task,
        "folder": folder,
        "scripts": scripts,
        "hashed": hashed,
        "inputs": files,
        "installed": installed
    })?)
}

fn given_at(plan: &Plan, place: usize) -> &[(Text, Text)] {
    match plan.given.as_slice().get(place) {
        Some(pairs) => pairs.as_slice(),
        None => &[],
    }
}

fn task(alloc: Global, call: &str, plan: &Plan, place: usize, id: &TaskId) -> Result<Value> {
    let Some(part) = plan.listing.parts.as_slice().get(place) else {
        bail!("the task at {place} has no part");
    };
    let task = task_value(alloc, id)?;
    match call {
        "needs" => needs(alloc, task, part),
        "words" => words(alloc, task, part),
        "variables" => variables(alloc, task, part, given_at(plan, place)),
        "parts" => parts(alloc, task, part),
        _ => bail!("no such call"),
    }
}

fn tasks(alloc: Global, call: &str, plan: &Plan) -> Result<Value> {
    let mut values = Vec::new(alloc);
    for (place, id) in plan.ids.as_slice().iter().enumerate() {
        values.push(task(alloc, call, plan, place, id)?)?;
    }
    Ok(Value::Array(values))
}

fn files(alloc: Global, listing: &Listing) -> Result<Value> {
    let mut values = Vec::new(alloc);
    for (path, bytes) in listing.files.as_slice() {
        let path = answers::path(alloc, path)?;
        let bytes = answers::bytes(alloc, bytes.as_slice())?;
        values.push(json!(in alloc; [path, bytes])?)?;
    }
    Ok(Value::Array(values))
}

fn paths(alloc: Global, listing: &Listing) -> Result<Value> {
    let mut values = Vec::new(alloc);
    for (path, _bytes) in listing.files.as_slice() {
        values.push(answers::path(alloc, path)?)?;
    }
    Ok(Value::Array(values))
}

fn mode_word(mode: Mode) -> &'static str {
    match mode {
        Mode::Never => "never",
        Mode::DependenciesSuccessful => "dependencies-successful",
        Mode::Always => "always",
    }
}

/// The word of `outputLogs` and `--output-logs`.
pub fn log_word(logs: LogMode) -> &'static str {
    match logs {
        LogMode::Full => "full",
        LogMode::HashOnly => "hash-only",
        LogMode::NewOnly => "new-only",
        LogMode::ErrorsOnly => "errors-only",
        LogMode::Silent => "none",
    }
}

fn logs_value(alloc: Global, logs: Option<LogMode>) -> Result<Value> {
    match logs {
        None => Ok(Value::Null),
        Some(logs) => answers::text(alloc, log_word(logs)),
    }
}

fn settings(alloc: Global, plan: &Plan) -> Result<Value> {
    let logs = logs_value(alloc, plan.logs)?;
    Ok(json!(in alloc; {
        "concurrency": plan.width,
        "continue": mode_word(plan.mode),
        "force": plan.force,
        "logs": logs,
        "limit": plan.limit
    })?)
}

fn value(alloc: Global, call: &str, plan: &Plan) -> Result<Value> {
    match call {
        "files" => files(alloc, &plan.listing),
        "file paths" => paths(alloc, &plan.listing),
        "settings" => settings(alloc, plan),
        _ => tasks(alloc, call, plan),
    }
}

pub fn answer(alloc: Global, case: &Value) -> Result<Value> {
    match planned(alloc, case)? {
        Answer::Planned(plan) => value(alloc, inputs::text(case, "call")?, &plan),
        Answer::Refused(refusal) => refused(alloc, &refusal),
        Answer::Unread => bail!("the files are no repository"),
        Answer::Failed => bail!("the tree failed"),
    }
}
