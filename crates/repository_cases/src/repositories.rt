// Repositories in memory, as cases write them.
use anyhow::{Result, bail};
use case_files::{answers, inputs};
use refusals::{Refusal, Stop, fault_text};
use rel_path::{Bytes, Files, Text};
use repository::{Repository, read_repository};
use serde_json::{Value, json};
use std::alloc::Global;
use tree_dev::MemTree;
use turbo_config::{TaskId, TaskIds};

// The one name of an object that stands for a file of so many blanks.
const BLANKS: &str = "blanks";

const BLANK: u8 = b' ';

fn blanks(alloc: Global, count: u64) -> Result<Vec<u8>> {
    let mut bytes = Vec::new(alloc);
    for _place in 0..count {
        bytes.push(BLANK)?;
    }
    Ok(bytes)
}

fn content(alloc: Global, value: &Value) -> Result<Vec<u8>> {
    match value.get(BLANKS).and_then(Value::as_u64) {
        Some(count) => blanks(alloc, count),
        None => inputs::as_bytes(alloc, value),
    }
}

/// The files of the case, by their paths.
pub fn files_of(alloc: Global, case: &Value) -> Result<Files> {
    let mut files = Files::new(alloc);
    for (path, value) in inputs::members(case, "files")?.iter() {
        let bytes = Bytes::from_vec(content(alloc, value)?);
        files.push((inputs::as_path(alloc, path.as_str())?, bytes))?;
    }
    Ok(files)
}

/// The numbers of the calls that fail.
pub fn fails_of(alloc: Global, case: &Value) -> Result<Vec<u64>> {
    let mut fails = Vec::new(alloc);
    for value in inputs::list(case, "fails")? {
        match value.as_u64() {
            Some(number) => fails.push(number)?,
            None => bail!("no number of a call"),
        }
    }
    Ok(fails)
}

/// What is read of the case's files.
pub fn reading_of(alloc: Global, case: &Value) -> Result<Result<Repository, Stop>> {
    let files = files_of(alloc, case)?;
    let mut tree = MemTree::new(alloc, files, fails_of(alloc, case)?);
    Ok(read_repository(alloc, &mut tree))
}

/// The repository of the case, which is to read.
pub fn repository_of(alloc: Global, case: &Value) -> Result<Repository> {
    match reading_of(alloc, case)? {
        Ok(repository) => Ok(repository),
        Err(_) => bail!("the files are no repository"),
    }
}

/// The line of a refusal.
pub fn refused(alloc: Global, refusal: &Refusal) -> Result<Value> {
    let line = answers::bytes(alloc, fault_text(alloc, refusal)?.as_slice())?;
    Ok(json!(in alloc; {"refused": line})?)
}

/// A task as `package#task`.
pub fn task_value(alloc: Global, task: &TaskId) -> Result<Value> {
    let (package, name) = (task.package.as_str(), task.task.as_str());
    Ok(Value::String(format!(in alloc; "{package}#{name}")?))
}

pub fn task_values(alloc: Global, tasks: &[TaskId]) -> Result<Value> {
    let mut values = Vec::new(alloc);
    for task in tasks {
        values.push(task_value(alloc, task)?)?;
    }
    Ok(Value::Array(values))
}

/// The task that `package#task` names.
pub fn task_of(alloc: Global, text: &str) -> Result<TaskId> {
    let Some((package, task)) = text.split_once('#') else {
        bail!("no task: {text}");
    };
    Ok(TaskId {
        package: Text::read(alloc, package)?,
        task: Text::read(alloc, task)?,
    })
}

pub fn tasks_of(alloc: Global, case: &Value, name: &str) -> Result<TaskIds> {
    let mut tasks = TaskIds::new(alloc);
    for value in inputs::list(case, name)? {
        tasks.push(task_of(alloc, inputs::as_text(value)?)?)?;
    }
    Ok(tasks)
}
