// Configuration: which files are refused and why, and which definition a task has.
use crate::glob_faults::glob_fault;
use anyhow::{Result, bail};
use case_files::{answers, inputs};
use env_select::EnvMode;
use globs::GlobErr;
use rel_path::{Text, Texts};
use serde_json::{Value, json};
use std::alloc::Global;
use task_definitions::Config;
use turbo_config::{ConfigErr, Globals, LogMode, PackageConfig, RootConfig, TaskDef};

fn refusal(alloc: Global, error: &ConfigErr) -> Result<Value> {
    match error {
        ConfigErr::Pipeline => answers::error(alloc, "Pipeline"),
        ConfigErr::UnknownKey { pointer } => answers::error_to(alloc, "UnknownKey", pointer),
        ConfigErr::WrongKind { pointer, wanted } => {
            answers::wrong_kind(alloc, pointer, wanted.word())
        }
        ConfigErr::ForeignKey { pointer } => answers::error_to(alloc, "ForeignKey", pointer),
        ConfigErr::NoExtends => answers::error(alloc, "NoExtends"),
        ConfigErr::TaskName { pointer } => answers::error_to(alloc, "TaskName", pointer),
        ConfigErr::OpenComment { at } => answers::error_at(alloc, "OpenComment", *at),
        ConfigErr::NotJson => answers::error(alloc, "NotJson"),
        ConfigErr::Glob { pointer, fault } => no_glob(alloc, pointer, *fault),
        ConfigErr::OutOfMemory => bail!("out of memory"),
    }
}

fn no_glob(alloc: Global, pointer: &Text, fault: GlobErr) -> Result<Value> {
    let fault = glob_fault(alloc, fault)?;
    Ok(json!(in alloc; {"error": "Glob", "at": pointer.as_str(), "fault": fault})?)
}

fn root_fault(alloc: Global, case: &Value) -> Result<Option<ConfigErr>> {
    let bytes = inputs::bytes(alloc, case, "root file")?;
    Ok(RootConfig::read(alloc, bytes.as_slice()).err())
}

fn package_fault(alloc: Global, case: &Value) -> Result<Option<ConfigErr>> {
    let bytes = inputs::bytes(alloc, case, "package file")?;
    Ok(PackageConfig::read(alloc, bytes.as_slice()).err())
}

// Why the file of the root or else of a package is refused.
fn fault(alloc: Global, case: &Value) -> Result<Option<ConfigErr>> {
    match inputs::optional(case, "root file") {
        Some(_) => root_fault(alloc, case),
        None => package_fault(alloc, case),
    }
}

fn read(alloc: Global, case: &Value) -> Result<Value> {
    match fault(alloc, case)? {
        None => answers::text(alloc, "reads"),
        Some(error) => refusal(alloc, &error),
    }
}

fn message(alloc: Global, case: &Value) -> Result<Value> {
    match fault(alloc, case)? {
        None => bail!("no refusal"),
        Some(error) => answers::printed(alloc, &error),
    }
}

fn root(alloc: Global, case: &Value) -> Result<Option<RootConfig>> {
    match inputs::optional(case, "root file") {
        None => Ok(None),
        Some(file) => {
            let bytes = inputs::as_bytes(alloc, file)?;
            Ok(Some(RootConfig::read(alloc, bytes.as_slice())?))
        }
    }
}

// The packages' files, written as an object of the packages' names.
fn packages(alloc: Global, case: &Value) -> Result<Vec<(Text, PackageConfig)>> {
    let mut packages = Vec::new(alloc);
    if inputs::optional(case, "package files").is_none() {
        return Ok(packages);
    }
    for (name, file) in inputs::members(case, "package files")?.iter() {
        let bytes = inputs::as_bytes(alloc, file)?;
        let config = PackageConfig::read(alloc, bytes.as_slice())?;
        packages.push((Text::read(alloc, name.as_str())?, config))?;
    }
    Ok(packages)
}

fn config(alloc: Global, case: &Value) -> Result<Config> {
    let root = root(alloc, case)?;
    let packages = packages(alloc, case)?;
    let scripts = inputs::texts(alloc, case, "scripts")?;
    Ok(Config::new(alloc, root, packages, scripts)?)
}

fn log_word(logs: LogMode) -> &'static str {
    match logs {
        LogMode::Full => "full",
        LogMode::HashOnly => "hash-only",
        LogMode::NewOnly => "new-only",
        LogMode::ErrorsOnly => "errors-only",
        LogMode::Silent => "none",
    }
}

// The texts, or `null`, which stands for the default inputs.
fn optional_texts(alloc: Global, found: Option<&Texts>) -> Result<Value> {
    match found {
        Some(texts) => answers::texts(alloc, texts.as_slice()),
        None => Ok(Value::Null),
    }
}

fn lists(alloc: Global, task: &TaskDef) -> Result<Value> {
    Ok(json!(in alloc; {
        "dependsOn": answers::texts(alloc, task.depends_on.as_slice())?,
        "inputs": optional_texts(alloc, task.inputs.as_ref())?,
        "outputs": answers::texts(alloc, task.outputs.as_slice())?,
        "env": answers::texts(alloc, task.env.as_slice())?,
        "passThroughEnv": answers::texts(alloc, task.pass.as_slice())?,
        "with": answers::texts(alloc, task.with_tasks.as_slice())?
    })?)
}

fn flags(alloc: Global, task: &TaskDef) -> Result<Value> {
    Ok(json!(in alloc; {
        "cache": task.cache,
        "persistent": task.persistent,
        "interactive": task.interactive,
        "interruptible": task.interruptible,
        "outputLogs": log_word(task.logs)
    })?)
}

fn definition(alloc: Global, case: &Value) -> Result<Option<TaskDef>> {
    let config = config(alloc, case)?;
    let package = Text::read(alloc, inputs::text(case, "package")?)?;
    let task = Text::read(alloc, inputs::text(case, "task")?)?;
    Ok(config.task_def(alloc, &package, &task)?)
}

fn definition_value(alloc: Global, case: &Value) -> Result<Value> {
    match definition(alloc, case)? {
        None => Ok(Value::Null),
        Some(task) => {
            let (lists, flags) = (lists(alloc, &task)?, flags(alloc, &task)?);
            Ok(json!(in alloc; {"lists": lists, "flags": flags})?)
        }
    }
}

fn is_task(alloc: Global, case: &Value) -> Result<Value> {
    Ok(Value::Bool(definition(alloc, case)?.is_some()))
}

fn names(alloc: Global, case: &Value) -> Result<Value> {
    answers::texts(alloc, config(alloc, case)?.names(alloc)?.as_slice())
}

fn ends_in(alloc: Global, case: &Value) -> Result<Value> {
    let task = Text::read(alloc, inputs::text(case, "task")?)?;
    Ok(Value::Bool(config(alloc, case)?.ends_in(&task)))
}

fn mode_value(alloc: Global, mode: Option<EnvMode>) -> Result<Value> {
    match mode {
        None => Ok(Value::Null),
        Some(EnvMode::Strict) => answers::text(alloc, "strict"),
        Some(EnvMode::Loose) => answers::text(alloc, "loose"),
    }
}

fn globals_value(alloc: Global, globals: &Globals) -> Result<Value> {
    Ok(json!(in alloc; {
        "globalDependencies": answers::texts(alloc, globals.inputs.as_slice())?,
        "globalEnv": answers::texts(alloc, globals.env.as_slice())?,
        "globalPassThroughEnv": answers::texts(alloc, globals.pass.as_slice())?,
        "envMode": mode_value(alloc, globals.env_mode)?
    })?)
}

fn globals(alloc: Global, case: &Value) -> Result<Value> {
    globals_value(alloc, config(alloc, case)?.globals())
}

pub fn answer(alloc: Global, case: &Value) -> Result<Value> {
    match inputs::text(case, "call")? {
        "read" => read(alloc, case),
        "message" => message(alloc, case),
        "definition" => definition_value(alloc, case),
        "is a task" => is_task(alloc, case),
        "names" => names(alloc, case),
        "ends in" => ends_in(alloc, case),
        "globals" => globals(alloc, case),
        _ => bail!("no such call"),
    }
}
