// The environment: which variables are hashed, and which are handed on.
use anyhow::{Result, bail};
use case_files::{answers, inputs};
use env_select::{EnvList, EnvMode, given, hashed};
use rel_path::{Pairs, Text};
use serde_json::Value;
use std::alloc::Global;

fn list(alloc: Global, case: &Value, name: &str) -> Result<EnvList> {
    Ok(EnvList::read(alloc, &inputs::texts(alloc, case, name)?)?)
}

fn selects(alloc: Global, case: &Value) -> Result<Value> {
    let list = list(alloc, case, "list")?;
    let name = Text::read(alloc, inputs::text(case, "name")?)?;
    Ok(Value::Bool(list.selects(&name)))
}

// The names of those that the list selects.
fn selected(alloc: Global, case: &Value) -> Result<Value> {
    let list = list(alloc, case, "list")?;
    let mut names = Vec::new(alloc);
    for name in inputs::texts(alloc, case, "names")?.as_slice() {
        if list.selects(name) {
            names.push(answers::text(alloc, name.as_str())?)?;
        }
    }
    Ok(Value::Array(names))
}

fn hashed_pairs(alloc: Global, case: &Value) -> Result<Pairs> {
    let task = list(alloc, case, "task")?;
    let global = list(alloc, case, "global")?;
    let env = inputs::pairs(alloc, case, "env")?;
    Ok(hashed(alloc, &task, &global, env.as_slice())?)
}

fn mode(case: &Value) -> Result<EnvMode> {
    match inputs::text(case, "mode")? {
        "strict" => Ok(EnvMode::Strict),
        "loose" => Ok(EnvMode::Loose),
        _ => bail!("no such mode"),
    }
}

// What is handed on beside the variables that `task` and `global` take.
fn given_pairs(alloc: Global, case: &Value) -> Result<Pairs> {
    let pass = list(alloc, case, "pass")?;
    let global_pass = list(alloc, case, "global pass")?;
    let taken = hashed_pairs(alloc, case)?;
    let env = inputs::pairs(alloc, case, "env")?;
    Ok(given(
        alloc,
        &pass,
        &global_pass,
        &taken,
        env.as_slice(),
        mode(case)?,
    )?)
}

pub fn answer(alloc: Global, case: &Value) -> Result<Value> {
    match inputs::text(case, "call")? {
        "selects" => selects(alloc, case),
        "selected" => selected(alloc, case),
        "hashed" => answers::pairs(alloc, hashed_pairs(alloc, case)?.as_slice()),
        "given" => answers::pairs(alloc, given_pairs(alloc, case)?.as_slice()),
        _ => bail!("no such call"),
    }
}
