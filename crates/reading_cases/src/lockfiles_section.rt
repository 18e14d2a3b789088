// Lockfiles: which texts are some, what names find and reach, and what a cut keeps.
use anyhow::{Result, bail};
use case_files::{answers, inputs};
use npm_lock::{ExtErr, Lock, LockErr, Start};
use rel_path::Text;
use serde_json::{Value, json};
use std::alloc::Global;

fn refusal(alloc: Global, error: &LockErr) -> Result<Value> {
    match error {
        LockErr::NotJson => answers::error(alloc, "NotJson"),
        LockErr::WrongKind { pointer, wanted } => {
            answers::wrong_kind(alloc, pointer, wanted.word())
        }
        LockErr::Version { n } => version(alloc, *n),
        LockErr::Number { pointer } => answers::error_to(alloc, "Number", pointer),
        LockErr::OutOfMemory => bail!("out of memory"),
    }
}

fn version(alloc: Global, number: i128) -> Result<Value> {
    let number = answers::printed(alloc, &number)?;
    Ok(json!(in alloc; {"error": "Version", "version": number})?)
}

fn read(alloc: Global, case: &Value) -> Result<Value> {
    match Lock::read(alloc, inputs::bytes(alloc, case, "lock")?.as_slice()) {
        Ok(_lock) => answers::text(alloc, "reads"),
        Err(error) => refusal(alloc, &error),
    }
}

fn whole_lock(alloc: Global, case: &Value) -> Result<Lock> {
    let bytes = inputs::bytes(alloc, case, "lock")?;
    Ok(Lock::read(alloc, bytes.as_slice())?)
}

// The lockfile, cut down, printed and read back where the case says so.
fn lock(alloc: Global, case: &Value) -> Result<Lock> {
    let lock = whole_lock(alloc, case)?;
    let Some(cut) = inputs::optional(case, "cut to") else {
        return Ok(lock);
    };
    let folders = inputs::texts(alloc, cut, "folders")?;
    let keep = inputs::texts(alloc, cut, "keep")?;
    let lock = lock.cut(alloc, &folders, &keep)?;
    Ok(Lock::read(alloc, lock.print(alloc)?.as_slice())?)
}

// The location that the name finds.
fn location(alloc: Global, lock: &Lock, from: &str, name: &str) -> Result<Value> {
    match lock.found(from, name) {
        Some(number) => answers::text(alloc, lock.location(number).as_str()),
        None => Ok(Value::Null),
    }
}

fn found(alloc: Global, case: &Value) -> Result<Value> {
    let (from, name) = (inputs::text(case, "from")?, inputs::text(case, "name")?);
    location(alloc, &lock(alloc, case)?, from, name)
}

// The number of the link that the name finds, and the folder that it leads to.
fn folder(alloc: Global, lock: &Lock, from: &str, name: &str) -> Result<Value> {
    match lock.found(from, name) {
        Some(number) => link_value(alloc, number, lock.link_of(number)),
        None => bail!("nothing is found"),
    }
}

fn link(alloc: Global, case: &Value) -> Result<Value> {
    let (from, name) = (inputs::text(case, "from")?, inputs::text(case, "name")?);
    folder(alloc, &lock(alloc, case)?, from, name)
}

fn link_value(alloc: Global, number: u32, folder: Option<&Text>) -> Result<Value> {
    let folder = answers::optional_text(alloc, folder)?;
    Ok(json!(in alloc; {"number": number, "folder": folder})?)
}

fn start(alloc: Global, value: &Value) -> Result<Start> {
    Ok(Start {
        from: Text::read(alloc, inputs::text_or(value, "from", "")?)?,
        name: Text::read(alloc, inputs::text(value, "name")?)?,
        soft: inputs::flag(value, "soft")?,
    })
}

fn starts(alloc: Global, case: &Value) -> Result<Vec<Start>> {
    let mut starts = Vec::new(alloc);
    for value in inputs::list(case, "starts")? {
        starts.push(start(alloc, value)?)?;
    }
    Ok(starts)
}

fn externals(alloc: Global, case: &Value) -> Result<Value> {
    let lock = lock(alloc, case)?;
    let starts = starts(alloc, case)?;
    match lock.externals(alloc, starts.as_slice()) {
        Ok(pairs) => answers::pairs(alloc, pairs.as_slice()),
        Err(ExtErr::Missing { from, name }) => Ok(
            json!(in alloc; {"error": "Missing", "from": from.as_str(), "name": name.as_str()})?,
        ),
        Err(ExtErr::OutOfMemory) => bail!("out of memory"),
    }
}

fn links(alloc: Global, case: &Value) -> Result<Value> {
    let lock = lock(alloc, case)?;
    let starts = starts(alloc, case)?;
    answers::texts(alloc, lock.links(alloc, starts.as_slice())?.as_slice())
}

fn printed(alloc: Global, case: &Value) -> Result<Value> {
    answers::bytes(alloc, lock(alloc, case)?.print(alloc)?.as_slice())
}

pub fn answer(alloc: Global, case: &Value) -> Result<Value> {
    match inputs::text(case, "call")? {
        "read" => read(alloc, case),
        "found" => found(alloc, case),
        "link" => link(alloc, case),
        "externals" => externals(alloc, case),
        "links" => links(alloc, case),
        "print" => printed(alloc, case),
        _ => bail!("no such call"),
    }
}
