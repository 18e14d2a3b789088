// The parts of a case: bytes, artifacts, pairs and devices.
use anyhow::{Context, Result, anyhow};
use cache_api::Artifact;
use case_files::{answers, inputs};
use globs::{GlobList, GlobLists, OutSet};
use rel_path::{Bytes, Files, RelPath, Text, Texts};
use serde_json::{Value, json};
use std::alloc::Global;

// The folder of the task whose results are looked for, and what it declares.
const FOLDER: &str = "a";

const OUTPUTS: &str = "dist/**";

/// The bytes that the value writes: a text, `{"hex": ".."}`, or `{"byte": 7, "times": 100}`.
pub fn bytes(alloc: Global, value: &Value) -> Result<Vec<u8>> {
    match inputs::optional(value, "byte") {
        Some(_) => repeated(alloc, value),
        None => inputs::as_bytes(alloc, value),
    }
}

fn repeated(alloc: Global, value: &Value) -> Result<Vec<u8>> {
    let Ok(byte) = u8::try_from(inputs::number(value, "byte")?) else {
        return Err(anyhow!("no byte"));
    };
    let times = inputs::number(value, "times")? as usize;
    Ok(vec![in alloc; byte; times]?)
}

/// The number of that name, or the other one where it is missing.
pub fn number_or(case: &Value, name: &str, other: u64) -> Result<u64> {
    match inputs::optional(case, name) {
        Some(_) => inputs::number(case, name),
        None => Ok(other),
    }
}

/// The outputs of the task for which results are looked up.
pub fn outs(alloc: Global) -> Result<OutSet> {
    let mut mine = Texts::new(alloc);
    mine.push(Text::read(alloc, OUTPUTS)?)?;
    Ok(OutSet {
        folder: RelPath::read(alloc, FOLDER)?,
        mine: GlobList::read(alloc, &mine)?,
        others: GlobLists::new(alloc),
    })
}

/// The key of a pair of a case, which is a list: the key, the log and, where it has some, the
/// files.
pub fn key(alloc: Global, pair: &Value) -> Result<Vec<u8>> {
    bytes(alloc, inputs::item(inputs::as_list(pair)?, 0)?)
}

/// Its artifact, or `None` where its log is `null`: its value is to be no artifact.
pub fn artifact(alloc: Global, pair: &Value) -> Result<Option<Artifact>> {
    let items = inputs::as_list(pair)?;
    let log = inputs::item(items, 1)?;
    if log.is_null() {
        return Ok(None);
    }
    let log = Bytes::from_vec(bytes(alloc, log)?);
    let files = match items.get(2) {
        Some(files) => files_of(alloc, inputs::as_list(files)?)?,
        None => Files::new(alloc),
    };
    Ok(Some(Artifact { log, files }))
}

/// The same, of a pair that is to be put.
pub fn new_artifact(alloc: Global, pair: &Value) -> Result<Artifact> {
    artifact(alloc, pair)?.context("no artifact")
}

fn files_of(alloc: Global, list: &[Value]) -> Result<Files> {
    let mut files = Files::new(alloc);
    for value in list {
        let file = inputs::as_list(value)?;
        let path = inputs::as_path(alloc, inputs::as_text(inputs::item(file, 0)?)?)?;
        let bytes = bytes(alloc, inputs::item(file, 1)?)?;
        files.push((path, Bytes::from_vec(bytes)))?;
    }
    Ok(files)
}

fn shown_files(alloc: Global, files: &[(RelPath, Bytes)]) -> Result<Value> {
    let mut values = Vec::new(alloc);
    for file in files {
        let path = answers::path(alloc, &file.0)?;
        let bytes = answers::bytes(alloc, file.1.as_slice())?;
        values.push(json!(in alloc; [path, bytes])?)?;
    }
    Ok(Value::Array(values))
}

/// This value, the log of the artifact and, where it has some, its files.
pub fn shown(alloc: Global, first: Value, artifact: &Artifact) -> Result<Value> {
    let log = answers::bytes(alloc, artifact.log.as_slice())?;
    let mut values = Vec::new(alloc);
    values.push(first)?;
    values.push(log)?;
    if !artifact.files.as_slice().is_empty() {
        values.push(shown_files(alloc, artifact.files.as_slice())?)?;
    }
    Ok(Value::Array(values))
}
/// The numbers of that name, none where it is missing.
pub fn numbers(alloc: Global, case: &Value, name: &str) -> Result<Vec<u64>> {
    let mut numbers = Vec::new(alloc);
    for value in inputs::list(case, name)? {
        numbers.push(value.as_u64().context("a number is wanted")?)?;
    }
    Ok(numbers)
}
