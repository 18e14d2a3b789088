// Artifacts and their texts.
use crate::parts;
use anyhow::{Result, anyhow};
use cache_api::Artifact;
use case_files::{answers, inputs};
use rel_path::{Bytes, Files, RelPath};
use serde_json::{Value, json};
use std::alloc::Global;

/// Files in the order in which they are written: a list of paths with what stands in them.
pub fn files_of(alloc: Global, list: &[Value]) -> Result<Files> {
    let mut files = Files::new(alloc);
    for value in list {
        let pair = inputs::as_list(value)?;
        let path = inputs::as_path(alloc, inputs::as_text(inputs::item(pair, 0)?)?)?;
        let bytes = inputs::as_bytes(alloc, inputs::item(pair, 1)?)?;
        files.push((path, Bytes::from_vec(bytes)))?;
    }
    Ok(files)
}

/// The artifact of a log (`log`) and files (`files`).
pub fn artifact_of(alloc: Global, case: &Value) -> Result<Artifact> {
    let log = parts::bytes_or_none(alloc, case, "log")?;
    Ok(Artifact {
        log: Bytes::from_vec(log),
        files: files_of(alloc, inputs::list(case, "files")?)?,
    })
}

fn file(alloc: Global, file: &(RelPath, Bytes)) -> Result<Value> {
    let path = answers::path(alloc, &file.0)?;
    let bytes = answers::bytes(alloc, file.1.as_slice())?;
    Ok(json!(in alloc; [path, bytes])?)
}

/// An artifact as its log and its files, in their order.
pub fn shown(alloc: Global, artifact: &Artifact) -> Result<Value> {
    let log = answers::bytes(alloc, artifact.log.as_slice())?;
    let mut files = Vec::new(alloc);
    for item in artifact.files.as_slice() {
        files.push(file(alloc, item)?)?;
    }
    Ok(json!(in alloc; {"log": log, "files": Value::Array(files)})?)
}

fn write(alloc: Global, artifact: &Artifact) -> Result<Value> {
    let Ok(text) = artifact.text(alloc) else {
        return Err(anyhow!("out of memory"));
    };
    let text = answers::bytes(alloc, text.as_slice())?;
    Ok(json!(in alloc; {"text": text, "length": artifact.text_len()})?)
}

// What is read writes the text that it was read from.
fn read(alloc: Global, text: &[u8]) -> Result<Value> {
    let Ok(Some(artifact)) = Artifact::read(alloc, text) else {
        return Ok(Value::Null);
    };
    match artifact.text(alloc) {
        Ok(again) if again.as_slice() == text => shown(alloc, &artifact),
        _ => answers::text(alloc, "another text"),
    }
}

// The lengths of the fronts that read, the whole text among them.
fn read_fronts(alloc: Global, text: &[u8]) -> Result<Value> {
    let mut lengths = Vec::new(alloc);
    for end in 0..=text.len() {
        if !read(alloc, &text[..end])?.is_null() {
            lengths.push(Value::from(end as u64))?;
        }
    }
    Ok(Value::Array(lengths))
}

/// The text of an artifact (`write`), what a text reads as (`read`), or the lengths of its fronts that read
/// (`read fronts`).
pub fn answer(alloc: Global, case: &Value) -> Result<Value> {
    match inputs::text(case, "call")? {
        "write" => write(alloc, &artifact_of(alloc, case)?),
        "read" => read(alloc, &parts::changed(alloc, case, "text")?),
        "read fronts" => read_fronts(alloc, &parts::bytes(alloc, case, "text")?),
        _ => Err(anyhow!("no such call")),
    }
}
