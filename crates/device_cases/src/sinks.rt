// Sinks in memory.
use anyhow::{Result, anyhow};
use case_files::{answers, inputs};
use serde_json::{Value, json};
use std::alloc::Global;
use tree_dev::{DevErr, MemSink, Sink};

fn put(alloc: Global, sink: &mut MemSink, text: &str) -> Result<Value> {
    match sink.put(alloc, text.as_bytes()) {
        Ok(()) => answers::text(alloc, "ok"),
        Err(DevErr::Failed) => answers::text(alloc, "Failed"),
        Err(DevErr::OutOfMemory) => Err(anyhow!("out of memory")),
    }
}

/// What each put answers, and what was written.
pub fn answer(alloc: Global, case: &Value) -> Result<Value> {
    let mut fails = Vec::new(alloc);
    for number in inputs::list(case, "fails")? {
        fails.push(number.as_u64().unwrap_or(u64::MAX))?;
    }
    let mut sink = MemSink::new(alloc, fails);
    let mut found = Vec::new(alloc);
    for text in inputs::list(case, "puts")? {
        found.push(put(alloc, &mut sink, inputs::as_text(text)?)?)?;
    }
    let written = answers::bytes(alloc, sink.written())?;
    Ok(json!(in alloc; {"answers": Value::Array(found), "written": written})?)
}
