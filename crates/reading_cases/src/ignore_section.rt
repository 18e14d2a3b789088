// Ignore rules: which of the paths are ignored by files, each in its folder.
use anyhow::Result;
use case_files::{answers, inputs};
use ignore_rules::{Ignore, Stack};
use serde_json::Value;
use std::alloc::Global;

fn file(alloc: Global, file: &[Value]) -> Result<Ignore> {
    let folder = inputs::as_path(alloc, inputs::as_text(inputs::item(file, 0)?)?)?;
    let bytes = inputs::as_bytes(alloc, inputs::item(file, 1)?)?;
    Ok(Ignore::read(alloc, &folder, bytes.as_slice())?)
}

fn stack(alloc: Global, case: &Value) -> Result<Stack> {
    let mut files = Vec::new(alloc);
    for value in inputs::list(case, "files")? {
        files.push(file(alloc, inputs::as_list(value)?)?)?;
    }
    Ok(Stack::new(alloc, files)?)
}

pub fn answer(alloc: Global, case: &Value) -> Result<Value> {
    let stack = stack(alloc, case)?;
    let mut ignored = Vec::new(alloc);
    for value in inputs::list(case, "paths")? {
        let text = inputs::as_text(value)?;
        if stack.ignored(&inputs::as_path(alloc, text)?) {
            ignored.push(answers::text(alloc, text)?)?;
        }
    }
    Ok(Value::Array(ignored))
}
