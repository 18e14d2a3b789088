// Paths.
use anyhow::{Result, bail};
use case_files::{answers, inputs};
use rel_path::{PathErr, RelPath};
use serde_json::Value;
use std::alloc::Global;
use std::cmp::Ordering;

fn refusal(alloc: Global, error: PathErr) -> Result<Value> {
    match error {
        PathErr::Empty => answers::error(alloc, "Empty"),
        PathErr::DotPart => answers::error(alloc, "DotPart"),
        PathErr::Slash => answers::error(alloc, "Slash"),
        PathErr::OutOfMemory => bail!("out of memory"),
    }
}

fn components(alloc: Global, path: Result<RelPath, PathErr>) -> Result<Value> {
    match path {
        Ok(path) => answers::texts(alloc, path.components()),
        Err(error) => refusal(alloc, error),
    }
}

fn compare(alloc: Global, case: &Value) -> Result<Value> {
    let path = inputs::path(alloc, case, "path")?;
    let other = inputs::path(alloc, case, "other")?;
    let word = match path.cmp(&other) {
        Ordering::Less => "less",
        Ordering::Equal => "equal",
        Ordering::Greater => "greater",
    };
    answers::text(alloc, word)
}

pub fn answer(alloc: Global, case: &Value) -> Result<Value> {
    match inputs::text(case, "call")? {
        "read" => components(alloc, RelPath::read(alloc, inputs::text(case, "text")?)),
        "join" => {
            let path = inputs::path(alloc, case, "path")?;
            components(alloc, path.join(alloc, inputs::text(case, "name")?))
        }
        "below" => {
            let path = inputs::path(alloc, case, "path")?;
            let folder = inputs::path(alloc, case, "folder")?;
            Ok(Value::Bool(path.below(&folder)))
        }
        "compare" => compare(alloc, case),
        _ => bail!("no such call"),
    }
}
