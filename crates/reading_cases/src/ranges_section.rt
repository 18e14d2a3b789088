// npm's ranges: which of the versions they admit.
use anyhow::{Result, bail};
use case_files::{answers, inputs};
use npm_range::{Range, RangeErr};
use semver::Version;
use serde_json::Value;
use std::alloc::Global;

fn admits(alloc: Global, range: &Range, version: &str) -> Result<bool> {
    match Version::parse(alloc, version) {
        Ok(version) => Ok(range.admits(&version)),
        Err(_) => bail!("no version"),
    }
}

fn admitted(alloc: Global, range: &Range, case: &Value) -> Result<Value> {
    let mut admitted = Vec::new(alloc);
    for value in inputs::list(case, "versions")? {
        let version = inputs::as_text(value)?;
        if admits(alloc, range, version)? {
            admitted.push(answers::text(alloc, version)?)?;
        }
    }
    Ok(Value::Array(admitted))
}

pub fn answer(alloc: Global, case: &Value) -> Result<Value> {
    match Range::read(alloc, inputs::text(case, "range")?) {
        Ok(range) => admitted(alloc, &range, case),
        Err(RangeErr::NotARange) => answers::error(alloc, "NotARange"),
        Err(RangeErr::OutOfMemory) => bail!("out of memory"),
    }
}
