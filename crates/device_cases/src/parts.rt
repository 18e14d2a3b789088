// Bytes, written in parts.
use anyhow::{Result, anyhow};
use case_files::inputs;
use serde_json::Value;
use std::alloc::Global;

/// The bytes of that name: a text, `{"hex": ".."}`, `{"byte": 7, "times": 100}`, or a list of these, one behind the
/// other.
pub fn bytes(alloc: Global, case: &Value, name: &str) -> Result<Vec<u8>> {
    let value = inputs::value(case, name)?;
    let Some(list) = value.as_array() else {
        return part(alloc, value);
    };
    let mut all = Vec::new(alloc);
    for value in list.as_slice() {
        all.extend_from_slice(&part(alloc, value)?)?;
    }
    Ok(all)
}

/// No bytes where the name is missing.
pub fn bytes_or_none(alloc: Global, case: &Value, name: &str) -> Result<Vec<u8>> {
    match inputs::optional(case, name) {
        Some(_) => bytes(alloc, case, name),
        None => Ok(Vec::new(alloc)),
    }
}

fn part(alloc: Global, value: &Value) -> Result<Vec<u8>> {
    match value.get("byte") {
        Some(_) => repeated(alloc, value),
        None => inputs::as_bytes(alloc, value),
    }
}

fn repeated(alloc: Global, value: &Value) -> Result<Vec<u8>> {
    let byte = byte(value, "byte")?;
    let times = inputs::number(value, "times")? as usize;
    Ok(vec![in alloc; byte; times]?)
}

pub fn byte(case: &Value, name: &str) -> Result<u8> {
    match u8::try_from(inputs::number(case, name)?) {
        Ok(byte) => Ok(byte),
        Err(_) => Err(anyhow!("{name} is no byte")),
    }
}

/// The bytes of that name, over which the changes of the case are written.
pub fn changed(alloc: Global, case: &Value, name: &str) -> Result<Vec<u8>> {
    let mut all = bytes(alloc, case, name)?;
    change(alloc, &mut all, case)?;
    Ok(all)
}

/// Writes the changes of the case over the bytes.
pub fn change(alloc: Global, all: &mut [u8], case: &Value) -> Result<()> {
    for change in inputs::list(case, "changes")? {
        let new = bytes(alloc, change, "bytes")?;
        write_over(all, inputs::number(change, "at")? as usize, &new);
    }
    Ok(())
}

// What would stand behind the end is left out.
fn write_over(bytes: &mut [u8], at: usize, new: &[u8]) {
    for (place, byte) in bytes.iter_mut().enumerate() {
        if place >= at {
            if let Some(value) = new.get(place - at) {
                *byte = *value;
            }
        }
    }
}
