// Answers as JSON.
use anyhow::Result;
use rel_path::{RelPath, Text};
use serde_json::{Value, json};
use std::alloc::Global;
use std::fmt::Display;
use std::str;

pub fn text(alloc: Global, text: &str) -> Result<Value> {
    Ok(Value::try_from_str(alloc, text)?)
}

/// What the value prints.
pub fn printed<T: Display>(alloc: Global, value: &T) -> Result<Value> {
    Ok(Value::String(value.to_string(alloc)?))
}

/// The text, or `null`.
pub fn optional_text(alloc: Global, found: Option<&Text>) -> Result<Value> {
    match found {
        Some(found) => text(alloc, found.as_str()),
        None => Ok(Value::Null),
    }
}

pub fn texts(alloc: Global, list: &[Text]) -> Result<Value> {
    let mut values = Vec::new(alloc);
    for item in list {
        values.push(text(alloc, item.as_str())?)?;
    }
    Ok(Value::Array(values))
}

/// Pairs, each as a list of two texts.
pub fn pairs(alloc: Global, list: &[(Text, Text)]) -> Result<Value> {
    let mut values = Vec::new(alloc);
    for (first, second) in list {
        values.push(json!(in alloc; [first.as_str(), second.as_str()])?)?;
    }
    Ok(Value::Array(values))
}

/// A path by its text, the root by the empty one.
pub fn path(alloc: Global, path: &RelPath) -> Result<Value> {
    text(alloc, path.text(alloc)?.as_str())
}

pub fn paths(alloc: Global, list: &[RelPath]) -> Result<Value> {
    let mut values = Vec::new(alloc);
    for item in list {
        values.push(path(alloc, item)?)?;
    }
    Ok(Value::Array(values))
}

pub fn places(alloc: Global, list: &[u32]) -> Result<Value> {
    let mut values = Vec::new(alloc);
    for place in list {
        values.push(Value::from(*place))?;
    }
    Ok(Value::Array(values))
}

/// The hexadecimal digits of the bytes.
pub fn digits(alloc: Global, bytes: &[u8]) -> Result<Value> {
    Ok(Value::String(hex::encode(alloc, bytes)?))
}

/// The text that the bytes are, or `{"hex": ".."}`.
pub fn bytes(alloc: Global, bytes: &[u8]) -> Result<Value> {
    match str::from_utf8(bytes) {
        Ok(found) => text(alloc, found),
        Err(_) => Ok(json!(in alloc; {"hex": digits(alloc, bytes)?})?),
    }
}

/// An error by its name.
pub fn error(alloc: Global, name: &str) -> Result<Value> {
    Ok(json!(in alloc; {"error": name})?)
}

/// An error by its name and its place.
pub fn error_at(alloc: Global, name: &str, at: u64) -> Result<Value> {
    Ok(json!(in alloc; {"error": name, "at": at})?)
}

/// An error by its name and the JSON pointer to its place.
pub fn error_to(alloc: Global, name: &str, pointer: &Text) -> Result<Value> {
    Ok(json!(in alloc; {"error": name, "at": pointer.as_str()})?)
}

/// Something else than this shape stands at the JSON pointer.
pub fn wrong_kind(alloc: Global, pointer: &Text, wanted: &str) -> Result<Value> {
    Ok(json!(in alloc; {"error": "WrongKind", "at": pointer.as_str(), "wanted": wanted})?)
}
