// The inputs of a case, by their names.
use anyhow::{Context, Result};
use rel_path::{Bytes, Files, Pairs, RelPath, Text, Texts};
use serde_json::{Map, Value};
use std::alloc::Global;

// The one name of an object that writes bytes by their hexadecimal digits.
const HEX: &str = "hex";

/// The input of that name.
pub fn value<'a>(case: &'a Value, name: &str) -> Result<&'a Value> {
    case.get(name)
        .context(format_args!("the input {name} is missing"))
}

/// The input of that name, unless it is missing or `null`.
pub fn optional<'a>(case: &'a Value, name: &str) -> Option<&'a Value> {
    match case.get(name) {
        Some(Value::Null) => None,
        other => other,
    }
}

pub fn text<'a>(case: &'a Value, name: &str) -> Result<&'a str> {
    as_text(value(case, name)?)
}

/// The text of that name, or the other one where it is missing.
pub fn text_or<'a>(case: &'a Value, name: &str, other: &'a str) -> Result<&'a str> {
    match optional(case, name) {
        Some(found) => as_text(found),
        None => Ok(other),
    }
}

pub fn number(case: &Value, name: &str) -> Result<u64> {
    value(case, name)?
        .as_u64()
        .context(format_args!("the input {name} is no number"))
}

/// Whether the flag of that name stands there and is true.
pub fn flag(case: &Value, name: &str) -> Result<bool> {
    match optional(case, name) {
        Some(found) => found
            .as_bool()
            .context(format_args!("the input {name} is no flag")),
        None => Ok(false),
    }
}

/// The items of the list of that name; none where it is missing.
pub fn list<'a>(case: &'a Value, name: &str) -> Result<&'a [Value]> {
    match optional(case, name) {
        Some(found) => as_list(found),
        None => Ok(&[]),
    }
}

/// The members of the object of that name.
pub fn members<'a>(case: &'a Value, name: &str) -> Result<&'a Map<String, Value>> {
    value(case, name)?
        .as_object()
        .context(format_args!("the input {name} is no object"))
}

pub fn as_text(value: &Value) -> Result<&str> {
    value.as_str().context("a text is wanted")
}

pub fn as_list(value: &Value) -> Result<&[Value]> {
    match value.as_array() {
        Some(items) => Ok(items.as_slice()),
        None => Err(anyhow::anyhow!("a list is wanted")),
    }
}

/// The item at that place of a list.
pub fn item(list: &[Value], place: usize) -> Result<&Value> {
    list.get(place).context("the list is too short")
}

/// A text of the reader's own.
pub fn own_text(alloc: Global, value: &Value) -> Result<Text> {
    Ok(Text::read(alloc, as_text(value)?)?)
}

pub fn texts(alloc: Global, case: &Value, name: &str) -> Result<Texts> {
    as_texts(alloc, list(case, name)?)
}

pub fn as_texts(alloc: Global, list: &[Value]) -> Result<Texts> {
    let mut texts = Texts::new(alloc);
    for value in list {
        texts.push(own_text(alloc, value)?)?;
    }
    Ok(texts)
}

/// Pairs, each written as a list of two texts.
pub fn pairs(alloc: Global, case: &Value, name: &str) -> Result<Pairs> {
    let mut pairs = Pairs::new(alloc);
    for value in list(case, name)? {
        pairs.push(pair(alloc, as_list(value)?)?)?;
    }
    Ok(pairs)
}

fn pair(alloc: Global, texts: &[Value]) -> Result<(Text, Text)> {
    let first = own_text(alloc, item(texts, 0)?)?;
    let second = own_text(alloc, item(texts, 1)?)?;
    Ok((first, second))
}

/// The path that the text writes; the root where it is empty.
pub fn as_path(alloc: Global, text: &str) -> Result<RelPath> {
    if text.is_empty() {
        return Ok(RelPath::root(alloc));
    }
    Ok(RelPath::read(alloc, text)?)
}

pub fn path(alloc: Global, case: &Value, name: &str) -> Result<RelPath> {
    as_path(alloc, text(case, name)?)
}

/// The bytes of a text, those that the digits of `{"hex": ".."}` write, or the JSON text of any other value.
pub fn as_bytes(alloc: Global, value: &Value) -> Result<Vec<u8>> {
    if let Some(text) = value.as_str() {
        return Ok(Vec::from_slice(alloc, text.as_bytes())?);
    }
    if let Some(digits) = value.get(HEX).and_then(Value::as_str) {
        return Ok(hex::decode(alloc, digits)?);
    }
    Ok(value.to_vec(alloc)?)
}

pub fn bytes(alloc: Global, case: &Value, name: &str) -> Result<Vec<u8>> {
    as_bytes(alloc, value(case, name)?)
}

/// Files, written as an object of their paths with what stands in them.
pub fn files(alloc: Global, case: &Value, name: &str) -> Result<Files> {
    let mut files = Files::new(alloc);
    for (path, value) in members(case, name)?.iter() {
        let bytes = Bytes::from_vec(as_bytes(alloc, value)?);
        files.push((as_path(alloc, path.as_str())?, bytes))?;
    }
    Ok(files)
}
