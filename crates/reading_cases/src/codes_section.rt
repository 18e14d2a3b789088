// Codes: numbers of four bytes and strings behind their lengths, as digits.
use anyhow::{Result, bail};
use case_files::{answers, inputs};
use codes::{put_str, put_word, str_at, word_at};
use serde_json::{Value, json};
use std::alloc::Global;

// Writes the string, whose length is to be a number of four bytes.
fn put_string(to: &mut Vec<u8>, string: &[u8]) -> Result<()> {
    if string.len() > u32::MAX as usize {
        bail!("the string is too long");
    }
    put_str(to, string)?;
    Ok(())
}

// Writes a number, or the string that a text is.
fn put_item(alloc: Global, bytes: &mut Vec<u8>, item: &Value) -> Result<()> {
    match item.as_u64().map(u32::try_from) {
        Some(Ok(number)) => put_word(bytes, number)?,
        Some(Err(_)) => bail!("no number of four bytes"),
        None => put_string(bytes, inputs::as_bytes(alloc, item)?.as_slice())?,
    }
    Ok(())
}

fn written(alloc: Global, case: &Value) -> Result<Value> {
    let mut bytes = Vec::new(alloc);
    for item in inputs::list(case, "items")? {
        put_item(alloc, &mut bytes, item)?;
    }
    answers::digits(alloc, bytes.as_slice())
}

fn word(alloc: Global, bytes: &[u8]) -> Result<Value> {
    match word_at(bytes) {
        None => Ok(Value::Null),
        Some((number, rest)) => {
            let rest = answers::digits(alloc, rest)?;
            Ok(json!(in alloc; {"number": number, "rest": rest})?)
        }
    }
}

fn string(alloc: Global, bytes: &[u8]) -> Result<Value> {
    match str_at(bytes) {
        None => Ok(Value::Null),
        Some((found, rest)) => {
            let (found, rest) = (
                answers::digits(alloc, found)?,
                answers::digits(alloc, rest)?,
            );
            Ok(json!(in alloc; {"string": found, "rest": rest})?)
        }
    }
}

pub fn answer(alloc: Global, case: &Value) -> Result<Value> {
    match inputs::text(case, "call")? {
        "put" => written(alloc, case),
        "word_at" => word(alloc, inputs::bytes(alloc, case, "bytes")?.as_slice()),
        "str_at" => string(alloc, inputs::bytes(alloc, case, "bytes")?.as_slice()),
        _ => bail!("no such call"),
    }
}
