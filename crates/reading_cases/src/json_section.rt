// JSON: what is read of a text, and JSON with comments.
use anyhow::{Result, bail};
use case_files::{answers, inputs};
use json_view::{JsonErr, Shape, View, plain_json, pointer_to};
use rel_path::{Pairs, Text, Texts};
use serde_json::{Value, json};
use std::alloc::Global;

fn refusal(alloc: Global, error: &JsonErr) -> Result<Value> {
    match error {
        JsonErr::NotJson => answers::error(alloc, "NotJson"),
        JsonErr::WrongKind { pointer, wanted } => {
            answers::wrong_kind(alloc, pointer, wanted.word())
        }
        JsonErr::OpenComment { at } => answers::error_at(alloc, "OpenComment", *at),
        JsonErr::OutOfMemory => bail!("out of memory"),
    }
}

// The text's bytes, without comments and commas at ends where the case says so.
fn document(alloc: Global, case: &Value) -> Result<Vec<u8>> {
    let bytes = inputs::bytes(alloc, case, "text")?;
    if !inputs::flag(case, "comments")? {
        return Ok(bytes);
    }
    match plain_json(alloc, bytes.as_slice()) {
        Ok(plain) => Ok(plain.into_vec()),
        Err(_) => bail!("a comment is open"),
    }
}

fn text_value(alloc: Global, found: Result<Option<Text>, JsonErr>) -> Result<Value> {
    match found {
        Ok(found) => answers::optional_text(alloc, found.as_ref()),
        Err(error) => refusal(alloc, &error),
    }
}

fn texts_value(alloc: Global, found: Result<Option<Texts>, JsonErr>) -> Result<Value> {
    match found {
        Ok(Some(found)) => answers::texts(alloc, found.as_slice()),
        Ok(None) => Ok(Value::Null),
        Err(error) => refusal(alloc, &error),
    }
}

fn pairs_value(alloc: Global, found: Result<Option<Pairs>, JsonErr>) -> Result<Value> {
    match found {
        Ok(Some(found)) => answers::pairs(alloc, found.as_slice()),
        Ok(None) => Ok(Value::Null),
        Err(error) => refusal(alloc, &error),
    }
}

fn flag_value(alloc: Global, found: Result<Option<bool>, JsonErr>) -> Result<Value> {
    match found {
        Ok(Some(flag)) => Ok(Value::Bool(flag)),
        Ok(None) => Ok(Value::Null),
        Err(error) => refusal(alloc, &error),
    }
}

fn whole_value(alloc: Global, found: Result<Option<u64>, JsonErr>) -> Result<Value> {
    match found {
        Ok(Some(whole)) => Ok(Value::from(whole)),
        Ok(None) => Ok(Value::Null),
        Err(error) => refusal(alloc, &error),
    }
}

// A value in an object of its own, since it may be `null`.
fn value_value(alloc: Global, found: Result<Option<&Value>, JsonErr>) -> Result<Value> {
    match found {
        Ok(Some(value)) => Ok(json!(in alloc; {"value": value})?),
        Ok(None) => Ok(Value::Null),
        Err(error) => refusal(alloc, &error),
    }
}

fn look_up(alloc: Global, case: &Value, call: &str, view: &View) -> Result<Value> {
    let pointer = inputs::text(case, "pointer")?;
    match call {
        "text_at" => text_value(alloc, view.text_at(alloc, pointer)),
        "texts_at" => texts_value(alloc, view.texts_at(alloc, pointer)),
        "flag_at" => flag_value(alloc, view.flag_at(alloc, pointer)),
        "whole_at" => whole_value(alloc, view.whole_at(alloc, pointer)),
        "keys_at" => texts_value(alloc, view.keys_at(alloc, pointer)),
        "pairs_at" => pairs_value(alloc, view.pairs_at(alloc, pointer)),
        "value_at" => value_value(alloc, view.value_at(pointer)),
        _ => bail!("no such call"),
    }
}

fn read(alloc: Global, case: &Value, call: &str) -> Result<Value> {
    match View::read(alloc, document(alloc, case)?.as_slice()) {
        Ok(_view) if call == "read" => answers::text(alloc, "reads"),
        Ok(view) => look_up(alloc, case, call, &view),
        Err(error) => refusal(alloc, &error),
    }
}

fn plain(alloc: Global, case: &Value) -> Result<Value> {
    match plain_json(alloc, inputs::bytes(alloc, case, "text")?.as_slice()) {
        Ok(plain) => answers::bytes(alloc, plain.as_slice()),
        Err(error) => refusal(alloc, &error),
    }
}

fn pointer(alloc: Global, case: &Value) -> Result<Value> {
    let pointer = inputs::text(case, "pointer")?;
    match pointer_to(alloc, pointer, inputs::text(case, "name")?) {
        Ok(longer) => answers::text(alloc, longer.as_str()),
        Err(error) => refusal(alloc, &error),
    }
}

fn word(alloc: Global, case: &Value) -> Result<Value> {
    let shape = match inputs::text(case, "shape")? {
        "Text" => Shape::Text,
        "Texts" => Shape::Texts,
        "Flag" => Shape::Flag,
        "Whole" => Shape::Whole,
        "Object" => Shape::Object,
        "Choice" => Shape::Choice,
        _ => bail!("no such shape"),
    };
    answers::text(alloc, shape.word())
}

pub fn answer(alloc: Global, case: &Value) -> Result<Value> {
    match inputs::text(case, "call")? {
        "plain_json" => plain(alloc, case),
        "pointer_to" => pointer(alloc, case),
        "word" => word(alloc, case),
        call => read(alloc, case, call),
    }
}
