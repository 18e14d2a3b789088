// Tables of keys and options, as their readers make them.
use anyhow::{Result, bail};
use case_files::inputs;
use key_table::{KeyTable, Kind, Row, key_row, option_row};
use serde_json::{Value, json};
use std::alloc::Global;

// The keys of a task.
fn task_keys() -> KeyTable<11> {
    KeyTable::new([
        key_row!("dependsOn", Words, 0),
        key_row!("inputs", Words, 1),
        key_row!("outputs", Words, 2),
        key_row!("env", Words, 3),
        key_row!("passThroughEnv", Words, 4),
        key_row!("with", Words, 5),
        key_row!("cache", Flag, 6),
        key_row!("persistent", Flag, 7),
        key_row!("interactive", Flag, 8),
        key_row!("interruptible", Flag, 9),
        key_row!("outputLogs", Choice, 10),
    ])
}

// Some options of a command line, two of which share a place.
fn options() -> KeyTable<4> {
    KeyTable::new([
        option_row!("--concurrency", Number, 0),
        option_row!("--dry", Flag, 1),
        option_row!("--dry-run", Flag, 1),
        option_row!("--", Top, 2),
    ])
}

fn kind_word(kind: Kind) -> &'static str {
    match kind {
        Kind::Flag => "Flag",
        Kind::Word => "Word",
        Kind::Words => "Words",
        Kind::Number => "Number",
        Kind::Choice => "Choice",
        Kind::Top => "Top",
    }
}

fn row_value(alloc: Global, found: Option<Row>) -> Result<Value> {
    let Some(row) = found else {
        return Ok(Value::Null);
    };
    Ok(json!(in alloc; {"name": row.name, "kind": kind_word(row.kind), "place": row.place})?)
}

pub fn answer(alloc: Global, case: &Value) -> Result<Value> {
    let name = inputs::text(case, "name")?;
    match inputs::text(case, "table")? {
        "task keys" => row_value(alloc, task_keys().find(name)),
        "options" => row_value(alloc, options().find(name)),
        _ => bail!("no such table"),
    }
}
