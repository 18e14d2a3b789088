// The page: blocks, summaries, and the lines of refusals and failed devices.
use crate::refusal_answers::refusal_of;
use crate::repositories::{fails_of, task_of, tasks_of};
use anyhow::{Result, bail};
use case_files::{answers, inputs};
use page::{DryMark, Mark, Note, PageErr, block, dry_block, emit, summary};
use refusals::{DeviceFault, device_fault_text, fault_text};
use rel_path::Text;
use serde_json::{Value, json};
use std::alloc::Global;
use tree_dev::MemSink;
use turbo_config::LogMode;

fn mark_of(word: &str) -> Result<Mark> {
    match word {
        "hit" => Ok(Mark::Hit),
        "miss" => Ok(Mark::Miss),
        "bypass" => Ok(Mark::Bypass),
        _ => bail!("no such mark: {word}"),
    }
}

fn mode_of(word: &str) -> Result<LogMode> {
    match word {
        "full" => Ok(LogMode::Full),
        "hash-only" => Ok(LogMode::HashOnly),
        "new-only" => Ok(LogMode::NewOnly),
        "errors-only" => Ok(LogMode::ErrorsOnly),
        "none" => Ok(LogMode::Silent),
        _ => bail!("no such mode: {word}"),
    }
}

// What became of the result: stored, where nothing is said.
fn note_of(alloc: Global, case: &Value) -> Result<Note> {
    match inputs::text_or(case, "note", "stored")? {
        "stored" => Ok(Note::Stored),
        "shared" => Ok(Note::Shared(inputs::path(alloc, case, "path")?)),
        "large" => Ok(Note::Large(inputs::path(alloc, case, "path")?)),
        "full" => Ok(Note::Full),
        word => bail!("no such note: {word}"),
    }
}

fn status_of(case: &Value) -> Result<u8> {
    match u8::try_from(inputs::number(case, "status")?) {
        Ok(status) => Ok(status),
        Err(_) => bail!("no status"),
    }
}

fn count_of(case: &Value, name: &str) -> Result<u32> {
    match u32::try_from(inputs::number(case, name)?) {
        Ok(count) => Ok(count),
        Err(_) => bail!("no count"),
    }
}

fn block_text(alloc: Global, case: &Value) -> Result<Value> {
    let task = task_of(alloc, inputs::text(case, "task")?)?;
    let print = Text::read(alloc, inputs::text(case, "fingerprint")?)?;
    let log = inputs::bytes(alloc, case, "log")?;
    let mark = mark_of(inputs::text(case, "mark")?)?;
    let mode = mode_of(inputs::text(case, "mode")?)?;
    let note = note_of(alloc, case)?;
    let status = status_of(case)?;
    let bytes = block(
        alloc,
        &task,
        mark,
        &print,
        log.as_slice(),
        status,
        &note,
        mode,
    )?;
    answers::bytes(alloc, bytes.as_slice())
}

fn dry_mark_of(word: &str) -> Result<DryMark> {
    match word {
        "hit" => Ok(DryMark::Hit),
        "miss" => Ok(DryMark::Miss),
        "bypass" => Ok(DryMark::Bypass),
        "no script" => Ok(DryMark::NoScript),
        _ => bail!("no such mark: {word}"),
    }
}

fn script_of(alloc: Global, case: &Value) -> Result<Option<Text>> {
    match inputs::optional(case, "script") {
        None => Ok(None),
        Some(script) => Ok(Some(inputs::own_text(alloc, script)?)),
    }
}

fn dry_text(alloc: Global, case: &Value) -> Result<Value> {
    let task = task_of(alloc, inputs::text(case, "task")?)?;
    let print = Text::read(alloc, inputs::text(case, "fingerprint")?)?;
    let held = dry_mark_of(inputs::text(case, "held")?)?;
    let script = script_of(alloc, case)?;
    let needs = tasks_of(alloc, case, "needs")?;
    let bytes = dry_block(alloc, &task, &print, held, script.as_ref(), &needs)?;
    answers::bytes(alloc, bytes.as_slice())
}

fn summary_text(alloc: Global, case: &Value) -> Result<Value> {
    let good = count_of(case, "successful")?;
    let cached = count_of(case, "cached")?;
    let total = count_of(case, "total")?;
    let failed = tasks_of(alloc, case, "failed")?;
    let bytes = summary(alloc, good, cached, total, &failed)?;
    answers::bytes(alloc, bytes.as_slice())
}

fn refusal_line(alloc: Global, case: &Value) -> Result<Value> {
    let refusal = refusal_of(alloc, case)?;
    answers::bytes(alloc, fault_text(alloc, &refusal)?.as_slice())
}

fn device_line(alloc: Global, case: &Value) -> Result<Value> {
    let device = match inputs::text(case, "device")? {
        "tree" => DeviceFault::Tree,
        "store" => DeviceFault::Store,
        "start" => DeviceFault::Start,
        word => bail!("no such device: {word}"),
    };
    answers::text(alloc, device_fault_text(device))
}

// Whether the text was put into the sink.
fn put(alloc: Global, sink: &mut MemSink, text: &str) -> Result<Value> {
    match emit(alloc, sink, text.as_bytes()) {
        Ok(()) => answers::text(alloc, "put"),
        Err(PageErr::SinkFault) => answers::error(alloc, "SinkFault"),
        Err(_) => bail!("out of memory"),
    }
}

// The answer to each text that is put, and what is written in the end.
fn emitted(alloc: Global, case: &Value) -> Result<Value> {
    let mut sink = MemSink::new(alloc, fails_of(alloc, case)?);
    let mut values = Vec::new(alloc);
    for value in inputs::list(case, "texts")? {
        values.push(put(alloc, &mut sink, inputs::as_text(value)?)?)?;
    }
    let written = answers::bytes(alloc, sink.written())?;
    Ok(json!(in alloc; {"answers": Value::Array(values), "written": written})?)
}

pub fn answer(alloc: Global, case: &Value) -> Result<Value> {
    match inputs::text(case, "call")? {
        "block" => block_text(alloc, case),
        "dry block" => dry_text(alloc, case),
        "summary" => summary_text(alloc, case),
        "refusal" => refusal_line(alloc, case),
        "device" => device_line(alloc, case),
        "emit" => emitted(alloc, case),
        _ => bail!("no such call"),
    }
}
