// Logs that are opened, appended to and cut short.
use crate::devices::{crashed, device_of};
use crate::parts;
use anyhow::{Result, anyhow};
use case_files::{answers, inputs};
use record_log::{Log, LogErr};
use rel_path::Bytes;
use serde_json::{Value, json};
use std::alloc::Global;
use store_dev::{FuseStore, MemStore};

// The kind of a frame that any bytes may be the key and the value of.
const PAIR: u8 = 1;

fn fault(alloc: Global, fault: LogErr) -> Result<Value> {
    match fault {
        LogErr::NotAStore => answers::error(alloc, "NotAStore"),
        LogErr::Damaged { at } => answers::error_at(alloc, "Damaged", at),
        LogErr::Full { .. } => answers::error(alloc, "Full"),
        LogErr::Failed => answers::error(alloc, "Failed"),
        LogErr::OutOfMemory => Err(anyhow!("out of memory")),
    }
}

/// How many frames a log of these bytes opens with, or why it does not.
fn opening(alloc: Global, bytes: &[u8]) -> Result<Value> {
    let store = MemStore::new(alloc, Bytes::read(alloc, bytes)?, Vec::new(alloc));
    match Log::open(alloc, store) {
        Ok(log) => Ok(Value::from(log.frames())),
        Err(unopened) => fault(alloc, unopened.fault),
    }
}

/// What each front of the bytes opens to: a list of the first length, the last one and the answer for each run of equal
/// answers.
fn openings(alloc: Global, bytes: &[u8]) -> Result<Value> {
    let mut runs = Vec::new(alloc);
    let mut first = 0;
    let mut last = opening(alloc, b"")?;
    for end in 0..=bytes.len() {
        let found = opening(alloc, &bytes[..end])?;
        if found != last {
            runs.push(json!(in alloc; [first, end.saturating_sub(1), last])?)?;
            (first, last) = (end, found);
        }
    }
    runs.push(json!(in alloc; [first, bytes.len(), last])?)?;
    Ok(Value::Array(runs))
}

fn append(alloc: Global, log: &mut Log<FuseStore>, key: &[u8], value: &[u8]) -> Result<Value> {
    if !log.whole() {
        return Err(anyhow!("an append that failed came before"));
    }
    if key.len() > u32::MAX as usize || value.len() > u32::MAX as usize {
        return Err(anyhow!("too long"));
    }
    match log.append(alloc, PAIR, key, value) {
        Ok(number) => Ok(Value::from(number)),
        Err(error) => fault(alloc, error),
    }
}

fn frame(alloc: Global, log: &mut Log<FuseStore>, number: u64) -> Result<Value> {
    if number >= log.frames() {
        return Err(anyhow!("no such frame"));
    }
    match log.frame_at(alloc, number) {
        Ok(frame) => {
            let key = answers::bytes(alloc, frame.key.as_slice())?;
            let value = answers::bytes(alloc, frame.value.as_slice())?;
            Ok(json!(in alloc; [frame.kind, key, value])?)
        }
        Err(error) => fault(alloc, error),
    }
}

fn call_of(alloc: Global, log: &mut Log<FuseStore>, call: &Value) -> Result<Value> {
    match inputs::text(call, "call")? {
        "append" => {
            let key = parts::bytes(alloc, call, "key")?;
            append(alloc, log, &key, &parts::bytes(alloc, call, "value")?)
        }
        "frame" => frame(alloc, log, inputs::number(call, "number")?),
        "frames" => Ok(Value::from(log.frames())),
        "whole" => Ok(Value::from(log.whole())),
        _ => Err(anyhow!("no such call")),
    }
}

fn calls(alloc: Global, log: &mut Log<FuseStore>, case: &Value) -> Result<Value> {
    let mut found = Vec::new(alloc);
    for call in inputs::list(case, "calls")? {
        found.push(call_of(alloc, log, call)?)?;
    }
    Ok(Value::Array(found))
}

/// What the calls answer and the device behind them; of a device that does not open, why.
fn used(alloc: Global, case: &Value, bytes: Vec<u8>) -> Result<(Value, FuseStore)> {
    match Log::open(alloc, device_of(alloc, case, bytes)?) {
        Ok(opened) => {
            let mut log = opened;
            let found = calls(alloc, &mut log, case)?;
            Ok((found, log.device()))
        }
        Err(unopened) => Ok((fault(alloc, unopened.fault)?, unopened.store)),
    }
}

/// What the calls answer, and the bytes behind them, or what the device opens to after a crash.
fn session(alloc: Global, case: &Value, bytes: Vec<u8>) -> Result<Value> {
    let (found, device) = used(alloc, case, bytes)?;
    match inputs::optional(case, "crash") {
        Some(crash) => {
            let opens = opening(alloc, crashed(alloc, &device, crash)?.bytes())?;
            Ok(json!(in alloc; {"answers": found, "opens": opens})?)
        }
        None => {
            let bytes = answers::bytes(alloc, device.inner().bytes())?;
            Ok(json!(in alloc; {"answers": found, "bytes": bytes})?)
        }
    }
}

/// What the bytes open to (`open`), what each front of them opens to (`open fronts`), or what calls leave (`use`).
pub fn answer(alloc: Global, case: &Value) -> Result<Value> {
    let bytes = parts::changed(alloc, case, "bytes")?;
    match inputs::text(case, "call")? {
        "open" => opening(alloc, &bytes),
        "open fronts" => openings(alloc, &bytes),
        "use" => session(alloc, case, bytes),
        _ => Err(anyhow!("no such call")),
    }
}
