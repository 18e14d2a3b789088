// Devices of a store, call by call.
use crate::parts;
use anyhow::{Result, anyhow};
use case_files::{answers, inputs};
use rel_path::Bytes;
use serde_json::{Value, json};
use std::alloc::Global;
use store_dev::{FuseStore, MemStore, StoreDevice, StoreErr};

// The largest place that a device is written at.
const END: u64 = 1 << 62;

/// A device with these bytes, whose calls with some numbers fail (`fails`), and all behind so many (`passes`).
pub fn device_of(alloc: Global, case: &Value, bytes: Vec<u8>) -> Result<FuseStore> {
    let mut fails = Vec::new(alloc);
    for number in inputs::list(case, "fails")? {
        fails.push(number.as_u64().unwrap_or(u64::MAX))?;
    }
    let passes = match inputs::optional(case, "passes") {
        Some(_) => inputs::number(case, "passes")?,
        None => u64::MAX,
    };
    let store = MemStore::new(alloc, Bytes::from_vec(bytes), fails);
    Ok(FuseStore::new(store, passes))
}

pub fn fault(alloc: Global, error: StoreErr) -> Result<Value> {
    match error {
        StoreErr::Failed => answers::text(alloc, "Failed"),
        StoreErr::OutOfMemory => Err(anyhow!("out of memory")),
    }
}

fn done(alloc: Global, outcome: Result<(), StoreErr>) -> Result<Value> {
    match outcome {
        Ok(()) => answers::text(alloc, "ok"),
        Err(error) => fault(alloc, error),
    }
}

fn len(alloc: Global, device: &mut FuseStore) -> Result<Value> {
    match device.len() {
        Ok(len) => Ok(Value::from(len)),
        Err(error) => fault(alloc, error),
    }
}

fn read(alloc: Global, device: &mut FuseStore, at: u64, count: usize) -> Result<Value> {
    if at.saturating_add(count as u64) > device.inner().bytes().len() as u64 {
        return Err(anyhow!("read past the end"));
    }
    let mut found = vec![in alloc; 0; count]?;
    match device.read_at(at, &mut found) {
        Ok(()) => answers::bytes(alloc, &found),
        Err(error) => fault(alloc, error),
    }
}

fn write(alloc: Global, device: &mut FuseStore, at: u64, bytes: &[u8]) -> Result<Value> {
    let end = at.saturating_add(bytes.len() as u64);
    if at > device.inner().bytes().len() as u64 || end > END {
        return Err(anyhow!("written behind the end"));
    }
    done(alloc, device.write_at(alloc, at, bytes))
}

fn crash(alloc: Global, device: &FuseStore, call: &Value) -> Result<Value> {
    answers::bytes(alloc, crashed(alloc, device, call)?.bytes())
}

/// What a crash leaves of the device, by `fill` and `keep` of the value.
pub fn crashed(alloc: Global, device: &FuseStore, value: &Value) -> Result<MemStore> {
    let (fill, keep) = (parts::byte(value, "fill")?, inputs::number(value, "keep")?);
    match device.inner().crash(alloc, fill, keep) {
        Ok(store) => Ok(store),
        Err(_) => Err(anyhow!("out of memory")),
    }
}

fn call_of(alloc: Global, device: &mut FuseStore, call: &Value) -> Result<Value> {
    match inputs::text(call, "call")? {
        "len" => len(alloc, device),
        "sync" => done(alloc, device.sync()),
        "crash" => crash(alloc, device, call),
        "read" => {
            let count = inputs::number(call, "count")? as usize;
            read(alloc, device, inputs::number(call, "at")?, count)
        }
        "write" => {
            let bytes = parts::bytes(alloc, call, "bytes")?;
            write(alloc, device, inputs::number(call, "at")?, &bytes)
        }
        _ => Err(anyhow!("no such call")),
    }
}

/// What each of the calls answers, and the bytes behind them.
pub fn answer(alloc: Global, case: &Value) -> Result<Value> {
    let bytes = parts::bytes(alloc, case, "bytes")?;
    let mut device = device_of(alloc, case, bytes)?;
    let mut found = Vec::new(alloc);
    for call in inputs::list(case, "calls")? {
        found.push(call_of(alloc, &mut device, call)?)?;
    }
    let bytes = answers::bytes(alloc, device.inner().bytes())?;
    Ok(json!(in alloc; {"answers": Value::Array(found), "bytes": bytes})?)
}
