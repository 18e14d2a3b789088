// Stores that are nearly full.
use crate::caches::put;
use crate::parts;
use anyhow::{Result, anyhow};
use artifact_store::Store;
use cache_api::Artifact;
use case_files::{Vast, inputs};
use record_log::Log;
use rel_path::limits::MAX_STORE_BYTES;
use rel_path::{Bytes, Files};
use serde_json::{Value, json};
use std::alloc::Global;
use store_dev::StoreDevice;

fn put_logs(alloc: Global, store: &mut Store<Vast>, case: &Value) -> Result<Value> {
    let mut found = Vec::new(alloc);
    for pair in inputs::list(case, "puts")? {
        let log = parts::bytes(alloc, pair, "log")?;
        let artifact = Artifact {
            log: Bytes::from_vec(log),
            files: Files::new(alloc),
        };
        let key = parts::bytes(alloc, pair, "key")?;
        found.push(put(alloc, store, &key, &artifact)?)?;
    }
    Ok(Value::Array(found))
}

fn frames(alloc: Global, device: Vast) -> Value {
    match Log::open(alloc, device) {
        Ok(log) => Value::from(log.frames()),
        Err(_) => Value::Null,
    }
}

/// What puts into a store with so much room (`room`) answer, how much room is left and how many frames there are.
pub fn answer(alloc: Global, case: &Value) -> Result<Value> {
    let Ok(opened) = Store::open(
        alloc,
        Vast::with_room(alloc, inputs::number(case, "room")?)?,
    ) else {
        return Err(anyhow!("no store"));
    };
    let mut store = opened;
    let found = put_logs(alloc, &mut store, case)?;
    let whole = store.whole();
    let mut device = store.device();
    let room = MAX_STORE_BYTES.saturating_sub(device.len().unwrap_or(0));
    let frames = frames(alloc, device);
    Ok(json!(in alloc; {"answers": found, "whole": whole, "room": room, "frames": frames})?)
}
