// The pairs of a store's bytes, written and read.
ghost use Rattle.std.specs.Prelude.{IsTrue};
ghost use Rattle.record_log.specs.Kinds.{is_known};

use crate::parts;
use anyhow::{Result, anyhow};
use artifact_store::{OpenErr, Store};
use cache_api::{Artifact, Cache};
use case_files::{Untold, answers, inputs};
use record_log::{GENERATION, Log, PAIR};
use rel_path::Bytes;
use serde_json::{Value, json};
use std::alloc::Global;
use store_dev::{MemStore, StoreDevice};

// What a pair has for a value that is no artifact: its log would have more bytes than there are.
const NO_ARTIFACT: &[u8] = b"\xff\xff\xff\xff";

/// Why a device is not opened as a store.
pub fn open_fault(alloc: Global, fault: OpenErr) -> Result<Value> {
    match fault {
        OpenErr::NotAStore => answers::error(alloc, "NotAStore"),
        OpenErr::Damaged { at } => answers::error_at(alloc, "Damaged", at),
        OpenErr::Failed => answers::error(alloc, "Failed"),
        OpenErr::OutOfMemory => Err(anyhow!("out of memory")),
    }
}

fn memory(alloc: Global, bytes: Vec<u8>) -> Untold {
    Untold::of_bytes(alloc, bytes, u64::MAX)
}

// The bytes behind one more frame.
fn with_frame(alloc: Global, bytes: Vec<u8>, kind: u8, key: &[u8], value: &[u8]) -> Result<Vec<u8>>
    requires { IsTrue (is_known kind) }
{
    let Ok(opened) = Log::open(alloc, memory(alloc, bytes)) else {
        return Err(anyhow!("no log"));
    };
    let mut log = opened;
    if key.len() > u32::MAX as usize || value.len() > u32::MAX as usize {
        return Err(anyhow!("too long"));
    }
    if log.append(alloc, kind, key, value).is_err() {
        return Err(anyhow!("not appended"));
    }
    Ok(Vec::from_slice(alloc, log.device().bytes())?)
}

// The bytes behind one more pair.
fn with_pair(alloc: Global, bytes: Vec<u8>, key: &[u8], artifact: &Artifact) -> Result<Vec<u8>> {
    let Ok(opened) = Store::open(alloc, memory(alloc, bytes)) else {
        return Err(anyhow!("no store"));
    };
    let mut store = opened;
    if store.put(alloc, key, artifact).is_err() {
        return Err(anyhow!("not put"));
    }
    Ok(Vec::from_slice(alloc, store.device().bytes())?)
}

fn with(alloc: Global, bytes: Vec<u8>, pair: &Value) -> Result<Vec<u8>> {
    let key = parts::key(alloc, pair)?;
    match parts::artifact(alloc, pair)? {
        Some(artifact) => with_pair(alloc, bytes, &key, &artifact),
        None => with_frame(alloc, bytes, PAIR, &key, NO_ARTIFACT),
    }
}

/// The bytes of a store of these pairs, or the bytes themselves where a text stands in the place
/// of a list; none where it is missing.
pub fn store_bytes(alloc: Global, case: &Value, name: &str) -> Result<Vec<u8>> {
    let mut bytes = Vec::new(alloc);
    let Some(value) = inputs::optional(case, name) else {
        return Ok(bytes);
    };
    let Some(pairs) = value.as_array() else {
        return parts::bytes(alloc, value);
    };
    for pair in pairs.as_slice() {
        bytes = with(alloc, bytes, pair)?;
    }
    Ok(bytes)
}

/// The bytes with that generation, where it is not 0.
pub fn with_generation(alloc: Global, bytes: Vec<u8>, generation: u64) -> Result<Vec<u8>> {
    match generation {
        0 => Ok(bytes),
        _ => with_frame(alloc, bytes, GENERATION, &generation.to_le_bytes(), b""),
    }
}

fn shown(alloc: Global, key: &Bytes, value: &Bytes) -> Result<Value> {
    let key = answers::bytes(alloc, key.as_slice())?;
    match Artifact::read(alloc, value.as_slice()) {
        Ok(Some(artifact)) => parts::shown(alloc, key, &artifact),
        Ok(None) => Ok(json!(in alloc; [key, Value::Null])?),
        Err(_) => Err(anyhow!("out of memory")),
    }
}

// The pairs of a store, as a case writes them.
fn listed<S: StoreDevice + Drop>(alloc: Global, store: Store<S>) -> Result<Value> {
    let mut store = store;
    let mut values = Vec::new(alloc);
    for number in 0..store.count() {
        if !store.whole() || number >= store.count() {
            return Err(anyhow!("a pair is not there"));
        }
        match store.pair_at(alloc, number) {
            Ok((key, value)) => values.push(shown(alloc, &key, &value)?)?,
            Err(_) => return Err(anyhow!("a pair does not read")),
        }
    }
    Ok(Value::Array(values))
}

/// The pairs of a device, or why it is no store.
pub fn pairs_on<S: StoreDevice + Drop>(alloc: Global, device: S) -> Result<Value> {
    match Store::open(alloc, device) {
        Ok(store) => listed(alloc, store),
        Err(unopened) => open_fault(alloc, unopened.fault),
    }
}

/// The pairs of bytes, or why they are no store.
pub fn pairs_in(alloc: Global, bytes: &[u8]) -> Result<Value> {
    let device = MemStore::new(alloc, Bytes::read(alloc, bytes)?, Vec::new(alloc));
    pairs_on(alloc, device)
}
