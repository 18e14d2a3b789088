// Stores that are rested, changed meanwhile, and resumed.
use crate::caches::{behind, calls, open_fault, outs_of};
use crate::devices::device_of;
use crate::parts;
use anyhow::{Result, anyhow};
use artifact_store::{Store, StoreMark};
use case_files::{Untold, inputs};
use globs::OutSet;
use rel_path::Bytes;
use serde_json::{Value, json};
use std::alloc::Global;
use store_dev::MemStore;

// What calls on a store of these bytes answer, and the store behind them.
fn used(
    alloc: Global,
    bytes: Vec<u8>,
    outs: &OutSet,
    list: &[Value],
) -> Result<(Value, Store<MemStore>)> {
    let device = MemStore::new(alloc, Bytes::from_vec(bytes), Vec::new(alloc));
    let Ok(opened) = Store::open(alloc, device) else {
        return Err(anyhow!("no store"));
    };
    let mut store = opened;
    let found = calls(alloc, &mut store, outs, list)?;
    Ok((found, store))
}

// The store is rested behind the calls of `before`.
fn rested(alloc: Global, outs: &OutSet, case: &Value) -> Result<(Value, StoreMark, Vec<u8>)> {
    let bytes = parts::bytes(alloc, case, "bytes")?;
    let (found, store) = used(alloc, bytes, outs, inputs::list(case, "before")?)?;
    let (mark, device) = store.rest();
    Ok((found, mark, Vec::from_slice(alloc, device.bytes())?))
}

// Another opening of the bytes makes the calls of `between`. Then the bytes are cut short and
// written over.
fn changed(alloc: Global, bytes: Vec<u8>, outs: &OutSet, case: &Value) -> Result<(Value, Vec<u8>)> {
    let (found, store) = used(alloc, bytes, outs, inputs::list(case, "between")?)?;
    let device = store.device();
    let mut bytes = Vec::from_slice(alloc, device.bytes())?;
    if inputs::optional(case, "front").is_some() {
        bytes.truncate(inputs::number(case, "front")? as usize);
    }
    parts::change(alloc, &mut bytes, case)?;
    Ok((found, bytes))
}

// What the calls on the store answer that is resumed, or why it is not, and the bytes behind them.
fn resumed(
    alloc: Global,
    bytes: Vec<u8>,
    mark: StoreMark,
    outs: &OutSet,
    case: &Value,
) -> Result<(Value, Vec<u8>)> {
    let device = Untold::new(device_of(alloc, case, bytes)?);
    let (found, device) = match Store::resume(alloc, device, mark) {
        Ok(opened) => {
            let mut store = opened;
            let found = calls(alloc, &mut store, outs, inputs::list(case, "calls")?)?;
            (found, store.device())
        }
        Err(unopened) => (open_fault(alloc, unopened.fault)?, unopened.store),
    };
    Ok((found, Vec::from_slice(alloc, device.bytes())?))
}

/// What the calls answer before the store is rested, those between and those behind; and what a
/// later run finds for keys (`later`), or else the bytes.
pub fn answer(alloc: Global, case: &Value) -> Result<Value> {
    let outs = outs_of(alloc, case)?;
    let (before, mark, bytes) = rested(alloc, &outs, case)?;
    let (between, bytes) = changed(alloc, bytes, &outs, case)?;
    let (found, bytes) = resumed(alloc, bytes, mark, &outs, case)?;
    let found = json!(in alloc; [before, between, found])?;
    behind(alloc, found, &bytes, &outs, case)
}
