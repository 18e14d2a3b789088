// Stores of results, call by call.
use crate::artifacts::{artifact_of, shown};
use crate::devices::{crashed, device_of};
use crate::parts;
use crate::sessions::session;
use anyhow::{Result, anyhow};
use artifact_store::{Numbers, OpenErr, SeenPairs, Store};
use cache_api::{Artifact, Cache, CacheErr, Hit, HitFile, Key, NewPair, Put};
use case_files::{answers, inputs};
use globs::{GlobList, GlobLists, OutSet};
use rel_path::{Bytes, RelPath, Span};
use serde_json::{Value, json};
use std::alloc::Global;
use store_dev::{FuseStore, MemStore, StoreDevice};

// The folder of the task whose results are looked for.
const FOLDER: &str = "a";

/// Why a device is not opened as a store.
pub fn open_fault(alloc: Global, fault: OpenErr) -> Result<Value> {
    match fault {
        OpenErr::NotAStore => answers::error(alloc, "NotAStore"),
        OpenErr::Damaged { at } => answers::error_at(alloc, "Damaged", at),
        OpenErr::Failed => answers::error(alloc, "Failed"),
        OpenErr::OutOfMemory => Err(anyhow!("out of memory")),
    }
}

fn fault(alloc: Global, fault: CacheErr) -> Result<Value> {
    match fault {
        CacheErr::Full => answers::text(alloc, "Full"),
        CacheErr::Failed => answers::text(alloc, "Failed"),
        CacheErr::OutOfMemory => Err(anyhow!("out of memory")),
    }
}

/// Adds a pair to a store that is whole.
pub fn put<S: StoreDevice>(
    alloc: Global,
    store: &mut Store<S>,
    key: &[u8],
    artifact: &Artifact,
) -> Result<Value> {
    if !store.whole() {
        return Err(anyhow!("a put that failed came before"));
    }
    match store.put(alloc, key, artifact) {
        Ok(()) => answers::text(alloc, "ok"),
        Err(error) => fault(alloc, error),
    }
}

fn find<S: StoreDevice>(
    alloc: Global,
    store: &mut Store<S>,
    key: &[u8],
    outs: &OutSet,
) -> Result<Value> {
    if !store.whole() {
        return Err(anyhow!("a put that failed came before"));
    }
    match store.find(alloc, key, outs) {
        Ok(Some(artifact)) => shown(alloc, &artifact),
        Ok(None) => Ok(Value::Null),
        Err(error) => fault(alloc, error),
    }
}

// Places as pairs of an offset and a length.
fn places(alloc: Global, spans: &[Span]) -> Result<Value> {
    let mut values = Vec::new(alloc);
    for span in spans {
        values.push(json!(in alloc; [span.at, span.len])?)?;
    }
    Ok(Value::Array(values))
}

fn file_places(alloc: Global, files: &[HitFile]) -> Result<Value> {
    let mut values = Vec::new(alloc);
    for file in files {
        let path = answers::path(alloc, &file.path)?;
        let spans = places(alloc, file.spans.as_slice())?;
        values.push(json!(in alloc; [path, spans])?)?;
    }
    Ok(Value::Array(values))
}

fn hit_places(alloc: Global, hit: &Hit) -> Result<Value> {
    let log = places(alloc, hit.log.as_slice())?;
    let files = file_places(alloc, hit.files.as_slice())?;
    Ok(json!(in alloc; {"log": log, "files": files})?)
}

// Where the artifact stands.
fn lookup<S: StoreDevice>(
    alloc: Global,
    store: &mut Store<S>,
    key: &[u8],
    outs: &OutSet,
) -> Result<Value> {
    if !store.whole() {
        return Err(anyhow!("a put that failed came before"));
    }
    match store.lookup(alloc, key, outs) {
        Ok(Some(hit)) => hit_places(alloc, &hit),
        Ok(None) => Ok(Value::Null),
        Err(error) => fault(alloc, error),
    }
}

// The pairs that a look-up is to see: the first so many (`first`), and those with some numbers
// (`own`).
fn seen_of(alloc: Global, call: &Value) -> Result<SeenPairs> {
    let mut numbers = Vec::new(alloc);
    for number in inputs::list(call, "own")? {
        numbers.push(number.as_u64().unwrap_or(u64::MAX))?;
    }
    let Some(own) = Numbers::from_vec(numbers) else {
        return Err(anyhow!("numbers that don't ascend"));
    };
    let first = inputs::number(call, "first")?;
    Ok(SeenPairs { first, own })
}

// The artifact that is found among these pairs alone.
fn find_seen<S: StoreDevice>(
    alloc: Global,
    store: &mut Store<S>,
    key: &[u8],
    outs: &OutSet,
    seen: &SeenPairs,
) -> Result<Value> {
    if !store.whole() {
        return Err(anyhow!("a put that failed came before"));
    }
    match store.lookup_seen(alloc, Key::new(key), outs, seen) {
        Ok(Some(hit)) => match store.hit_artifact(alloc, &hit) {
            Ok(artifact) => shown(alloc, &artifact),
            Err(error) => fault(alloc, error),
        },
        Ok(None) => Ok(Value::Null),
        Err(error) => fault(alloc, error),
    }
}

fn came_of(alloc: Global, put: Put) -> Result<Value> {
    match put {
        Put::Stored => answers::text(alloc, "ok"),
        Put::Full => answers::text(alloc, "Full"),
    }
}

// Adds pairs at once.
fn put_all<S: StoreDevice>(
    alloc: Global,
    store: &mut Store<S>,
    keys: &[Vec<u8>],
    artifacts: &[Artifact],
) -> Result<Value> {
    if !store.whole() {
        return Err(anyhow!("a put that failed came before"));
    }
    let mut pairs = Vec::new(alloc);
    for (key, artifact) in keys.iter().zip(artifacts) {
        let key = Key::new(key.as_slice());
        pairs.push(NewPair { key, artifact })?;
    }
    match store.put_all(alloc, pairs.as_slice()) {
        Ok(puts) => {
            let mut values = Vec::new(alloc);
            for put in puts.as_slice() {
                values.push(came_of(alloc, *put)?)?;
            }
            Ok(Value::Array(values))
        }
        Err(error) => fault(alloc, error),
    }
}

fn put_pairs<S: StoreDevice>(alloc: Global, store: &mut Store<S>, call: &Value) -> Result<Value> {
    let mut keys = Vec::new(alloc);
    let mut artifacts = Vec::new(alloc);
    for pair in inputs::list(call, "pairs")? {
        keys.push(parts::bytes(alloc, pair, "key")?)?;
        artifacts.push(artifact_of(alloc, pair)?)?;
    }
    put_all(alloc, store, keys.as_slice(), artifacts.as_slice())
}

/// The outputs of the task for which results are looked up.
pub fn outs_of(alloc: Global, case: &Value) -> Result<OutSet> {
    Ok(OutSet {
        folder: RelPath::read(alloc, FOLDER)?,
        mine: GlobList::read(alloc, &inputs::texts(alloc, case, "outputs")?)?,
        others: GlobLists::new(alloc),
    })
}

fn call_of<S: StoreDevice>(
    alloc: Global,
    store: &mut Store<S>,
    outs: &OutSet,
    call: &Value,
) -> Result<Value> {
    match inputs::text(call, "call")? {
        "put" => {
            let key = parts::bytes(alloc, call, "key")?;
            put(alloc, store, &key, &artifact_of(alloc, call)?)
        }
        "put_all" => put_pairs(alloc, store, call),
        "find" => find(alloc, store, &parts::bytes(alloc, call, "key")?, outs),
        "lookup" => lookup(alloc, store, &parts::bytes(alloc, call, "key")?, outs),
        "lookup_seen" => {
            let key = parts::bytes(alloc, call, "key")?;
            find_seen(alloc, store, &key, outs, &seen_of(alloc, call)?)
        }
        "whole" => Ok(Value::from(store.whole())),
        "count" => Ok(Value::from(store.count())),
        _ => Err(anyhow!("no such call")),
    }
}

/// What calls answer, up to one behind which the store is not whole.
pub fn calls<S: StoreDevice>(
    alloc: Global,
    store: &mut Store<S>,
    outs: &OutSet,
    list: &[Value],
) -> Result<Value> {
    let mut found = Vec::new(alloc);
    for call in list {
        if store.whole() || inputs::text(call, "call")? == "whole" {
            found.push(call_of(alloc, store, outs, call)?)?;
        }
    }
    Ok(Value::Array(found))
}

fn used(alloc: Global, case: &Value, outs: &OutSet) -> Result<(Value, FuseStore)> {
    let bytes = parts::bytes(alloc, case, "bytes")?;
    match Store::open(alloc, device_of(alloc, case, bytes)?) {
        Ok(opened) => {
            let mut store = opened;
            let found = calls(alloc, &mut store, outs, inputs::list(case, "calls")?)?;
            Ok((found, store.device()))
        }
        Err(unopened) => Ok((open_fault(alloc, unopened.fault)?, unopened.store)),
    }
}

// What is found for the key in a store of these bytes.
fn found_in(alloc: Global, bytes: &[u8], key: &[u8], outs: &OutSet) -> Result<Value> {
    let device = MemStore::new(alloc, Bytes::read(alloc, bytes)?, Vec::new(alloc));
    match Store::open(alloc, device) {
        Ok(opened) => {
            let mut store = opened;
            find(alloc, &mut store, key, outs)
        }
        Err(unopened) => open_fault(alloc, unopened.fault),
    }
}

fn found_later(alloc: Global, bytes: &[u8], case: &Value, outs: &OutSet) -> Result<Value> {
    let mut found = Vec::new(alloc);
    for key in inputs::list(case, "later")? {
        let key = inputs::as_bytes(alloc, key)?;
        found.push(found_in(alloc, bytes, &key, outs)?)?;
    }
    Ok(Value::Array(found))
}

// A whole session by the traits alone, which opens the device, adds a pair and hands the device back.
fn session_of(alloc: Global, case: &Value, pair: &Value) -> Result<(Value, FuseStore)> {
    let bytes = parts::bytes(alloc, case, "bytes")?;
    let (key, artifact) = (parts::bytes(alloc, pair, "key")?, artifact_of(alloc, pair)?);
    let device = session(alloc, device_of(alloc, case, bytes)?, &key, &artifact);
    Ok((Value::Null, device))
}

/// The bytes that a later run finds: those of the device, or what a crash leaves of them.
fn left(alloc: Global, device: &FuseStore, case: &Value) -> Result<Vec<u8>> {
    match inputs::optional(case, "crash") {
        Some(crash) => {
            let store = crashed(alloc, device, crash)?;
            Ok(Vec::from_slice(alloc, store.bytes())?)
        }
        None => Ok(Vec::from_slice(alloc, device.inner().bytes())?),
    }
}

/// These answers; and what a later run finds in the bytes for keys (`later`), or else the bytes.
pub fn behind(
    alloc: Global,
    found: Value,
    bytes: &[u8],
    outs: &OutSet,
    case: &Value,
) -> Result<Value> {
    if inputs::optional(case, "later").is_some() {
        let later = found_later(alloc, bytes, case, outs)?;
        return Ok(json!(in alloc; {"answers": found, "later": later})?);
    }
    let bytes = answers::bytes(alloc, bytes)?;
    Ok(json!(in alloc; {"answers": found, "bytes": bytes})?)
}

/// What the calls answer; and what a later run finds for keys (`later`), or else the bytes behind the calls.
pub fn answer(alloc: Global, case: &Value) -> Result<Value> {
    let outs = outs_of(alloc, case)?;
    let (found, device) = match inputs::optional(case, "session") {
        Some(pair) => session_of(alloc, case, pair)?,
        None => used(alloc, case, &outs)?,
    };
    let bytes = left(alloc, &device, case)?;
    behind(alloc, found, &bytes, &outs, case)
}
