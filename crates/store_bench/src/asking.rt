// Filling a store, and asking it.

use crate::results::{artifact_of, key_of};
use anyhow::{Result, anyhow, bail};
use artifact_store::Store;
use cache_api::{Artifact, Cache, Key, NewPair};
use globs::{GlobList, GlobLists, OutSet};
use rel_path::{RelPath, Texts};
use std::alloc::Global;
use std::time::Instant;
use store_dev::StoreDevice;

// So many results are put at once when the store is filled.
const BATCH: u64 = 500;

// So many keys are asked for.
const ASKED: u64 = 1_000;

fn put_batch<S: StoreDevice>(
    alloc: Global,
    store: &mut Store<S>,
    keys: &[Vec<u8>],
    artifacts: &[Artifact],
) -> Result<()> {
    if !store.whole() {
        bail!("a put failed");
    }
    let mut pairs = Vec::new(alloc);
    for (key, artifact) in keys.iter().zip(artifacts) {
        let key = Key::new(key.as_slice());
        pairs.push(NewPair { key, artifact })?;
    }
    match store.put_all(alloc, pairs.as_slice()) {
        Ok(_) => Ok(()),
        Err(error) => Err(anyhow!("not put: {error}")),
    }
}

/// Puts the first results.
pub fn fill<S: StoreDevice>(alloc: Global, store: &mut Store<S>, records: u64) -> Result<()> {
    for batch in 0..records.div_ceil(BATCH) {
        let mut keys = Vec::new(alloc);
        let mut artifacts = Vec::new(alloc);
        for i in 0..BATCH {
            let number = batch.saturating_mul(BATCH).saturating_add(i);
            if number < records {
                keys.push(key_of(alloc, number)?)?;
                artifacts.push(artifact_of(alloc, number)?)?;
            }
        }
        put_batch(alloc, store, keys.as_slice(), artifacts.as_slice())?;
    }
    Ok(())
}

fn outs_of(alloc: Global) -> Result<OutSet> {
    let mut globs = Texts::new(alloc);
    globs.push(rel_path::Text::read(alloc, "dist/**")?)?;
    Ok(OutSet {
        folder: RelPath::read(alloc, "packages/a")?,
        mine: GlobList::read(alloc, &globs)?,
        others: GlobLists::new(alloc),
    })
}

// Looks a key up and reads what was found. It answers how many bytes.
fn restore<S: StoreDevice>(
    alloc: Global,
    store: &mut Store<S>,
    key: &[u8],
    outs: &OutSet,
) -> Result<u64> {
    if !store.whole() {
        bail!("a put failed");
    }
    match store.find(alloc, key, outs) {
        Ok(Some(artifact)) => Ok(artifact.text_len()),
        Ok(None) => Ok(0),
        Err(error) => Err(anyhow!("not found: {error}")),
    }
}

// Looks a key up, and says whether it was found.
fn look<S: StoreDevice>(
    alloc: Global,
    store: &mut Store<S>,
    key: &[u8],
    outs: &OutSet,
) -> Result<bool> {
    if !store.whole() {
        bail!("a put failed");
    }
    match store.lookup(alloc, key, outs) {
        Ok(hit) => Ok(hit.is_some()),
        Err(error) => Err(anyhow!("not found: {error}")),
    }
}

// Looks up each of the keys from that number on.
fn look_from<S: StoreDevice>(
    alloc: Global,
    store: &mut Store<S>,
    from: u64,
    outs: &OutSet,
) -> Result<u64> {
    let mut found: u64 = 0;
    for i in 0..ASKED {
        let key = key_of(alloc, from.saturating_add(i))?;
        if look(alloc, store, key.as_slice(), outs)? {
            found = found.saturating_add(1);
        }
    }
    Ok(found)
}

fn restore_from<S: StoreDevice>(
    alloc: Global,
    store: &mut Store<S>,
    from: u64,
    outs: &OutSet,
) -> Result<u64> {
    let mut bytes: u64 = 0;
    for i in 0..ASKED {
        let key = key_of(alloc, from.saturating_add(i))?;
        bytes = bytes.saturating_add(restore(alloc, store, key.as_slice(), outs)?);
    }
    Ok(bytes)
}

/// Looks up keys that are there and keys that are not, restores, and puts one result more, with the times of each.
pub fn ask<S: StoreDevice>(rt: &HostRuntime, store: &mut Store<S>, records: u64) -> Result<()> {
    let alloc = rt.alloc();
    let outs = outs_of(alloc)?;
    let began = Instant::now(rt)?;
    let found = look_from(alloc, store, records, &outs)?;
    let took = began.elapsed(rt)?.as_micros();
    println!(rt; "{ASKED} keys looked up, {found} of them there, in {took} us")?;
    let began = Instant::now(rt)?;
    let found = look_from(alloc, store, 0, &outs)?;
    let took = began.elapsed(rt)?.as_micros();
    println!(rt; "{ASKED} keys looked up, {found} of them there, in {took} us")?;
    let began = Instant::now(rt)?;
    let bytes = restore_from(alloc, store, 0, &outs)?;
    let took = began.elapsed(rt)?.as_micros();
    println!(rt; "{ASKED} results read, {bytes} bytes, in {took} us")?;
    let key = key_of(alloc, records)?;
    let artifact = artifact_of(alloc, records)?;
    let began = Instant::now(rt)?;
    if store.whole() && store.put(alloc, key.as_slice(), &artifact).is_err() {
        bail!("not put");
    }
    let took = began.elapsed(rt)?.as_micros();
    println!(rt; "one result put in {took} us")?;
    Ok(())
}
