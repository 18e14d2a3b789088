// What other runs put into the shared file, turn by turn.
use crate::scene::Scene;
use anyhow::{Context, Result, anyhow};
use artifact_store::Store;
use cache_api::Artifact;
use rel_path::Bytes;
use run_case_files::Source;
use shared_runs::{OtherPut, OtherPuts};
use std::alloc::Global;
use store_dev::MemStore;

// All results of an open store.
fn results_of(alloc: Global, store: Store<MemStore>) -> Result<OtherPuts> {
    let mut store = store;
    let mut puts = OtherPuts::new(alloc);
    for number in 0..store.count() {
        if !store.whole() || number >= store.count() {
            return Err(anyhow!("a result is not there"));
        }
        let Ok((key, value)) = store.pair_at(alloc, number) else {
            return Err(anyhow!("a result does not read"));
        };
        let artifact = Artifact::read(alloc, value.as_slice())?.context("no result")?;
        puts.push(OtherPut { key, artifact })?;
    }
    Ok(puts)
}

// All results that stand in the bytes of a store.
fn results_in(alloc: Global, bytes: &Bytes) -> Result<OtherPuts> {
    match Store::open(alloc, MemStore::new(alloc, bytes.copy()?, Vec::new(alloc))) {
        Ok(store) => results_of(alloc, store),
        Err(_) => Err(anyhow!("no store to put from")),
    }
}

fn bytes_of(scene: &Scene, source: Source) -> &Bytes {
    match source {
        Source::Store => &scene.store,
        Source::Spare => &scene.spare,
        Source::Second => &scene.second,
    }
}

/// What is put before each turn: the results that the store of that place has before the call.
pub fn turns_of(
    alloc: Global,
    scene: &Scene,
    sources: &[Option<Source>],
) -> Result<Vec<OtherPuts>> {
    let mut turns = Vec::new(alloc);
    for source in sources {
        let puts = match source {
            Some(source) => results_in(alloc, bytes_of(scene, *source))?,
            None => OtherPuts::new(alloc),
        };
        turns.push(puts)?;
    }
    Ok(turns)
}
