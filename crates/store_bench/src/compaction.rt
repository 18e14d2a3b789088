// How long the compaction of a store takes, over files, and how much memory that takes.
use crate::file::{FileStore, file_at};
use crate::memory::peak;
use anyhow::{Result, bail};
use compact::compact;
use std::time::Instant;

fn size_of(rt: &HostRuntime, path: &str) -> Result<u64> {
    let file = file_at(rt, path, false)?;
    Ok(file.metadata()?.len())
}

/// Compacts the one store into the other, which is written anew.
pub fn bench_compaction(rt: &HostRuntime, from_path: &str, to_path: &str) -> Result<()> {
    let from = FileStore::new(file_at(rt, from_path, false)?);
    let to = FileStore::new(file_at(rt, to_path, true)?);
    let began = Instant::now(rt)?;
    let (result, _from, _to) = compact(rt.alloc(), from, to, None);
    let took = began.elapsed(rt)?.as_millis();
    let peak = peak(rt)?;
    match result {
        Ok(counts) => {
            let before = size_of(rt, from_path)?;
            let now = size_of(rt, to_path)?;
            println!(rt; "kept {} of {} in {took} ms", counts.kept, counts.before)?;
            println!(rt; "{now} of {before} bytes, peak of memory: {peak}")?;
            Ok(())
        }
        Err(fault) => bail!("{fault}"),
    }
}
