//! Adds results to a store that several processes use in turn, and finds them again.
//!
//! Words: `add` or `find`, the path of the store's file, a name and a count. The keys are the name with the numbers below
//! the count. `add` puts a result for each and then finds them, `find` only finds them. It prints how many were found as
//! they were put. Several may run at once over one file, each with a name of its own.
#![tactic(auto)]

ghost use Rattle.std.specs.Prelude.{◌≡◌, false, IsTrue, OnOk};
ghost use Rattle.cache_api.specs.Cache.{AllLast};

use anyhow::{Result, bail};
use cache_api::{Artifact, Cache};
use globs::{GlobList, GlobLists, OutSet};
use os_shared::OsShared;
use rel_path::{Bytes, Files, RelPath, Texts};
use shared_runs::{Shared, SharedStore};
use std::alloc::Global;
use std::env;

const ADD: &str = "add";

const FIND: &str = "find";

fn key_of(alloc: Global, name: &str, number: u64) -> Result<String> {
    Ok(format!(in alloc; "{name} {number}")?)
}

// Its log is its key.
fn artifact_of(alloc: Global, key: &str) -> Result<Artifact> {
    Ok(Artifact {
        log: Bytes::read(alloc, key.as_bytes())?,
        files: Files::new(alloc),
    })
}

// Of a task without outputs.
fn no_outputs(alloc: Global) -> Result<OutSet> {
    Ok(OutSet {
        folder: RelPath::root(alloc),
        mine: GlobList::read(alloc, &Texts::new(alloc))?,
        others: GlobLists::new(alloc),
    })
}

fn put_one<C: Cache>(alloc: Global, cache: &mut C, name: &str, number: u64) -> Result<()>
    requires { IsTrue (C.state cache.old).whole }
    ensures whole { OnOk result (IsTrue (C.state cache.new).whole) }
    ensures last { C.tells → OnOk result (AllLast (C.state cache.new)) }
{
    let key = key_of(alloc, name, number)?;
    let artifact = artifact_of(alloc, key.as_str())?;
    match cache.put(alloc, key.as_bytes(), &artifact) {
        Ok(()) => Ok(()),
        Err(error) => Err(error.into()),
    }
}

// Puts so many results, one by one.
fn add<C: Cache>(alloc: Global, cache: &mut C, name: &str, count: u64) -> Result<()>
    requires whole { IsTrue (C.state cache.old).whole }
    requires last { C.tells → AllLast (C.state cache.old) }
    ensures whole { OnOk result (IsTrue (C.state cache.new).whole) }
    ensures last { C.tells → OnOk result (AllLast (C.state cache.new)) }
{
    for number in 0..count {
        put_one(alloc, cache, name, number)?;
    }
    Ok(())
}

// Whether a result is found as it was put.
fn is_found<C: Cache>(
    alloc: Global,
    cache: &mut C,
    outs: &OutSet,
    name: &str,
    number: u64,
) -> Result<bool>
    requires whole { IsTrue (C.state cache.old).whole }
    requires last { C.tells → AllLast (C.state cache.old) }
    ensures whole { OnOk result (IsTrue (C.state cache.new).whole) }
    ensures last { C.tells → OnOk result (AllLast (C.state cache.new)) }
{
    let key = key_of(alloc, name, number)?;
    match cache.find(alloc, key.as_bytes(), outs) {
        Ok(Some(artifact)) => Ok(artifact.log.as_slice() == key.as_bytes()),
        Ok(None) => Ok(false),
        Err(error) => Err(error.into()),
    }
}

// How many of so many results are found as they were put.
fn found<C: Cache>(alloc: Global, cache: &mut C, name: &str, count: u64) -> Result<u64>
    requires whole { IsTrue (C.state cache.old).whole }
    requires last { C.tells → AllLast (C.state cache.old) }
{
    let outs = no_outputs(alloc)?;
    let mut found: u64 = 0;
    for number in 0..count {
        if is_found(alloc, cache, &outs, name, number)? {
            found = found.saturating_add(1);
        }
    }
    Ok(found)
}

// What `add` or `find` comes to.
fn counted<C: Cache>(
    alloc: Global,
    cache: &mut C,
    adds: bool,
    name: &str,
    count: u64,
) -> Result<u64>
    requires whole { IsTrue (C.state cache.old).whole }
    requires last { C.tells → AllLast (C.state cache.old) }
{
    if adds {
        add(alloc, cache, name, count)?;
    }
    found(alloc, cache, name, count)
}

// Over a file whose turn is not held.
fn counted_in<H: Shared + Drop>(
    alloc: Global,
    shared: H,
    adds: bool,
    name: &str,
    count: u64,
) -> Result<u64>
    requires { (H.turn shared).held ≡ false }
{
    let Ok(opened) = SharedStore::open(alloc, shared) else {
        bail!("it is not opened");
    };
    let mut store = opened;
    counted(alloc, &mut store, adds, name, count)
}

fn run(rt: &HostRuntime, adds: bool, path: &str, name: &str, count: u64) -> Result<()> {
    let found = counted_in(rt.alloc(), OsShared::at(rt, path), adds, name, count)?;
    println!(rt; "{name}: {found} of {count} found")?;
    Ok(())
}

fn main(rt: HostRuntime) -> Result<()> {
    let words: Vec<String> = env::args(&rt)?.skip(1).collect(rt.alloc())?;
    let [what, path, name, count] = words.as_slice() else {
        bail!("words: {ADD} or {FIND}, a path, a name, a count");
    };
    let count = count.as_str().parse::<u64>()?;
    match what.as_str() {
        ADD => run(&rt, true, path.as_str(), name.as_str(), count),
        FIND => run(&rt, false, path.as_str(), name.as_str(), count),
        _ => bail!("neither {ADD} nor {FIND}"),
    }
}
