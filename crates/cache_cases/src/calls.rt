// Calls on a cache, whatever keeps it.
ghost use Rattle.std.specs.Prelude.{◌≡◌, true, false, IsTrue, IfOk};
ghost use Rattle.cache_api.specs.Cache.{AllLast};

use crate::parts;
use anyhow::{Result, anyhow};
use cache_api::{Artifact, Cache, CacheErr, Key, NewPair, Put};
use case_files::{answers, inputs};
use globs::OutSet;
use serde_json::Value;
use std::alloc::Global;

/// What a call answered, and whether the cache may still be used.
#[derive(Drop)]
struct Came {
    answer: Value,
    goes_on: bool,
}

fn went(answer: Value) -> Came {
    Came {
        answer,
        goes_on: true,
    }
}

fn failed(alloc: Global, error: CacheErr) -> Result<Came>
    ensures { IfOk result (λ came. came.goes_on ≡ false) }
{
    let name = match error {
        CacheErr::Full => "Full",
        CacheErr::Failed => "Failed",
        CacheErr::OutOfMemory => return Err(anyhow!("out of memory")),
    };
    let answer = answers::text(alloc, name)?;
    Ok(Came {
        answer,
        goes_on: false,
    })
}

// The side of the hit and the artifact, or `null`.
fn find<C: Cache>(alloc: Global, cache: &mut C, outs: &OutSet, key: &[u8]) -> Result<Came>
    requires whole { IsTrue (C.state cache.old).whole }
    requires last { C.tells → AllLast (C.state cache.old) }
    ensures whole { IfOk result (λ came. came.goes_on ≡ true
        → IsTrue (C.state cache.new).whole) }
    ensures last { C.tells
        → IfOk result (λ came. came.goes_on ≡ true → AllLast (C.state cache.new)) }
{
    let hit = match cache.lookup(alloc, key, outs) {
        Ok(Some(hit)) => hit,
        Ok(None) => return Ok(went(Value::Null)),
        Err(error) => return failed(alloc, error),
    };
    match cache.hit_artifact(alloc, &hit) {
        Ok(artifact) => Ok(went(parts::shown(alloc, Value::from(hit.side), &artifact)?)),
        Err(error) => failed(alloc, error),
    }
}

fn put<C: Cache>(alloc: Global, cache: &mut C, key: &[u8], artifact: &Artifact) -> Result<Came>
    requires whole { IsTrue (C.state cache.old).whole }
    requires last { C.tells → AllLast (C.state cache.old) }
    ensures whole { IfOk result (λ came. came.goes_on ≡ true
        → IsTrue (C.state cache.new).whole) }
    ensures last { C.tells
        → IfOk result (λ came. came.goes_on ≡ true → AllLast (C.state cache.new)) }
{
    match cache.put(alloc, key, artifact) {
        Ok(()) => Ok(went(answers::text(alloc, "ok")?)),
        Err(CacheErr::Full) => Ok(went(answers::text(alloc, "Full")?)),
        Err(error) => failed(alloc, error),
    }
}

fn outcome(alloc: Global, put: Put) -> Result<Value> {
    match put {
        Put::Stored => answers::text(alloc, "ok"),
        Put::Full => answers::text(alloc, "Full"),
    }
}

fn outcomes(alloc: Global, puts: &[Put]) -> Result<Value> {
    let mut values = Vec::new(alloc);
    for put in puts {
        values.push(outcome(alloc, *put)?)?;
    }
    Ok(Value::Array(values))
}

fn put_all<C: Cache>(
    alloc: Global,
    cache: &mut C,
    keys: &[Vec<u8>],
    artifacts: &[Artifact],
) -> Result<Came>
    requires whole { IsTrue (C.state cache.old).whole }
    requires last { C.tells → AllLast (C.state cache.old) }
    ensures whole { IfOk result (λ came. came.goes_on ≡ true
        → IsTrue (C.state cache.new).whole) }
    ensures last { C.tells
        → IfOk result (λ came. came.goes_on ≡ true → AllLast (C.state cache.new)) }
{
    let mut pairs = Vec::new(alloc);
    for (key, artifact) in keys.iter().zip(artifacts) {
        let key = Key::new(key.as_slice());
        pairs.push(NewPair { key, artifact })?;
    }
    match cache.put_all(alloc, pairs.as_slice()) {
        Ok(puts) => Ok(went(outcomes(alloc, puts.as_slice())?)),
        Err(error) => failed(alloc, error),
    }
}

fn put_pairs<C: Cache>(alloc: Global, cache: &mut C, pairs: &[Value]) -> Result<Came>
    requires whole { IsTrue (C.state cache.old).whole }
    requires last { C.tells → AllLast (C.state cache.old) }
    ensures whole { IfOk result (λ came. came.goes_on ≡ true
        → IsTrue (C.state cache.new).whole) }
    ensures last { C.tells
        → IfOk result (λ came. came.goes_on ≡ true → AllLast (C.state cache.new)) }
{
    let mut keys = Vec::new(alloc);
    let mut artifacts = Vec::new(alloc);
    for pair in pairs {
        keys.push(parts::key(alloc, pair)?)?;
        artifacts.push(parts::new_artifact(alloc, pair)?)?;
    }
    put_all(alloc, cache, keys.as_slice(), artifacts.as_slice())
}

// A call is a list: its name, and a key, a pair or a list of pairs.
fn call_of<C: Cache>(alloc: Global, cache: &mut C, outs: &OutSet, call: &Value) -> Result<Came>
    requires whole { IsTrue (C.state cache.old).whole }
    requires last { C.tells → AllLast (C.state cache.old) }
    ensures whole { IfOk result (λ came. came.goes_on ≡ true
        → IsTrue (C.state cache.new).whole) }
    ensures last { C.tells
        → IfOk result (λ came. came.goes_on ≡ true → AllLast (C.state cache.new)) }
{
    let items = inputs::as_list(call)?;
    let given = inputs::item(items, 1)?;
    match inputs::as_text(inputs::item(items, 0)?)? {
        "find" => find(alloc, cache, outs, &parts::bytes(alloc, given)?),
        "put" => {
            let key = parts::key(alloc, given)?;
            put(alloc, cache, &key, &parts::new_artifact(alloc, given)?)
        }
        "put_all" => put_pairs(alloc, cache, inputs::as_list(given)?),
        _ => Err(anyhow!("no such call")),
    }
}

/// What calls answer, up to one behind which the cache may not be used.
pub fn answers_of<C: Cache>(alloc: Global, cache: &mut C, list: &[Value]) -> Result<Value>
    requires whole { IsTrue (C.state cache.old).whole }
    requires last { C.tells → AllLast (C.state cache.old) }
{
    let outs = parts::outs(alloc)?;
    let mut found = Vec::new(alloc);
    for call in list {
        let came = call_of(alloc, cache, &outs, call)?;
        found.push(came.answer)?;
        if !came.goes_on {
            break;
        }
    }
    Ok(Value::Array(found))
}
