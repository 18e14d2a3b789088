// A pair in memory.
ghost use Rattle.std.specs.Prelude.{◌≡◌, ◌<◌, None, IsTrue, IfOk, IfErr, IfSome};
ghost use Rattle.std.specs.Prelude.{IfNone};
ghost use Rattle.rel_path.specs.Causes.{Counts};
ghost use Rattle.cache_api.specs.Artifacts.{artifact_text, artifact as parts};
ghost use Rattle.cache_api.specs.Cache.{is_fault, IsFindErr, ample};
ghost use Rattle.cache_api.specs.Memory.{capped, OnlyMemory};
ghost use Rattle.cache_api.specs.Reading.{artifact_in};
ghost use Rattle.pair_frames.specs.Laws.{AreTexts};
ghost use Rattle.artifact_store.specs.Store.{state_of, count_in, OnlyReadsStore};
ghost use Rattle.compact.specs.Picks.{pair_of, held_pair};

use artifact_store::Store;
use cache_api::{Artifact, CacheErr, artifact_law};
use rel_path::Bytes;
use std::alloc::Global;
use store_dev::StoreDevice;

/// How many bytes a pair takes besides its own, at most.
const BESIDE: u64 = 128;

/// A pair, whose value is the text of the artifact.
#[derive(Drop)]
pub(crate) struct Held {
    pub(crate) key: Bytes,
    pub(crate) artifact: Artifact,
    // More room than it could want, or 2^64 - 1 where that is more.
    pub(crate) room: u64,
}

/// The pair with that number, where its value is an artifact.
pub(crate) fn read_held<S: StoreDevice>(
    alloc: Global,
    from: &mut Store<S>,
    number: u64,
) -> Result<Option<Held>, CacheErr>
    requires whole { IsTrue (state_of from.old).whole }
    requires number { number < count_in from.old }
    ensures pair { S.tells → IfOk result (λ o. IfSome o (λ held.
        held_pair held ≡ pair_of (state_of from.old).pairs number)) }
    ensures none { S.tells → IfOk result (λ o. IfNone o
        (artifact_in (pair_of (state_of from.old).pairs number).1 ≡ None)) }
    ensures texts { IfOk result (λ o. IfSome o (λ held. AreTexts (held_pair held))) }
    ensures room { IfOk result (λ o. IfSome o (λ held.
        held.room ≡ capped (ample (held_pair held)))) }
    ensures reads { OnlyReadsStore from.old from.new }
    ensures answers { IfErr result IsFindErr }
    ensures cause { Counts is_fault (state_of from.old).faults
        (state_of from.new).faults result }
{
    let (key, value) = from.pair_at(alloc, number)?;
    let Some(artifact) = artifact_of(alloc, value.as_slice())? else {
        return Ok(None);
    };
    let room = ample_of(key.as_slice(), value.as_slice());
    Ok(Some(Held {
        key,
        artifact,
        room,
    }))
}

/// The artifact that bytes are, if they are one. They are its text then.
fn artifact_of(alloc: Global, value: &[u8]) -> Result<Option<Artifact>, CacheErr>
    ensures text { IfOk result (λ o. IfSome o (λ a. artifact_text (parts a) ≡ value.now)) }
    ensures none { IfOk result (λ o. IfNone o (artifact_in value.now ≡ None)) }
    ensures memory { OnlyMemory result }
{
    artifact_law();
    Artifact::read(alloc, value)
}

/// More room than a pair could want, or 2^64 - 1 where that is more.
fn ample_of(key: &[u8], value: &[u8]) -> u64
    ensures room { result ≡ capped (ample (key.now, value.now)) }
    ensures texts { AreTexts (key.now, value.now) }
{
    let bytes = (key.len() as u64).saturating_add(value.len() as u64);
    bytes.saturating_add(bytes).saturating_add(BESIDE)
}
