// Putting pairs of one store into another.
ghost use Rattle.std.specs.Prelude.{◌≡◌, ◌↔◌, ◌≤◌, ◌<◌, ◌∷◌, ◌++◌, [], take, length, map};
ghost use Rattle.std.specs.Prelude.{sum_by, All, IsTrue, IfOk, IfErr, OnOk};
ghost use Rattle.rel_path.specs.Causes.{Counts};
ghost use Rattle.sha2.specs.Sha256.{sha256};
ghost use Rattle.codes.specs.Codes.{Each};
ghost use Rattle.cache_api.specs.Cache.{is_fault as is_find_fault, IsFindErr, ample};
ghost use Rattle.cache_api.specs.Keys.{new_pairs};
ghost use Rattle.pair_frames.specs.Laws.{AreTexts};
ghost use Rattle.artifact_store.specs.Store.{frames_of, state_of, count_in, OnlyReadsStore};
ghost use Rattle.compact.specs.Answers.{CountsBoth, is_fault};
ghost use Rattle.compact.specs.Picks.{AreUseful, pair_of, pairs_at, held_pair, held_pairs};
ghost use Rattle.compact.specs.Room.{AllFit};
ghost use Rattle.compact.specs.Sources.{PutsOn, IsPut, IsPutInPart, IsFillErr};

use crate::CompactErr;
use crate::held::{Held, read_held};
use artifact_store::Store;
use cache_api::{Cache, CacheErr, Key, NewPair, Put};
use sha_lanes::digests;
use std::alloc::{AllocError, Global};
use store_dev::StoreDevice;

/// The pairs of a batch want at most so much room, and have at most half as many bytes. For more
/// at once memory is taken anew for each batch, and for less the disk is waited for more often.
const BATCH_ROOM: u64 = 15 << 20;

/// Pairs that are put together.
#[derive(Drop)]
struct Batch {
    held: Vec<Held>,
    // How many numbers they come from.
    taken: usize,
}

/// Puts the pairs with these numbers behind those of the other store, in their order.
pub(crate) fn fill<S: StoreDevice, P: StoreDevice>(
    alloc: Global,
    from: &mut Store<S>,
    to: &mut Store<P>,
    numbers: &[u64],
) -> Result<(), CompactErr>
    requires from_whole { IsTrue (state_of from.old).whole }
    requires to_whole { IsTrue (state_of to.old).whole }
    requires below { All (λ number. number < count_in from.old) numbers.now }
    requires useful { S.tells → AreUseful (pairs_at (state_of from.old).pairs numbers.now) }
    ensures pairs { S.tells → P.tells → OnOk result ((state_of to.new).pairs
        ≡ (state_of to.old).pairs ++ pairs_at (state_of from.old).pairs numbers.now) }
    ensures room { S.tells → P.tells → IsPut result (frames_of to.old)
        (pairs_at (state_of from.old).pairs numbers.now) (frames_of to.new) }
    ensures reads { OnlyReadsStore from.old from.new }
    ensures puts { PutsOn to.old to.new }
    ensures whole { OnOk result (IsTrue (state_of to.new).whole) }
    ensures answers { IfErr result IsFillErr }
    ensures cause { CountsBoth is_fault (state_of from.old).faults (state_of from.new).faults
        (state_of to.old).faults (state_of to.new).faults result }
{
    let mut place = 0;
    while place < numbers.len() {
        let taken = put_some(alloc, from, to, &numbers[place..])?;
        place += taken;
    }
    Ok(())
}

/// Puts the first of the pairs with these numbers, one at least, and answers how many.
fn put_some<S: StoreDevice, P: StoreDevice>(
    alloc: Global,
    from: &mut Store<S>,
    to: &mut Store<P>,
    numbers: &[u64],
) -> Result<usize, CompactErr>
    requires some { 0 < length numbers.now }
    requires from_whole { IsTrue (state_of from.old).whole }
    requires to_whole { IsTrue (state_of to.old).whole }
    requires below { All (λ number. number < count_in from.old) numbers.now }
    requires useful { S.tells → AreUseful (pairs_at (state_of from.old).pairs numbers.now) }
    ensures taken { IfOk result (λ taken. (0 < taken) × (taken ≤ length numbers.now)) }
    ensures pairs { S.tells → P.tells → IfOk result (λ taken. (state_of to.new).pairs
        ≡ (state_of to.old).pairs
        ++ take taken (pairs_at (state_of from.old).pairs numbers.now)) }
    ensures room { S.tells → P.tells → IsPutInPart result (frames_of to.old)
        (pairs_at (state_of from.old).pairs numbers.now) (frames_of to.new) }
    ensures reads { OnlyReadsStore from.old from.new }
    ensures puts { PutsOn to.old to.new }
    ensures whole { OnOk result (IsTrue (state_of to.new).whole) }
    ensures answers { IfErr result IsFillErr }
    ensures cause { CountsBoth is_fault (state_of from.old).faults (state_of from.new).faults
        (state_of to.old).faults (state_of to.new).faults result }
{
    let free = to.free();
    let batch = batch_of(alloc, from, numbers, free)?;
    if batch.taken == 0 {
        put_one(alloc, from, to, numbers[0])?;
        return Ok(1);
    }
    put_fitting(alloc, to, batch.held.as_slice())?;
    Ok(batch.taken)
}

/// The first of the pairs with these numbers, as many as certainly have room together and are
/// few enough for a batch.
fn batch_of<S: StoreDevice>(
    alloc: Global,
    from: &mut Store<S>,
    numbers: &[u64],
    free: u64,
) -> Result<Batch, CacheErr>
    requires whole { IsTrue (state_of from.old).whole }
    requires below { All (λ number. number < count_in from.old) numbers.now }
    requires useful { S.tells → AreUseful (pairs_at (state_of from.old).pairs numbers.now) }
    ensures taken { IfOk result (λ batch. batch.taken ≤ length numbers.now) }
    ensures pairs { S.tells → IfOk result (λ batch. held_pairs batch.held.items
        ≡ take batch.taken (pairs_at (state_of from.old).pairs numbers.now)) }
    ensures texts { IfOk result (λ batch. Each AreTexts (held_pairs batch.held.items)) }
    ensures room { IfOk result (λ batch. sum_by ample (held_pairs batch.held.items) ≤ free) }
    ensures reads { OnlyReadsStore from.old from.new }
    ensures answers { IfErr result IsFindErr }
    ensures cause { Counts is_find_fault (state_of from.old).faults
        (state_of from.new).faults result }
{
    let most = free.min(BATCH_ROOM);
    let mut held = Vec::new(alloc);
    let mut room = 0u64;
    for (taken, number) in numbers.iter().enumerate() {
        let Some(pair) = read_held(alloc, from, *number)? else {
            continue;
        };
        room = room.saturating_add(pair.room);
        if room > most {
            return Ok(Batch { held, taken });
        }
        held.push(pair)?;
    }
    Ok(Batch {
        held,
        taken: numbers.len(),
    })
}

/// Puts the pair with that number, if there is room for its frames.
fn put_one<S: StoreDevice, P: StoreDevice>(
    alloc: Global,
    from: &mut Store<S>,
    to: &mut Store<P>,
    number: u64,
) -> Result<(), CompactErr>
    requires from_whole { IsTrue (state_of from.old).whole }
    requires to_whole { IsTrue (state_of to.old).whole }
    requires number { number < count_in from.old }
    requires useful { S.tells → AreUseful (pair_of (state_of from.old).pairs number ∷ []) }
    ensures pairs { S.tells → P.tells → OnOk result ((state_of to.new).pairs
        ≡ (state_of to.old).pairs ++ pair_of (state_of from.old).pairs number ∷ []) }
    ensures room { S.tells → P.tells → IsPut result (frames_of to.old)
        (pair_of (state_of from.old).pairs number ∷ []) (frames_of to.new) }
    ensures reads { OnlyReadsStore from.old from.new }
    ensures puts { PutsOn to.old to.new }
    ensures whole { OnOk result (IsTrue (state_of to.new).whole) }
    ensures answers { IfErr result IsFillErr }
    ensures cause { CountsBoth is_fault (state_of from.old).faults (state_of from.new).faults
        (state_of to.old).faults (state_of to.new).faults result }
{
    let Some(held) = read_held(alloc, from, number)? else {
        return Ok(());
    };
    put_alone(alloc, to, held)
}

/// Puts a pair, if there is room for its frames.
fn put_alone<P: StoreDevice>(alloc: Global, to: &mut Store<P>, held: Held) -> Result<(), CompactErr>
    requires whole { IsTrue (state_of to.old).whole }
    requires texts { AreTexts (held_pair held) }
    ensures pairs { P.tells → OnOk result ((state_of to.new).pairs
        ≡ (state_of to.old).pairs ++ held_pair held ∷ []) }
    ensures room { P.tells
        → IsPut result (frames_of to.old) (held_pair held ∷ []) (frames_of to.new) }
    ensures puts { PutsOn to.old to.new }
    ensures whole { OnOk result (IsTrue (state_of to.new).whole) }
    ensures answers { IfErr result IsFillErr }
    ensures cause { Counts is_fault (state_of to.old).faults (state_of to.new).faults result }
{
    let need = to.need(alloc, Key::new(held.key.as_slice()), &held.artifact)?;
    let free = to.free();
    if need > free {
        return Err(CompactErr::NoRoom { need, free });
    }
    put_fitting(alloc, to, &[held])
}

/// Puts pairs together, for all of which there is room.
fn put_fitting<P: StoreDevice>(
    alloc: Global,
    to: &mut Store<P>,
    held: &[Held],
) -> Result<(), CompactErr>
    requires whole { IsTrue (state_of to.old).whole }
    requires texts { Each AreTexts (held_pairs held.now) }
    requires room { P.tells
        → AllFit (state_of to.old).room (frames_of to.old) (held_pairs held.now) }
    ensures pairs { P.tells → OnOk result
        ((state_of to.new).pairs ≡ (state_of to.old).pairs ++ held_pairs held.now) }
    ensures room { P.tells
        → IsPut result (frames_of to.old) (held_pairs held.now) (frames_of to.new) }
    ensures puts { PutsOn to.old to.new }
    ensures whole { OnOk result (IsTrue (state_of to.new).whole) }
    ensures answers { IfErr result IsFillErr }
    ensures cause { Counts is_fault (state_of to.old).faults (state_of to.new).faults result }
{
    let pairs = new_pairs(alloc, held)?;
    let puts = to.put_all(alloc, pairs.as_slice())?;
    let stored = are_stored(puts.as_slice());
    if !stored {
        // A device that tells nothing may have lost its room.
        return Err(CompactErr::NoRoom {
            need: u64::MAX,
            free: to.free(),
        });
    }
    Ok(())
}

/// These pairs, to be put.
fn new_pairs(alloc: Global, held: &[Held]) -> Result<Vec<NewPair>, AllocError>
    ensures { IfOk result (λ pairs. new_pairs pairs.items ≡ held_pairs held.now) }
{
    let prints = key_prints(alloc, held)?;
    let mut pairs = Vec::with_capacity(alloc, held.len())?;
    for (place, pair) in held.iter().enumerate() {
        pairs.push(NewPair {
            key: Key::with_print(pair.key.as_slice(), prints[place]),
            artifact: &pair.artifact,
        })?;
    }
    Ok(pairs)
}

/// The fingerprints of their keys, which are hashed together.
fn key_prints(alloc: Global, held: &[Held]) -> Result<Vec<[u8; 32]>, AllocError>
    ensures { IfOk result (λ prints. prints.items ≡ map (λ pair. sha256 pair.key) held.now) }
{
    let mut keys = Vec::with_capacity(alloc, held.len())?;
    for pair in held {
        keys.push(pair.key.as_slice())?;
    }
    digests(alloc, keys.as_slice())
}

/// Whether there was room for all of them.
fn are_stored(puts: &[Put]) -> bool
    ensures { IsTrue result ↔ All (λ put. put ≡ Put.Stored) puts.now }
{
    puts.iter().all(|put| *put == Put::Stored)
}
