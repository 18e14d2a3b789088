// Pairs that are put as frames.
ghost use Rattle.std.specs.Prelude.{◌≡◌, ◌≤◌, ◌<◌, ◌-◌, ◌+◌, ◌^◌, ◌++◌, [], List, length, map, true, IsTrue, IfOk, IfErr, OnOk};
ghost use Rattle.std.specs.Int.{w64};
ghost use Rattle.rel_path.specs.Causes.{Counts};
ghost use Rattle.sha2.specs.Sha256.{sha256};
ghost use Rattle.cache_api.specs.Cache.{is_fault, IsFindErr, ArePut, ample};
ghost use Rattle.cache_api.specs.Keys.{new_pairs};
ghost use Rattle.cache_api.specs.Memory.{capped};
ghost use Rattle.record_log.specs.Pieces.{Piece, record_text};
ghost use Rattle.record_log.specs.Frames.{all_formed};
ghost use Rattle.record_log.specs.Batch.{AllKnown, EachWithin};
ghost use Rattle.record_log.specs.Log.{device_of, frames_in, is_whole};
ghost use Rattle.blob_pool.specs.Known.{Knows, OnlyReadsLog, known_in};
ghost use Rattle.pair_frames.specs.Laws.{AllPut, AreTexts};
ghost use Rattle.pair_frames.specs.Puts.{literal_before, put_frames, put_size, fit, added};
ghost use Rattle.pair_writer.specs.Pieces.{ArePieces, open_in, weight};
ghost use Rattle.pair_writer.specs.Putting.{put_of, new_pair, IsOffered, IsShortOf};
ghost use Rattle.pair_writer.specs.Staged.{entries, taken, Extends};
ghost use Rattle.pair_writer.specs.FileTexts.{file_texts};

use crate::Staged;
use crate::cutting::{cut_artifact, cut_key};
use crate::hashing::file_digests;
use crate::pieces::Pieces;
use blob_pool::Pool;
use cache_api::{CacheErr, NewPair, Put, Puts};
use record_log::Log;
use std::alloc::{AllocError, Global};
use store_dev::StoreDevice;

/// The frames of these pairs, put one after another where they fit in the room, and for each whether it does. It writes
/// nothing.
pub fn stage_all<'a, S: StoreDevice>(
    alloc: Global,
    pool: &Pool,
    log: &mut Log<S>,
    room: u64,
    pairs: &[NewPair<'a>],
) -> Result<(Staged<'a>, Puts), CacheErr>
    requires whole { IsTrue (is_whole log.old) }
    requires pool { Knows pool.now log.old }
    requires room { room < 2 ^ 63 }
    ensures staged { S.tells → IfOk result (λ r. entries r.0
        ≡ added room (frames_in log.old) (new_pairs pairs.now)) }
    ensures puts { S.tells → IfOk result (λ r. r.1
        ≡ map put_of (fit room (frames_in log.old) (new_pairs pairs.now))) }
    ensures formed { S.tells → IfOk result (λ r.
        all_formed (frames_in log.old) (entries r.0) ≡ true) }
    // So the laws of pairs that are put may be used.
    ensures sound { S.tells → OnOk result
        (AllPut room (frames_in log.old) (new_pairs pairs.now)) }

    // Also where the device tells no bytes.
    ensures fits { IfOk result (λ r. taken r.0 ≤ room) }
    ensures full { IfOk result (λ r. ArePut (room - taken r.0) (new_pairs pairs.now) r.1) }
    ensures known { IfOk result (λ r. AllKnown (entries r.0)) }
    ensures lengths { IfOk result (λ r. EachWithin (entries r.0)) }
    ensures log { OnlyReadsLog log.old log.new }
    ensures answers { IfErr result IsFindErr }
    ensures cause { Counts is_fault (S.store_faults (device_of log.old))
        (S.store_faults (device_of log.new)) result }
{
    let digests = file_digests(alloc, pairs)?;
    let mut staged = Staged::new(alloc);
    let mut puts = Puts::new(alloc);
    for (place, pair) in pairs.iter().enumerate() {
        let own = digests[place].as_slice();
        let put = offer(alloc, pool, log, room, &mut staged, *pair, own)?;
        puts.push(put)?;
    }
    Ok((staged, puts))
}

/// What the frames of a pair take, or 2^64 - 1 where that is more. It writes nothing.
pub fn need_of_pair<S: StoreDevice>(
    alloc: Global,
    pool: &Pool,
    log: &mut Log<S>,
    pair: NewPair,
) -> Result<u64, CacheErr>
    requires whole { IsTrue (is_whole log.old) }
    requires pool { Knows pool.now log.old }
    ensures need { S.tells → IfOk result
        (λ need. need ≡ capped (put_size (frames_in log.old) (new_pair pair.entry))) }
    // Also where the device tells no bytes.
    ensures ample { IfOk result (λ need. need ≤ ample (new_pair pair.entry)) }
    ensures log { OnlyReadsLog log.old log.new }
    ensures answers { IfErr result IsFindErr }
    ensures cause { Counts is_fault (S.store_faults (device_of log.old))
        (S.store_faults (device_of log.new)) result }
{
    let digests = file_digests(alloc, &[pair])?;
    let mut staged = Staged::new(alloc);
    stage(alloc, pool, log, &mut staged, pair, digests[0].as_slice())?;
    Ok(staged.size())
}

/// Stages the frames of a pair, whose files have these digests, where they fit in what the room leaves.
fn offer<'a, S: StoreDevice>(
    alloc: Global,
    pool: &Pool,
    log: &mut Log<S>,
    room: u64,
    staged: &mut Staged<'a>,
    pair: NewPair<'a>,
    digests: &[[u8; 32]],
) -> Result<Put, CacheErr>
    requires pool { Knows pool.now log.old }
    requires digests { digests.now ≡ map sha256 (file_texts pair) }
    requires room { room < 2 ^ 63 }
    requires fits { taken staged.old ≤ room }
    ensures offered { S.tells → IfOk result
        (IsOffered room (known_in log.old) staged.old staged.new (new_pair pair.entry)) }
    ensures fits { OnOk result (taken staged.new ≤ room) }
    ensures grown { OnOk result (Extends (entries staged.old) (entries staged.new)) }
    ensures full { IfOk result
        (λ put. IsShortOf put (room - taken staged.new) (new_pair pair.entry)) }
    ensures texts { OnOk result (AreTexts (new_pair pair.entry)) }
    ensures log { OnlyReadsLog log.old log.new }
    ensures answers { IfErr result IsFindErr }
    ensures cause { Counts is_fault (S.store_faults (device_of log.old))
        (S.store_faults (device_of log.new)) result }
{
    let frames = staged.as_slice().len();
    let size = staged.size();
    stage(alloc, pool, log, staged, pair, digests)?;
    if staged.size() <= room {
        return Ok(Put::Stored);
    }
    staged.take_back(alloc, frames, size)?;
    Ok(Put::Full)
}

/// Stages the frames of a pair, whose files have these digests.
fn stage<'a, S: StoreDevice>(
    alloc: Global,
    pool: &Pool,
    log: &mut Log<S>,
    staged: &mut Staged<'a>,
    pair: NewPair<'a>,
    digests: &[[u8; 32]],
) -> Result<(), CacheErr>
    requires pool { Knows pool.now log.old }
    requires digests { digests.now ≡ map sha256 (file_texts pair) }
    ensures frames { S.tells → OnOk result (entries staged.new ≡ entries staged.old
        ++ put_frames (known_in log.old ++ entries staged.old) (new_pair pair.entry)) }
    ensures grown { OnOk result (Extends (entries staged.old) (entries staged.new)) }
    ensures ample { OnOk result
        (taken staged.new ≤ taken staged.old + ample (new_pair pair.entry)) }
    ensures texts { OnOk result (AreTexts (new_pair pair.entry)) }
    ensures log { OnlyReadsLog log.old log.new }
    ensures answers { IfErr result IsFindErr }
    ensures cause { Counts is_fault (S.store_faults (device_of log.old))
        (S.store_faults (device_of log.new)) result }
{
    let artifact = pair.artifact;
    let listed = digests.len() - artifact.files.as_slice().len();
    let (of_key, of_artifact) = digests.split_at(listed);
    let mut key = Pieces::new(alloc);
    cut_key(alloc, pool, log, staged, &mut key, pair.key.text(), of_key)?;
    let mut value = Pieces::new(alloc);
    cut_artifact(alloc, pool, log, staged, &mut value, artifact, of_artifact)?;
    let text = text_of(alloc, key, value)?;
    staged.push_record(*pair.key.print(), text)?;
    Ok(())
}

/// The text of a record, where these are the pieces of its key and of its value.
fn text_of(alloc: Global, key: Pieces, value: Pieces) -> Result<Vec<u8>, AllocError>
    ensures text { IfOk result (λ text. (ks vs : List Piece) → ArePieces key ks → ArePieces value vs
        → text.items ≡ record_text w64
        (ks ++ literal_before (open_in key) [], vs ++ literal_before (open_in value) [])) }
    ensures size { IfOk result (λ text. length text.items ≤ weight key + weight value + 34) }
{
    let mut text = Vec::new(alloc);
    key.put_to(&mut text)?;
    value.put_to(&mut text)?;
    Ok(text)
}
