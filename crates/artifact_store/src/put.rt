// Adding pairs.
ghost use Rattle.std.specs.Prelude.{◌≡◌, ◌⊎◌, ◌≤◌, ◌+◌, ◌-◌, ◌++◌, true, length, IsTrue, IfOk, IfErr, OnOk, OnErr};
ghost use Rattle.rel_path.specs.Causes.{Counts};
ghost use Rattle.cache_api.specs.Cache.{is_fault, IsFindErr, StaysWhole, ArePut};
ghost use Rattle.cache_api.specs.Keys.{new_pairs};
ghost use Rattle.cache_api.specs.Pairs.{chosen};
ghost use Rattle.record_log.specs.Frames.{all_formed, opened};
ghost use Rattle.record_log.specs.Batch.{new_entries, AllKnown, EachWithin, IsBeforeOrAll};
ghost use Rattle.record_log.specs.Log.{device_of as log_device, frames_in, count_of, is_whole, room_of, probes_of, LeavesOnlyIn};
ghost use Rattle.blob_pool.specs.Known.{Knows};
ghost use Rattle.pair_frames.specs.Pairs.{pairs_in};
ghost use Rattle.pair_frames.specs.Puts.{added};
ghost use Rattle.pair_writer.specs.Staged.{entries, taken};
ghost use Rattle.pair_index.specs.Index.{Indexes, lengths_in};

use crate::Store;
use blob_pool::Pool;
use cache_api::{CacheErr, NewPair, Put, Puts};
use pair_index::Index;
use pair_writer::{Staged, learn_all, stage_all};
use record_log::{Log, LogErr, NewFrame};
use std::alloc::Global;
use store_dev::StoreDevice;

impl<S: StoreDevice> Store<S> {
    ghost use Rattle.artifact_store.specs.Store.{frames_of, state_of, lengths_of, stores, OnlyReadsStore};

    /// The frames of those pairs for which there is room, and for each whether there is.
    pub(crate) fn stage<'a>(
        &mut self,
        alloc: Global,
        pairs: &[NewPair<'a>],
    ) -> Result<(Staged<'a>, Puts), CacheErr>
        requires { IsTrue (state_of self.old).whole }
        ensures staged { S.tells → IfOk result (λ r. entries r.0
            ≡ added (state_of self.old).room (frames_of self.old) (new_pairs pairs.now)) }
        ensures puts { S.tells
            → IfOk result (λ r. r.1 ≡ stores self.old (new_pairs pairs.now)) }
        ensures pairs { S.tells → IfOk result (λ r. pairs_in (frames_of self.old ++ entries r.0)
            ≡ (state_of self.old).pairs ++ chosen (new_pairs pairs.now) r.1) }
        ensures formed { S.tells → IfOk result (λ r.
            all_formed (frames_of self.old) (entries r.0) ≡ true) }
        ensures full { IfOk result (λ r.
            ArePut ((state_of self.old).room - taken r.0) (new_pairs pairs.now) r.1) }
        ensures known { IfOk result (λ r. AllKnown (entries r.0)) }
        ensures lengths { IfOk result (λ r. EachWithin (entries r.0)) }
        ensures reads { OnlyReadsStore self.old self.new }
        ensures answers { IfErr result IsFindErr }
        ensures cause { Counts is_fault (state_of self.old).faults
            (state_of self.new).faults result }
    {
        let room = self.log.room();
        stage_all(alloc, &self.pool, &mut self.log, room, pairs)
    }

    /// Adds frames that were staged for pairs.
    pub(crate) fn add(
        &mut self,
        alloc: Global,
        staged: &Staged,
        pairs: &[NewPair],
        puts: &[Put],
    ) -> Result<(), CacheErr>
        requires whole { IsTrue (state_of self.old).whole }
        requires known { AllKnown (entries staged.now) }
        requires lengths { EachWithin (entries staged.now) }
        requires formed { S.tells → all_formed (frames_of self.old) (entries staged.now) ≡ true }
        requires pairs { S.tells → pairs_in (frames_of self.old ++ entries staged.now)
            ≡ (state_of self.old).pairs ++ chosen (new_pairs pairs.now) puts.now }
        ensures frames { S.tells
            → OnOk result (frames_of self.new ≡ frames_of self.old ++ entries staged.now) }
        ensures after { S.tells → (frames_of self.new ≡ frames_of self.old)
            ⊎ (frames_of self.new ≡ frames_of self.old ++ entries staged.now) }
        ensures unchanged { S.tells → IfErr result (λ e.
            (e ≡ CacheErr.Failed) ⊎ (frames_of self.new ≡ frames_of self.old)) }
        ensures whole { StaysWhole result (state_of self.old).whole (state_of self.new).whole }
        ensures room { (state_of self.new).room ≤ (state_of self.old).room }
        ensures taken { OnOk result
            ((state_of self.new).room + taken staged.now ≤ (state_of self.old).room) }
        ensures probes { (state_of self.new).probes ≡ (state_of self.old).probes }
        ensures base { (state_of self.new).base ≡ (state_of self.old).base }
        ensures foresees { lengths_of self.new ≡ lengths_of self.old }
        ensures images { S.tells → LeavesOnlyIn self.old.log self.new.log
            (IsBeforeOrAll (frames_of self.old) (entries staged.now)) }
        ensures answers { IfErr result IsFindErr }
        ensures cause { Counts is_fault (state_of self.old).faults
            (state_of self.new).faults result }
    {
        append_staged(
            alloc,
            &mut self.log,
            &mut self.pool,
            &mut self.index,
            staged,
            pairs,
            puts,
        )
    }
}

/// Appends frames that were staged for pairs, and takes in their contents and their pairs. What follows the append cannot
/// fail for want of memory.
fn append_staged<S: StoreDevice>(
    alloc: Global,
    log: &mut Log<S>,
    pool: &mut Pool,
    index: &mut Index,
    staged: &Staged,
    pairs: &[NewPair],
    puts: &[Put],
) -> Result<(), CacheErr>
    requires whole { IsTrue (is_whole log.old) }
    requires pool { Knows pool.old log.old }
    requires index { Indexes index.old log.old }
    requires known { AllKnown (entries staged.now) }
    requires lengths { EachWithin (entries staged.now) }
    requires formed { S.tells → all_formed (frames_in log.old) (entries staged.now) ≡ true }
    requires pairs { S.tells → pairs_in (frames_in log.old ++ entries staged.now)
        ≡ pairs_in (frames_in log.old) ++ chosen (new_pairs pairs.now) puts.now }
    ensures frames { S.tells
        → OnOk result (frames_in log.new ≡ frames_in log.old ++ entries staged.now) }
    ensures after { S.tells → (frames_in log.new ≡ frames_in log.old)
        ⊎ (frames_in log.new ≡ frames_in log.old ++ entries staged.now) }
    ensures unchanged { S.tells → IfErr result (λ e.
        (e ≡ CacheErr.Failed) ⊎ (frames_in log.new ≡ frames_in log.old)) }
    ensures whole { StaysWhole result (is_whole log.old) (is_whole log.new) }
    ensures room { room_of log.new ≤ room_of log.old }
    ensures taken { OnOk result (room_of log.new + taken staged.now ≤ room_of log.old) }
    ensures probes { probes_of log.new ≡ probes_of log.old }
    ensures images { S.tells → LeavesOnlyIn log.old log.new
        (IsBeforeOrAll (frames_in log.old) (entries staged.now)) }
    ensures pool { Knows pool.new log.new }
    ensures index { Indexes index.new log.new }
    ensures foresees { lengths_in index.new ≡ lengths_in index.old }
    ensures answers { IfErr result IsFindErr }
    ensures cause { Counts is_fault (S.store_faults (log_device log.old))
        (S.store_faults (log_device log.new)) result }
{
    let frames = staged.frames(alloc)?;
    pool.reserve(staged.contents() as usize)?;
    index.reserve(frames.len(), pairs.len())?;
    let first = append(alloc, log, frames.as_slice())?;
    learn_all(pool, first, staged)?;
    index.learn(first, staged, pairs, puts)?;
    Ok(())
}

/// Appends frames, and answers the number of the first.
fn append<S: StoreDevice>(
    alloc: Global,
    log: &mut Log<S>,
    frames: &[NewFrame],
) -> Result<u64, CacheErr>
    requires whole { IsTrue (is_whole log.old) }
    requires known { AllKnown (new_entries frames.now) }
    requires lengths { EachWithin (new_entries frames.now) }
    requires formed { S.tells
        → all_formed (frames_in log.old) (new_entries frames.now) ≡ true }
    ensures frames { S.tells
        → OnOk result (frames_in log.new ≡ frames_in log.old ++ new_entries frames.now) }
    ensures after { S.tells → (frames_in log.new ≡ frames_in log.old)
        ⊎ (frames_in log.new ≡ frames_in log.old ++ new_entries frames.now) }
    ensures unchanged { S.tells → IfErr result (λ e.
        (e ≡ CacheErr.Failed) ⊎ (frames_in log.new ≡ frames_in log.old)) }
    ensures number { IfOk result (λ n. n ≡ count_of log.old) }
    ensures count { OnOk result (count_of log.new ≡ count_of log.old + length frames.now) }
    ensures same_count { OnErr result (count_of log.new ≡ count_of log.old) }
    ensures stays { OnOk result (is_whole log.new ≡ is_whole log.old) }
    ensures room { room_of log.new ≤ room_of log.old }
    ensures taken { OnOk result (room_of log.new + length (opened (new_entries frames.now))
        ≤ room_of log.old) }
    ensures probes { probes_of log.new ≡ probes_of log.old }
    ensures images { S.tells → LeavesOnlyIn log.old log.new
        (IsBeforeOrAll (frames_in log.old) (new_entries frames.now)) }
    ensures answers { IfErr result IsFindErr }
    ensures cause { Counts is_fault (S.store_faults (log_device log.old))
        (S.store_faults (log_device log.new)) result }
{
    match log.append_all(alloc, frames) {
        Ok(number) => Ok(number),
        Err(LogErr::Failed) => Err(CacheErr::Failed),
        Err(_) => Err(CacheErr::OutOfMemory),
    }
}
