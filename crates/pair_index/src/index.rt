// Which pair stands in which frame.
ghost use Rattle.std.specs.Prelude.{◌≡◌, ◌≤◌, ◌<◌, ◌+◌, ◌^◌, ◌++◌, [], ℕ, List, length, take, slice_get, IsTrue, IsOk, IfOk, IfErr, OnOk};

use crate::batch::Batch;
use crate::keys::Keys;
use blob_pool::Pool;
use cache_api::{CacheErr, NewPair, Put};
use pair_reader::Lengths;
use pair_writer::{Staged, StagedFrame};
use record_log::Log;
use std::alloc::{AllocError, Global};
use store_dev::StoreDevice;

/// The frames of pairs, by the numbers of the pairs, and their keys.
#[derive(Drop)]
pub struct Index {
    pub frames: Vec<u64>,
    pub keys: Keys,
}

impl Index {
    ghost use Rattle.rel_path.specs.Causes.{Counts};
    ghost use Rattle.cache_api.specs.Cache.{is_fault, IsFindErr};
    ghost use Rattle.cache_api.specs.Keys.{new_pairs};
    ghost use Rattle.cache_api.specs.Pairs.{chosen};
    ghost use Rattle.record_log.specs.Kinds.{Entry};
    ghost use Rattle.record_log.specs.Log.{device_of, is_whole, count_of, frames_in as log_frames};
    ghost use Rattle.blob_pool.specs.Known.{Knows, OnlyReadsLog};
    ghost use Rattle.pair_frames.specs.Pairs.{pairs_in};
    ghost use Rattle.pair_reader.specs.Answers.{Ascend};
    ghost use Rattle.pair_writer.specs.Staged.{entries};
    ghost use Rattle.pair_index.specs.Index.{Indexes, IndexesTheSame, IsIndexOf, FramesBelow, frames_in, frame_room, lengths_in};
    ghost use Rattle.pair_index.specs.Batch.{IsBatchOf, NumbersBelow};
    ghost use Rattle.pair_index.specs.Keys.{key_room};
    ghost use Rattle.pair_frames.specs.Reading.{record_places};
    ghost use Rattle.pair_writer.specs.Held.{staged_entries};

    /// Of no frames.
    pub fn new(alloc: Global, lengths: Lengths) -> Index
        requires { Ascend lengths }
        ensures none { IsIndexOf result [] }
        ensures below { FramesBelow result 0 }
        ensures lengths { lengths_in result ≡ lengths }
    {
        Index {
            frames: Vec::new(alloc),
            keys: Keys::new(alloc, lengths),
        }
    }

    /// Of no frames, where keys of the same lengths are foreseen.
    pub fn cleared(self, alloc: Global) -> Index
        ensures none { IsIndexOf result [] }
        ensures below { FramesBelow result 0 }
        ensures lengths { lengths_in result ≡ lengths_in self }
    {
        Index {
            frames: Vec::new(alloc),
            keys: self.keys.cleared(alloc),
        }
    }

    /// The index of a log. It reads each pair's frame once, and the contents of the keys whose lengths are foreseen.
    pub fn read<S: StoreDevice>(
        alloc: Global,
        pool: &Pool,
        log: &mut Log<S>,
        lengths: Lengths,
    ) -> Result<Index, CacheErr>
        requires whole { IsTrue (is_whole log.old) }
        requires pool { Knows pool.now log.old }
        requires lengths { Ascend lengths }
        ensures index { IfOk result (λ index. Indexes index log.new) }
        ensures lengths { IfOk result (λ index. lengths_in index ≡ lengths) }
        ensures log { OnlyReadsLog log.old log.new }
        ensures answers { IfErr result IsFindErr }
        ensures cause { Counts is_fault (S.store_faults (device_of log.old))
            (S.store_faults (device_of log.new)) result }
    {
        let mut index = Index::new(alloc, lengths);
        index.read_from(alloc, pool, log, 0)?;
        Ok(index)
    }

    /// Goes on from the index of the first so many frames of a log to that of all, and reads those behind them alone.
    pub fn read_from<S: StoreDevice>(
        &mut self,
        alloc: Global,
        pool: &Pool,
        log: &mut Log<S>,
        first: u64,
    ) -> Result<(), CacheErr>
        requires whole { IsTrue (is_whole log.old) }
        requires pool { Knows pool.now log.old }
        requires first { first ≤ count_of log.old }
        requires known { S.tells → IsIndexOf self.old (take first (log_frames log.old)) }
        requires below { FramesBelow self.old first }
        ensures index { OnOk result (Indexes self.new log.new) }
        ensures lengths { OnOk result (lengths_in self.new ≡ lengths_in self.old) }
        ensures log { OnlyReadsLog log.old log.new }
        ensures answers { IfErr result IsFindErr }
        ensures cause { Counts is_fault (S.store_faults (device_of log.old))
            (S.store_faults (device_of log.new)) result }
    {
        let mut next = first;
        while next < log.frames() {
            next = self.read_some(alloc, pool, log, next)?;
        }
        Ok(())
    }

    /// Goes on from the index of the first so many frames to that of the frames up to another one, whose number it tells.
    fn read_some<S: StoreDevice>(
        &mut self,
        alloc: Global,
        pool: &Pool,
        log: &mut Log<S>,
        first: u64,
    ) -> Result<u64, CacheErr>
        requires whole { IsTrue (is_whole log.old) }
        requires pool { Knows pool.now log.old }
        requires first { first < count_of log.old }
        requires known { S.tells → IsIndexOf self.old (take first (log_frames log.old)) }
        requires below { FramesBelow self.old first }
        ensures index { S.tells → IfOk result (λ next.
            IsIndexOf self.new (take next (log_frames log.old))) }
        ensures below { IfOk result (FramesBelow self.new) }
        ensures further { IfOk result (λ next. first < next) }
        ensures inside { IfOk result (λ next. next ≤ count_of log.old) }
        ensures lengths { OnOk result (lengths_in self.new ≡ lengths_in self.old) }
        ensures log { OnlyReadsLog log.old log.new }
        ensures answers { IfErr result IsFindErr }
        ensures cause { Counts is_fault (S.store_faults (device_of log.old))
            (S.store_faults (device_of log.new)) result }
    {
        let batch = Batch::read(alloc, pool, log, &self.keys.lengths, first)?;
        self.push_batch(alloc, &batch)?;
        Ok(batch.next)
    }

    /// Takes in the frames and the keys of a batch.
    fn push_batch(&mut self, alloc: Global, batch: &Batch) -> Result<(), AllocError>
        ensures index { OnOk result ((fs : List Entry) (first : ℕ)
            → IsBatchOf (lengths_in self.old) fs first batch.now
            → IsIndexOf self.old (take first fs) → IsIndexOf self.new (take batch.now.next fs)) }
        ensures below { OnOk result (NumbersBelow batch.now → (n : ℕ) → n ≤ batch.now.next
            → FramesBelow self.old n → FramesBelow self.new batch.now.next) }
        ensures lengths { OnOk result (lengths_in self.new ≡ lengths_in self.old) }
    {
        let prints = batch.prints(alloc)?;
        self.keys
            .push_all(batch.keys.as_slice(), prints.as_slice())?;
        self.frames.extend_from_slice(batch.numbers.as_slice())?;
        Ok(())
    }

    /// The number of the frame in which that pair stands.
    pub fn frame(&self, pair: u64) -> Option<u64>
        ensures { result ≡ slice_get (frames_in self.now) pair }
    {
        self.frames.get(pair as usize).copied()
    }

    /// Makes room for as many frames of pairs and as many keys more, so that learning them cannot fail.
    pub fn reserve(&mut self, frames: usize, keys: usize) -> Result<(), AllocError>
        ensures same { IndexesTheSame self.old self.new }
        ensures frames { OnOk result (frames ≤ frame_room self.new) }
        ensures keys { OnOk result (keys ≤ key_room self.new.keys) }
    {
        self.frames.reserve(frames)?;
        self.keys.reserve(keys)
    }

    /// Takes in pairs that were put: their frames, the first of which has that number, and their keys. There is room for
    /// them, so it does not fail.
    pub fn learn(
        &mut self,
        first: u64,
        staged: &Staged,
        pairs: &[NewPair],
        puts: &[Put],
    ) -> Result<(), AllocError>
        requires frames { length (entries staged.now) ≤ frame_room self.old }
        requires keys { length pairs.now ≤ key_room self.old.keys }
        requires few { first + length (entries staged.now) < 2 ^ 64 }
        ensures ok { IsOk result }
        ensures index { (fs : List Entry) → IsIndexOf self.old fs → first ≡ length fs
            → pairs_in (fs ++ entries staged.now)
            ≡ pairs_in fs ++ chosen (new_pairs pairs.now) puts.now
            → IsIndexOf self.new (fs ++ entries staged.now) }
        ensures below { FramesBelow self.old first
            → FramesBelow self.new (first + length (entries staged.now)) }
        ensures lengths { lengths_in self.new ≡ lengths_in self.old }
    {
        self.learn_frames(first, staged.as_slice());
        self.keys.learn_all(pairs, puts)
    }

    /// Takes in the numbers of those frames that stand for pairs.
    fn learn_frames(&mut self, first: u64, frames: &[StagedFrame])
        requires room { length frames.now ≤ frame_room self.old }
        requires few { first + length frames.now < 2 ^ 64 }
        ensures frames { frames_in self.new
            ≡ frames_in self.old ++ record_places first (staged_entries frames.now) }
        ensures keys { self.new.keys ≡ self.old.keys }
    {
        let mut number = first;
        for frame in frames {
            match frame {
                StagedFrame::Record { .. } => self.frames.push_reserved(number),
                StagedFrame::Content { .. } => {}
            }
            number += 1;
        }
    }
}
