// The turns of a run, one after another.
ghost use Rattle.std.specs.Prelude.{◌≡◌, ◌≤◌, ◌+◌, ◌-◌, ◌^◌, Some, None, true, false, is_some};
ghost use Rattle.std.specs.Prelude.{min, length};
ghost use Rattle.std.specs.Prelude.{IsTrue, IfOk, IfErr, IfSome, OnErr};
ghost use Rattle.rel_path.specs.Causes.{Counts};
ghost use Rattle.record_log.specs.Frames.{ends, frames_of, text_of};
ghost use Rattle.cache_api.specs.Cache.{ArePut, IsFindErr, StaysWhole, is_fault};
ghost use Rattle.artifact_store.specs.declared.mark.StoreMark.{StoreMark};
ghost use Rattle.artifact_store.specs.Store.{device_of, state_of, lengths_of};
ghost use Rattle.shared_runs.specs.Costs.{any_length, cost_among};
ghost use Rattle.shared_runs.specs.Errors.{OrFailed};
ghost use Rattle.shared_runs.specs.Marked.{IsMarked};
ghost use Rattle.shared_runs.specs.Passing.{IsInTurn, BeginsTurn, LeavesFirst};
ghost use Rattle.shared_runs.specs.Turns.{GoesOn, LeftInTurn};
ghost use Rattle.shared_runs.specs.Views.{pairs_at, SeesBelow};
ghost use Rattle.codes.specs.Views.{found_as};
ghost use Rattle.cache_api.specs.Found.{found};
ghost use Rattle.cache_api.specs.Hits.{paths_ascend, owns_paths, span_count};
ghost use Rattle.cache_api.specs.Keys.{text_of as text_in, new_pairs};
ghost use Rattle.cache_api.specs.Reading.{artifact_in};
ghost use Rattle.pair_frames.specs.Pairs.{pairs_in};
ghost use Rattle.artifact_reader.specs.Parts.{shown, shown_in};
ghost use Rattle.pair_reader.specs.Answers.{AllWithin, HitIsWithin};
ghost use Rattle.pair_index.specs.Seen.{seen_pairs};

use crate::Shared;
use crate::passing::{begin, close};
use artifact_store::{Store, StoreMark};
use cache_api::{Cache, CacheErr, Hit, Key, NewPair, Puts};
use globs::OutSet;
use pair_index::SeenPairs;
use rel_path::{Bytes, Span};
use std::alloc::Global;
use store_dev::StoreDevice;

/// A shared file between two turns of a run, with what is known of it.
#[derive(Drop)]
pub struct Turns<H> {
    pub(crate) shared: H,
    // Of the frames as the last turn ended. None is kept where a call of the turn failed.
    pub(crate) mark: Option<StoreMark>,
    pub(crate) room: u64,
    // How many pairs the file had as the last turn was taken.
    pub(crate) count: u64,
    // How many turns found a file that is no store.
    pub(crate) damaged: u64,
    // How often the stores of the turns were read once they were open, at most the greatest u64.
    pub(crate) reads: u64,
}

impl<H: Shared> Turns<H> {
    /// Takes the turn with a store. No mark is kept till it ends.
    pub(crate) fn open_turn(&mut self, alloc: Global) -> Result<Store<H::Device>, CacheErr>
        requires idle { (H.turn self.old.shared).held ≡ false }
        requires whole { IsTrue (is_some self.old.mark) }
        requires known { (m : StoreMark) → self.old.mark ≡ Some m → H.Device.tells
            → IsMarked m (H.content self.old.shared) (H.images self.old.shared) }
        ensures turn { IfOk result
            (BeginsTurn H.Shared H.Device.StoreDevice self.old.shared self.new.shared) }
        ensures given { OnErr result ((H.turn self.new.shared).held ≡ false) }
        ensures began { (H.turn self.new.shared).began ≡ H.moment self.old.shared }
        ensures file { H.Device.tells → LeavesFirst H.Shared self.old.shared self.new.shared }
        ensures grows { ends (H.coming self.old.shared) ≤ ends (H.coming self.new.shared) }
        ensures mark { self.new.mark ≡ None }
        ensures room { self.new.room ≤ self.old.room }
        ensures free { IfOk result (λ s. self.new.room ≡ min self.old.room (state_of s).room) }
        ensures same { OnErr result (self.new.room ≡ self.old.room) }
        ensures count { H.Device.tells
            → IfOk result (λ s. self.new.count ≡ length (state_of s).pairs) }
        ensures told { H.Device.tells → self.new.damaged ≡ self.old.damaged }
        ensures reads { self.new.reads ≡ self.old.reads }
        ensures foresees { H.Device.tells → IfOk result (λ s. lengths_of s ≡ any_length) }
        ensures answers { IfErr result IsFindErr }
        ensures cause { Counts is_fault (H.store_faults self.old.shared + self.old.damaged)
            (H.store_faults self.new.shared + self.new.damaged) result }
    {
        let Some(mark) = self.mark.take() else {
            return Err(CacheErr::Failed);
        };
        let store = begin(alloc, &mut self.shared, mark, &mut self.damaged)?;
        self.room = self.room.min(store.free());
        self.count = store.count();
        Ok(store)
    }

    /// Ends the turn of a store, counts how often it was read since that count of its own, and
    /// hands on what a call of it answered. The mark is kept where the turn ended well and that
    /// call answered no error.
    pub(crate) fn close_turn<T: Drop>(
        &mut self,
        store: Store<H::Device>,
        opened: u64,
        answer: Result<T, CacheErr>,
    ) -> Result<T, CacheErr>
        requires turn { IsInTurn H.Shared H.Device.StoreDevice self.old.shared (device_of store) }
        requires none { self.old.mark ≡ None }
        requires opened { opened ≤ (state_of store).probes }
        requires foresees { H.Device.tells → lengths_of store ≡ any_length }
        requires answers { IfErr answer IsFindErr }
        requires cause { Counts is_fault (H.turn self.old.shared).count
            (H.Device.store_faults (device_of store)) answer }
        ensures held { (H.turn self.new.shared).held ≡ false }
        ensures began { (H.turn self.new.shared).began ≡ (H.turn self.old.shared).began }
        ensures file { H.Device.tells
            → H.content self.new.shared ≡ H.Device.content (device_of store) }
        ensures known { (m : StoreMark) → self.new.mark ≡ Some m → H.Device.tells
            → IsMarked m (H.content self.new.shared) (H.images self.new.shared) }
        ensures time { H.Device.tells → GoesOn H.moment H.images_since self.old.shared
            self.new.shared (LeftInTurn (H.images self.old.shared)
            (H.Device.images_since (device_of store) (H.turn self.old.shared).start)) }
        ensures grows { ends (H.coming self.old.shared) ≤ ends (H.coming self.new.shared) }
        ensures room { self.new.room ≡ self.old.room }
        ensures count { self.new.count ≡ self.old.count }
        ensures damaged { self.new.damaged ≡ self.old.damaged }
        ensures reads { self.new.reads
            ≡ min (self.old.reads + ((state_of store).probes - opened)) (2 ^ 64 - 1) }
        ensures more { self.old.reads ≤ self.new.reads }
        ensures answer { OrFailed answer result }
        ensures whole { StaysWhole result true (is_some self.new.mark) }
        ensures dropped { OnErr result (self.new.mark ≡ None) }
        ensures cause { Counts is_fault (H.store_faults self.old.shared)
            (H.store_faults self.new.shared) result }
    {
        self.reads = self.reads.saturating_add(store.probes() - opened);
        let Ok(mark) = close(&mut self.shared, store) else {
            return Err(CacheErr::Failed);
        };
        let value = answer?;
        let _none = self.mark.replace(mark);
        Ok(value)
    }
}

impl<H: Shared> Turns<H> {
    ghost use Rattle.shared_runs.specs.Passes.{PassesTurn, PutsTurn, IsPut, HoldsSomePut};
    ghost use Rattle.shared_runs.specs.Passes.{put_behind};

    /// Where the artifact stands that the last pair with that key gives which gives one, of the
    /// pairs that are seen.
    pub(crate) fn look(
        &mut self,
        alloc: Global,
        key: Key,
        outs: &OutSet,
        seen: &SeenPairs,
    ) -> Result<Option<Hit>, CacheErr>
        requires idle { (H.turn self.old.shared).held ≡ false }
        requires whole { IsTrue (is_some self.old.mark) }
        requires known { (m : StoreMark) → self.old.mark ≡ Some m → H.Device.tells
            → IsMarked m (H.content self.old.shared) (H.images self.old.shared) }
        requires below { H.Device.tells
            → SeesBelow seen.now (length (pairs_at (H.content self.old.shared))) }
        ensures turn { PassesTurn H.Shared H.Device.StoreDevice self.old self.new }
        ensures room { self.new.room ≤ self.old.room }
        ensures found { H.Device.tells → IfOk result (λ o.
            found_as (shown_in (text_of (H.coming self.old.shared))) o
            ≡ found artifact_in (text_in key.entry) outs.now
            (seen_pairs seen.now (pairs_in (H.coming self.old.shared)))) }
        ensures within { H.Device.tells → IfOk result (λ o. IfSome o
            (HitIsWithin (text_of (H.coming self.old.shared)))) }
        ensures fits { IfOk result (λ o. IfSome o (λ hit.
            IsTrue (paths_ascend hit) × IsTrue (owns_paths outs.now hit))) }
        ensures few { H.Device.tells → self.new.reads ≤ self.old.reads
            + cost_among seen.now (frames_of (H.content self.old.shared)) (text_in key.entry) }
        ensures spans { H.Device.tells → IfOk result (λ o. IfSome o (λ hit.
            self.new.reads + span_count hit ≤ self.old.reads
            + cost_among seen.now (frames_of (H.content self.old.shared)) (text_in key.entry))) }
        ensures stays { StaysWhole result true (is_some self.new.mark) }
        ensures dropped { OnErr result (self.new.mark ≡ None) }
        ensures answers { IfErr result IsFindErr }
        ensures cause { Counts is_fault (H.store_faults self.old.shared + self.old.damaged)
            (H.store_faults self.new.shared + self.new.damaged) result }
    {
        let mut store = self.open_turn(alloc)?;
        let opened = store.probes();
        let found = store.lookup_seen(alloc, key, outs, seen);
        self.close_turn(store, opened, found)
    }

    /// The bytes at these places of the text of the frames, one behind the other.
    pub(crate) fn read(&mut self, alloc: Global, spans: &[Span]) -> Result<Bytes, CacheErr>
        requires idle { (H.turn self.old.shared).held ≡ false }
        requires whole { IsTrue (is_some self.old.mark) }
        requires known { (m : StoreMark) → self.old.mark ≡ Some m → H.Device.tells
            → IsMarked m (H.content self.old.shared) (H.images self.old.shared) }
        requires within { H.Device.tells
            → AllWithin (text_of (frames_of (H.content self.old.shared))) spans.now }
        ensures turn { PassesTurn H.Shared H.Device.StoreDevice self.old self.new }
        ensures room { self.new.room ≤ self.old.room }
        ensures bytes { H.Device.tells → IfOk result (λ bytes. bytes
            ≡ shown (text_of (frames_of (H.content self.old.shared))) spans.now) }
        ensures few { self.new.reads ≤ self.old.reads + length spans.now }
        ensures stays { StaysWhole result true (is_some self.new.mark) }
        ensures dropped { OnErr result (self.new.mark ≡ None) }
        ensures answers { IfErr result IsFindErr }
        ensures cause { Counts is_fault (H.store_faults self.old.shared + self.old.damaged)
            (H.store_faults self.new.shared + self.new.damaged) result }
    {
        let mut store = self.open_turn(alloc)?;
        let opened = store.probes();
        let bytes = store.read_at(alloc, spans);
        self.close_turn(store, opened, bytes)
    }

    /// Adds pairs behind the frames that the file has as the turn is taken, in one append, and
    /// tells of each whether there was room.
    pub(crate) fn put(&mut self, alloc: Global, pairs: &[NewPair]) -> Result<Puts, CacheErr>
        requires idle { (H.turn self.old.shared).held ≡ false }
        requires whole { IsTrue (is_some self.old.mark) }
        requires known { (m : StoreMark) → self.old.mark ≡ Some m → H.Device.tells
            → IsMarked m (H.content self.old.shared) (H.images self.old.shared) }
        ensures turn { PutsTurn H.Shared H.Device.StoreDevice (new_pairs pairs.now)
            self.old self.new }
        ensures done { H.Device.tells → IfOk result
            (IsPut (H.coming self.old.shared) (new_pairs pairs.now)
            (H.content self.new.shared) self.new.count) }
        ensures some { H.Device.tells
            → HoldsSomePut (length (frames_of (H.content self.old.shared)))
            (H.coming self.old.shared) (put_behind (H.coming self.old.shared) (new_pairs pairs.now))
            (H.content self.new.shared) }
        ensures put { IfOk result (λ puts. ArePut self.new.room (new_pairs pairs.now) puts) }
        ensures room { self.new.room ≤ self.old.room }
        ensures stays { StaysWhole result true (is_some self.new.mark) }
        ensures dropped { OnErr result (self.new.mark ≡ None) }
        ensures answers { IfErr result IsFindErr }
        ensures cause { Counts is_fault (H.store_faults self.old.shared + self.old.damaged)
            (H.store_faults self.new.shared + self.new.damaged) result }
    {
        let mut store = self.open_turn(alloc)?;
        let opened = store.probes();
        let answer = store.put_all(alloc, pairs);
        let free = store.free();
        let puts = self.close_turn(store, opened, answer)?;
        self.room = self.room.min(free);
        Ok(puts)
    }
}
