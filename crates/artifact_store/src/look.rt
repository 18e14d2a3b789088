// Looking a key up.
ghost use Rattle.std.specs.Prelude.{◌≡◌, ◌≤◌, ◌<◌, ◌+◌, [], Option, None, length, get_or, if◌then◌else◌, IsTrue, IfOk, IfErr, IfSome};
ghost use Rattle.rel_path.specs.Causes.{Counts};
ghost use Rattle.codes.specs.Views.{found_as};
ghost use Rattle.store_dev.specs.Device.{OnlyReads};
ghost use Rattle.cache_api.specs.Cache.{CacheReads, StaysWhole, is_fault, IsFindErr};
ghost use Rattle.cache_api.specs.Found.{given as gives, found};
ghost use Rattle.cache_api.specs.Hits.{paths_ascend, owns_paths, span_count};
ghost use Rattle.cache_api.specs.Keys.{text_of as key_text};
ghost use Rattle.cache_api.specs.Reading.{artifact_in};
ghost use Rattle.record_log.specs.Frames.{text_of};
ghost use Rattle.record_log.specs.Log.{probes_of};
ghost use Rattle.artifact_reader.specs.Parts.{shown_in};
ghost use Rattle.pair_reader.specs.Frames.{cost_of as frame_cost, reads_of as frame_reads};
ghost use Rattle.pair_reader.specs.Answers.{ReadsAtMost, HitIsWithin, places_of};

use crate::Store;
use cache_api::{CacheErr, Hit, Key};
use globs::OutSet;
use pair_index::SeenPairs;
use pair_reader::given;
use std::alloc::Global;
use store_dev::StoreDevice;

impl<S: StoreDevice> Store<S> {
    ghost use Rattle.artifact_store.specs.Pairs.{told_as};
    ghost use Rattle.pair_index.specs.Costs.{cost_at};
    ghost use Rattle.pair_index.specs.Seen.{is_seen, seen_pairs};
    ghost use Rattle.artifact_store.specs.Store.{device_of, frames_of, state_of, moment_of, left_of, cost_of, cost_seen, reads_seen, stands, shows, OnlyReadsStore};

    /// `lookup` among the pairs that are seen alone. It reads none of the others.
    pub fn lookup_seen(
        &mut self,
        alloc: Global,
        key: Key,
        outs: &OutSet,
        seen: &SeenPairs,
    ) -> Result<Option<Hit>, CacheErr>
        requires { IsTrue (state_of self.old).whole }
        ensures found { S.tells → IfOk result (λ o. found_as (shows self.new) o
            ≡ found artifact_in (key_text key.entry) outs.now
            (seen_pairs seen.now (state_of self.old).pairs)) }
        ensures stands { IfOk result (λ o. IfSome o (stands self.new)) }
        ensures fits { IfOk result (λ o. IfSome o (λ hit.
            IsTrue (paths_ascend hit) × IsTrue (owns_paths outs.now hit))) }
        ensures side { IfOk result (λ o. IfSome o (λ hit. hit.side ≡ 0)) }
        ensures probes { S.tells → (state_of self.new).probes
            ≤ (state_of self.old).probes + cost_seen self.old seen.now (key_text key.entry) }
        ensures few { S.tells → (state_of self.new).probes
            ≤ (state_of self.old).probes + reads_seen self.old seen.now (key_text key.entry) }
        ensures spans { S.tells → IfOk result (λ o. IfSome o (λ hit.
            (state_of self.new).probes + span_count hit
            ≤ (state_of self.old).probes + cost_seen self.old seen.now (key_text key.entry))) }
        ensures store { OnlyReadsStore self.old self.new }
        ensures images { OnlyReads S.content S.images S.moment S.images_since
            (device_of self.old) (device_of self.new) }
        ensures reads { CacheReads S.tells state_of cost_of stands shows moment_of left_of told_as
            self.old self.new }
        ensures whole { StaysWhole result (state_of self.old).whole (state_of self.new).whole }
        ensures answers { IfErr result IsFindErr }
        ensures cause { Counts is_fault (state_of self.old).faults
            (state_of self.new).faults result }
    {
        self.search(alloc, &key, outs, seen)
    }

    /// Where the artifact stands that the last pair with that key gives which gives one, of the
    /// pairs that are seen. It goes from the last pair that may have the key to the first, and
    /// reads no other and none that is not seen.
    fn search(
        &mut self,
        alloc: Global,
        key: &Key,
        outs: &OutSet,
        seen: &SeenPairs,
    ) -> Result<Option<Hit>, CacheErr>
        requires { IsTrue (state_of self.old).whole }
        ensures found { S.tells → IfOk result (λ o.
            found_as (shown_in (text_of (frames_of self.old))) o
            ≡ found artifact_in (key_text key.now) outs.now
            (seen_pairs seen.now (state_of self.old).pairs)) }
        ensures within { S.tells → IfOk result (λ o.
            IfSome o (HitIsWithin (text_of (frames_of self.old)))) }
        ensures fits { IfOk result (λ o. IfSome o (λ hit.
            IsTrue (paths_ascend hit) × IsTrue (owns_paths outs.now hit))) }
        ensures side { IfOk result (λ o. IfSome o (λ hit. hit.side ≡ 0)) }
        ensures few { S.tells → ReadsAtMost (reads_seen self.old seen.now (key_text key.now))
            self.old.log self.new.log }
        ensures most { S.tells → ReadsAtMost (cost_seen self.old seen.now (key_text key.now))
            self.old.log self.new.log }
        ensures cost { S.tells → IfOk result (λ o. probes_of self.new.log + places_of o
            ≤ probes_of self.old.log + cost_seen self.old seen.now (key_text key.now)) }
        ensures reads { OnlyReadsStore self.old self.new }
        ensures answers { IfErr result IsFindErr }
        ensures cause { Counts is_fault (state_of self.old).faults
            (state_of self.new).faults result }
    {
        let by_print = self.index.keys.seeks_print(key.text());
        let mut last = self.index.keys.last(by_print, key);
        while let Some(at) = last {
            let number = self.index.keys.number(by_print, at);
            if let Some(hit) = self.given_if_seen(alloc, number, key.text(), outs, seen)? {
                return Ok(Some(hit));
            }
            last = self.index.keys.before(by_print, key, at);
        }
        Ok(None)
    }

    /// What the pair with that number gives to a task with this key and these outputs, and nothing
    /// where it is not seen.
    fn given_if_seen(
        &mut self,
        alloc: Global,
        number: u64,
        key: &[u8],
        outs: &OutSet,
        seen: &SeenPairs,
    ) -> Result<Option<Hit>, CacheErr>
        requires { IsTrue (state_of self.old).whole }
        ensures given { S.tells → number < length (state_of self.old).pairs → IfOk result (λ o.
            found_as (shown_in (text_of (frames_of self.old))) o
            ≡ (if is_seen seen.now number then gives artifact_in key.now outs.now
            (get_or (state_of self.old).pairs number ([], [])) else None)) }
        ensures within { S.tells → IfOk result (λ o.
            IfSome o (HitIsWithin (text_of (frames_of self.old)))) }
        ensures fits { IfOk result (λ o. IfSome o (λ hit.
            IsTrue (paths_ascend hit) × IsTrue (owns_paths outs.now hit))) }
        ensures side { IfOk result (λ o. IfSome o (λ hit. hit.side ≡ 0)) }
        ensures few { S.tells → number < length (state_of self.old).pairs → ReadsAtMost
            (if is_seen seen.now number then cost_at frame_reads (frames_of self.old) number else 0)
            self.old.log self.new.log }
        ensures most { S.tells → number < length (state_of self.old).pairs → ReadsAtMost
            (if is_seen seen.now number then cost_at frame_cost (frames_of self.old) number else 0)
            self.old.log self.new.log }
        ensures cost { S.tells → number < length (state_of self.old).pairs → IfOk result (λ o.
            probes_of self.new.log + places_of o ≤ probes_of self.old.log
            + (if is_seen seen.now number then cost_at frame_cost (frames_of self.old) number
            else 0)) }
        ensures reads { OnlyReadsStore self.old self.new }
        ensures answers { IfErr result IsFindErr }
        ensures cause { Counts is_fault (state_of self.old).faults
            (state_of self.new).faults result }
    {
        if !seen.holds(number) {
            return Ok(None);
        }
        self.given_by(alloc, number, key, outs)
    }

    /// What the pair with that number gives to a task with this key and these outputs.
    fn given_by(
        &mut self,
        alloc: Global,
        number: u64,
        key: &[u8],
        outs: &OutSet,
    ) -> Result<Option<Hit>, CacheErr>
        requires { IsTrue (state_of self.old).whole }
        ensures given { S.tells → number < length (state_of self.old).pairs → IfOk result (λ o.
            found_as (shown_in (text_of (frames_of self.old))) o
            ≡ gives artifact_in key.now outs.now
            (get_or (state_of self.old).pairs number ([], []))) }
        ensures within { S.tells → IfOk result (λ o.
            IfSome o (HitIsWithin (text_of (frames_of self.old)))) }
        ensures fits { IfOk result (λ o. IfSome o (λ hit.
            IsTrue (paths_ascend hit) × IsTrue (owns_paths outs.now hit))) }
        ensures side { IfOk result (λ o. IfSome o (λ hit. hit.side ≡ 0)) }
        ensures few { S.tells → number < length (state_of self.old).pairs
            → ReadsAtMost (cost_at frame_reads (frames_of self.old) number)
            self.old.log self.new.log }
        ensures most { S.tells → number < length (state_of self.old).pairs
            → ReadsAtMost (cost_at frame_cost (frames_of self.old) number)
            self.old.log self.new.log }
        ensures cost { S.tells → number < length (state_of self.old).pairs → IfOk result (λ o.
            probes_of self.new.log + places_of o
            ≤ probes_of self.old.log + cost_at frame_cost (frames_of self.old) number) }
        ensures reads { OnlyReadsStore self.old self.new }
        ensures answers { IfErr result IsFindErr }
        ensures cause { Counts is_fault (state_of self.old).faults
            (state_of self.new).faults result }
    {
        let Some(frame) = self.index.frame(number) else {
            return Ok(None);
        };
        given(alloc, &self.pool, &mut self.log, frame, key, outs)
    }
}
