// A shared file as a cache of one run.
ghost use Rattle.std.specs.Prelude.{◌≡◌, ◌+◌, ◌<◌, ◌≤◌, ◌++◌, false, List, length, IsTrue};
ghost use Rattle.std.specs.Prelude.{IfOk, IfErr, IfSome, OnOk, OnErr};
ghost use Rattle.rel_path.specs.Causes.{Counts};
ghost use Rattle.codes.specs.Views.{found_as};
ghost use Rattle.cache_api.specs.Cache.{CacheReads, Keeps, HitsStay, StaysWhole, AllAfter, ArePut};
ghost use Rattle.cache_api.specs.Cache.{AllLast, AreToPut, is_fault, IsFindErr};
ghost use Rattle.cache_api.specs.Found.{found};
ghost use Rattle.cache_api.specs.Hits.{paths_ascend, owns_paths, span_count, file_spans, bytes_at};
ghost use Rattle.cache_api.specs.Keys.{text_of as key_text, new_pairs};
ghost use Rattle.cache_api.specs.Moments.{Leaves};
ghost use Rattle.cache_api.specs.Pairs.{chosen, IsPartSince};
ghost use Rattle.cache_api.specs.Reading.{artifact_in};
ghost use Rattle.record_log.specs.Frames.{text_of};

use crate::own::{stored, with_own};
use crate::{Shared, SharedStore};
use cache_api::{Cache, CacheErr, Hit, Key, NewPair, Puts};
use globs::OutSet;
use rel_path::Bytes;
use std::alloc::Global;
use store_dev::StoreDevice;

impl<H: Shared> Cache for SharedStore<H> {
    ghost use Rattle.cache_api.specs.Pairs.{Pair};
    ghost use Rattle.artifact_store.specs.Hits.{shown_paths};
    ghost use Rattle.shared_runs.specs.Shared.{frames_in, state_of, cost_of, stands, shows, stores};
    ghost use Rattle.shared_runs.specs.Shared.{Image as left_image, moment_of, left_of, said};
    ghost use Rattle.shared_runs.specs.Passing.{LeavesFirst};
    ghost use Rattle.shared_runs.specs.Passes.{LeavesPut};
    ghost use Rattle.shared_runs.specs.SharedLaws.{rests, all_last, none_sure, are_to_put};
    ghost use Rattle.shared_runs.specs.Steps.{Looks, Reads, Adds};

    ghost tells = { H.Device.tells };

    ghost Base = { H.Device.tells → List Pair };

    ghost state = { λ s. state_of s };

    ghost cost = { λ s key. cost_of s key };

    ghost stands = { λ s hit. stands s hit };

    ghost shows = { λ s hit. shows s hit };

    ghost stores = { λ s pairs. stores s pairs };

    ghost moment = { λ s. moment_of s };

    ghost Image = { left_image };

    ghost left = { λ s m image. left_of s m image };

    ghost says = { λ base image. said base image };

    ghost paths = { λ s hit told stood. shown_paths (text_of (frames_in s)) hit };

    ghost within = { λ s told. all_last s };

    ghost spare = { λ s told. none_sure s };

    ghost to_put = { λ s pairs told whole. are_to_put s pairs };

    ghost at_rest = { λ s image told whole left.
        rests s (λ c now. H.only_now s.turns.shared c now) image told whole left };

    fn lookup_keyed(
        &mut self,
        alloc: Global,
        key: Key,
        outs: &OutSet,
    ) -> Result<Option<Hit>, CacheErr>
        requires { IsTrue (state_of self.old).whole }
        ensures found { H.Device.tells → IfOk result (λ o. found_as (shows self.new) o
            ≡ found artifact_in (key_text key.entry) outs.now (state_of self.old).pairs) }
        ensures stands { IfOk result (λ o. IfSome o (stands self.new)) }
        ensures fits { IfOk result (λ o. IfSome o (λ hit.
            IsTrue (paths_ascend hit) × IsTrue (owns_paths outs.now hit))) }
        ensures probes { H.Device.tells → (state_of self.new).probes
            ≤ (state_of self.old).probes + cost_of self.old (key_text key.entry) }
        ensures spans { H.Device.tells → IfOk result (λ o. IfSome o (λ hit.
            (state_of self.new).probes + span_count hit
            ≤ (state_of self.old).probes + cost_of self.old (key_text key.entry))) }
        ensures reads { CacheReads H.Device.tells state_of cost_of stands shows moment_of
            left_of said self.old self.new }
        // Each image since, and the file, hold the frames that the file had and the first of those
        // that were to come.
        ensures images { H.Device.tells
            → LeavesFirst H.Shared self.old.turns.shared self.new.turns.shared }
        ensures steps { H.Device.tells
            → Looks self.old self.new (key_text key.entry) outs.now result }
        ensures whole { StaysWhole result (state_of self.old).whole (state_of self.new).whole }
        ensures dropped { OnErr result ((state_of self.new).whole ≡ false) }
        ensures answers { IfErr result IsFindErr }
        ensures cause { Counts is_fault (state_of self.old).faults
            (state_of self.new).faults result }
    {
        self.turns.look(alloc, key, outs, &self.seen)
    }

    fn hit_log(&mut self, alloc: Global, hit: &Hit) -> Result<Bytes, CacheErr>
        requires whole { IsTrue (state_of self.old).whole }
        requires stands { stands self.old hit.now }
        ensures log { H.Device.tells → IfOk result (λ log. log ≡ (shows self.old hit.now).0) }
        ensures probes { (state_of self.new).probes
            ≤ (state_of self.old).probes + length hit.now.log }
        ensures reads { CacheReads H.Device.tells state_of cost_of stands shows moment_of
            left_of said self.old self.new }
        // Each image since, and the file, hold the frames that the file had and the first of those
        // that were to come.
        ensures images { H.Device.tells
            → LeavesFirst H.Shared self.old.turns.shared self.new.turns.shared }
        ensures steps { H.Device.tells → Reads self.old self.new result }
        ensures whole { StaysWhole result (state_of self.old).whole (state_of self.new).whole }
        ensures dropped { OnErr result ((state_of self.new).whole ≡ false) }
        ensures answers { IfErr result IsFindErr }
        ensures cause { Counts is_fault (state_of self.old).faults
            (state_of self.new).faults result }
    {
        self.turns.read(alloc, hit.log.as_slice())
    }

    fn hit_file(&mut self, alloc: Global, hit: &Hit, index: u32) -> Result<Bytes, CacheErr>
        requires whole { IsTrue (state_of self.old).whole }
        requires stands { stands self.old hit.now }
        requires index { index < length hit.now.files }
        ensures file { H.Device.tells
            → IfOk result (λ bytes. bytes ≡ bytes_at (shows self.old hit.now) index) }
        ensures probes { (state_of self.new).probes
            ≤ (state_of self.old).probes + file_spans hit.now index }
        ensures reads { CacheReads H.Device.tells state_of cost_of stands shows moment_of
            left_of said self.old self.new }
        // Each image since, and the file, hold the frames that the file had and the first of those
        // that were to come.
        ensures images { H.Device.tells
            → LeavesFirst H.Shared self.old.turns.shared self.new.turns.shared }
        ensures steps { H.Device.tells → Reads self.old self.new result }
        ensures whole { StaysWhole result (state_of self.old).whole (state_of self.new).whole }
        ensures dropped { OnErr result ((state_of self.new).whole ≡ false) }
        ensures answers { IfErr result IsFindErr }
        ensures cause { Counts is_fault (state_of self.old).faults
            (state_of self.new).faults result }
    {
        let file = &hit.files.as_slice()[index as usize];
        self.turns.read(alloc, file.spans.as_slice())
    }

    /// One append behind the frames that others appended before the turn. After an error the pairs
    /// are as before, whatever the file then holds of the new ones, and no further turn is taken.
    fn put_all(&mut self, alloc: Global, pairs: &[NewPair]) -> Result<Puts, CacheErr>
        requires { IsTrue (state_of self.old).whole }
        ensures outcome { H.Device.tells
            → IfOk result (λ puts. puts ≡ stores self.old (new_pairs pairs.now)) }
        ensures put { IfOk result (λ puts.
            ArePut (state_of self.new).room (new_pairs pairs.now) puts) }
        ensures pairs { H.Device.tells → AllAfter result (state_of self.old).lasting
            (state_of self.old).pairs
            (chosen (new_pairs pairs.now) (stores self.old (new_pairs pairs.now)))
            (state_of self.new).pairs }
        ensures lasts { H.Device.tells → OnOk result (AllLast (state_of self.new)) }
        // whatever it answers
        ensures lasting { H.Device.tells
            → (state_of self.old).lasting ≤ (state_of self.new).lasting }
        ensures full { H.Device.tells → AreToPut (state_of self.old) (new_pairs pairs.now)
            (stores self.old (new_pairs pairs.now)) }
        ensures left { H.Device.tells → Leaves moment_of left_of self.old self.new
            (λ image. IsPartSince (state_of self.old).lasting ((state_of self.old).pairs
            ++ chosen (new_pairs pairs.now) (stores self.old (new_pairs pairs.now)))
            (said (state_of self.old).base image)) }
        // Each image since, and the file, hold the frames that the file had and the first of those
        // that were to come, or all of these and the frames of the pairs.
        ensures images { H.Device.tells → LeavesPut H.Shared (new_pairs pairs.now)
            self.old.turns.shared self.new.turns.shared }
        ensures steps { H.Device.tells → Adds self.old self.new
            (chosen (new_pairs pairs.now) (stores self.old (new_pairs pairs.now))) result }
        ensures hits { HitsStay H.Device.tells stands shows self.old self.new }
        ensures keeps { Keeps (state_of self.old) (state_of self.new) }
        ensures whole { StaysWhole result (state_of self.old).whole (state_of self.new).whole }
        ensures dropped { OnErr result ((state_of self.new).whole ≡ false) }
        ensures answers { IfErr result IsFindErr }
        ensures cause { Counts is_fault (state_of self.old).faults
            (state_of self.new).faults result }
    {
        let puts = self.turns.put(alloc, pairs)?;
        let from = self.turns.count.max(self.next);
        match with_own(alloc, &self.seen.own, from, stored(puts.as_slice())) {
            Ok((own, next)) => {
                self.seen.own = own;
                self.next = next;
                Ok(puts)
            }
            // The file has the pairs and the run does not see them.
            Err(fault) => {
                self.turns.mark = None;
                Err(fault)
            }
        }
    }

    /// Nothing is ever due.
    fn settle(&mut self, _alloc: Global) -> Result<(), CacheErr> {
        Ok(())
    }

    /// The same.
    fn is_due(&self, _key: &Key) -> bool {
        false
    }

    fn is_whole(&self) -> bool {
        self.turns.mark.is_some()
    }

    /// None: others may take it at any moment.
    fn room(&self) -> u64 {
        0
    }
}
