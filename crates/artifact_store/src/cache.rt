// A store as a cache.
ghost use Rattle.std.specs.Prelude.{◌≡◌, ◌⊎◌, ◌+◌, ◌≤◌, ◌++◌, List, ℕ, length, IsTrue, IfOk, IfErr, IfSome, OnOk};
ghost use Rattle.rel_path.specs.Causes.{Counts};
ghost use Rattle.codes.specs.Views.{found_as};
ghost use Rattle.store_dev.specs.Device.{LeavesOnly, OnlyReads};
ghost use Rattle.cache_api.specs.Cache.{CacheReads, Keeps, HitsStay, StaysWhole, AllLast, AllAfter, ArePut, AreToPut, is_fault, IsFindErr};
ghost use Rattle.cache_api.specs.Found.{found};
ghost use Rattle.cache_api.specs.Hits.{paths_ascend, owns_paths, span_count};
ghost use Rattle.cache_api.specs.Keys.{text_of as key_text, new_pairs};
ghost use Rattle.cache_api.specs.Moments.{Leaves};
ghost use Rattle.cache_api.specs.Pairs.{chosen, IsPartSince};
ghost use Rattle.cache_api.specs.Reading.{artifact_in};
ghost use Rattle.record_log.specs.Batch.{IsBeforeOrAll};
ghost use Rattle.pair_frames.specs.Puts.{added};
ghost use Rattle.artifact_reader.specs.Parts.{shown};
ghost use Rattle.record_log.specs.Frames.{text_of};
ghost use Rattle.pair_reader.specs.Answers.{AllWithin};

use crate::Store;
use crate::hits::read_spans;
use cache_api::{Cache, CacheErr, Hit, Key, NewPair, Puts};
use globs::OutSet;
use pair_index::{Numbers, SeenPairs};
use rel_path::{Bytes, Span};
use std::alloc::Global;
use store_dev::StoreDevice;

impl<S: StoreDevice> Store<S> {
    ghost use Rattle.artifact_store.specs.Store.{frames_of, state_of, OnlyReadsStore};

    /// The bytes at these places of the text of its frames, one behind the other.
    pub fn read_at(&mut self, alloc: Global, spans: &[Span]) -> Result<Bytes, CacheErr>
        requires { S.tells → AllWithin (text_of (frames_of self.old)) spans.now }
        ensures bytes { S.tells
            → IfOk result (λ bytes. bytes ≡ shown (text_of (frames_of self.old)) spans.now) }
        ensures few { (state_of self.new).probes ≤ (state_of self.old).probes + length spans.now }
        ensures reads { OnlyReadsStore self.old self.new }
        ensures answers { IfErr result IsFindErr }
        ensures cause { Counts is_fault (state_of self.old).faults
            (state_of self.new).faults result }
    {
        read_spans(alloc, &mut self.log, spans)
    }
}

impl<S: StoreDevice> Cache for Store<S> {
    ghost use Rattle.artifact_store.specs.Pairs.{told_as};
    ghost use Rattle.artifact_store.specs.Store.{device_of, frames_of, lengths_of, state_of, moment_of, left_of, cost_of, reads_of, stands, shows, stores};
    ghost use Rattle.artifact_store.specs.Laws.{all_told, no_more};
    ghost use Rattle.artifact_store.specs.Fits.{are_to_put};
    ghost use Rattle.artifact_store.specs.Hits.{shown_paths};

    ghost tells = { S.tells };

    ghost Base = { ℕ };

    ghost state = { λ s. state_of s };

    ghost cost = { λ s key. cost_of s key };

    ghost stands = { λ s hit. stands s hit };

    ghost shows = { λ s hit. shows s hit };

    ghost stores = { λ s pairs. stores s pairs };

    ghost moment = { λ s. moment_of s };

    ghost Image = { List ℕ };

    ghost left = { λ s m image. left_of s m image };

    ghost says = { λ generation image. told_as generation image };

    ghost paths = { λ s hit told stood. shown_paths (text_of (frames_of s)) hit };

    ghost within = { λ s told. no_more (length (state_of s).pairs) };

    ghost spare = { λ s told. no_more (state_of s).room };

    ghost to_put = { λ s pairs told whole. are_to_put s pairs };

    ghost at_rest = { λ s image told whole left.
        all_told (s.log.kept whole told) s.generation (s.same whole told) image
        (S.only_now (device_of s) image left) };

    /// It goes from the last pair that may have the key to the first, and of a pair it reads the record, and contents to
    /// compare keys. The device is only read.
    fn lookup_keyed(
        &mut self,
        alloc: Global,
        key: Key,
        outs: &OutSet,
    ) -> Result<Option<Hit>, CacheErr>
        requires { IsTrue (state_of self.old).whole }
        ensures found { S.tells → IfOk result (λ o. found_as (shows self.new) o
            ≡ found artifact_in (key_text key.entry) outs.now (state_of self.old).pairs) }
        ensures stands { IfOk result (λ o. IfSome o (stands self.new)) }
        ensures fits { IfOk result (λ o. IfSome o (λ hit.
            IsTrue (paths_ascend hit) × IsTrue (owns_paths outs.now hit))) }
        ensures side { IfOk result (λ o. IfSome o (λ hit. hit.side ≡ 0)) }
        ensures probes { S.tells → (state_of self.new).probes
            ≤ (state_of self.old).probes + cost_of self.old (key_text key.entry) }
        ensures few { S.tells → (state_of self.new).probes
            ≤ (state_of self.old).probes + reads_of self.old (key_text key.entry) }
        ensures spans { S.tells → IfOk result (λ o. IfSome o (λ hit.
            (state_of self.new).probes + span_count hit
            ≤ (state_of self.old).probes + cost_of self.old (key_text key.entry))) }
        ensures images { OnlyReads S.content S.images S.moment S.images_since
            (device_of self.old) (device_of self.new) }
        ensures reads { CacheReads S.tells state_of cost_of stands shows moment_of left_of told_as
            self.old self.new }
        ensures whole { StaysWhole result (state_of self.old).whole (state_of self.new).whole }
        ensures answers { IfErr result IsFindErr }
        ensures cause { Counts is_fault (state_of self.old).faults
            (state_of self.new).faults result }
    {
        let all = SeenPairs {
            first: self.count(),
            own: Numbers::new(alloc),
        };
        self.lookup_seen(alloc, key, outs, &all)
    }

    fn hit_log(&mut self, alloc: Global, hit: &Hit) -> Result<Bytes, CacheErr> {
        self.read_at(alloc, hit.log.as_slice())
    }

    fn hit_file(&mut self, alloc: Global, hit: &Hit, index: u32) -> Result<Bytes, CacheErr> {
        let file = &hit.files.as_slice()[index as usize];
        self.read_at(alloc, file.spans.as_slice())
    }

    /// One append, and nothing is written where nothing fits: the disk is waited for twice, whatever it holds.
    fn put_all(&mut self, alloc: Global, pairs: &[NewPair]) -> Result<Puts, CacheErr>
        requires { IsTrue (state_of self.old).whole }
        ensures outcome { S.tells
            → IfOk result (λ puts. puts ≡ stores self.old (new_pairs pairs.now)) }
        ensures put { IfOk result (λ puts.
            ArePut (state_of self.new).room (new_pairs pairs.now) puts) }
        ensures frames { S.tells → OnOk result (frames_of self.new ≡ frames_of self.old
            ++ added (state_of self.old).room (frames_of self.old) (new_pairs pairs.now)) }
        // Whatever it answers, the frames are those before, or these and all the new ones.
        ensures after { S.tells → (frames_of self.new ≡ frames_of self.old)
            ⊎ (frames_of self.new ≡ frames_of self.old
            ++ added (state_of self.old).room (frames_of self.old) (new_pairs pairs.now)) }
        ensures images { S.tells
            → LeavesOnly S.moment S.images_since (device_of self.old) (device_of self.new)
            (IsBeforeOrAll (frames_of self.old)
            (added (state_of self.old).room (frames_of self.old) (new_pairs pairs.now))) }
        ensures foresees { lengths_of self.new ≡ lengths_of self.old }
        ensures pairs { S.tells → AllAfter result (state_of self.old).lasting
            (state_of self.old).pairs
            (chosen (new_pairs pairs.now) (stores self.old (new_pairs pairs.now)))
            (state_of self.new).pairs }
        ensures lasts { S.tells → OnOk result (AllLast (state_of self.new)) }
        ensures lasting { S.tells → (state_of self.old).lasting ≤ (state_of self.new).lasting }
        ensures full { S.tells → AreToPut (state_of self.old) (new_pairs pairs.now)
            (stores self.old (new_pairs pairs.now)) }
        ensures left { S.tells → Leaves moment_of left_of self.old self.new
            (λ image. IsPartSince (state_of self.old).lasting ((state_of self.old).pairs
            ++ chosen (new_pairs pairs.now) (stores self.old (new_pairs pairs.now)))
            (told_as (state_of self.old).base image)) }
        ensures hits { HitsStay S.tells stands shows self.old self.new }
        ensures keeps { Keeps (state_of self.old) (state_of self.new) }
        ensures whole { StaysWhole result (state_of self.old).whole (state_of self.new).whole }
        ensures answers { IfErr result IsFindErr }
        ensures cause { Counts is_fault (state_of self.old).faults
            (state_of self.new).faults result }
    {
        let (staged, puts) = self.stage(alloc, pairs)?;
        self.add(alloc, &staged, pairs, puts.as_slice())?;
        Ok(puts)
    }

    /// Nothing is ever due.
    fn settle(&mut self, _alloc: Global) -> Result<(), CacheErr> {
        Ok(())
    }

    /// The same.
    fn is_due(&self, _key: &Key) -> bool {
        false
    }

    fn is_whole(&self) -> bool {
        self.whole()
    }

    fn room(&self) -> u64 {
        self.free()
    }
}
