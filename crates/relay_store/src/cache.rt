// A relay as a cache.
ghost use Rattle.std.specs.Prelude.{◌≡◌, ◌+◌, ◌<◌, ◌≤◌, ◌++◌, true, false, length, IsTrue, IfOk};
ghost use Rattle.std.specs.Prelude.{IfErr, IfSome, OnOk};
ghost use Rattle.rel_path.specs.Causes.{Counts};
ghost use Rattle.codes.specs.Views.{found_as};
ghost use Rattle.cache_api.specs.Cache.{CacheReads, Keeps, HitsStay, StaysWhole, AllAfter, ArePut};
ghost use Rattle.cache_api.specs.Cache.{AllLast, AreToPut, is_fault, IsFindErr};
ghost use Rattle.cache_api.specs.Found.{found};
ghost use Rattle.cache_api.specs.Hits.{paths_ascend, owns_paths, span_count, file_spans, bytes_at};
ghost use Rattle.cache_api.specs.Keys.{text_of as key_text, new_pairs};
ghost use Rattle.cache_api.specs.Moments.{Leaves};
ghost use Rattle.cache_api.specs.Pairs.{chosen, IsPartSince};
ghost use Rattle.cache_api.specs.Reading.{artifact_in};

use crate::look::look_up;
use crate::{LOCAL, Relay, SECOND};
use cache_api::{Cache, CacheErr, Hit, Key, NewPair, Puts};
use globs::OutSet;
use rel_path::Bytes;
use std::alloc::Global;
use store_dev::StoreDevice;

impl<S: StoreDevice, R: StoreDevice> Cache for Relay<S, R> {
    ghost use Rattle.relay_store.specs.Relays.{RelayBase, Image, state_of, cost_of, stands, shows};
    ghost use Rattle.relay_store.specs.Relays.{stores, stores_of, moment_of, left_of, says};
    ghost use Rattle.relay_store.specs.Rests.{paths_shown, all_rest, no_more};
    ghost use Rattle.relay_store.specs.Rooms.{are_to_put};
    ghost use Rattle.relay_store.specs.Stores.{state_in, shows_in};
    ghost use Rattle.relay_store.specs.Devices.{IsOnlyRead, IsFound, HasPut, access_of};

    ghost tells = { S.tells × R.tells };

    ghost Base = { RelayBase S.tells R.tells };

    ghost state = { λ r. state_of r };

    ghost cost = { λ r key. cost_of r key };

    ghost stands = { λ r hit. stands r hit };

    ghost shows = { λ r hit. shows r hit };

    ghost stores = { λ r pairs. stores r pairs };

    ghost moment = { λ r. moment_of r };

    ghost Image = { Image S.tells R.tells };

    ghost left = { λ r m image. left_of r m image };

    ghost says = { λ base image. says base image };

    ghost paths = { λ r hit told stood. paths_shown r hit told stood };

    ghost within = { λ r told. no_more (length (state_of r).pairs) };

    ghost spare = { λ r told. no_more (state_of r).room };

    ghost to_put = { λ r pairs told whole. are_to_put r pairs };

    ghost at_rest = { λ r image told whole left.
        all_rest S.only_now R.only_now r image told whole left };

    /// The store is asked first whose pairs stand last, and the other one where it has none for
    /// the key. Where the device of one store alone tells, a hit in it is what its pairs give, and
    /// where nothing is found they give nothing.
    fn lookup_keyed(
        &mut self,
        alloc: Global,
        key: Key,
        outs: &OutSet,
    ) -> Result<Option<Hit>, CacheErr>
        requires { IsTrue (state_of self.old).whole }
        ensures found { S.tells × R.tells → IfOk result (λ o. found_as (shows self.new) o
            ≡ found artifact_in (key_text key.entry) outs.now (state_of self.old).pairs) }
        ensures stands { IfOk result (λ o. IfSome o (stands self.new)) }
        ensures fits { IfOk result (λ o. IfSome o (λ hit.
            IsTrue (paths_ascend hit) × IsTrue (owns_paths outs.now hit))) }
        ensures probes { S.tells × R.tells → (state_of self.new).probes
            ≤ (state_of self.old).probes + cost_of self.old (key_text key.entry) }
        ensures spans { S.tells × R.tells → IfOk result (λ o. IfSome o (λ hit.
            (state_of self.new).probes + span_count hit
            ≤ (state_of self.old).probes + cost_of self.old (key_text key.entry))) }
        ensures reads { CacheReads (S.tells × R.tells) state_of cost_of stands shows moment_of
            left_of says self.old self.new }
        // of each store, where its device alone tells
        ensures local { IsOnlyRead (stores_of self.old).0 (stores_of self.new).0 }
        ensures second { IsOnlyRead (stores_of self.old).1 (stores_of self.new).1 }
        ensures local_found { S.tells → IfOk result (IsFound LOCAL
            ((access_of self.old).local_puts ≡ true) (shows_in (stores_of self.new).0)
            (found artifact_in (key_text key.entry) outs.now
            (state_in (stores_of self.old).0).pairs)) }
        ensures second_found { R.tells → IfOk result (IsFound SECOND
            ((access_of self.old).local_puts ≡ false) (shows_in (stores_of self.new).1)
            (found artifact_in (key_text key.entry) outs.now
            (state_in (stores_of self.old).1).pairs)) }
        ensures whole { StaysWhole result (state_of self.old).whole (state_of self.new).whole }
        ensures answers { IfErr result IsFindErr }
        ensures cause { Counts is_fault (state_of self.old).faults
            (state_of self.new).faults result }
    {
        if self.access.local_puts {
            look_up(
                alloc,
                key,
                outs,
                &mut self.local,
                LOCAL,
                &mut self.second,
                SECOND,
            )
        } else {
            look_up(
                alloc,
                key,
                outs,
                &mut self.second,
                SECOND,
                &mut self.local,
                LOCAL,
            )
        }
    }

    /// The store that has the hit is read, and its device alone need tell.
    fn hit_log(&mut self, alloc: Global, hit: &Hit) -> Result<Bytes, CacheErr>
        requires whole { IsTrue (state_of self.old).whole }
        requires stands { stands self.old hit.now }
        ensures log { S.tells × R.tells
            → IfOk result (λ log. log ≡ (shows self.old hit.now).0) }
        ensures probes { (state_of self.new).probes
            ≤ (state_of self.old).probes + length hit.now.log }
        ensures reads { CacheReads (S.tells × R.tells) state_of cost_of stands shows moment_of
            left_of says self.old self.new }
        // of each store, where its device alone tells
        ensures local { IsOnlyRead (stores_of self.old).0 (stores_of self.new).0 }
        ensures second { IsOnlyRead (stores_of self.old).1 (stores_of self.new).1 }
        ensures local_log { S.tells → hit.now.side ≡ LOCAL
            → IfOk result (λ log. log ≡ (shows_in (stores_of self.old).0 hit.now).0) }
        ensures second_log { R.tells → hit.now.side ≡ SECOND
            → IfOk result (λ log. log ≡ (shows_in (stores_of self.old).1 hit.now).0) }
        ensures whole { StaysWhole result (state_of self.old).whole (state_of self.new).whole }
        ensures answers { IfErr result IsFindErr }
        ensures cause { Counts is_fault (state_of self.old).faults
            (state_of self.new).faults result }
    {
        if hit.side == LOCAL {
            self.local.hit_log(alloc, hit)
        } else {
            self.second.hit_log(alloc, hit)
        }
    }

    /// The same.
    fn hit_file(&mut self, alloc: Global, hit: &Hit, index: u32) -> Result<Bytes, CacheErr>
        requires whole { IsTrue (state_of self.old).whole }
        requires stands { stands self.old hit.now }
        requires index { index < length hit.now.files }
        ensures file { S.tells × R.tells
            → IfOk result (λ bytes. bytes ≡ bytes_at (shows self.old hit.now) index) }
        ensures probes { (state_of self.new).probes
            ≤ (state_of self.old).probes + file_spans hit.now index }
        ensures reads { CacheReads (S.tells × R.tells) state_of cost_of stands shows moment_of
            left_of says self.old self.new }
        // of each store, where its device alone tells
        ensures local { IsOnlyRead (stores_of self.old).0 (stores_of self.new).0 }
        ensures second { IsOnlyRead (stores_of self.old).1 (stores_of self.new).1 }
        ensures local_file { S.tells → hit.now.side ≡ LOCAL → IfOk result (λ bytes.
            bytes ≡ bytes_at (shows_in (stores_of self.old).0 hit.now) index) }
        ensures second_file { R.tells → hit.now.side ≡ SECOND → IfOk result (λ bytes.
            bytes ≡ bytes_at (shows_in (stores_of self.old).1 hit.now) index) }
        ensures whole { StaysWhole result (state_of self.old).whole (state_of self.new).whole }
        ensures answers { IfErr result IsFindErr }
        ensures cause { Counts is_fault (state_of self.old).faults
            (state_of self.new).faults result }
    {
        if hit.side == LOCAL {
            self.local.hit_file(alloc, hit, index)
        } else {
            self.second.hit_file(alloc, hit, index)
        }
    }

    /// Where there is ample room for all pairs, they are put into each store at once. Else each
    /// is put for itself, where there is room for it. Of pairs that are put for themselves, each
    /// is in both stores before the next one is. Where the device of one store alone tells, the
    /// store and each image of the device have its pairs and the first of those that both were
    /// given.
    fn put_all(&mut self, alloc: Global, pairs: &[NewPair]) -> Result<Puts, CacheErr>
        requires { IsTrue (state_of self.old).whole }
        ensures outcome { S.tells × R.tells
            → IfOk result (λ puts. puts ≡ stores self.old (new_pairs pairs.now)) }
        ensures put { IfOk result (λ puts.
            ArePut (state_of self.new).room (new_pairs pairs.now) puts) }
        ensures pairs { S.tells × R.tells → AllAfter result (state_of self.old).lasting
            (state_of self.old).pairs
            (chosen (new_pairs pairs.now) (stores self.old (new_pairs pairs.now)))
            (state_of self.new).pairs }
        ensures lasts { S.tells × R.tells → OnOk result (AllLast (state_of self.new)) }
        // whatever it answers
        ensures lasting { S.tells × R.tells
            → (state_of self.old).lasting ≤ (state_of self.new).lasting }
        ensures full { S.tells × R.tells → AreToPut (state_of self.old) (new_pairs pairs.now)
            (stores self.old (new_pairs pairs.now)) }
        ensures left { S.tells × R.tells → Leaves moment_of left_of self.old self.new
            (λ image. IsPartSince (state_of self.old).lasting ((state_of self.old).pairs
            ++ chosen (new_pairs pairs.now) (stores self.old (new_pairs pairs.now)))
            (says (state_of self.old).base image)) }
        // of each store, where its device alone tells
        ensures devices { HasPut self.old (stores_of self.new) (new_pairs pairs.now) result }
        ensures hits { HitsStay (S.tells × R.tells) stands shows self.old self.new }
        ensures keeps { Keeps (state_of self.old) (state_of self.new) }
        ensures whole { StaysWhole result (state_of self.old).whole (state_of self.new).whole }
        ensures answers { IfErr result IsFindErr }
        ensures cause { Counts is_fault (state_of self.old).faults
            (state_of self.new).faults result }
    {
        if self.has_ample_room(pairs) {
            self.put_fitting(alloc, pairs)
        } else {
            self.put_each(alloc, pairs)
        }
    }

    /// Nothing is ever due.
    fn settle(&mut self, _alloc: Global) -> Result<(), CacheErr> {
        Ok(())
    }

    /// The same.
    fn is_due(&self, _key: &Key) -> bool {
        false
    }

    fn is_whole(&self) -> bool {
        self.whole()
    }

    fn room(&self) -> u64 {
        self.least_room()
    }
}
