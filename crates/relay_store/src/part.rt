// One of the stores of a relay.
ghost use Rattle.std.specs.Prelude.{◌≡◌, ◌≤◌, length, IsTrue};
ghost use Rattle.relay_store.specs.Stores.{state_in};

use artifact_store::Store;
use cache_api::{Cache, CacheErr, Hit, Key, NewPair, Puts};
use globs::OutSet;
use rel_path::Bytes;
use std::alloc::Global;
use store_dev::StoreDevice;

/// A store that may be missing, with the number of the pairs that it had when its relay was made.
#[derive(Drop)]
pub struct Part<S: StoreDevice> {
    pub(crate) store: Option<Store<S>>,
    pub(crate) first: u64,
    pub ghost few: { S.tells → first ≤ length (state_in store).pairs },
}

impl<S: StoreDevice> Part<S> {
    ghost use Rattle.std.specs.Prelude.{[], ◌+◌, ◌^◌, ◌<◌, true, false, IfOk, IfSome};
    ghost use Rattle.codes.specs.Views.{found_as};
    ghost use Rattle.cache_api.specs.Cache.{ample};
    ghost use Rattle.cache_api.specs.Found.{found};
    ghost use Rattle.cache_api.specs.Hits.{paths_ascend, owns_paths, file_spans, span_count};
    ghost use Rattle.cache_api.specs.Hits.{bytes_at};
    ghost use Rattle.cache_api.specs.Keys.{text_of as key_text, new_pairs};
    ghost use Rattle.cache_api.specs.Reading.{artifact_in};
    ghost use Rattle.pair_writer.specs.Putting.{new_pair};
    ghost use Rattle.relay_store.specs.Access.{is_there};
    ghost use Rattle.relay_store.specs.Puts.{takes};
    ghost use Rattle.relay_store.specs.Parts.{state_of, pairs_of, more_of, cost_of, stands, shows};
    ghost use Rattle.relay_store.specs.Parts.{space_of, IsAsked, HasRoom, AllFit, IsPutInto};

    /// Of a store with all the pairs that it has now.
    pub(crate) fn new(store: Option<Store<S>>) -> Part<S>
        requires { IsTrue (state_in store).whole }
        ensures store { result.store ≡ store }
        ensures first { S.tells → more_of result ≡ [] }
    {
        let first = count_in(&store);
        Part { store, first }
    }

    /// Whether the store may be used, where it is there.
    pub(crate) fn whole(&self) -> bool
        ensures { result ≡ (state_of self.now).whole }
    {
        match &self.store {
            Some(store) => store.whole(),
            None => true,
        }
    }

    /// How many bytes more its frames may take.
    pub(crate) fn free(&self) -> u64
        ensures free { result ≡ (state_of self.now).room }
        ensures small { result < 2 ^ 63 }
    {
        match &self.store {
            Some(store) => store.free(),
            None => 0,
        }
    }

    /// How many pairs it has behind its first ones.
    pub(crate) fn added(&self) -> u64
        ensures { S.tells → IsTrue (state_of self.now).whole
            → result ≡ length (more_of self.now) }
    {
        count_in(&self.store).saturating_sub(self.first)
    }

    /// Where the artifact stands that its pairs give to a task with this key and these outputs.
    /// The hit is marked with the side.
    pub(crate) fn lookup(
        &mut self,
        alloc: Global,
        key: Key,
        outs: &OutSet,
        side: u8,
    ) -> Result<Option<Hit>, CacheErr>
        requires { IsTrue (state_of self.old).whole }
        ensures found { S.tells → IfOk result (λ o. found_as (shows self.new) o
            ≡ found artifact_in (key_text key.entry) outs.now (pairs_of self.old)) }
        ensures stands { IfOk result (λ o. IfSome o (stands self.new)) }
        ensures fits { IfOk result (λ o. IfSome o (λ hit.
            IsTrue (paths_ascend hit) × IsTrue (owns_paths outs.now hit))) }
        ensures side { IfOk result (λ o. IfSome o (λ hit. hit.side ≡ side)) }
        ensures probes { S.tells → (state_of self.new).probes
            ≤ (state_of self.old).probes + cost_of self.old (key_text key.entry) }
        ensures spans { S.tells → IfOk result (λ o. IfSome o (λ hit.
            (state_of self.new).probes + span_count hit
            ≤ (state_of self.old).probes + cost_of self.old (key_text key.entry))) }
        ensures asked { IsAsked self.old self.new result }
    {
        let Some(store) = &mut self.store else {
            return Ok(None);
        };
        match store.lookup_keyed(alloc, key, outs)? {
            Some(hit) => Ok(Some(Hit {
                side,
                log: hit.log,
                files: hit.files,
            })),
            None => Ok(None),
        }
    }

    /// The log of an artifact that was found in it.
    pub(crate) fn hit_log(&mut self, alloc: Global, hit: &Hit) -> Result<Bytes, CacheErr>
        requires whole { IsTrue (state_of self.old).whole }
        requires stands { stands self.old hit.now }
        ensures log { S.tells → IfOk result (λ log. log ≡ (shows self.old hit.now).0) }
        ensures probes { (state_of self.new).probes
            ≤ (state_of self.old).probes + length hit.now.log }
        ensures asked { IsAsked self.old self.new result }
    {
        let Some(store) = &mut self.store else {
            unreachable!()
        };
        store.hit_log(alloc, hit)
    }

    /// The bytes of a file of an artifact that was found in it.
    pub(crate) fn hit_file(
        &mut self,
        alloc: Global,
        hit: &Hit,
        index: u32,
    ) -> Result<Bytes, CacheErr>
        requires whole { IsTrue (state_of self.old).whole }
        requires stands { stands self.old hit.now }
        requires index { index < length hit.now.files }
        ensures file { S.tells
            → IfOk result (λ bytes. bytes ≡ bytes_at (shows self.old hit.now) index) }
        ensures probes { (state_of self.new).probes
            ≤ (state_of self.old).probes + file_spans hit.now index }
        ensures asked { IsAsked self.old self.new result }
    {
        let Some(store) = &mut self.store else {
            unreachable!()
        };
        store.hit_file(alloc, hit, index)
    }

    /// Whether there is room for a pair. Nothing is written.
    pub(crate) fn takes(&mut self, alloc: Global, pair: NewPair) -> Result<bool, CacheErr>
        requires whole { IsTrue (state_of self.old).whole }
        requires there { is_there self.old.store ≡ true }
        ensures takes { S.tells
            → IfOk result (λ fits. fits ≡ takes (new_pair pair.entry) (space_of self.old)) }
        // Also where the device tells no bytes.
        ensures full { IfOk result (λ fits. fits ≡ false
            → (state_of self.new).room < ample (new_pair pair.entry)) }
        ensures fit { S.tells → IfOk result (λ fits. fits ≡ true
            → HasRoom self.new (new_pair pair.entry)) }
        ensures same { S.tells → space_of self.new ≡ space_of self.old }
        ensures asked { IsAsked self.old self.new result }
    {
        let Some(store) = &mut self.store else {
            unreachable!()
        };
        let need = store.need(alloc, pair.key, pair.artifact)?;
        Ok(need <= store.free())
    }

    /// Adds pairs behind its others, for all of which there is room.
    pub(crate) fn put_all(&mut self, alloc: Global, pairs: &[NewPair]) -> Result<Puts, CacheErr>
        requires whole { IsTrue (state_of self.old).whole }
        requires there { is_there self.old.store ≡ true }
        requires fit { S.tells → AllFit self.old (new_pairs pairs.now) }
        ensures { IsPutInto self.old self.new (new_pairs pairs.now) result }
    {
        let Some(store) = &mut self.store else {
            unreachable!()
        };
        store.put_all(alloc, pairs)
    }
}

/// How many pairs a store has, and none where it is missing.
fn count_in<S: StoreDevice>(store: &Option<Store<S>>) -> u64
    ensures { S.tells → IsTrue (state_in store.now).whole
        → result ≡ length (state_in store.now).pairs }
{
    match store {
        Some(store) => store.count(),
        None => 0,
    }
}
