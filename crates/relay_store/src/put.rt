// Adding pairs.
ghost use Rattle.std.specs.Prelude.{◌≡◌, ◌+◌, ◌&&◌, true, false, IsTrue, IfOk, IfErr};
ghost use Rattle.rel_path.specs.Causes.{Counts};
ghost use Rattle.cache_api.specs.Cache.{is_fault, IsFindErr, ArePut};
ghost use Rattle.cache_api.specs.Keys.{new_pairs};
ghost use Rattle.relay_store.specs.Access.{IsAccessOf};
ghost use Rattle.relay_store.specs.Puts.{all_stored};
ghost use Rattle.relay_store.specs.Parts.{state_of as part_state, more_of, AllFit, MayGrow};
ghost use Rattle.relay_store.specs.Agree.{Leads};
ghost use Rattle.relay_store.specs.Relays.{room_by};

use crate::Relay;
use crate::part::Part;
use crate::room::ample_for;
use cache_api::{CacheErr, NewPair, Put, Puts};
use cli_words::Access;
use std::alloc::Global;
use store_dev::StoreDevice;

impl<S: StoreDevice, R: StoreDevice> Relay<S, R> {
    ghost use Rattle.std.specs.Prelude.{◌↔◌, ◌∷◌, ◌≤◌, ◌<◌, ◌^◌, [], sum_by, OnOk, OnErr};
    ghost use Rattle.std.specs.List.{list_all};
    ghost use Rattle.cache_api.specs.Cache.{ample};
    ghost use Rattle.cache_api.specs.Pairs.{chosen};
    ghost use Rattle.pair_writer.specs.Putting.{new_pair};
    ghost use Rattle.relay_store.specs.Puts.{takes, spaces_behind};
    ghost use Rattle.relay_store.specs.Parts.{HasRoom, IsRead};
    ghost use Rattle.relay_store.specs.Relays.{state_of, spaces, stores, stores_of};
    ghost use Rattle.relay_store.specs.Calls.{IsPutting};
    ghost use Rattle.relay_store.specs.Devices.{TellPuts, Gives, HasPut};

    /// Whether there is ample room for all these pairs, however they are kept.
    pub(crate) fn has_ample_room(&self, pairs: &[NewPair]) -> bool
        ensures { IsTrue result
            ↔ (sum_by ample (new_pairs pairs.now) ≤ (state_of self.now).room) }
    {
        ample_for(pairs) <= self.least_room()
    }

    /// The least room of those that are put into.
    pub(crate) fn least_room(&self) -> u64
        ensures room { result ≡ (state_of self.now).room }
        ensures small { result < 2 ^ 63 }
    {
        match (self.access.local_puts, self.access.second_puts) {
            (true, true) => self.local.free().min(self.second.free()),
            (true, false) => self.local.free(),
            (false, _) => self.second.free(),
        }
    }

    /// Adds pairs to each store that is put into, where each has room for all of them. After an
    /// error the pairs are as before, and the relay may no longer be used.
    pub(crate) fn put_fitting(&mut self, alloc: Global, pairs: &[NewPair]) -> Result<Puts, CacheErr>
        requires whole { IsTrue (state_of self.old).whole }
        requires local { self.old.access.local_puts ≡ true → S.tells
            → AllFit self.old.local (new_pairs pairs.now) }
        requires second { self.old.access.second_puts ≡ true → R.tells
            → AllFit self.old.second (new_pairs pairs.now) }
        ensures local_stored { self.old.access.local_puts ≡ true → S.tells
            → IfOk result (λ puts. puts ≡ all_stored (new_pairs pairs.now)) }
        ensures second_stored { self.old.access.local_puts ≡ false → R.tells
            → IfOk result (λ puts. puts ≡ all_stored (new_pairs pairs.now)) }
        ensures room { IfOk result (ArePut (state_of self.new).room (new_pairs pairs.now)) }
        ensures putting { IsPutting self.old self.new (new_pairs pairs.now) result }
        ensures unchanged { S.tells → R.tells
            → OnErr result ((state_of self.new).pairs ≡ (state_of self.old).pairs) }
        ensures local_grown { MayGrow self.old.access.local_puts self.old.local self.new.local
            (new_pairs pairs.now) result }
        ensures second_grown { MayGrow self.old.access.second_puts self.old.second
            self.new.second (new_pairs pairs.now) result }
    {
        match put_into(alloc, self.access, &mut self.local, &mut self.second, pairs) {
            Ok(puts) => {
                self.added = if self.access.local_puts {
                    self.local.added()
                } else {
                    self.second.added()
                };
                Ok(puts)
            }
            Err(fault) => {
                self.whole = false;
                Err(fault)
            }
        }
    }

    /// Puts pairs one after another, each where there is room for it. After an error the pairs are
    /// as before, and the relay may no longer be used.
    pub(crate) fn put_each(&mut self, alloc: Global, pairs: &[NewPair]) -> Result<Puts, CacheErr>
        requires { IsTrue (state_of self.old).whole }
        ensures outcome { S.tells → R.tells
            → IfOk result (λ puts. puts ≡ stores self.old (new_pairs pairs.now)) }
        ensures room { IfOk result (ArePut (state_of self.new).room (new_pairs pairs.now)) }
        ensures putting { IsPutting self.old self.new
            (chosen (new_pairs pairs.now) (stores self.old (new_pairs pairs.now))) result }
        ensures devices { HasPut self.old (stores_of self.new) (new_pairs pairs.now) result }
        ensures unchanged { S.tells → R.tells
            → OnErr result ((state_of self.new).pairs ≡ (state_of self.old).pairs) }
    {
        let added = self.added;
        match self.put_in_turn(alloc, pairs) {
            Ok(puts) => Ok(puts),
            Err(fault) => {
                self.whole = false;
                self.added = added;
                Err(fault)
            }
        }
    }

    /// The same, but after an error the first pairs may count.
    fn put_in_turn(&mut self, alloc: Global, pairs: &[NewPair]) -> Result<Puts, CacheErr>
        requires { IsTrue (state_of self.old).whole }
        ensures outcome { S.tells → R.tells
            → IfOk result (λ puts. puts ≡ stores self.old (new_pairs pairs.now)) }
        ensures room { IfOk result (ArePut (state_of self.new).room (new_pairs pairs.now)) }
        ensures putting { IsPutting self.old self.new
            (chosen (new_pairs pairs.now) (stores self.old (new_pairs pairs.now))) result }
        ensures devices { HasPut self.old (stores_of self.new) (new_pairs pairs.now) result }
    {
        let mut puts = Puts::new(alloc);
        for pair in pairs {
            let put = self.put_one(alloc, *pair)?;
            puts.push(put)?;
        }
        Ok(puts)
    }

    /// Puts a pair where there is room for it.
    fn put_one(&mut self, alloc: Global, pair: NewPair) -> Result<Put, CacheErr>
        requires { IsTrue (state_of self.old).whole }
        ensures outcome { S.tells → R.tells → IfOk result (λ put.
            put ∷ [] ≡ stores self.old (new_pair pair.entry ∷ [])) }
        ensures room { IfOk result (λ put.
            ArePut (state_of self.new).room (new_pair pair.entry ∷ []) (put ∷ [])) }
        ensures spaces { TellPuts self.old.access S.tells R.tells → OnOk result (spaces self.new
            ≡ spaces_behind (spaces self.old) (new_pair pair.entry ∷ [])) }
        ensures putting { IsPutting self.old self.new (chosen (new_pair pair.entry ∷ [])
            (stores self.old (new_pair pair.entry ∷ []))) result }
        ensures devices { Gives (λ put. put ∷ []) self.old (stores_of self.new)
            (new_pair pair.entry ∷ []) result }
    {
        if !self.takes(alloc, pair)? {
            return Ok(Put::Full);
        }
        let puts = self.put_fitting(alloc, &[pair])?;
        match puts.as_slice() {
            [put] => Ok(*put),
            _ => unreachable!(),
        }
    }

    /// Whether each store that is put into has room for a pair. Nothing is written.
    fn takes(&mut self, alloc: Global, pair: NewPair) -> Result<bool, CacheErr>
        requires { IsTrue (state_of self.old).whole }
        ensures takes { TellPuts self.old.access S.tells R.tells → IfOk result (λ fits.
            fits ≡ list_all (takes (new_pair pair.entry)) (spaces self.old)) }
        ensures full { IfOk result (λ fits. fits ≡ false
            → (state_of self.new).room < ample (new_pair pair.entry)) }
        ensures same { TellPuts self.old.access S.tells R.tells
            → spaces self.new ≡ spaces self.old }
        ensures local { IfOk result (λ fits. fits ≡ true → self.old.access.local_puts ≡ true
            → S.tells → HasRoom self.new.local (new_pair pair.entry)) }
        ensures second { IfOk result (λ fits. fits ≡ true → self.old.access.second_puts ≡ true
            → R.tells → HasRoom self.new.second (new_pair pair.entry)) }
        ensures putting { IsPutting self.old self.new [] result }
        ensures local_read { IsRead self.old.local self.new.local }
        ensures second_read { IsRead self.old.second self.new.second }
    {
        match (self.access.local_puts, self.access.second_puts) {
            (true, true) => {
                if !self.second.takes(alloc, pair)? {
                    return Ok(false);
                }
                self.local.takes(alloc, pair)
            }
            (true, false) => self.local.takes(alloc, pair),
            (false, _) => self.second.takes(alloc, pair),
        }
    }
}

/// Adds pairs to each of two parts that is put into, where there is room for all of them: to the
/// second one first.
fn put_into<S: StoreDevice, R: StoreDevice>(
    alloc: Global,
    access: Access,
    local: &mut Part<S>,
    second: &mut Part<R>,
    pairs: &[NewPair],
) -> Result<Puts, CacheErr>
    requires access { IsAccessOf access local.old.store second.old.store }
    requires local_whole { IsTrue (part_state local.old).whole }
    requires second_whole { IsTrue (part_state second.old).whole }
    requires local { access.local_puts ≡ true → S.tells
        → AllFit local.old (new_pairs pairs.now) }
    requires second { access.second_puts ≡ true → R.tells
        → AllFit second.old (new_pairs pairs.now) }
    ensures local_stored { access.local_puts ≡ true → S.tells
        → IfOk result (λ puts. puts ≡ all_stored (new_pairs pairs.now)) }
    ensures second_stored { access.local_puts ≡ false → R.tells
        → IfOk result (λ puts. puts ≡ all_stored (new_pairs pairs.now)) }
    ensures room { IfOk result (ArePut (room_by access.local_puts access.second_puts
        (part_state local.new).room (part_state second.new).room) (new_pairs pairs.now)) }
    ensures local { MayGrow access.local_puts local.old local.new (new_pairs pairs.now) result }
    ensures second { MayGrow access.second_puts second.old second.new (new_pairs pairs.now)
        result }
    ensures leads { S.tells → R.tells → (access.local_puts && access.second_puts) ≡ true
        → more_of second.old ≡ more_of local.old
        → Leads (more_of local.new) (more_of second.new) }
    ensures answers { IfErr result IsFindErr }
    ensures cause { Counts is_fault
        ((part_state local.old).faults + (part_state second.old).faults)
        ((part_state local.new).faults + (part_state second.new).faults) result }
{
    match (access.local_puts, access.second_puts) {
        (true, true) => {
            second.put_all(alloc, pairs)?;
            local.put_all(alloc, pairs)
        }
        (true, false) => local.put_all(alloc, pairs),
        (false, _) => second.put_all(alloc, pairs),
    }
}
