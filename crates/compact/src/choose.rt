// Which pairs of a store are kept.
ghost use Rattle.std.specs.Prelude.{◌≡◌, ◌<◌, ◌≤◌, ◌+◌, [], length, bytes_eq, All, IsTrue, IfOk};
ghost use Rattle.std.specs.Prelude.{true, false, IfErr, IfSome, IfNone, OnOk};
ghost use Rattle.rel_path.specs.Causes.{Counts};
ghost use Rattle.cache_api.specs.Cache.{is_fault, IsFindErr};
ghost use Rattle.artifact_store.specs.Store.{state_of, count_in, OnlyReadsStore};
ghost use Rattle.compact.specs.Chosen.{chosen, has_key};
ghost use Rattle.compact.specs.Picks.{ArePicks, pair_of, pairs_at, picked, picked_with};
ghost use Rattle.compact.specs.Picks.{IsDigestOf, IsApartAt};

use crate::picks::Picks;
use crate::quick::quick_print;
use artifact_store::Store;
use cache_api::{Artifact, CacheErr};
use sha2::{Digest, Sha256};
use std::alloc::Global;
use store_dev::StoreDevice;

/// The numbers of the pairs that are kept, in their order.
pub(crate) fn choose<S: StoreDevice>(
    alloc: Global,
    from: &mut Store<S>,
    keep: Option<u64>,
) -> Result<Vec<u64>, CacheErr>
    requires { IsTrue (state_of from.old).whole }
    ensures chosen { S.tells → IfOk result (λ numbers.
        pairs_at (state_of from.old).pairs numbers.items ≡ chosen (state_of from.old).pairs keep) }
    ensures below { IfOk result (λ numbers.
        All (λ number. number < count_in from.old) numbers.items) }
    ensures reads { OnlyReadsStore from.old from.new }
    ensures answers { IfErr result IsFindErr }
    ensures cause { Counts is_fault (state_of from.old).faults
        (state_of from.new).faults result }
{
    let mut picks = Picks::new(alloc);
    pick_all(alloc, from, keep, &mut picks)?;
    let mut numbers = picks.numbers;
    numbers.reverse();
    Ok(numbers)
}

/// Picks pairs from the last to the first, until they are enough.
fn pick_all<S: StoreDevice>(
    alloc: Global,
    from: &mut Store<S>,
    keep: Option<u64>,
    picks: &mut Picks,
) -> Result<(), CacheErr>
    requires whole { IsTrue (state_of from.old).whole }
    requires numbers { picks.old.numbers.items ≡ [] }
    requires prints { picks.old.prints.digests ≡ [] }
    ensures chosen { S.tells → OnOk result
        (picked (state_of from.old).pairs picks.new.numbers.items
        ≡ chosen (state_of from.old).pairs keep) }
    ensures picks { OnOk result (ArePicks from.old picks.new) }
    ensures reads { OnlyReadsStore from.old from.new }
    ensures answers { IfErr result IsFindErr }
    ensures cause { Counts is_fault (state_of from.old).faults
        (state_of from.new).faults result }
{
    let mut left = from.count();
    while left > 0 {
        let enough = picks.is_enough(keep);
        if enough {
            return Ok(());
        }
        left -= 1;
        pick(alloc, from, picks, left)?;
    }
    Ok(())
}

/// Picks the pair with that number, if its value is an artifact and no pair that was picked has
/// its key.
fn pick<S: StoreDevice>(
    alloc: Global,
    from: &mut Store<S>,
    picks: &mut Picks,
    number: u64,
) -> Result<(), CacheErr>
    requires whole { IsTrue (state_of from.old).whole }
    requires number { number < count_in from.old }
    requires picks { ArePicks from.old picks.old }
    ensures picked { S.tells → OnOk result
        (picked (state_of from.old).pairs picks.new.numbers.items
        ≡ picked_with (pair_of (state_of from.old).pairs number)
        (picked (state_of from.old).pairs picks.old.numbers.items)) }
    ensures picks { OnOk result (ArePicks from.old picks.new) }
    ensures few { OnOk result
        (length picks.new.numbers.items ≤ length picks.old.numbers.items + 1) }
    ensures reads { OnlyReadsStore from.old from.new }
    ensures answers { IfErr result IsFindErr }
    ensures cause { Counts is_fault (state_of from.old).faults
        (state_of from.new).faults result }
{
    let (key, value) = from.pair_at(alloc, number)?;
    let Some(_) = Artifact::read(alloc, value.as_slice())? else {
        return Ok(());
    };
    let Some(digest) = new_digest(alloc, from, picks, key.as_slice())? else {
        return Ok(());
    };
    picks.push(number, digest)?;
    Ok(())
}

/// By which digest a pair with that key is to be found, where none that was picked has the key.
/// Most keys have a quick print that no other has. A key whose quick print another has is hashed,
/// so that however keys were made, it is compared with few.
fn new_digest<S: StoreDevice>(
    alloc: Global,
    from: &mut Store<S>,
    picks: &Picks,
    key: &[u8],
) -> Result<Option<[u8; 32]>, CacheErr>
    requires whole { IsTrue (state_of from.old).whole }
    requires picks { ArePicks from.old picks.now }
    ensures none { S.tells → IfOk result (λ o. IfNone o
        (has_key key.now (picked (state_of from.old).pairs picks.now.numbers.items) ≡ true)) }
    ensures some { S.tells → IfOk result (λ o. IfSome o (λ digest.
        has_key key.now (picked (state_of from.old).pairs picks.now.numbers.items) ≡ false)) }
    ensures digest { IfOk result (λ o. IfSome o (IsDigestOf picks.now.prints.digests key.now)) }
    ensures reads { OnlyReadsStore from.old from.new }
    ensures answers { IfErr result IsFindErr }
    ensures cause { Counts is_fault (state_of from.old).faults
        (state_of from.new).faults result }
{
    let quick = quick_print(key);
    if picks.prints.last(&quick).is_none() {
        return Ok(Some(quick));
    }
    if is_picked(alloc, from, picks, key, &quick)? {
        return Ok(None);
    }
    let digest = Sha256::digest(key);
    if is_picked(alloc, from, picks, key, &digest)? {
        return Ok(None);
    }
    Ok(Some(digest))
}

/// Whether a pair that was picked and has that digest has that key. Keys are compared whole.
fn is_picked<S: StoreDevice>(
    alloc: Global,
    from: &mut Store<S>,
    picks: &Picks,
    key: &[u8],
    digest: &[u8; 32],
) -> Result<bool, CacheErr>
    requires whole { IsTrue (state_of from.old).whole }
    requires picks { ArePicks from.old picks.now }
    ensures found { S.tells → IfOk result (λ b. b ≡ true
        → has_key key.now (picked (state_of from.old).pairs picks.now.numbers.items) ≡ true) }
    ensures apart { S.tells → IfOk result (λ b. b ≡ false
        → IsApartAt (state_of from.old).pairs picks.now.numbers.items picks.now.prints.digests
        digest.now key.now) }
    ensures reads { OnlyReadsStore from.old from.new }
    ensures answers { IfErr result IsFindErr }
    ensures cause { Counts is_fault (state_of from.old).faults
        (state_of from.new).faults result }
{
    let mut next = picks.prints.last(digest);
    while let Some(place) = next {
        let number = picks.numbers[place as usize];
        let same = is_key_of(alloc, from, number, key)?;
        if same {
            return Ok(true);
        }
        next = picks.prints.before(place);
    }
    Ok(false)
}

/// Whether the pair with that number has that key.
fn is_key_of<S: StoreDevice>(
    alloc: Global,
    from: &mut Store<S>,
    number: u64,
    key: &[u8],
) -> Result<bool, CacheErr>
    requires whole { IsTrue (state_of from.old).whole }
    requires number { number < count_in from.old }
    ensures value { S.tells → IfOk result (λ b.
        b ≡ bytes_eq (pair_of (state_of from.old).pairs number).0 key.now) }
    ensures reads { OnlyReadsStore from.old from.new }
    ensures answers { IfErr result IsFindErr }
    ensures cause { Counts is_fault (state_of from.old).faults
        (state_of from.new).faults result }
{
    let (other, _) = from.pair_at(alloc, number)?;
    Ok(other.as_slice() == key)
}
