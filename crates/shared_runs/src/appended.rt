// A device into which others put pairs.
ghost use Rattle.std.specs.Prelude.{◌≡◌, IfOk};
ghost use Rattle.store_dev.specs.Device.{Only};
ghost use Rattle.shared_runs.specs.Appended.{HasPairs, IsFresh};
ghost use Rattle.shared_runs.specs.Others.{pairs_of};

use crate::TurnErr;
use crate::others::{OtherPut, as_new_pairs};
use artifact_store::{OpenErr, Store};
use cache_api::{Cache, CacheErr};
use record_log::Unopened;
use rel_path::Bytes;
use std::alloc::{AllocError, Global};
use store_dev::{MemStore, StoreDevice};

/// A device with these bytes, all of them synced, no call of which fails.
pub(crate) fn fresh(alloc: Global, bytes: &[u8]) -> Result<MemStore, AllocError>
    ensures { IfOk result (IsFresh bytes.now) }
{
    let bytes = Bytes::read(alloc, bytes)?;
    Ok(MemStore::new(alloc, bytes, Vec::new(alloc)))
}

/// The device once these pairs were put, where it is a store, each where there is room for it.
pub(crate) fn with_pairs<S: StoreDevice + Drop>(
    alloc: Global,
    file: S,
    puts: &[OtherPut],
) -> Result<S, TurnErr>
    requires { S.tells → Only (S.content file) (S.images file) }
    ensures put { S.tells → IfOk result (HasPairs S.StoreDevice file (pairs_of puts.now)) }
    ensures passed { IfOk result (λ device. S.store_faults device ≡ S.store_faults file) }
{
    match Store::open(alloc, file) {
        Ok(store) => {
            let mut store = store;
            let pairs = as_new_pairs(alloc, puts)?;
            match store.put_all(alloc, pairs.as_slice()) {
                Ok(_puts) => Ok(store.device()),
                Err(CacheErr::Failed) => Err(TurnErr::Failed),
                Err(_) => Err(TurnErr::OutOfMemory),
            }
        }
        Err(Unopened { fault, store }) => match fault {
            OpenErr::NotAStore | OpenErr::Damaged { .. } => Ok(store),
            OpenErr::Failed => Err(TurnErr::Failed),
            OpenErr::OutOfMemory => Err(TurnErr::OutOfMemory),
        },
    }
}
