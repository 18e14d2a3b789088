// One run over a store, to see that the clauses of a store suffice for those who use it through the trait alone.
ghost use Rattle.std.specs.Prelude.{◌++◌, ◌∷◌, [], IsTrue};
ghost use Rattle.store_dev.specs.Device.{LeavesOnly};
ghost use Rattle.cache_api.specs.Artifacts.{artifact as held};
ghost use Rattle.cache_api.specs.Moments.{Leaves};
ghost use Rattle.cache_api.specs.Pairs.{pair_for, IsPartSince};
ghost use Rattle.device_cases.specs.Session.{IsLeftBy};

use artifact_store::Store;
use cache_api::{Artifact, Cache};
use std::alloc::Global;
use store_dev::StoreDevice;

/// Adds a pair, whatever the cache is, and says whether it did.
pub fn keep<C: Cache>(alloc: Global, cache: &mut C, key: &[u8], artifact: &Artifact) -> bool
    requires { IsTrue (C.state cache.old).whole }
    ensures { C.tells → Leaves C.moment C.left cache.old cache.new
        (λ image. IsPartSince (C.state cache.old).lasting
        ((C.state cache.old).pairs ++ pair_for key.now (held artifact.now) ∷ [])
        (C.says (C.state cache.old).base image)) }
{
    cache.put(alloc, key, artifact).is_ok()
}

/// Opens a device as a store, adds a pair, and hands the device back. Whatever fails, each image since then stands for
/// what one of the images stood for as it began, or for its pairs and the new one.
pub fn session<S: StoreDevice>(alloc: Global, device: S, key: &[u8], artifact: &Artifact) -> S
    ensures { S.tells → LeavesOnly S.moment S.images_since device result
        (IsLeftBy (S.images device) (pair_for key.now (held artifact.now))) }
{
    match Store::open(alloc, device) {
        Ok(opened) => {
            let mut store = opened;
            keep(alloc, &mut store, key, artifact);
            store.device()
        }
        Err(unopened) => unopened.store,
    }
}
