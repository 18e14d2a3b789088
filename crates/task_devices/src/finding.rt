// Looking a result up.
ghost use Rattle.std.specs.Prelude.{◌≡◌, ◌+◌, ◌≤◌, IsTrue, IfOk, OnOk, IfSome};
ghost use Rattle.codes.specs.Views.{found_as};
ghost use Rattle.cache_api.specs.Cache.{CacheReads, due_in};
ghost use Rattle.cache_api.specs.Found.{found};
ghost use Rattle.cache_api.specs.Hits.{paths_ascend, owns_paths, span_count};
ghost use Rattle.cache_api.specs.Keys.{text_of};
ghost use Rattle.cache_api.specs.Pairs.{LacksKey};
ghost use Rattle.cache_api.specs.Reading.{artifact_in};
ghost use Rattle.task_devices.specs.Stops.{faults_of, StopsBy};

use crate::RunErr;
use cache_api::{Cache, CacheErr, Hit, Key};
use globs::OutSet;
use std::alloc::Global;

/// Looks a key up, with which no result is due.
pub fn look_up<C: Cache>(
    alloc: Global,
    key: Key,
    outs: &OutSet,
    cache: &mut C,
) -> Result<Option<Hit>, RunErr>
    requires whole { IsTrue (C.state cache.old).whole }
    requires due { C.tells → LacksKey (text_of key) (due_in (C.state cache.old)) }
    ensures found { C.tells → IfOk result (λ o. found_as (C.shows cache.new) o
        ≡ found artifact_in (text_of key.entry) outs.now (C.state cache.old).pairs) }
    ensures stands { IfOk result (λ o. IfSome o (C.stands cache.new)) }
    ensures fits { IfOk result (λ o. IfSome o (λ hit.
        IsTrue (paths_ascend hit) × IsTrue (owns_paths outs.now hit))) }
    ensures probes { C.tells → (C.state cache.new).probes
        ≤ (C.state cache.old).probes + C.cost cache.old (text_of key.entry) }
    ensures spans { C.tells → IfOk result (λ o. IfSome o (λ hit.
        (C.state cache.new).probes + span_count hit
        ≤ (C.state cache.old).probes + C.cost cache.old (text_of key.entry))) }
    ensures reads { CacheReads C.tells C.state C.cost C.stands C.shows C.moment C.left C.says
        cache.old cache.new }
    ensures whole { OnOk result (IsTrue (C.state cache.new).whole) }
    ensures cause { StopsBy (faults_of 0 (C.state cache.old).faults 0 0)
        (faults_of 0 (C.state cache.new).faults 0 0) result }
{
    match cache.lookup_keyed(alloc, key, outs) {
        Ok(hit) => Ok(hit),
        Err(CacheErr::Failed) => Err(RunErr::StoreFault),
        Err(CacheErr::Full) | Err(CacheErr::OutOfMemory) => Err(RunErr::OutOfMemory),
    }
}
