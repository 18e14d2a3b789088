// Putting what is due.
ghost use Rattle.std.specs.Prelude.{IsTrue, OnOk};
ghost use Rattle.task_devices.specs.Keeping.{Settles};
ghost use Rattle.task_devices.specs.Stops.{faults_of, StopsBy};

use crate::RunErr;
use cache_api::{Cache, CacheErr};
use std::alloc::Global;

/// Puts the results that the cache holds back.
pub fn settle<C: Cache>(alloc: Global, cache: &mut C) -> Result<(), RunErr>
    requires { IsTrue (C.state cache.old).whole }
    ensures settles { Settles C.tells C.state C.cost C.stands C.shows C.moment C.left C.says
        cache.old cache.new result }
    ensures whole { OnOk result (IsTrue (C.state cache.new).whole) }
    ensures cause { StopsBy (faults_of 0 (C.state cache.old).faults 0 0)
        (faults_of 0 (C.state cache.new).faults 0 0) result }
{
    match cache.settle(alloc) {
        Ok(()) => Ok(()),
        Err(CacheErr::Failed) => Err(RunErr::StoreFault),
        Err(CacheErr::Full) | Err(CacheErr::OutOfMemory) => Err(RunErr::OutOfMemory),
    }
}
