// When what is due is put: before a look-up that may need it, before a wait, and when the run ends.
ghost use Rattle.std.specs.Prelude.{◌≡◌, ◌⊎◌, IsTrue, OnOk};
ghost use Rattle.cache_api.specs.Cache.{AllLast, due_in};
ghost use Rattle.cache_api.specs.Keys.{text_of};
ghost use Rattle.cache_api.specs.Pairs.{LacksKey};
ghost use Rattle.task_devices.specs.Stops.{faults_of, StopsBy};
ghost use Rattle.runner.specs.Due.{PutsDue, SettlesLate};

use cache_api::{Cache, Key};
use spawn_dev::Spawner;
use std::alloc::Global;
use task_devices::{RunErr, settle};

/// Puts what is due.
pub fn settle_all<C: Cache>(alloc: Global, cache: &mut C) -> Result<(), RunErr>
    requires { IsTrue (C.state cache.old).whole }
    ensures due { PutsDue C.tells C.state C.cost C.moment C.left C.says cache.old cache.new }
    ensures kept { C.tells → OnOk result ((C.state cache.new).pairs ≡ (C.state cache.old).pairs) }
    ensures last { C.tells → OnOk result (AllLast (C.state cache.new)) }
    ensures whole { OnOk result (IsTrue (C.state cache.new).whole) }
    ensures cause { StopsBy (faults_of 0 (C.state cache.old).faults 0 0)
        (faults_of 0 (C.state cache.new).faults 0 0) result }
{
    settle(alloc, cache)
}

/// Puts what is due before a look-up, where a result with its key may be due.
pub fn settle_before_look_up<C: Cache>(
    alloc: Global,
    key: &Key,
    cache: &mut C,
) -> Result<(), RunErr>
    requires { IsTrue (C.state cache.old).whole }
    ensures due { PutsDue C.tells C.state C.cost C.moment C.left C.says cache.old cache.new }
    ensures kept { C.tells → OnOk result ((C.state cache.new).pairs ≡ (C.state cache.old).pairs) }
    ensures lacks { C.tells
        → OnOk result (LacksKey (text_of key.now) (due_in (C.state cache.new))) }
    ensures whole { OnOk result (IsTrue (C.state cache.new).whole) }
    ensures cause { StopsBy (faults_of 0 (C.state cache.old).faults 0 0)
        (faults_of 0 (C.state cache.new).faults 0 0) result }
{
    if !cache.is_due(key) {
        return Ok(());
    }
    settle_all(alloc, cache)
}

/// Puts what is due before a wait, unless a command has ended already.
pub fn settle_before_wait<W: Spawner, C: Cache>(
    alloc: Global,
    world: &mut W,
    cache: &mut C,
) -> Result<(), RunErr>
    requires { IsTrue (C.state cache.old).whole }
    ensures runs { W.runs world.new ≡ W.runs world.old }
    ensures tree { W.state world.new ≡ W.state world.old }
    ensures due { PutsDue C.tells C.state C.cost C.moment C.left C.says cache.old cache.new }
    ensures kept { C.tells → OnOk result ((C.state cache.new).pairs ≡ (C.state cache.old).pairs) }
    ensures whole { OnOk result (IsTrue (C.state cache.new).whole) }
    ensures cause { StopsBy (faults_of 0 (C.state cache.old).faults 0 0)
        (faults_of 0 (C.state cache.new).faults 0 0) result }
{
    if world.has_ended(alloc) {
        return Ok(());
    }
    settle_all(alloc, cache)
}

/// Puts what is due of a run that a fault has stopped, where the cache may still be used.
pub fn settle_after_fault<C: Cache>(alloc: Global, cache: &mut C)
    ensures { (cache.new ≡ cache.old) ⊎ SettlesLate C.tells C.state C.cost C.moment C.left C.says
        cache.old cache.new }
{
    if !cache.is_whole() {
        return;
    }
    // The first fault is answered.
    let _ = cache.settle(alloc);
}
