// The files of a task in the tree.
ghost use Rattle.std.specs.Prelude.{◌≡◌, ◌+◌, ◌<◌, ◌≤◌, true, false, length, IsTrue, IfOk, OnOk};
ghost use Rattle.globs.specs.OwnedFiles.{cleared, restored};
ghost use Rattle.cache_api.specs.Cache.{CacheReads};
ghost use Rattle.cache_api.specs.Hits.{paths_ascend, owns_paths, span_count};
ghost use Rattle.capture.specs.Cause.{is_failed};
ghost use Rattle.run_laws.specs.Ancestors.{part_at};
ghost use Rattle.run_laws.specs.Plans.{log_path};
ghost use Rattle.run_laws.specs.Worlds.{logged};
ghost use Rattle.task_devices.specs.Devices.{OnlyAt, IsFree};
ghost use Rattle.task_devices.specs.Stops.{faults_of, StopsBy};

use crate::RunErr;
use cache_api::{Cache, Hit};
use capture::{CapErr, HitErr, write_changed};
use rel_path::Bytes;
use run_plan::Plan;
use spawn_dev::Spawner;
use std::alloc::Global;
use tree_dev::DevErr;

// An error of the tree or of owned files.
fn tree_stop(error: &CapErr) -> RunErr
    ensures failed { is_failed error.now ≡ true → result ≡ RunErr.TreeFault }
    ensures other { is_failed error.now ≡ false → result ≡ RunErr.OutOfMemory }
{
    match error {
        CapErr::Failed => RunErr::TreeFault,
        CapErr::Shared { path: _ } | CapErr::TooLarge { path: _ } | CapErr::OutOfMemory =>
            RunErr::OutOfMemory,
    }
}

/// Removes the files that the task owns.
pub fn clear_owned<W: Spawner>(
    alloc: Global,
    plan: &Plan,
    place: u32,
    world: &mut W,
) -> Result<(), RunErr>
    requires place { place < length plan.now.listing.parts }
    requires free { IsFree plan.now place (W.state world.old).held }
    ensures runs { W.runs world.new ≡ W.runs world.old }
    ensures held { (W.state world.new).held ≡ (W.state world.old).held }
    ensures others { W.tells
        → OnlyAt plan.now place (W.state world.old).files (W.state world.new).files }
    ensures cleared { W.tells → OnOk result ((W.state world.new).files
        ≡ cleared (part_at plan.now.listing place).outs (W.state world.old).files) }
    ensures cause { StopsBy (faults_of (W.state world.old).faults 0 (W.runs world.old).faults 0)
        (faults_of (W.state world.new).faults 0 (W.runs world.new).faults 0) result }
{
    match capture::clear(alloc, world, &plan.part(place).outs) {
        Ok(()) => Ok(()),
        Err(e) => Err(tree_stop(&e)),
    }
}

/// Puts the files of a hit in the place of those that the task owns, and answers its log.
pub fn put_back<W: Spawner, C: Cache>(
    alloc: Global,
    plan: &Plan,
    place: u32,
    hit: &Hit,
    world: &mut W,
    cache: &mut C,
) -> Result<Bytes, RunErr>
    requires place { place < length plan.now.listing.parts }
    requires free { IsFree plan.now place (W.state world.old).held }
    requires whole { IsTrue (C.state cache.old).whole }
    requires stands { C.stands cache.old hit.now }
    requires owns { IsTrue (owns_paths (part_at plan.now.listing place).outs hit.now) }
    requires ascend { IsTrue (paths_ascend hit.now) }
    ensures runs { W.runs world.new ≡ W.runs world.old }
    ensures held { (W.state world.new).held ≡ (W.state world.old).held }
    ensures others { W.tells
        → OnlyAt plan.now place (W.state world.old).files (W.state world.new).files }
    ensures restored { W.tells → C.tells → OnOk result ((W.state world.new).files
        ≡ restored (part_at plan.now.listing place).outs
        (C.shows cache.old hit.now).1 (W.state world.old).files) }
    ensures log { C.tells → IfOk result (λ log. log ≡ (C.shows cache.old hit.now).0) }
    ensures reads { CacheReads C.tells C.state C.cost C.stands C.shows C.moment C.left C.says
        cache.old cache.new }
    ensures probes { (C.state cache.new).probes
        ≤ (C.state cache.old).probes + span_count hit.now }
    ensures whole { OnOk result (IsTrue (C.state cache.new).whole) }
    ensures cause { StopsBy
        (faults_of (W.state world.old).faults (C.state cache.old).faults
        (W.runs world.old).faults 0)
        (faults_of (W.state world.new).faults (C.state cache.new).faults
        (W.runs world.new).faults 0)
        result }
{
    match capture::restore_hit(alloc, world, &plan.part(place).outs, cache, hit) {
        Ok(log) => Ok(log),
        Err(HitErr::TreeFault) => Err(RunErr::TreeFault),
        Err(HitErr::StoreFault) => Err(RunErr::StoreFault),
        Err(HitErr::OutOfMemory) => Err(RunErr::OutOfMemory),
    }
}

/// Writes the log file of the task, unless it stands there with this log already.
pub fn keep_log<W: Spawner>(
    alloc: Global,
    plan: &Plan,
    place: u32,
    log: &[u8],
    world: &mut W,
) -> Result<(), RunErr>
    requires place { place < length plan.now.listing.parts }
    requires free { (W.state world.old).held (log_path (part_at plan.now.listing place)) ≡ false }
    ensures runs { W.runs world.new ≡ W.runs world.old }
    ensures held { (W.state world.new).held ≡ (W.state world.old).held }
    ensures others { W.tells
        → OnlyAt plan.now place (W.state world.old).files (W.state world.new).files }
    ensures logged { W.tells → OnOk result ((W.state world.new).files
        ≡ logged (part_at plan.now.listing place) log.now (W.state world.old).files) }
    ensures cause { StopsBy (faults_of (W.state world.old).faults 0 (W.runs world.old).faults 0)
        (faults_of (W.state world.new).faults 0 (W.runs world.new).faults 0) result }
{
    let path = plan.log_path(alloc, place)?;
    match write_changed(alloc, world, &path, log) {
        Ok(()) => Ok(()),
        Err(DevErr::Failed) => Err(RunErr::TreeFault),
        Err(DevErr::OutOfMemory) => Err(RunErr::OutOfMemory),
    }
}
