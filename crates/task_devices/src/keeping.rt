// Keeping a result.
ghost use Rattle.std.specs.Prelude.{◌≡◌, ◌<◌, length, true, false, IsTrue, IfOk, OnOk, OnErr};
ghost use Rattle.rel_path.specs.Paths.{Path};
ghost use Rattle.cache_api.specs.Cache.{Keeps};
ghost use Rattle.cache_api.specs.Keys.{own_pair, own_text};
ghost use Rattle.cache_api.specs.Moments.{Leaves};
ghost use Rattle.capture.specs.Owned.{declares};
ghost use Rattle.run_laws.specs.Ancestors.{part_at};
ghost use Rattle.run_plan.specs.Results.{KeptAs};
ghost use Rattle.run_plan.specs.StoryLaws.{KeptIf, to_put};
ghost use Rattle.task_devices.specs.Keeping.{PutAs, MayBePut, MayBeKept, AreFirstOf, IsPartOf, LastOn};
ghost use Rattle.task_devices.specs.Stops.{faults_of, StopsBy};

use crate::RunErr;
use cache_api::{Artifact, Cache, CacheErr, OwnKey, Put};
use capture::{CapErr, take};
use page::Note;
use run_plan::Plan;
use spawn_dev::{Ended, Spawner};
use std::alloc::Global;

// Puts an artifact into the cache, which may hold it back.
fn put<C: Cache>(
    alloc: Global,
    key: OwnKey,
    artifact: Artifact,
    cache: &mut C,
) -> Result<Note, RunErr>
    requires { IsTrue (C.state cache.old).whole }
    ensures put { C.tells → IfOk result (λ note.
        PutAs (own_pair key artifact) (C.state cache.old).pairs
        (C.state cache.new).room (C.state cache.new).pairs note) }
    ensures failed { C.tells → OnErr result (AreFirstOf (C.state cache.old).lasting
        (MayBePut (own_pair key artifact) (C.state cache.old).pairs)
        (C.state cache.new).pairs) }
    // whatever it answers
    ensures left { C.tells → Leaves C.moment C.left cache.old cache.new (λ image.
        IsPartOf (C.state cache.old).lasting
        (MayBePut (own_pair key artifact) (C.state cache.old).pairs)
        (C.says (C.state cache.old).base image)) }
    ensures lasts { C.tells → LastOn C.state C.moment C.left C.says cache.old cache.new }
    ensures keeps { Keeps (C.state cache.old) (C.state cache.new) }
    ensures whole { OnOk result (IsTrue (C.state cache.new).whole) }
    ensures cause { StopsBy (faults_of 0 (C.state cache.old).faults 0 0)
        (faults_of 0 (C.state cache.new).faults 0 0) result }
{
    match cache.give(alloc, key, artifact) {
        Ok(Put::Stored) => Ok(Note::Stored),
        Ok(Put::Full) => Ok(Note::Full),
        Err(CacheErr::Failed) => Err(RunErr::StoreFault),
        Err(CacheErr::Full) | Err(CacheErr::OutOfMemory) => Err(RunErr::OutOfMemory),
    }
}

// Puts the result of a task into the cache, unless it shares a file or owns one that is too large.
fn store<W: Spawner, C: Cache>(
    alloc: Global,
    plan: &Plan,
    place: u32,
    key: OwnKey,
    log: &[u8],
    world: &mut W,
    cache: &mut C,
) -> Result<Note, RunErr>
    requires place { place < length plan.now.listing.parts }
    requires whole { IsTrue (C.state cache.old).whole }
    requires free { (path : Path) → declares (part_at plan.now.listing place).outs path ≡ true
        → (W.state world.old).held path ≡ false }
    ensures runs { W.runs world.new ≡ W.runs world.old }
    ensures files { (W.state world.new).files ≡ (W.state world.old).files }
    ensures kept { W.tells → C.tells → IfOk result (λ note.
        KeptAs (W.state world.old).files (part_at plan.now.listing place).outs plan.now.limit
        (own_text key) log.now (C.state cache.old).pairs
        (C.state cache.new).room (C.state cache.new).pairs note) }
    ensures failed { W.tells → C.tells → OnErr result (AreFirstOf (C.state cache.old).lasting
        (MayBeKept true (W.state world.old).files (part_at plan.now.listing place).outs
        plan.now.limit (own_text key) log.now (C.state cache.old).pairs)
        (C.state cache.new).pairs) }
    // whatever it answers
    ensures left { W.tells → C.tells → Leaves C.moment C.left cache.old cache.new (λ image.
        IsPartOf (C.state cache.old).lasting
        (MayBeKept true (W.state world.old).files (part_at plan.now.listing place).outs
        plan.now.limit (own_text key) log.now (C.state cache.old).pairs)
        (C.says (C.state cache.old).base image)) }
    ensures lasts { C.tells → LastOn C.state C.moment C.left C.says cache.old cache.new }
    ensures keeps { Keeps (C.state cache.old) (C.state cache.new) }
    ensures whole { OnOk result (IsTrue (C.state cache.new).whole) }
    ensures cause { StopsBy
        (faults_of (W.state world.old).faults (C.state cache.old).faults
        (W.runs world.old).faults 0)
        (faults_of (W.state world.new).faults (C.state cache.new).faults
        (W.runs world.new).faults 0)
        result }
{
    match take(alloc, world, &plan.part(place).outs, log, plan.limit) {
        Ok(artifact) => {
            let note = put(alloc, key, artifact, cache)?;
            Ok(note)
        }
        Err(CapErr::Shared { path }) => Ok(Note::Shared(path)),
        Err(CapErr::TooLarge { path }) => Ok(Note::Large(path)),
        Err(CapErr::Failed) => Err(RunErr::TreeFault),
        Err(CapErr::OutOfMemory) => Err(RunErr::OutOfMemory),
    }
}

// Whether the result of an end is to be put into the cache.
fn is_to_put(plan: &Plan, sound: bool, place: u32, status: u8) -> bool
    ensures { result ≡ to_put plan.now sound place status }
{
    sound && status == 0 && plan.caches(place)
}

/// Keeps the result of an end, where it is to be put into the cache, which may hold it back.
pub fn keep<W: Spawner, C: Cache>(
    alloc: Global,
    plan: &Plan,
    ended: &Ended,
    sound: bool,
    key: OwnKey,
    world: &mut W,
    cache: &mut C,
) -> Result<Note, RunErr>
    requires place { ended.now.place < length plan.now.listing.parts }
    requires whole { IsTrue (C.state cache.old).whole }
    requires free { (path : Path)
        → declares (part_at plan.now.listing ended.now.place).outs path ≡ true
        → (W.state world.old).held path ≡ false }
    ensures runs { W.runs world.new ≡ W.runs world.old }
    ensures files { (W.state world.new).files ≡ (W.state world.old).files }
    ensures kept { W.tells → C.tells → IfOk result (λ note.
        KeptIf (to_put plan.now sound ended.now.place ended.now.status)
        (KeptAs (W.state world.old).files (part_at plan.now.listing ended.now.place).outs
        plan.now.limit (own_text key) ended.now.log (C.state cache.old).pairs
        (C.state cache.new).room (C.state cache.new).pairs note)
        note (C.state cache.old).pairs (C.state cache.new).pairs) }
    ensures failed { W.tells → C.tells → OnErr result (AreFirstOf (C.state cache.old).lasting
        (MayBeKept (to_put plan.now sound ended.now.place ended.now.status)
        (W.state world.old).files (part_at plan.now.listing ended.now.place).outs plan.now.limit
        (own_text key) ended.now.log (C.state cache.old).pairs) (C.state cache.new).pairs) }
    // whatever it answers
    ensures left { W.tells → C.tells → Leaves C.moment C.left cache.old cache.new (λ image.
        IsPartOf (C.state cache.old).lasting
        (MayBeKept (to_put plan.now sound ended.now.place ended.now.status)
        (W.state world.old).files (part_at plan.now.listing ended.now.place).outs plan.now.limit
        (own_text key) ended.now.log (C.state cache.old).pairs)
        (C.says (C.state cache.old).base image)) }
    ensures lasts { C.tells → LastOn C.state C.moment C.left C.says cache.old cache.new }
    ensures keeps { Keeps (C.state cache.old) (C.state cache.new) }
    ensures whole { OnOk result (IsTrue (C.state cache.new).whole) }
    ensures cause { StopsBy
        (faults_of (W.state world.old).faults (C.state cache.old).faults
        (W.runs world.old).faults 0)
        (faults_of (W.state world.new).faults (C.state cache.new).faults
        (W.runs world.new).faults 0)
        result }
{
    if !is_to_put(plan, sound, ended.place, ended.status) {
        return Ok(Note::Stored);
    }
    let log = ended.log.as_slice();
    let note = store(alloc, plan, ended.place, key, log, world, cache)?;
    Ok(note)
}
