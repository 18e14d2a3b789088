// Dry runs.
ghost use Rattle.std.specs.Prelude.{◌≡◌, ◌+◌, ◌<◌, ◌≤◌, ◌++◌, length, IsTrue, IfOk, IfErr, OnOk};
ghost use Rattle.cache_api.specs.Cache.{CacheReads, AllLast};
ghost use Rattle.cache_api.specs.Keys.{text_of};
ghost use Rattle.run_laws.specs.Keys.{key_of};
ghost use Rattle.run_plan.specs.Costs.{task_cost, look_up_cost};
ghost use Rattle.run_plan.specs.Pages.{IsCut};
ghost use Rattle.run_plan.specs.Plans.{IsValidPlan};
ghost use Rattle.run_plan.specs.DryPages.{dry_mark, dry_block, dry_page, IsTornDry};
ghost use Rattle.task_devices.specs.Stops.{faults_of, StopsBy, is_sink_fault};

use cache_api::{Cache, Key};
use page::DryMark;
use rel_path::Bytes;
use run_plan::{Plan, digits};
use std::alloc::Global;
use task_devices::{RunErr, look_up, put_text};
use tree_dev::Sink;

// What the cache holds of a task, where a run would ask for it.
fn mark_of<C: Cache>(
    alloc: Global,
    plan: &Plan,
    place: u32,
    key: Key,
    cache: &mut C,
) -> Result<DryMark, RunErr>
    requires place { place < length plan.now.listing.parts }
    requires key { text_of key ≡ key_of plan.now.listing place }
    requires whole { IsTrue (C.state cache.old).whole }
    requires last { C.tells → AllLast (C.state cache.old) }
    ensures mark { C.tells → IfOk result (λ mark.
        mark ≡ dry_mark plan.now (C.state cache.old).pairs place) }
    ensures reads { CacheReads C.tells C.state C.cost C.stands C.shows C.moment C.left C.says
        cache.old cache.new }
    ensures probes { C.tells → (C.state cache.new).probes
        ≤ (C.state cache.old).probes + task_cost (C.cost cache.old) plan.now place }
    ensures whole { OnOk result (IsTrue (C.state cache.new).whole) }
    ensures cause { StopsBy (faults_of 0 (C.state cache.old).faults 0 0)
        (faults_of 0 (C.state cache.new).faults 0 0) result }
{
    if !plan.has_script(place) {
        return Ok(DryMark::NoScript);
    }
    if plan.bypasses(place) {
        return Ok(DryMark::Bypass);
    }
    match look_up(alloc, key, &plan.part(place).outs, cache)? {
        Some(_) => Ok(DryMark::Hit),
        None => Ok(DryMark::Miss),
    }
}

// The lines of a task. Its key is made and hashed once, for its digits and for the look-up.
fn block_of<C: Cache>(
    alloc: Global,
    plan: &Plan,
    place: u32,
    cache: &mut C,
) -> Result<Bytes, RunErr>
    requires plan { IsValidPlan plan.now }
    requires place { place < length plan.now.listing.parts }
    requires whole { IsTrue (C.state cache.old).whole }
    requires last { C.tells → AllLast (C.state cache.old) }
    ensures text { C.tells → IfOk result (λ text.
        text ≡ dry_block plan.now (C.state cache.old).pairs place) }
    ensures reads { CacheReads C.tells C.state C.cost C.stands C.shows C.moment C.left C.says
        cache.old cache.new }
    ensures probes { C.tells → (C.state cache.new).probes
        ≤ (C.state cache.old).probes + task_cost (C.cost cache.old) plan.now place }
    ensures whole { OnOk result (IsTrue (C.state cache.new).whole) }
    ensures cause { StopsBy (faults_of 0 (C.state cache.old).faults 0 0)
        (faults_of 0 (C.state cache.new).faults 0 0) result }
{
    let text = plan.key(alloc, place)?;
    let key = Key::new(text.as_slice());
    let digits = digits(alloc, key.print())?;
    let mark = mark_of(alloc, plan, place, key, cache)?;
    let block = plan.dry_block(alloc, place, &digits, mark)?;
    Ok(block)
}

// Puts the lines of a task.
fn put_block<C: Cache, K: Sink>(
    alloc: Global,
    plan: &Plan,
    place: u32,
    cache: &mut C,
    out: &mut K,
) -> Result<(), RunErr>
    requires plan { IsValidPlan plan.now }
    requires place { place < length plan.now.listing.parts }
    requires whole { IsTrue (C.state cache.old).whole }
    requires last { C.tells → AllLast (C.state cache.old) }
    ensures put { C.tells → K.tells → OnOk result (K.written out.new
        ≡ K.written out.old ++ dry_block plan.now (C.state cache.old).pairs place) }
    ensures torn { C.tells → K.tells → IfErr result (λ e. IsCut (is_sink_fault e)
        (dry_block plan.now (C.state cache.old).pairs place)
        (K.written out.old) (K.written out.new)) }
    ensures reads { CacheReads C.tells C.state C.cost C.stands C.shows C.moment C.left C.says
        cache.old cache.new }
    ensures probes { C.tells → (C.state cache.new).probes
        ≤ (C.state cache.old).probes + task_cost (C.cost cache.old) plan.now place }
    ensures whole { OnOk result (IsTrue (C.state cache.new).whole) }
    ensures cause { StopsBy (faults_of 0 (C.state cache.old).faults 0 (K.faults out.old))
        (faults_of 0 (C.state cache.new).faults 0 (K.faults out.new)) result }
{
    let text = block_of(alloc, plan, place, cache)?;
    put_text(alloc, text.as_slice(), out)?;
    Ok(())
}

/// Says for each task of the plan what a run would do with it: a block with the digits of its
/// fingerprint, whether the cache holds its result, its script and its direct dependencies. It
/// starts nothing and puts nothing into the cache, which has to be whole with nothing due, and
/// looks each task up once at most.
///
/// After a fault whole blocks were put, and of the next one some first part.
pub fn dry<C: Cache, K: Sink>(
    alloc: Global,
    plan: &Plan,
    cache: &mut C,
    out: &mut K,
) -> Result<(), RunErr>
    requires plan { IsValidPlan plan.now }
    requires whole { IsTrue (C.state cache.old).whole }
    requires last { C.tells → AllLast (C.state cache.old) }
    ensures page { C.tells → K.tells → OnOk result (K.written out.new
        ≡ K.written out.old ++ dry_page plan.now (C.state cache.old).pairs) }
    ensures torn { C.tells → K.tells → IfErr result (λ e.
        IsTornDry plan.now (C.state cache.old).pairs (is_sink_fault e)
        (K.written out.old) (K.written out.new)) }
    ensures whole { OnOk result (IsTrue (C.state cache.new).whole) }
    // whatever it answers
    ensures reads { CacheReads C.tells C.state C.cost C.stands C.shows C.moment C.left C.says
        cache.old cache.new }
    ensures bounded { C.tells → (C.state cache.new).probes
        ≤ (C.state cache.old).probes + look_up_cost (C.cost cache.old) plan.now }
    ensures cause { StopsBy (faults_of 0 (C.state cache.old).faults 0 (K.faults out.old))
        (faults_of 0 (C.state cache.new).faults 0 (K.faults out.new)) result }
{
    for place in 0..plan.size() {
        put_block(alloc, plan, place as u32, cache, out)?;
    }
    Ok(())
}
