// Looking tasks up.
ghost use Rattle.std.specs.Prelude.{◌≡◌, ◌+◌, ◌≤◌, ◌<◌, length, true, false, ⊤, IsTrue, IfOk, IfErr, OnOk, OnErr};
ghost use Rattle.globs.specs.OwnedFiles.{restored};
ghost use Rattle.cache_api.specs.Cache.{CacheReads, AllLast, due_in};
ghost use Rattle.cache_api.specs.Hits.{paths_ascend, owns_paths, span_count};
ghost use Rattle.cache_api.specs.Keys as keys;
ghost use Rattle.cache_api.specs.Pairs.{LacksKey};
ghost use Rattle.run_core.specs.Core.{rules, states};
ghost use Rattle.run_core.specs.Machine.{next};
ghost use Rattle.run_laws.specs.Ancestors.{part_at, has_script};
ghost use Rattle.run_laws.specs.Keys.{key_of};
ghost use Rattle.run_laws.specs.Plans.{log_path};
ghost use Rattle.run_laws.specs.Worlds.{logged};
ghost use Rattle.run_plan.specs.Answers.{SameElsewhere};
ghost use Rattle.run_plan.specs.Openings.{Opening};
ghost use Rattle.run_plan.specs.Pages.{digits_of};
ghost use Rattle.run_plan.specs.Plans.{IsValidPlan, bypasses};
ghost use Rattle.run_plan.specs.StoryLaws.{Stands};
ghost use Rattle.task_devices.specs.Devices.{IsFree, OnlyAt};
ghost use Rattle.task_devices.specs.Stops.{StopsBy};
ghost use Rattle.runner.specs.Answers.{LeavesSafe, NoneLost, faults_in};
ghost use Rattle.run_board.specs.Boards.{IsBoard, IsMove};
ghost use Rattle.runner.specs.Costs.{Spends, SpendsAtMost};
ghost use Rattle.runner.specs.Halting.{CacheGoes, HaltsFrom};
ghost use Rattle.run_board.specs.Progress.{StaysOn, now_of};
ghost use Rattle.runner.specs.Running.{InStep};

use crate::settling::settle_before_look_up;
use cache_api::{Cache, Hit, Key};
use rel_path::{Bytes, Text};
use run_board::Board;
use run_core::Next;
use run_plan::{Plan, digits, halt_law, story_law};
use spawn_dev::Spawner;
use std::alloc::Global;
use task_devices::{RunErr, keep_log, look_up, put_back};

// Puts a found result back: the task's files and its log file. It answers the digits of the
// fingerprint and the log.
fn replay<W: Spawner, C: Cache>(
    alloc: Global,
    plan: &Plan,
    place: u32,
    key: Key,
    hit: &Hit,
    world: &mut W,
    cache: &mut C,
) -> Result<(Text, Bytes), RunErr>
    requires place { place < length plan.now.listing.parts }
    requires key { keys.text_of key ≡ key_of plan.now.listing place }
    requires free { IsFree plan.now place (W.state world.old).held }
    requires log_free { (W.state world.old).held
        (log_path (part_at plan.now.listing place)) ≡ false }
    requires whole { IsTrue (C.state cache.old).whole }
    requires stands { C.stands cache.old hit.now }
    requires owns { IsTrue (owns_paths (part_at plan.now.listing place).outs hit.now) }
    requires ascend { IsTrue (paths_ascend hit.now) }
    ensures runs { W.runs world.new ≡ W.runs world.old }
    ensures others { W.tells
        → OnlyAt plan.now place (W.state world.old).files (W.state world.new).files }
    ensures replayed { W.tells → C.tells → OnOk result ((W.state world.new).files
        ≡ logged (part_at plan.now.listing place) (C.shows cache.old hit.now).0
        (restored (part_at plan.now.listing place).outs (C.shows cache.old hit.now).1
        (W.state world.old).files)) }
    ensures digits { IfOk result (λ replayed. replayed.0 ≡ digits_of plan.now place) }
    ensures log { C.tells → IfOk result (λ replayed. replayed.1 ≡ (C.shows cache.old hit.now).0) }
    ensures reads { CacheReads C.tells C.state C.cost C.stands C.shows C.moment C.left C.says
        cache.old cache.new }
    ensures probes { (C.state cache.new).probes ≤ (C.state cache.old).probes + span_count hit.now }
    ensures whole { OnOk result (IsTrue (C.state cache.new).whole) }
    ensures cause { StopsBy
        (faults_in (W.state world.old) (C.state cache.old) (W.runs world.old) 0)
        (faults_in (W.state world.new) (C.state cache.new) (W.runs world.new) 0)
        result }
{
    let log = put_back(alloc, plan, place, hit, world, cache)?;
    keep_log(alloc, plan, place, log.as_slice(), world)?;
    let digits = digits(alloc, key.print())?;
    Ok((digits, log))
}

// Asks the cache for a task by its key, with which nothing is due. One that is found is replayed,
// and another one is to run.
fn ask_by<W: Spawner, C: Cache>(
    alloc: Global,
    plan: &Plan,
    place: u32,
    key: Key,
    board: &mut Board,
    world: &mut W,
    cache: &mut C,
) -> Result<(), RunErr>
    requires plan { IsValidPlan plan.now }
    requires place { place < length plan.now.listing.parts }
    requires board { IsBoard plan.now board.old }
    requires steps { InStep plan.now (states board.old.core) (W.runs world.old) }
    requires whole { IsTrue (C.state cache.old).whole }
    requires next { next (rules board.old.core) (states board.old.core) ≡ Next.Lookup place }
    requires script { has_script (part_at plan.now.listing place) ≡ true }
    requires asks { bypasses plan.now place ≡ false }
    requires key { keys.text_of key ≡ key_of plan.now.listing place }
    requires due { C.tells → LacksKey (keys.text_of key) (due_in (C.state cache.old)) }
    ensures moved { OnOk result (IsMove plan.now board.old board.new) }
    ensures steps { OnOk result (InStep plan.now (states board.new.core) (W.runs world.new)) }
    ensures whole { OnOk result (IsTrue (C.state cache.new).whole) }
    ensures runs { W.runs world.new ≡ W.runs world.old }
    ensures elsewhere { W.tells
        → SameElsewhere plan.now (W.state world.old).files (W.state world.new).files }
    ensures reads { CacheReads C.tells C.state C.cost C.stands C.shows C.moment C.left C.says
        cache.old cache.new }
    ensures stands { W.tells → C.tells → OnOk result (StaysOn plan.now
        (now_of board.old W.effect (W.runs world.old) (W.state world.old) (C.state cache.old))
        (now_of board.new W.effect (W.runs world.new) (W.state world.new) (C.state cache.new))) }
    ensures halts { W.tells → C.tells → OnErr result (HaltsFrom plan.now
        (now_of board.old W.effect (W.runs world.old) (W.state world.old) (C.state cache.old))
        (W.runs world.new) (W.state world.new).files (C.state cache.new).pairs
        (C.state cache.new).lasting (C.state cache.new).room ⊤) }
    ensures spends { C.tells → OnOk result (Spends plan.now C.state C.cost
        (states board.old.core) (states board.new.core) cache.old cache.new) }
    ensures spent { C.tells → SpendsAtMost plan.now C.state C.cost (states board.old.core)
        cache.old cache.new }
    ensures cause { StopsBy
        (faults_in (W.state world.old) (C.state cache.old) (W.runs world.old) 0)
        (faults_in (W.state world.new) (C.state cache.new) (W.runs world.new) 0)
        result }
{
    story_law();
    halt_law();
    match look_up(alloc, key, &plan.part(place).outs, cache)? {
        None => {
            board.miss(plan, place, Some(*key.print()));
            Ok(())
        }
        Some(hit) => {
            let (digits, log) = replay(alloc, plan, place, key, &hit, world, cache)?;
            board.hit(plan, place, digits, log);
            Ok(())
        }
    }
}

// Asks the cache for a task. What is due is put before, where a result with its key may be due.
fn ask<W: Spawner, C: Cache>(
    alloc: Global,
    plan: &Plan,
    place: u32,
    board: &mut Board,
    world: &mut W,
    cache: &mut C,
) -> Result<(), RunErr>
    requires plan { IsValidPlan plan.now }
    requires place { place < length plan.now.listing.parts }
    requires board { IsBoard plan.now board.old }
    requires steps { InStep plan.now (states board.old.core) (W.runs world.old) }
    requires whole { IsTrue (C.state cache.old).whole }
    requires next { next (rules board.old.core) (states board.old.core) ≡ Next.Lookup place }
    requires script { has_script (part_at plan.now.listing place) ≡ true }
    requires asks { bypasses plan.now place ≡ false }
    ensures moved { OnOk result (IsMove plan.now board.old board.new) }
    ensures steps { OnOk result (InStep plan.now (states board.new.core) (W.runs world.new)) }
    ensures whole { OnOk result (IsTrue (C.state cache.new).whole) }
    ensures runs { W.runs world.new ≡ W.runs world.old }
    ensures elsewhere { W.tells
        → SameElsewhere plan.now (W.state world.old).files (W.state world.new).files }
    ensures cache { CacheGoes C.tells C.state C.moment C.left C.says cache.old cache.new }
    ensures stands { W.tells → C.tells → OnOk result (StaysOn plan.now
        (now_of board.old W.effect (W.runs world.old) (W.state world.old) (C.state cache.old))
        (now_of board.new W.effect (W.runs world.new) (W.state world.new) (C.state cache.new))) }
    ensures halts { W.tells → C.tells → IfErr result (λ e. HaltsFrom plan.now
        (now_of board.old W.effect (W.runs world.old) (W.state world.old) (C.state cache.old))
        (W.runs world.new) (W.state world.new).files (C.state cache.new).pairs
        (C.state cache.new).lasting (C.state cache.new).room
        (NoneLost e (C.state cache.old).faults (C.state cache.new).faults)) }
    ensures left { W.tells → C.tells → (o : Opening) → Stands plan.now o
        (now_of board.old W.effect (W.runs world.old) (W.state world.old) (C.state cache.old))
        → LeavesSafe C.state C.moment C.left C.says plan.now o (W.runs world.new).steps
        cache.old cache.new }
    ensures stays { C.tells → AllLast (C.state cache.old) → AllLast (C.state cache.new) }
    ensures spends { C.tells → AllLast (C.state cache.old) → OnOk result (Spends plan.now
        C.state C.cost (states board.old.core) (states board.new.core) cache.old cache.new) }
    ensures spent { C.tells → AllLast (C.state cache.old) → SpendsAtMost plan.now C.state
        C.cost (states board.old.core) cache.old cache.new }
    ensures cause { StopsBy
        (faults_in (W.state world.old) (C.state cache.old) (W.runs world.old) 0)
        (faults_in (W.state world.new) (C.state cache.new) (W.runs world.new) 0)
        result }
{
    story_law();
    halt_law();
    let print = board.fingerprint(alloc, plan, place)?;
    let text = plan.key(alloc, place)?;
    let key = Key::with_print(text.as_slice(), print);
    settle_before_look_up(alloc, &key, cache)?;
    ask_by(alloc, plan, place, key, board, world, cache)
}

/// Looks a task up. One without a script is passed over, one that is found is replayed, and
/// another one is to run.
pub fn look<W: Spawner, C: Cache>(
    alloc: Global,
    plan: &Plan,
    place: u32,
    board: &mut Board,
    world: &mut W,
    cache: &mut C,
) -> Result<(), RunErr>
    requires plan { IsValidPlan plan.now }
    requires place { place < length plan.now.listing.parts }
    requires board { IsBoard plan.now board.old }
    requires steps { InStep plan.now (states board.old.core) (W.runs world.old) }
    requires whole { IsTrue (C.state cache.old).whole }
    requires next { next (rules board.old.core) (states board.old.core) ≡ Next.Lookup place }
    ensures moved { OnOk result (IsMove plan.now board.old board.new) }
    ensures steps { OnOk result (InStep plan.now (states board.new.core) (W.runs world.new)) }
    ensures whole { OnOk result (IsTrue (C.state cache.new).whole) }
    ensures runs { W.runs world.new ≡ W.runs world.old }
    ensures elsewhere { W.tells
        → SameElsewhere plan.now (W.state world.old).files (W.state world.new).files }
    ensures cache { CacheGoes C.tells C.state C.moment C.left C.says cache.old cache.new }
    ensures stands { W.tells → C.tells → OnOk result (StaysOn plan.now
        (now_of board.old W.effect (W.runs world.old) (W.state world.old) (C.state cache.old))
        (now_of board.new W.effect (W.runs world.new) (W.state world.new) (C.state cache.new))) }
    ensures halts { W.tells → C.tells → IfErr result (λ e. HaltsFrom plan.now
        (now_of board.old W.effect (W.runs world.old) (W.state world.old) (C.state cache.old))
        (W.runs world.new) (W.state world.new).files (C.state cache.new).pairs
        (C.state cache.new).lasting (C.state cache.new).room
        (NoneLost e (C.state cache.old).faults (C.state cache.new).faults)) }
    ensures left { W.tells → C.tells → (o : Opening) → Stands plan.now o
        (now_of board.old W.effect (W.runs world.old) (W.state world.old) (C.state cache.old))
        → LeavesSafe C.state C.moment C.left C.says plan.now o (W.runs world.new).steps
        cache.old cache.new }
    ensures stays { C.tells → AllLast (C.state cache.old) → AllLast (C.state cache.new) }
    ensures spends { C.tells → AllLast (C.state cache.old) → OnOk result (Spends plan.now
        C.state C.cost (states board.old.core) (states board.new.core) cache.old cache.new) }
    ensures spent { C.tells → AllLast (C.state cache.old) → SpendsAtMost plan.now C.state
        C.cost (states board.old.core) cache.old cache.new }
    ensures cause { StopsBy
        (faults_in (W.state world.old) (C.state cache.old) (W.runs world.old) 0)
        (faults_in (W.state world.new) (C.state cache.new) (W.runs world.new) 0)
        result }
{
    story_law();
    halt_law();
    if !plan.has_script(place) {
        board.pass(plan, place);
        return Ok(());
    }
    if plan.bypasses(place) {
        board.miss(plan, place, None);
        return Ok(());
    }
    ask(alloc, plan, place, board, world, cache)
}
