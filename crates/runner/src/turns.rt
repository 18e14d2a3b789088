// The turns of a run.
ghost use Rattle.std.specs.Prelude.{◌≡◌, false, IsTrue, IfOk, IfErr, OnOk};
ghost use Rattle.cache_api.specs.Cache.{AllLast};
ghost use Rattle.run_core.specs.Core.{states};
ghost use Rattle.run_plan.specs.Openings.{Opening};
ghost use Rattle.run_plan.specs.Plans.{IsValidPlan};
ghost use Rattle.run_plan.specs.StoryLaws.{Stands};
ghost use Rattle.task_devices.specs.Stops.{StopsBy};
ghost use Rattle.runner.specs.Answers.{LeavesSafe, NoneLost, faults_in};
ghost use Rattle.run_board.specs.Boards.{IsBoard, IsTurn};
ghost use Rattle.runner.specs.Costs.{Spends, SpendsAtMost};
ghost use Rattle.runner.specs.Halting.{CacheGoes, HaltsFrom, WorldGoes};
ghost use Rattle.run_board.specs.Progress.{StaysOn, now_of};
ghost use Rattle.runner.specs.Running.{InStep};

use crate::ending::wait_first;
use crate::looking::look;
use crate::settling::settle_all;
use crate::starting::begin;
use cache_api::Cache;
use run_board::Board;
use run_core::Next;
use run_plan::{Plan, halt_law, story_law};
use spawn_dev::Spawner;
use std::alloc::Global;
use task_devices::RunErr;

/// One turn of a run, as the scheduler says: a look-up, a start or an end. It answers whether
/// there was one; where there was none, what is due is put.
pub fn turn<W: Spawner, C: Cache>(
    alloc: Global,
    plan: &Plan,
    board: &mut Board,
    world: &mut W,
    cache: &mut C,
) -> Result<bool, RunErr>
    requires plan { IsValidPlan plan.now }
    requires board { IsBoard plan.now board.old }
    requires steps { InStep plan.now (states board.old.core) (W.runs world.old) }
    requires whole { IsTrue (C.state cache.old).whole }
    ensures turned { IfOk result (IsTurn plan.now board.old board.new) }
    ensures steps { OnOk result (InStep plan.now (states board.new.core) (W.runs world.new)) }
    ensures whole { OnOk result (IsTrue (C.state cache.new).whole) }
    ensures last { C.tells → IfOk result (λ more. more ≡ false → AllLast (C.state cache.new)) }
    ensures world { WorldGoes W.tells plan.now (W.runs world.old) (W.runs world.new)
        (W.state world.old) (W.state world.new) }
    ensures cache { CacheGoes C.tells C.state C.moment C.left C.says cache.old cache.new }
    ensures stands { W.tells → C.tells → OnOk result (StaysOn plan.now
        (now_of board.old W.effect (W.runs world.old) (W.state world.old) (C.state cache.old))
        (now_of board.new W.effect (W.runs world.new) (W.state world.new) (C.state cache.new))) }
    ensures halts { W.tells → C.tells → IfErr result (λ e. HaltsFrom plan.now
        (now_of board.old W.effect (W.runs world.old) (W.state world.old) (C.state cache.old))
        (W.runs world.new) (W.state world.new).files (C.state cache.new).pairs
        (C.state cache.new).lasting (C.state cache.new).room
        (NoneLost e (C.state cache.old).faults (C.state cache.new).faults)) }
    ensures left { W.tells → C.tells → (o : Opening) → Stands plan.now o
        (now_of board.old W.effect (W.runs world.old) (W.state world.old) (C.state cache.old))
        → LeavesSafe C.state C.moment C.left C.says plan.now o (W.runs world.new).steps
        cache.old cache.new }
    ensures stays { W.tells → C.tells → (W.runs world.new).steps ≡ (W.runs world.old).steps
        → AllLast (C.state cache.old) → AllLast (C.state cache.new) }
    ensures spends { W.tells → C.tells → (W.runs world.new).steps ≡ (W.runs world.old).steps
        → AllLast (C.state cache.old)
        → OnOk result (Spends plan.now C.state C.cost (states board.old.core)
        (states board.new.core) cache.old cache.new) }
    ensures spent { W.tells → C.tells → (W.runs world.new).steps ≡ (W.runs world.old).steps
        → AllLast (C.state cache.old)
        → SpendsAtMost plan.now C.state C.cost (states board.old.core) cache.old cache.new }
    ensures cause { StopsBy
        (faults_in (W.state world.old) (C.state cache.old) (W.runs world.old) 0)
        (faults_in (W.state world.new) (C.state cache.new) (W.runs world.new) 0)
        result }
{
    story_law();
    halt_law();
    match board.core.next() {
        Next::Lookup(place) => {
            look(alloc, plan, place, board, world, cache)?;
            Ok(true)
        }
        Next::Start(place) => {
            begin(alloc, plan, place, board, world)?;
            Ok(true)
        }
        Next::WaitFirst => {
            wait_first(alloc, plan, board, world, cache)?;
            Ok(true)
        }
        Next::Finished => {
            settle_all(alloc, cache)?;
            Ok(false)
        }
    }
}
