// Rounds of a run: turns, and what is shown after them.
ghost use Rattle.std.specs.Prelude.{◌≡◌, false, IsTrue, IfOk, IfErr, OnOk};
ghost use Rattle.cache_api.specs.Cache.{AllLast};
ghost use Rattle.run_core.specs.Core.{states};
ghost use Rattle.run_plan.specs.Openings.{Opening};
ghost use Rattle.run_plan.specs.Plans.{IsValidPlan};
ghost use Rattle.run_plan.specs.StoryLaws.{Stands};
ghost use Rattle.task_devices.specs.Stops.{StopsBy};
ghost use Rattle.runner.specs.Answers.{LeavesSafe, NoneLost, cause_of, faults_in};
ghost use Rattle.run_board.specs.Boards.{IsBoard, IsOver, IsRound, IsUpToDate};
ghost use Rattle.runner.specs.Costs.{Spends, SpendsAtMost};
ghost use Rattle.runner.specs.Halting.{CacheGoes, StopsFrom, WorldGoes};
ghost use Rattle.run_board.specs.Progress.{PageGoesOn, StaysOn, now_of};
ghost use Rattle.runner.specs.Running.{InStep};

use crate::turns::turn;
use cache_api::Cache;
use run_board::{Board, show_settled};
use run_plan::{Plan, halt_law, story_law};
use spawn_dev::Spawner;
use std::alloc::Global;
use task_devices::RunErr;
use tree_dev::Sink;

// One turn of a run, and what can be shown after it.
fn round<W: Spawner, C: Cache, K: Sink>(
    alloc: Global,
    plan: &Plan,
    board: &mut Board,
    world: &mut W,
    cache: &mut C,
    out: &mut K,
) -> Result<bool, RunErr>
    requires plan { IsValidPlan plan.now }
    requires current { IsUpToDate plan.now board.old }
    requires steps { InStep plan.now (states board.old.core) (W.runs world.old) }
    requires whole { IsTrue (C.state cache.old).whole }
    ensures round { IfOk result (IsRound plan.now board.old board.new) }
    ensures steps { OnOk result (InStep plan.now (states board.new.core) (W.runs world.new)) }
    ensures whole { OnOk result (IsTrue (C.state cache.new).whole) }
    ensures last { C.tells → IfOk result (λ more. more ≡ false → AllLast (C.state cache.new)) }
    ensures world { WorldGoes W.tells plan.now (W.runs world.old) (W.runs world.new)
        (W.state world.old) (W.state world.new) }
    ensures cache { CacheGoes C.tells C.state C.moment C.left C.says cache.old cache.new }
    ensures stands { W.tells → C.tells → OnOk result (StaysOn plan.now
        (now_of board.old W.effect (W.runs world.old) (W.state world.old) (C.state cache.old))
        (now_of board.new W.effect (W.runs world.new) (W.state world.new) (C.state cache.new))) }
    ensures page { W.tells → C.tells → K.tells → OnOk result (PageGoesOn plan.now
        (now_of board.old W.effect (W.runs world.old) (W.state world.old) (C.state cache.old))
        (now_of board.new W.effect (W.runs world.new) (W.state world.new) (C.state cache.new))
        (K.written out.old) (K.written out.new)) }
    ensures stops { W.tells → C.tells → IfErr result (λ e. StopsFrom plan.now
        (now_of board.old W.effect (W.runs world.old) (W.state world.old) (C.state cache.old))
        (W.runs world.new) (W.state world.new).files (C.state cache.new).pairs
        (C.state cache.new).lasting (C.state cache.new).room
        (NoneLost e (C.state cache.old).faults (C.state cache.new).faults) (cause_of e) K.tells
        (K.written out.old) (K.written out.new)) }
    ensures left { W.tells → C.tells → (o : Opening) → Stands plan.now o
        (now_of board.old W.effect (W.runs world.old) (W.state world.old) (C.state cache.old))
        → LeavesSafe C.state C.moment C.left C.says plan.now o (W.runs world.new).steps
        cache.old cache.new }
    ensures stays { W.tells → C.tells → (W.runs world.new).steps ≡ (W.runs world.old).steps
        → AllLast (C.state cache.old) → AllLast (C.state cache.new) }
    ensures spends { W.tells → C.tells → (W.runs world.new).steps ≡ (W.runs world.old).steps
        → AllLast (C.state cache.old)
        → OnOk result (Spends plan.now C.state C.cost (states board.old.core)
        (states board.new.core) cache.old cache.new) }
    ensures spent { W.tells → C.tells → (W.runs world.new).steps ≡ (W.runs world.old).steps
        → AllLast (C.state cache.old)
        → SpendsAtMost plan.now C.state C.cost (states board.old.core) cache.old cache.new }
    ensures cause { StopsBy
        (faults_in (W.state world.old) (C.state cache.old) (W.runs world.old) (K.faults out.old))
        (faults_in (W.state world.new) (C.state cache.new) (W.runs world.new) (K.faults out.new))
        result }
{
    story_law();
    halt_law();
    let more = turn(alloc, plan, board, world, cache)?;
    show_settled(alloc, plan, board, out)?;
    Ok(more)
}

/// All turns of a run.
pub fn rounds<W: Spawner, C: Cache, K: Sink>(
    alloc: Global,
    plan: &Plan,
    board: &mut Board,
    world: &mut W,
    cache: &mut C,
    out: &mut K,
) -> Result<(), RunErr>
    requires plan { IsValidPlan plan.now }
    requires current { IsUpToDate plan.now board.old }
    requires steps { InStep plan.now (states board.old.core) (W.runs world.old) }
    requires whole { IsTrue (C.state cache.old).whole }
    ensures board { OnOk result (IsBoard plan.now board.new) }
    ensures over { OnOk result (IsOver plan.now board.new) }
    ensures steps { OnOk result (InStep plan.now (states board.new.core) (W.runs world.new)) }
    ensures whole { OnOk result (IsTrue (C.state cache.new).whole) }
    ensures last { C.tells → OnOk result (AllLast (C.state cache.new)) }
    ensures world { WorldGoes W.tells plan.now (W.runs world.old) (W.runs world.new)
        (W.state world.old) (W.state world.new) }
    ensures cache { CacheGoes C.tells C.state C.moment C.left C.says cache.old cache.new }
    ensures stands { W.tells → C.tells → OnOk result (StaysOn plan.now
        (now_of board.old W.effect (W.runs world.old) (W.state world.old) (C.state cache.old))
        (now_of board.new W.effect (W.runs world.new) (W.state world.new) (C.state cache.new))) }
    ensures page { W.tells → C.tells → K.tells → OnOk result (PageGoesOn plan.now
        (now_of board.old W.effect (W.runs world.old) (W.state world.old) (C.state cache.old))
        (now_of board.new W.effect (W.runs world.new) (W.state world.new) (C.state cache.new))
        (K.written out.old) (K.written out.new)) }
    ensures stops { W.tells → C.tells → IfErr result (λ e. StopsFrom plan.now
        (now_of board.old W.effect (W.runs world.old) (W.state world.old) (C.state cache.old))
        (W.runs world.new) (W.state world.new).files (C.state cache.new).pairs
        (C.state cache.new).lasting (C.state cache.new).room
        (NoneLost e (C.state cache.old).faults (C.state cache.new).faults) (cause_of e) K.tells
        (K.written out.old) (K.written out.new)) }
    ensures left { W.tells → C.tells → (o : Opening) → Stands plan.now o
        (now_of board.old W.effect (W.runs world.old) (W.state world.old) (C.state cache.old))
        → LeavesSafe C.state C.moment C.left C.says plan.now o (W.runs world.new).steps
        cache.old cache.new }
    ensures stays { W.tells → C.tells → (W.runs world.new).steps ≡ (W.runs world.old).steps
        → AllLast (C.state cache.old) → AllLast (C.state cache.new) }
    ensures spent { W.tells → C.tells → (W.runs world.new).steps ≡ (W.runs world.old).steps
        → AllLast (C.state cache.old)
        → SpendsAtMost plan.now C.state C.cost (states board.old.core) cache.old cache.new }
    ensures cause { StopsBy
        (faults_in (W.state world.old) (C.state cache.old) (W.runs world.old) (K.faults out.old))
        (faults_in (W.state world.new) (C.state cache.new) (W.runs world.new) (K.faults out.new))
        result }
{
    halt_law();
    let mut more = true;
    'turns: while more {
        more = round(alloc, plan, board, world, cache, out)?;
    }
    Ok(())
}
