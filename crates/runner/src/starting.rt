// Starting commands.
ghost use Rattle.std.specs.Prelude.{◌≡◌, ◌<◌, ℕ, List, length, ⊤, OnOk, OnErr};
ghost use Rattle.cache_api.specs.Pairs.{Pair, AreFirst};
ghost use Rattle.run_core.specs.Core.{rules, states};
ghost use Rattle.run_core.specs.Machine.{next, put, IsCalm};
ghost use Rattle.run_plan.specs.Answers.{IsSafe};
ghost use Rattle.run_plan.specs.Openings.{Opening, rules_of};
ghost use Rattle.run_plan.specs.Plans.{IsValidPlan};
ghost use Rattle.run_plan.specs.StoryLaws.{Stands};
ghost use Rattle.task_devices.specs.Stops.{faults_of, StopsBy};
ghost use Rattle.run_board.specs.Boards.{IsBoard, IsMove};
ghost use Rattle.runner.specs.Halting.{HaltsFrom, WorldGoes};
ghost use Rattle.run_board.specs.Progress.{StaysOn, now_at};
ghost use Rattle.runner.specs.Running.{InStep};

use run_board::Board;
use run_core::{Next, State};
use run_laws::closure_is_valid;
use run_plan::{Plan, halt_law, story_law};
use spawn_dev::Spawner;
use std::alloc::Global;
use task_devices::{RunErr, clear_owned, start};

/// Starts the command of a task, whose owned files are removed before.
pub fn begin<W: Spawner>(
    alloc: Global,
    plan: &Plan,
    place: u32,
    board: &mut Board,
    world: &mut W,
) -> Result<(), RunErr>
    requires plan { IsValidPlan plan.now }
    requires place { place < length plan.now.listing.parts }
    requires board { IsBoard plan.now board.old }
    requires steps { InStep plan.now (states board.old.core) (W.runs world.old) }
    requires calm { IsCalm (rules_of plan.now) (states board.old.core) }
    requires next { next (rules board.old.core) (states board.old.core) ≡ Next.Start place }
    ensures moved { OnOk result (IsMove plan.now board.old board.new) }
    ensures begun { OnOk result (states board.new.core
        ≡ put (states board.old.core) place State.Running) }
    ensures steps { OnOk result (InStep plan.now (states board.new.core) (W.runs world.new)) }
    ensures world { WorldGoes W.tells plan.now (W.runs world.old) (W.runs world.new)
        (W.state world.old) (W.state world.new) }
    ensures stands { W.tells → OnOk result ((pairs : List Pair) (lasting room : ℕ)
        → StaysOn plan.now
        (now_at board.old W.effect (W.runs world.old) (W.state world.old) pairs lasting room)
        (now_at board.new W.effect (W.runs world.new) (W.state world.new) pairs lasting room)) }
    ensures halts { W.tells → OnErr result ((pairs : List Pair) (lasting room : ℕ)
        → HaltsFrom plan.now
        (now_at board.old W.effect (W.runs world.old) (W.state world.old) pairs lasting room)
        (W.runs world.new) (W.state world.new).files pairs lasting room ⊤) }
    ensures safe { W.tells → (o : Opening) (pairs left : List Pair) (lasting room : ℕ)
        → Stands plan.now o
        (now_at board.old W.effect (W.runs world.old) (W.state world.old) pairs lasting room)
        → AreFirst lasting pairs left → IsSafe plan.now o room (W.runs world.new).steps left }
    ensures cause { StopsBy (faults_of (W.state world.old).faults 0 (W.runs world.old).faults 0)
        (faults_of (W.state world.new).faults 0 (W.runs world.new).faults 0) result }
{
    story_law();
    halt_law();
    closure_is_valid();
    let command = plan.command(alloc, place)?;
    clear_owned(alloc, plan, place, world)?;
    start(alloc, command, world)?;
    board.begin(plan, place);
    Ok(())
}
