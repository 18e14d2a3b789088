// Hashing keys while commands run.
ghost use Rattle.std.specs.Prelude.{◌≡◌};
ghost use Rattle.run_plan.specs.Plans.{IsValidPlan};
ghost use Rattle.task_devices.specs.Stops.{OnlyMemory};
ghost use Rattle.run_board.specs.Ahead.{HashesAhead};
ghost use Rattle.run_board.specs.Boards.{IsBoard};

use run_board::Board;
use run_plan::Plan;
use spawn_dev::Spawner;
use std::alloc::Global;
use task_devices::RunErr;

/// Hashes the next keys as long as no command has ended.
pub fn hash_while_running<W: Spawner>(
    alloc: Global,
    plan: &Plan,
    board: &mut Board,
    world: &mut W,
) -> Result<(), RunErr>
    requires plan { IsValidPlan plan.now }
    requires board { IsBoard plan.now board.old }
    ensures board { IsBoard plan.now board.new }
    ensures hashed { HashesAhead board.old board.new }
    ensures runs { W.runs world.new ≡ W.runs world.old }
    ensures tree { W.state world.new ≡ W.state world.old }
    ensures memory { OnlyMemory result }
{
    'keys: while board.can_hash(plan) && !world.has_ended(alloc) {
        board.hash_next(alloc, plan)?;
    }
    Ok(())
}
