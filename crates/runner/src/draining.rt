// Waiting for what still runs.
ghost use Rattle.std.specs.Prelude.{◌≡◌, ◌≤◌, ℕ, List};
ghost use Rattle.cache_api.specs.Pairs.{Pair};
ghost use Rattle.spawn_dev.specs.Spawn.{IsIdle};
ghost use Rattle.run_plan.specs.Openings.{Opening};
ghost use Rattle.run_plan.specs.Stories.{Now};
ghost use Rattle.run_plan.specs.StoryLaws.{Stands};
ghost use Rattle.runner.specs.Halting.{HaltsAt, WaitsFor, WorldGoes};
ghost use Rattle.runner.specs.Running.{AreOurs};

use run_plan::{Plan, halt_law};
use spawn_dev::Spawner;
use std::alloc::Global;

/// Waits for all commands that run.
pub fn drain<W: Spawner>(alloc: Global, plan: &Plan, world: &mut W)
    requires ours { AreOurs plan.now (W.runs world.old) }
    ensures idle { IsIdle (W.runs world.new) }
    ensures world { WorldGoes W.tells plan.now (W.runs world.old) (W.runs world.new)
        (W.state world.old) (W.state world.new) }
    ensures stays { W.tells → (o : Opening) (now : Now) (least : ℕ) (pairs : List Pair) (room : ℕ)
        → Stands plan.now o now
        → HaltsAt plan.now o now least (W.runs world.old) (W.state world.old).files pairs room
        → HaltsAt plan.now o now least (W.runs world.new) (W.state world.new).files pairs room }
    ensures waits { W.tells → WaitsFor (W.runs world.old) (W.runs world.new) }
    ensures tree { (W.state world.new).faults ≡ (W.state world.old).faults }
    ensures later { (W.runs world.old).faults ≤ (W.runs world.new).faults }
{
    halt_law();
    'waits: while !world.is_idle() {
        let _ = world.wait(alloc);
    }
}
