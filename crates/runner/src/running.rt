// A whole run.
ghost use Rattle.std.specs.Prelude.{◌≡◌, ◌+◌, ◌≤◌, false, IsTrue, IfOk, IfErr, OnOk};
ghost use Rattle.cache_api.specs.Cache.{Keeps, AllLast};
ghost use Rattle.run_laws.specs.Runs.{IsReady};
ghost use Rattle.run_plan.specs.Answers.{Ran, Stopped, SameElsewhere};
ghost use Rattle.run_plan.specs.Costs.{look_up_cost};
ghost use Rattle.run_plan.specs.Openings.{setting_of, HoldsInputs};
ghost use Rattle.run_plan.specs.Plans.{IsValidPlan};
ghost use Rattle.spawn_dev.specs.Spawn.{IsIdle};
ghost use Rattle.task_devices.specs.Stops.{StopsBy, EndsBy};
ghost use Rattle.runner.specs.Answers.{AllEnd, Grows, IsSettled, LeavesFurther, LeavesSafe, NoneLost, cause_of, is_start_fault, opening_of, faults_in};
ghost use Rattle.runner.specs.Halting.{CacheGoes, StopsNow, WorldGoes};

use crate::draining::drain;
use crate::rounds::rounds;
use crate::settling::settle_after_fault;
use cache_api::Cache;
use run_board::{Board, conclude};
use run_plan::{Plan, halt_law, story_law};
use spawn_dev::Spawner;
use std::alloc::Global;
use task_devices::RunErr;
use tree_dev::Sink;

// A run, which may stop while commands run.
fn run_through<W: Spawner, C: Cache, K: Sink>(
    alloc: Global,
    plan: &Plan,
    world: &mut W,
    cache: &mut C,
    out: &mut K,
) -> Result<u8, RunErr>
    requires plan { IsValidPlan plan.now }
    requires idle { IsIdle (W.runs world.old) }
    requires whole { IsTrue (C.state cache.old).whole }
    requires last { C.tells → AllLast (C.state cache.old) }
    ensures idle { OnOk result (IsIdle (W.runs world.new)) }
    ensures whole { OnOk result (IsTrue (C.state cache.new).whole) }
    ensures last { C.tells → OnOk result (AllLast (C.state cache.new)) }
    ensures stays { W.tells → C.tells → (W.runs world.new).steps ≡ (W.runs world.old).steps
        → AllLast (C.state cache.new) }
    ensures world { WorldGoes W.tells plan.now (W.runs world.old) (W.runs world.new)
        (W.state world.old) (W.state world.new) }
    ensures cache { CacheGoes C.tells C.state C.moment C.left C.says cache.old cache.new }
    ensures ran { W.tells → C.tells → IsReady (setting_of plan.now
        (opening_of W.effect (W.runs world.old) (W.state world.old) (C.state cache.old)))
        → IfOk result (Ran plan.now
        (opening_of W.effect (W.runs world.old) (W.state world.old) (C.state cache.old))
        (W.state world.new).files (C.state cache.new).pairs (C.state cache.new).room
        (W.runs world.new).steps K.tells (K.written out.old) (K.written out.new)) }
    ensures stops { W.tells → C.tells → IsReady (setting_of plan.now
        (opening_of W.effect (W.runs world.old) (W.state world.old) (C.state cache.old)))
        → IfErr result (λ e. StopsNow plan.now
        (opening_of W.effect (W.runs world.old) (W.state world.old) (C.state cache.old))
        (W.runs world.new) (W.state world.new).files (C.state cache.new).pairs
        (C.state cache.new).lasting (C.state cache.new).room
        (NoneLost e (C.state cache.old).faults (C.state cache.new).faults) (cause_of e) K.tells
        (K.written out.old) (K.written out.new)) }
    ensures left { W.tells → C.tells → IsReady (setting_of plan.now
        (opening_of W.effect (W.runs world.old) (W.state world.old) (C.state cache.old)))
        → LeavesSafe C.state C.moment C.left C.says plan.now
        (opening_of W.effect (W.runs world.old) (W.state world.old) (C.state cache.old))
        (W.runs world.new).steps cache.old cache.new }
    ensures bounded { W.tells → C.tells → (W.runs world.new).steps ≡ (W.runs world.old).steps
        → (C.state cache.new).probes
        ≤ (C.state cache.old).probes + look_up_cost (C.cost cache.old) plan.now }
    ensures cause { StopsBy
        (faults_in (W.state world.old) (C.state cache.old) (W.runs world.old) (K.faults out.old))
        (faults_in (W.state world.new) (C.state cache.new) (W.runs world.new) (K.faults out.new))
        result }
{
    story_law();
    halt_law();
    let mut board = Board::new(alloc, plan)?;
    rounds(alloc, plan, &mut board, world, cache, out)?;
    conclude(alloc, plan, &mut board, out)?;
    Ok(board.reports.worst())
}

/// Runs the plan. Tasks are looked up in the cache and replayed, or their commands started and
/// waited for, as many at once as the plan's width says; good results are put into the cache; the
/// block of a task is printed as soon as no earlier task is unsettled, and the summary at the end.
/// The answer is the greatest status, and 0 where no task failed.
///
/// Nothing may run in the world, the cache has to be whole with nothing due, and where the world
/// tells its files they have to hold the listing's bytes at its inputs.
///
/// The cache may hold results back. What is due is put before a look-up that may need it, before a
/// wait where no command has ended yet, and when the run is over; all results last then.
///
/// Of several faults the first is answered, after what is due was put, if the cache may still be
/// used, and all running commands were waited for. The files, pairs, steps and page are then those
/// of a run that came some way by the rules of the plan: each task that was done has left what it
/// leaves, the page has whole blocks in the order of the plan, and where the output failed some
/// first part of what follows. Where another device failed, no block waits to be printed. Where it
/// was the output, the cache did not fail and nothing is due, no result of an end that the run dealt
/// with was lost.
///
/// A crash at any moment leaves in the cache the pairs of the beginning, and behind them some of the
/// results that the run puts there. A run that only looks tasks up reads the cache no more often
/// than one look-up of each task may.
///
/// The key of a task is made when it is looked up, and once more when its command has ended; it is
/// not kept meanwhile, but its fingerprint is. It is hashed once, together with the keys of up to
/// three other tasks, and is made once more for that: while a command runs and none has ended, or
/// else when the first of them is looked up. Beyond that, a task costs about as much as its closure
/// has bytes.
pub fn run<W: Spawner, C: Cache, K: Sink>(
    alloc: Global,
    plan: &Plan,
    world: &mut W,
    cache: &mut C,
    out: &mut K,
) -> Result<u8, RunErr>
    requires plan { IsValidPlan plan.now }
    requires idle { IsIdle (W.runs world.old) }
    requires whole { IsTrue (C.state cache.old).whole }
    requires last { C.tells → AllLast (C.state cache.old) }
    requires inputs { W.tells → HoldsInputs plan.now (W.state world.old).files }

    // Whatever it answers.
    ensures idle { IsIdle (W.runs world.new) }
    ensures book { (W.runs world.new).book ≡ (W.runs world.old).book }
    ensures keeps { Keeps (C.state cache.old) (C.state cache.new) }
    ensures lasting { C.tells → (C.state cache.old).lasting ≤ (C.state cache.new).lasting }
    ensures grows { C.tells → Grows (C.state cache.old).pairs (C.state cache.new).pairs }
    ensures images { C.tells
        → LeavesFurther C.state C.moment C.left C.says cache.old cache.new }
    ensures elsewhere { W.tells
        → SameElsewhere plan.now (W.state world.old).files (W.state world.new).files }
    ensures left { W.tells → C.tells → IsReady (setting_of plan.now
        (opening_of W.effect (W.runs world.old) (W.state world.old) (C.state cache.old)))
        → LeavesSafe C.state C.moment C.left C.says plan.now
        (opening_of W.effect (W.runs world.old) (W.state world.old) (C.state cache.old))
        (W.runs world.new).steps cache.old cache.new }
    ensures bounded { W.tells → C.tells → (W.runs world.new).steps ≡ (W.runs world.old).steps
        → (C.state cache.new).probes
        ≤ (C.state cache.old).probes + look_up_cost (C.cost cache.old) plan.now }
    ensures cause { EndsBy
        (faults_in (W.state world.old) (C.state cache.old) (W.runs world.old) (K.faults out.old))
        (faults_in (W.state world.new) (C.state cache.new) (W.runs world.new) (K.faults out.new))
        result }

    // A run that came to its end.
    ensures whole { OnOk result (IsTrue (C.state cache.new).whole) }
    ensures last { C.tells → OnOk result (AllLast (C.state cache.new)) }
    ensures ran { W.tells → C.tells → IsReady (setting_of plan.now
        (opening_of W.effect (W.runs world.old) (W.state world.old) (C.state cache.old)))
        → IfOk result (Ran plan.now
        (opening_of W.effect (W.runs world.old) (W.state world.old) (C.state cache.old))
        (W.state world.new).files (C.state cache.new).pairs (C.state cache.new).room
        (W.runs world.new).steps K.tells (K.written out.old) (K.written out.new)) }

    // A run that did not.
    ensures stopped { W.tells → C.tells → IsReady (setting_of plan.now
        (opening_of W.effect (W.runs world.old) (W.state world.old) (C.state cache.old)))
        → IfErr result (λ e. Stopped plan.now
        (opening_of W.effect (W.runs world.old) (W.state world.old) (C.state cache.old))
        (IsSettled e (C.state cache.old) (C.state cache.new))
        (W.state world.new).files (C.state cache.new).pairs (C.state cache.new).room
        (W.runs world.new).steps (cause_of e) K.tells (K.written out.old) (K.written out.new)) }
    ensures waits { W.tells → C.tells → IsReady (setting_of plan.now
        (opening_of W.effect (W.runs world.old) (W.state world.old) (C.state cache.old)))
        → IfErr result (λ e. is_start_fault e ≡ false
        → AllEnd (W.runs world.old).steps (W.runs world.new).steps
        → (W.runs world.new).faults ≡ (W.runs world.old).faults) }
{
    halt_law();
    match run_through(alloc, plan, world, cache, out) {
        Ok(status) => Ok(status),
        Err(fault) => {
            settle_after_fault(alloc, cache);
            drain(alloc, plan, world);
            Err(fault)
        }
    }
}
