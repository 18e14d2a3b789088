// A run of a plan over a cache.
ghost use Rattle.std.specs.Prelude.{◌≡◌, ◌++◌, ◌≤◌, ℕ, Some, IsTrue};
ghost use Rattle.std.specs.Bool.{OnFalse, OnTrue};
ghost use Rattle.cache_api.specs.Cache.{Keeps, AllLast};
ghost use Rattle.cache_api.specs.Moments.{Leaves};
ghost use Rattle.spawn_dev.specs.Spawn.{IsIdle};
ghost use Rattle.run_laws.specs.Runs.{IsReady};
ghost use Rattle.run_plan.specs.Answers.{Ran, SameElsewhere};
ghost use Rattle.run_plan.specs.DryPages.{dry_page};
ghost use Rattle.run_plan.specs.Openings.{setting_of, HoldsInputs};
ghost use Rattle.run_plan.specs.Plans.{IsValidPlan};
ghost use Rattle.runner.specs.Answers.{LeavesFurther, LeavesSafe, cause_of, opening_of};
ghost use Rattle.answers.specs.Answers.{IfDone, IfRefused, HasCauseIn, HasRunCause, counts_at, counts_of};
ghost use Rattle.cache_runs.specs.Steps.{answer_of};
ghost use Rattle.answers.specs.Stops.{IfFault, PrintsSome};
ghost use Rattle.cache_runs.specs.Stops.{StopsDry, StopsOver};

use answers::{Answer, tell};
use cache_api::Cache;
use dry_runs::dry;
use held_results::Held;
use refusals::DeviceFault;
use run_plan::Plan;
use runner::run;
use spawn_dev::Spawner;
use std::alloc::Global;
use task_devices::RunErr;
use tree_dev::Sink;

/// Answers what stopped a run, and tries to print it, where the output did not fail and memory was
/// there.
fn stopped<K: Sink>(alloc: Global, fault: RunErr, out: &mut K) -> Answer
    ensures answer { result ≡ answer_of fault }
    ensures told { K.tells → IfFault result (λ cause line. (cause ≡ cause_of fault)
        × PrintsSome line (K.written out.old) (K.written out.new)) }
    ensures later { K.faults out.old ≤ K.faults out.new }
    ensures sink { fault ≡ RunErr.SinkFault → K.faults out.new ≡ K.faults out.old }
    ensures memory { fault ≡ RunErr.OutOfMemory → K.faults out.new ≡ K.faults out.old }
{
    match fault {
        RunErr::TreeFault => {
            tell(alloc, DeviceFault::Tree, out);
            Answer::TreeFault
        }
        RunErr::StoreFault => {
            tell(alloc, DeviceFault::Store, out);
            Answer::StoreFault
        }
        RunErr::StartFault => {
            tell(alloc, DeviceFault::Start, out);
            Answer::StartFault
        }
        RunErr::SinkFault => Answer::SinkFault,
        RunErr::OutOfMemory => Answer::OutOfMemory,
    }
}

/// Runs the plan.
fn run_live<W: Spawner, C: Cache, K: Sink>(
    alloc: Global,
    plan: &Plan,
    world: &mut W,
    cache: &mut C,
    out: &mut K,
) -> Answer
    requires plan { IsValidPlan plan.now }
    requires idle { IsIdle (W.runs world.old) }
    requires whole { IsTrue (C.state cache.old).whole }
    requires last { C.tells → AllLast (C.state cache.old) }
    requires inputs { W.tells → HoldsInputs plan.now (W.state world.old).files }

    // What came to its end.
    ensures whole { IfDone result (λ _. IsTrue (C.state cache.new).whole) }
    ensures last { C.tells → IfDone result (λ _. AllLast (C.state cache.new)) }
    ensures ran { W.tells → C.tells → IsReady (setting_of plan.now
        (opening_of W.effect (W.runs world.old) (W.state world.old) (C.state cache.old)))
        → IfDone result (Ran plan.now
        (opening_of W.effect (W.runs world.old) (W.state world.old) (C.state cache.old))
        (W.state world.new).files (C.state cache.new).pairs (C.state cache.new).room
        (W.runs world.new).steps K.tells (K.written out.old) (K.written out.new)) }

    // What was refused.
    ensures not_refused { IfRefused result (λ _. ⊥) }

    // What was stopped.
    ensures stopped { W.tells → C.tells → K.tells → IsReady (setting_of plan.now
        (opening_of W.effect (W.runs world.old) (W.state world.old) (C.state cache.old)))
        → IfFault result (StopsOver plan.now
        (opening_of W.effect (W.runs world.old) (W.state world.old) (C.state cache.old))
        (W.state world.new).files (C.state cache.new).pairs (C.state cache.new).room
        (W.runs world.new).steps K.tells (K.written out.old) (K.written out.new)) }

    // Whatever it answers.
    ensures idle { IsIdle (W.runs world.new) }
    ensures book { (W.runs world.new).book ≡ (W.runs world.old).book }
    ensures keeps { Keeps (C.state cache.old) (C.state cache.new) }
    ensures lasting { C.tells → (C.state cache.old).lasting ≤ (C.state cache.new).lasting }
    ensures elsewhere { W.tells
        → SameElsewhere plan.now (W.state world.old).files (W.state world.new).files }
    ensures images { C.tells
        → LeavesFurther C.state C.moment C.left C.says cache.old cache.new }
    ensures left { W.tells → C.tells → IsReady (setting_of plan.now
        (opening_of W.effect (W.runs world.old) (W.state world.old) (C.state cache.old)))
        → LeavesSafe C.state C.moment C.left C.says plan.now
        (opening_of W.effect (W.runs world.old) (W.state world.old) (C.state cache.old))
        (W.runs world.new).steps cache.old cache.new }
    ensures cause { HasRunCause
        (counts_at (W.state world.old) (W.runs world.old) (C.state cache.old).faults
        (K.faults out.old))
        (counts_at (W.state world.new) (W.runs world.new) (C.state cache.new).faults
        (K.faults out.new)) result }
{
    match run(alloc, plan, world, cache, out) {
        Ok(status) => Answer::Done { status },
        Err(fault) => stopped(alloc, fault, out),
    }
}

/// Says what a run of the plan would do.
fn run_dry<C: Cache, K: Sink>(alloc: Global, plan: &Plan, cache: &mut C, out: &mut K) -> Answer
    requires plan { IsValidPlan plan.now }
    requires whole { IsTrue (C.state cache.old).whole }
    requires last { C.tells → AllLast (C.state cache.old) }

    // What came to its end.
    ensures whole { IfDone result (λ _. IsTrue (C.state cache.new).whole) }
    ensures status { IfDone result (λ status. status ≡ 0) }
    ensures page { C.tells → K.tells → IfDone result (λ _. K.written out.new
        ≡ K.written out.old ++ dry_page plan.now (C.state cache.old).pairs) }

    // What was refused.
    ensures not_refused { IfRefused result (λ _. ⊥) }

    // What was stopped.
    ensures stopped { C.tells → K.tells → IfFault result
        (StopsDry plan.now (C.state cache.old).pairs (K.written out.old) (K.written out.new)) }

    // Whatever it answers.
    ensures keeps { Keeps (C.state cache.old) (C.state cache.new) }
    ensures pairs { C.tells → (C.state cache.new).pairs ≡ (C.state cache.old).pairs }
    ensures last { C.tells → AllLast (C.state cache.new) }
    ensures lasting { C.tells → (C.state cache.old).lasting ≤ (C.state cache.new).lasting }
    ensures left { C.tells → Leaves C.moment C.left cache.old cache.new (λ image.
        C.says (C.state cache.old).base image ≡ Some (C.state cache.old).pairs) }
    ensures cause { (tree start : ℕ) → HasCauseIn
        (counts_of tree (C.state cache.old).faults start (K.faults out.old))
        (counts_of tree (C.state cache.new).faults start (K.faults out.new)) result }
{
    match dry(alloc, plan, cache, out) {
        Ok(()) => Answer::Done { status: 0 },
        Err(fault) => stopped(alloc, fault, out),
    }
}

/// Runs the plan over a cache that may hold results back, or says what a run would do.
fn run_either<W: Spawner, C: Cache, K: Sink>(
    alloc: Global,
    is_dry: bool,
    plan: &Plan,
    world: &mut W,
    cache: &mut C,
    out: &mut K,
) -> Answer
    requires plan { IsValidPlan plan.now }
    requires idle { IsIdle (W.runs world.old) }
    requires whole { IsTrue (C.state cache.old).whole }
    requires last { C.tells → AllLast (C.state cache.old) }
    requires inputs { W.tells → HoldsInputs plan.now (W.state world.old).files }

    // What came to its end.
    ensures whole { IfDone result (λ _. IsTrue (C.state cache.new).whole) }
    ensures last { C.tells → IfDone result (λ _. AllLast (C.state cache.new)) }
    ensures ran { W.tells → C.tells → OnFalse is_dry (IsReady (setting_of plan.now
        (opening_of W.effect (W.runs world.old) (W.state world.old) (C.state cache.old)))
        → IfDone result (Ran plan.now
        (opening_of W.effect (W.runs world.old) (W.state world.old) (C.state cache.old))
        (W.state world.new).files (C.state cache.new).pairs (C.state cache.new).room
        (W.runs world.new).steps K.tells (K.written out.old) (K.written out.new))) }
    ensures dry_status { OnTrue is_dry (IfDone result (λ status. status ≡ 0)) }
    ensures dry_page { C.tells → K.tells → OnTrue is_dry (IfDone result (λ _. K.written out.new
        ≡ K.written out.old ++ dry_page plan.now (C.state cache.old).pairs)) }

    // What was refused.
    ensures not_refused { IfRefused result (λ _. ⊥) }

    // What was stopped.
    ensures stopped { W.tells → C.tells → K.tells → OnFalse is_dry (IsReady (setting_of plan.now
        (opening_of W.effect (W.runs world.old) (W.state world.old) (C.state cache.old)))
        → IfFault result (StopsOver plan.now
        (opening_of W.effect (W.runs world.old) (W.state world.old) (C.state cache.old))
        (W.state world.new).files (C.state cache.new).pairs (C.state cache.new).room
        (W.runs world.new).steps K.tells (K.written out.old) (K.written out.new))) }
    ensures dry_stopped { C.tells → K.tells → OnTrue is_dry (IfFault result
        (StopsDry plan.now (C.state cache.old).pairs (K.written out.old) (K.written out.new))) }

    // Whatever it answers.
    ensures idle { IsIdle (W.runs world.new) }
    ensures book { (W.runs world.new).book ≡ (W.runs world.old).book }
    ensures keeps { Keeps (C.state cache.old) (C.state cache.new) }
    ensures lasting { C.tells → (C.state cache.old).lasting ≤ (C.state cache.new).lasting }
    ensures elsewhere { W.tells
        → SameElsewhere plan.now (W.state world.old).files (W.state world.new).files }
    ensures dry_files { OnTrue is_dry ((W.state world.new).files ≡ (W.state world.old).files) }
    ensures dry_steps { OnTrue is_dry ((W.runs world.new).steps ≡ (W.runs world.old).steps) }
    ensures dry_pairs { C.tells
        → OnTrue is_dry ((C.state cache.new).pairs ≡ (C.state cache.old).pairs) }
    ensures dry_last { C.tells → OnTrue is_dry (AllLast (C.state cache.new)) }
    ensures images { C.tells
        → LeavesFurther C.state C.moment C.left C.says cache.old cache.new }
    ensures left { W.tells → C.tells → OnFalse is_dry (IsReady (setting_of plan.now
        (opening_of W.effect (W.runs world.old) (W.state world.old) (C.state cache.old)))
        → LeavesSafe C.state C.moment C.left C.says plan.now
        (opening_of W.effect (W.runs world.old) (W.state world.old) (C.state cache.old))
        (W.runs world.new).steps cache.old cache.new) }
    ensures dry_left { C.tells → OnTrue is_dry (Leaves C.moment C.left cache.old cache.new
        (λ image. C.says (C.state cache.old).base image ≡ Some (C.state cache.old).pairs)) }
    ensures cause { HasRunCause
        (counts_at (W.state world.old) (W.runs world.old) (C.state cache.old).faults
        (K.faults out.old))
        (counts_at (W.state world.new) (W.runs world.new) (C.state cache.new).faults
        (K.faults out.new)) result }
{
    if is_dry {
        return run_dry(alloc, plan, cache, out);
    }
    run_live(alloc, plan, world, cache, out)
}

/// Runs the plan over a cache, or says what a run would do, and answers as the program does. The
/// page is printed as it comes. After a fault its line is tried once, and after want of memory
/// nothing more is printed.
///
/// The cache is taken and handed back. While commands run, results are held back, and several are
/// put at once. Of a run that was stopped, results that could not be put any more may be lost.
pub fn run_over<W: Spawner, C: Cache, K: Sink>(
    alloc: Global,
    is_dry: bool,
    plan: &Plan,
    world: &mut W,
    cache: C,
    out: &mut K,
) -> (Answer, C)
    requires plan { IsValidPlan plan.now }
    requires idle { IsIdle (W.runs world.old) }
    requires whole { IsTrue (C.state cache).whole }
    requires last { C.tells → AllLast (C.state cache) }
    requires inputs { W.tells → HoldsInputs plan.now (W.state world.old).files }

    // What came to its end.
    ensures whole { IfDone result.0 (λ _. IsTrue (C.state result.1).whole) }
    ensures last { C.tells → IfDone result.0 (λ _. AllLast (C.state result.1)) }
    ensures ran { W.tells → C.tells → OnFalse is_dry (IsReady (setting_of plan.now
        (opening_of W.effect (W.runs world.old) (W.state world.old) (C.state cache)))
        → IfDone result.0 (Ran plan.now
        (opening_of W.effect (W.runs world.old) (W.state world.old) (C.state cache))
        (W.state world.new).files (C.state result.1).pairs (C.state result.1).room
        (W.runs world.new).steps K.tells (K.written out.old) (K.written out.new))) }
    ensures dry_status { OnTrue is_dry (IfDone result.0 (λ status. status ≡ 0)) }
    ensures dry_page { C.tells → K.tells → OnTrue is_dry (IfDone result.0 (λ _. K.written out.new
        ≡ K.written out.old ++ dry_page plan.now (C.state cache).pairs)) }

    // What was refused.
    ensures not_refused { IfRefused result.0 (λ _. ⊥) }

    // What was stopped.
    ensures stopped { W.tells → C.tells → K.tells → OnFalse is_dry (IsReady (setting_of plan.now
        (opening_of W.effect (W.runs world.old) (W.state world.old) (C.state cache)))
        → IfFault result.0 (StopsOver plan.now
        (opening_of W.effect (W.runs world.old) (W.state world.old) (C.state cache))
        (W.state world.new).files (C.state result.1).pairs (C.state result.1).room
        (W.runs world.new).steps K.tells (K.written out.old) (K.written out.new))) }
    ensures dry_stopped { C.tells → K.tells → OnTrue is_dry (IfFault result.0
        (StopsDry plan.now (C.state cache).pairs (K.written out.old) (K.written out.new))) }

    // Whatever it answers.
    ensures idle { IsIdle (W.runs world.new) }
    ensures book { (W.runs world.new).book ≡ (W.runs world.old).book }
    ensures keeps { Keeps (C.state cache) (C.state result.1) }
    ensures elsewhere { W.tells
        → SameElsewhere plan.now (W.state world.old).files (W.state world.new).files }
    ensures dry_files { OnTrue is_dry ((W.state world.new).files ≡ (W.state world.old).files) }
    ensures dry_steps { OnTrue is_dry ((W.runs world.new).steps ≡ (W.runs world.old).steps) }
    ensures dry_pairs { C.tells
        → OnTrue is_dry ((C.state result.1).pairs ≡ (C.state cache).pairs) }
    ensures images { C.tells
        → LeavesFurther C.state C.moment C.left C.says cache result.1 }
    ensures left { W.tells → C.tells → OnFalse is_dry (IsReady (setting_of plan.now
        (opening_of W.effect (W.runs world.old) (W.state world.old) (C.state cache)))
        → LeavesSafe C.state C.moment C.left C.says plan.now
        (opening_of W.effect (W.runs world.old) (W.state world.old) (C.state cache))
        (W.runs world.new).steps cache result.1) }
    ensures dry_left { C.tells → OnTrue is_dry (Leaves C.moment C.left cache result.1
        (λ image. C.says (C.state cache).base image ≡ Some (C.state cache).pairs)) }
    ensures cause { HasRunCause
        (counts_at (W.state world.old) (W.runs world.old) (C.state cache).faults
        (K.faults out.old))
        (counts_at (W.state world.new) (W.runs world.new) (C.state result.1).faults
        (K.faults out.new)) result.0 }
{
    let mut held = Held::new(alloc, cache);
    let answer = run_either(alloc, is_dry, plan, world, &mut held, out);
    (answer, held.into_inner())
}
