// A run of a plan over the device of a store.
ghost use Rattle.std.specs.Prelude.{◌≡◌, ◌++◌, true, Some, IsTrue};
ghost use Rattle.store_dev.specs.Device.{LeavesOnly, Only};
ghost use Rattle.spawn_dev.specs.Spawn.{IsIdle};
ghost use Rattle.refusals.specs.Refusals.{line_of, refusal_text};
ghost use Rattle.artifact_store.specs.Pairs.{told_as};
ghost use Rattle.artifact_store.specs.Store.{device_of, state_of};
ghost use Rattle.run_plan.specs.Answers.{SameElsewhere};
ghost use Rattle.run_plan.specs.Openings.{HoldsInputs};
ghost use Rattle.run_plan.specs.Plans.{IsValidPlan};
ghost use Rattle.runner.specs.Answers.{IsFurther, opening_of};
ghost use Rattle.answers.specs.Answers.{IfDone, IfRefused, HasRunCause, counts_at};
ghost use Rattle.second_runs.specs.Images.{AddsTo};
ghost use Rattle.run_orders.specs.Images.{IsLeftByRun, IsLeftInStore, IsTrustedPlan};
ghost use Rattle.run_orders.specs.Outcomes.{RanAs};
ghost use Rattle.compact.specs.Current.{generation_in};
ghost use Rattle.answers.specs.Moments.{Held, moment_of};
ghost use Rattle.store_answers.specs.Refused.{IsNoStore};
ghost use Rattle.store_answers.specs.Stores.{held_by};
ghost use Rattle.answers.specs.Stops.{IfFault};
ghost use Rattle.cache_runs.specs.Openings.{IsTrustedRun};
ghost use Rattle.cache_runs.specs.Stops.{StopsRun};
ghost use Rattle.run_orders.specs.Stops.{StopsPlan};

use answers::Answer;
use artifact_store::Store;
use cache_api::Cache;
use cache_runs::run_over;
use record_log::Unopened;
use refusals::StoreFile;
use run_plan::Plan;
use second_runs::open_for_plan;
use spawn_dev::Spawner;
use std::alloc::Global;
use store_answers::unopened;
use store_dev::StoreDevice;
use tree_dev::Sink;

/// Runs the plan over an opened store, or says what a run would do, and hands the device back.
fn run_store<W: Spawner, S: StoreDevice, K: Sink>(
    alloc: Global,
    is_dry: bool,
    plan: &Plan,
    world: &mut W,
    store: Store<S>,
    out: &mut K,
) -> (Answer, S)
    requires plan { IsValidPlan plan.now }
    requires idle { IsIdle (W.runs world.old) }
    requires whole { IsTrue (state_of store).whole }
    requires inputs { W.tells → HoldsInputs plan.now (W.state world.old).files }

    // What came to its end.
    ensures ran { W.tells → S.tells → (held : Held) → held.pairs ≡ Some (state_of store).pairs
        → IfDone result.0 (RanAs is_dry (W.effect (W.runs world.old).book) plan.now K.tells
        (moment_of (W.state world.old) (W.runs world.old) held (K.written out.old))
        (moment_of (W.state world.new) (W.runs world.new) (held_by (S.content result.1))
        (K.written out.new))) }
    ensures lasts { S.tells
        → IfDone result.0 (λ _. Only (S.content result.1) (S.images result.1)) }

    // What was refused.
    ensures not_refused { IfRefused result.0 (λ _. ⊥) }

    // What was stopped, whatever is held as it began and by then.
    ensures stopped { W.tells → S.tells → K.tells → (held kept : Held)
        → IfFault result.0 (StopsRun is_dry (W.effect (W.runs world.old).book) plan.now
        (state_of store).pairs K.tells
        (moment_of (W.state world.old) (W.runs world.old) held (K.written out.old))
        (moment_of (W.state world.new) (W.runs world.new) kept (K.written out.new))) }

    // Whatever it answers.
    ensures idle { IsIdle (W.runs world.new) }
    ensures book { (W.runs world.new).book ≡ (W.runs world.old).book }
    ensures elsewhere { W.tells
        → SameElsewhere plan.now (W.state world.old).files (W.state world.new).files }
    ensures sound { S.tells → LeavesOnly S.moment S.images_since (device_of store) result.1
        (λ c. IsFurther (state_of store).pairs (told_as (state_of store).base c)) }
    ensures left { W.tells → S.tells
        → IsTrustedRun is_dry (W.effect (W.runs world.old).book) plan.now (state_of store).pairs
        → LeavesOnly S.moment S.images_since (device_of store) result.1 (λ c. IsLeftByRun is_dry
        plan.now (opening_of W.effect (W.runs world.old) (W.state world.old) (state_of store))
        (W.runs world.new).steps (told_as (state_of store).base c)) }
    ensures cause { HasRunCause
        (counts_at (W.state world.old) (W.runs world.old) (state_of store).faults
        (K.faults out.old))
        (counts_at (W.state world.new) (W.runs world.new) (S.store_faults result.1)
        (K.faults out.new)) result.0 }
{
    let (answer, cache) = run_over(alloc, is_dry, plan, world, store, out);
    (answer, cache.device())
}

/// Opens the store of that file and runs the plan over it, or says what a run would do. The device
/// is handed back whatever the answer is.
pub(crate) fn run_plan<W: Spawner, S: StoreDevice, K: Sink>(
    alloc: Global,
    is_dry: bool,
    plan: &Plan,
    world: &mut W,
    file: StoreFile,
    store: S,
    out: &mut K,
) -> (Answer, S)
    requires plan { IsValidPlan plan.now }
    requires idle { IsIdle (W.runs world.old) }
    requires inputs { W.tells → HoldsInputs plan.now (W.state world.old).files }

    // What came to its end.
    ensures ran { W.tells → S.tells → IfDone result.0
        (RanAs is_dry (W.effect (W.runs world.old).book) plan.now K.tells
        (moment_of (W.state world.old) (W.runs world.old) (held_by (S.content store))
        (K.written out.old))
        (moment_of (W.state world.new) (W.runs world.new) (held_by (S.content result.1))
        (K.written out.new))) }
    ensures lasts { S.tells
        → IfDone result.0 (λ _. Only (S.content result.1) (S.images result.1)) }

    // What was refused.
    ensures refused { S.tells → IfRefused result.0 (IsNoStore file (S.content store)) }
    ensures untouched { IfRefused result.0 (λ _. W.state world.new ≡ W.state world.old) }
    ensures unstarted { IfRefused result.0 (λ _. W.runs world.new ≡ W.runs world.old) }
    ensures same { S.tells → IfRefused result.0 (λ _. S.content result.1 ≡ S.content store) }
    ensures line { K.tells → IfRefused result.0 (λ reason.
        K.written out.new ≡ K.written out.old ++ line_of (refusal_text reason)) }

    // What was stopped, whatever is held by then.
    ensures stopped { W.tells → S.tells → K.tells → (kept : Held) → IfFault result.0
        (StopsPlan (IsNoStore file (S.content store)) is_dry
        (W.effect (W.runs world.old).book) plan.now K.tells
        (moment_of (W.state world.old) (W.runs world.old) (held_by (S.content store))
        (K.written out.old))
        (moment_of (W.state world.new) (W.runs world.new) kept (K.written out.new))) }

    // Whatever it answers.
    ensures idle { IsIdle (W.runs world.new) }
    ensures book { (W.runs world.new).book ≡ (W.runs world.old).book }
    ensures elsewhere { W.tells
        → SameElsewhere plan.now (W.state world.old).files (W.state world.new).files }
    ensures sound { S.tells
        → LeavesOnly S.moment S.images_since store result.1 (AddsTo true (S.images store)) }
    ensures left { W.tells → S.tells
        → IsTrustedPlan is_dry (W.effect (W.runs world.old).book) plan.now
        (moment_of (W.state world.old) (W.runs world.old) (held_by (S.content store))
        (K.written out.old))
        → LeavesOnly S.moment S.images_since store result.1
        (IsLeftInStore is_dry (W.effect (W.runs world.old).book) plan.now
        (moment_of (W.state world.old) (W.runs world.old) (held_by (S.content store))
        (K.written out.old))
        (W.runs world.new).steps (generation_in (S.content store)) (S.images store)) }
    ensures cause { HasRunCause
        (counts_at (W.state world.old) (W.runs world.old) (S.store_faults store)
        (K.faults out.old))
        (counts_at (W.state world.new) (W.runs world.new) (S.store_faults result.1)
        (K.faults out.new)) result.0 }
{
    match open_for_plan(alloc, plan, store) {
        Ok(opened) => run_store(alloc, is_dry, plan, world, opened, out),
        Err(Unopened { fault, store }) => (unopened(alloc, file, fault, out), store),
    }
}
