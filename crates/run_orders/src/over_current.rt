// A run of a plan over the current one of two stores.
ghost use Rattle.std.specs.Prelude.{◌≡◌, ◌+◌, ◌++◌, true};
ghost use Rattle.store_dev.specs.Device.{LeavesOnly, Only};
ghost use Rattle.spawn_dev.specs.Spawn.{IsIdle};
ghost use Rattle.refusals.specs.Refusals.{line_of, refusal_text};
ghost use Rattle.compact.specs.Current.{current_of};
ghost use Rattle.compact.specs.Left.{IsReread};
ghost use Rattle.run_plan.specs.Answers.{SameElsewhere};
ghost use Rattle.run_plan.specs.Openings.{HoldsInputs};
ghost use Rattle.run_plan.specs.Plans.{IsValidPlan};
ghost use Rattle.answers.specs.Answers.{IfDone, IfRefused, HasRunCause, counts_at};
ghost use Rattle.answers.specs.Stops.{IfFault};
ghost use Rattle.store_answers.specs.Refused.{IsNoStores};
ghost use Rattle.second_runs.specs.Images.{AddsTo, LeavesPairs};
ghost use Rattle.run_orders.specs.Images.{IsLeftByPlan, IsTrustedPlan, RereadsOther};
ghost use Rattle.run_orders.specs.Outcomes.{RanAs};
ghost use Rattle.run_orders.specs.Stops.{StopsPlan};
ghost use Rattle.store_answers.specs.Stores.{at_moment, stores_of};

use crate::over_store::run_plan;
use answers::Answer;
use compact::{Side, current};
use refusals::StoreFile;
use run_plan::Plan;
use spawn_dev::Spawner;
use std::alloc::Global;
use store_answers::not_current;
use store_dev::StoreDevice;
use tree_dev::Sink;

/// Runs the plan over the current one of a store and a spare one, or says what a run would do. The
/// other one is at most opened, and refused where it is no store. Both devices are handed back
/// whatever the answer is.
pub(crate) fn run_current<W: Spawner, S: StoreDevice, P: StoreDevice, K: Sink>(
    alloc: Global,
    is_dry: bool,
    plan: &Plan,
    world: &mut W,
    store: S,
    spare: P,
    out: &mut K,
) -> (Answer, S, P)
    requires plan { IsValidPlan plan.now }
    requires idle { IsIdle (W.runs world.old) }
    requires inputs { W.tells → HoldsInputs plan.now (W.state world.old).files }

    // What came to its end.
    ensures ran { W.tells → S.tells → P.tells → IfDone result.0
        (RanAs is_dry (W.effect (W.runs world.old).book) plan.now K.tells
        (at_moment W.state W.runs S.content P.content K.written world.old store spare out.old)
        (at_moment W.state W.runs S.content P.content K.written
        world.new result.1 result.2 out.new)) }
    ensures lasts { S.tells
        → IfDone result.0 (λ _. Only (S.content result.1) (S.images result.1)) }
    ensures spare_lasts { P.tells
        → IfDone result.0 (λ _. Only (P.content result.2) (P.images result.2)) }

    // What was refused.
    ensures refused { S.tells → P.tells → IfRefused result.0
        (IsNoStores (stores_of (S.content store) (P.content spare))) }
    ensures untouched { IfRefused result.0 (λ _. W.state world.new ≡ W.state world.old) }
    ensures unstarted { IfRefused result.0 (λ _. W.runs world.new ≡ W.runs world.old) }
    ensures reread { S.tells → IfRefused result.0 (λ _. IsReread S.StoreDevice store result.1) }
    ensures spare_reread { P.tells
        → IfRefused result.0 (λ _. IsReread P.StoreDevice spare result.2) }
    ensures line { K.tells → IfRefused result.0 (λ reason.
        K.written out.new ≡ K.written out.old ++ line_of (refusal_text reason)) }

    // What was stopped.
    ensures stopped { W.tells → S.tells → P.tells → K.tells → IfFault result.0 (StopsPlan
        (IsNoStores (stores_of (S.content store) (P.content spare))) is_dry
        (W.effect (W.runs world.old).book) plan.now K.tells
        (at_moment W.state W.runs S.content P.content K.written world.old store spare out.old)
        (at_moment W.state W.runs S.content P.content K.written
        world.new result.1 result.2 out.new)) }

    // Whatever it answers.
    ensures idle { IsIdle (W.runs world.new) }
    ensures book { (W.runs world.new).book ≡ (W.runs world.old).book }
    ensures elsewhere { W.tells
        → SameElsewhere plan.now (W.state world.old).files (W.state world.new).files }
    ensures sound { S.tells
        → LeavesOnly S.moment S.images_since store result.1 (AddsTo true (S.images store)) }
    ensures spare_sound { P.tells
        → LeavesOnly P.moment P.images_since spare result.2 (AddsTo true (P.images spare)) }
    ensures other { S.tells → P.tells → RereadsOther S.StoreDevice P.StoreDevice
        (current_of (S.content store) (P.content spare)) store result.1 spare result.2 }
    ensures left { W.tells → S.tells → P.tells
        → IsTrustedPlan is_dry (W.effect (W.runs world.old).book) plan.now
        (at_moment W.state W.runs S.content P.content K.written world.old store spare out.old)
        → LeavesPairs S.StoreDevice P.StoreDevice store result.1 spare result.2
        (IsLeftByPlan is_dry (W.effect (W.runs world.old).book) plan.now
        (at_moment W.state W.runs S.content P.content K.written world.old store spare out.old)
        (W.runs world.new).steps (S.images store) (P.images spare)) }
    ensures cause { HasRunCause
        (counts_at (W.state world.old) (W.runs world.old)
        (S.store_faults store + P.store_faults spare) (K.faults out.old))
        (counts_at (W.state world.new) (W.runs world.new)
        (S.store_faults result.1 + P.store_faults result.2) (K.faults out.new)) result.0 }
{
    let (found, store, spare) = current(alloc, store, spare);
    match found {
        Ok(Side::First) => {
            let (answer, store) = run_plan(
                alloc,
                is_dry,
                plan,
                world,
                StoreFile::Store,
                store,
                out,
            );
            (answer, store, spare)
        }
        Ok(Side::Spare) => {
            let (answer, spare) = run_plan(
                alloc,
                is_dry,
                plan,
                world,
                StoreFile::Spare,
                spare,
                out,
            );
            (answer, store, spare)
        }
        Err(fault) => (not_current(alloc, fault, out), store, spare),
    }
}
