// A run of a plan over the stores that an order uses.
ghost use Rattle.std.specs.Prelude.{◌≡◌, ◌+◌, ◌++◌, false, IsTrue};
ghost use Rattle.store_dev.specs.Device.{LeavesOnly};
ghost use Rattle.spawn_dev.specs.Spawn.{IsIdle};
ghost use Rattle.cli_words.specs.Laws.{IsAccess};
ghost use Rattle.refusals.specs.Refusals.{line_of, refusal_text};
ghost use Rattle.compact.specs.Current.{current_of};
ghost use Rattle.compact.specs.Left.{IsReread};
ghost use Rattle.run_plan.specs.Answers.{SameElsewhere};
ghost use Rattle.run_plan.specs.Openings.{HoldsInputs};
ghost use Rattle.run_plan.specs.Plans.{IsValidPlan};
ghost use Rattle.answers.specs.Answers.{IfDone, IfRefused, counts_at};
ghost use Rattle.answers.specs.Stops.{IfFault};
ghost use Rattle.second_runs.specs.Images.{AddsTo, LeavesPairs};
ghost use Rattle.file_runs.specs.Images.{StaysSound};
ghost use Rattle.run_orders.specs.Asking.{HasNoOtherStore, IsNoneUsed};
ghost use Rattle.run_orders.specs.Causes.{HasCauseBy};
ghost use Rattle.run_orders.specs.Images.{
  AddsToShared,
  IsLeftLocal,
  IsLeftSecond,
  IsLeftShared,
  IsTrustedBy,
  RereadsOther,
  puts_local,
  puts_second,
};
ghost use Rattle.run_orders.specs.Moments.{at_moment, stores_at};
ghost use Rattle.run_orders.specs.Outcomes.{
  KeepsLocal,
  KeepsSecond,
  KeepsShared,
  LastsLocal,
  LastsSecond,
  LastsShared,
  RanBy,
};
ghost use Rattle.run_orders.specs.Stops.{StopsBy};

use crate::over_current::run_current;
use crate::uses::Uses;
use answers::Answer;
use cli_words::RunOrder;
use file_runs::run_shared;
use run_plan::Plan;
use second_runs::run_second;
use shared_runs::Shared;
use spawn_dev::Spawner;
use std::alloc::Global;
use store_dev::StoreDevice;
use tree_dev::Sink;

/// Runs the plan of an order over the stores that it uses, or says what a run would do. All devices
/// are handed back whatever the answer is.
pub(crate) fn run_planned<
    W: Spawner,
    S: StoreDevice,
    P: StoreDevice,
    R: StoreDevice,
    H: Shared,
    K: Sink,
>(
    alloc: Global,
    uses: Uses,
    order: &RunOrder,
    plan: &Plan,
    world: &mut W,
    store: S,
    spare: P,
    second: R,
    shared: H,
    out: &mut K,
) -> (Answer, S, P, R, H)
    requires access { IsAccess order.now.access }
    requires second { uses ≡ Uses.Second → IsTrue order.now.access.second_reads }
    requires plan { IsValidPlan plan.now }
    requires idle { IsIdle (W.runs world.old) }
    requires inputs { W.tells → HoldsInputs plan.now (W.state world.old).files }
    requires turn { (H.turn shared).held ≡ false }

    // What came to its end.
    ensures ran { W.tells → S.tells → P.tells → R.tells → H.Device.tells → IfDone result.0
        (RanBy uses order.now (W.effect (W.runs world.old).book) plan.now K.tells
        (at_moment W.state W.runs S.content P.content R.content H.content H.coming K.written
        world.old store spare second shared out.old)
        (at_moment W.state W.runs S.content P.content R.content H.content H.coming K.written
        world.new result.1 result.2 result.3 result.4 out.new)) }
    ensures lasts { S.tells → IfDone result.0 (λ _.
        LastsLocal uses order.now.access (S.content result.1) (S.images result.1)) }
    ensures spare_lasts { P.tells → IfDone result.0 (λ _.
        LastsLocal uses order.now.access (P.content result.2) (P.images result.2)) }
    ensures second_lasts { R.tells
        → IfDone result.0 (λ _. LastsSecond uses (R.content result.3) (R.images result.3)) }
    ensures shared_lasts { H.Device.tells
        → IfDone result.0 (λ _. LastsShared uses (H.content result.4) (H.images result.4)) }

    // What was refused.
    ensures refused { W.tells → S.tells → P.tells → R.tells → H.Device.tells → IfRefused result.0
        (IsNoneUsed uses order.now
        (stores_at S.content P.content R.content H.content H.coming store spare second shared)) }
    ensures only { W.tells → S.tells → P.tells → R.tells → H.Device.tells
        → HasNoOtherStore uses order.now
        (stores_at S.content P.content R.content H.content H.coming store spare second shared)
        result.0 }
    ensures untouched { IfRefused result.0 (λ _. W.state world.new ≡ W.state world.old) }
    ensures unstarted { IfRefused result.0 (λ _. W.runs world.new ≡ W.runs world.old) }
    ensures reread { S.tells → IfRefused result.0 (λ _. IsReread S.StoreDevice store result.1) }
    ensures spare_reread { P.tells
        → IfRefused result.0 (λ _. IsReread P.StoreDevice spare result.2) }
    ensures second_reread { R.tells
        → IfRefused result.0 (λ _. IsReread R.StoreDevice second result.3) }
    ensures line { K.tells → IfRefused result.0 (λ reason.
        K.written out.new ≡ K.written out.old ++ line_of (refusal_text reason)) }

    // What was stopped.
    ensures stopped { W.tells → S.tells → P.tells → R.tells → H.Device.tells → K.tells
        → IfFault result.0
        (StopsBy uses order.now (W.effect (W.runs world.old).book) plan.now K.tells
        (at_moment W.state W.runs S.content P.content R.content H.content H.coming K.written
        world.old store spare second shared out.old)
        (at_moment W.state W.runs S.content P.content R.content H.content H.coming K.written
        world.new result.1 result.2 result.3 result.4 out.new)) }

    // Whatever it answers.
    ensures turn { (H.turn result.4).held ≡ false }
    ensures idle { IsIdle (W.runs world.new) }
    ensures book { (W.runs world.new).book ≡ (W.runs world.old).book }
    ensures elsewhere { W.tells
        → SameElsewhere plan.now (W.state world.old).files (W.state world.new).files }
    ensures kept { KeepsLocal uses order.now.access store result.1 }
    ensures spare_kept { KeepsLocal uses order.now.access spare result.2 }
    ensures second_kept { KeepsSecond uses second result.3 }
    ensures shared_kept { KeepsShared uses shared result.4 }
    ensures sound { S.tells → P.tells → R.tells
        → LeavesOnly S.moment S.images_since store result.1
        (AddsTo (puts_local uses order.now.access) (S.images store)) }
    ensures spare_sound { S.tells → P.tells → R.tells
        → LeavesOnly P.moment P.images_since spare result.2
        (AddsTo (puts_local uses order.now.access) (P.images spare)) }
    ensures second_sound { S.tells → P.tells → R.tells
        → LeavesOnly R.moment R.images_since second result.3
        (AddsTo (puts_second uses order.now.access) (R.images second)) }
    ensures shared_sound { H.Device.tells → StaysSound H.Shared shared result.4 }
    ensures shared_adds { H.Device.tells → LeavesOnly H.moment H.images_since shared result.4
        (AddsToShared H.Shared shared uses
        (at_moment W.state W.runs S.content P.content R.content H.content H.coming K.written
        world.old store spare second shared out.old)) }
    ensures other { S.tells → P.tells → RereadsOther S.StoreDevice P.StoreDevice
        (current_of (S.content store) (P.content spare)) store result.1 spare result.2 }
    ensures left { W.tells → S.tells → P.tells → R.tells → H.Device.tells
        → IsTrustedBy uses order.now (W.effect (W.runs world.old).book) plan.now
        (at_moment W.state W.runs S.content P.content R.content H.content H.coming K.written
        world.old store spare second shared out.old)
        → LeavesPairs S.StoreDevice P.StoreDevice store result.1 spare result.2
        (IsLeftLocal uses order.now (W.effect (W.runs world.old).book) plan.now
        (at_moment W.state W.runs S.content P.content R.content H.content H.coming K.written
        world.old store spare second shared out.old)
        (W.runs world.new).steps (S.images store) (P.images spare)) }
    ensures second_left { W.tells → S.tells → P.tells → R.tells → H.Device.tells
        → IsTrustedBy uses order.now (W.effect (W.runs world.old).book) plan.now
        (at_moment W.state W.runs S.content P.content R.content H.content H.coming K.written
        world.old store spare second shared out.old)
        → LeavesOnly R.moment R.images_since second result.3
        (IsLeftSecond uses order.now (W.effect (W.runs world.old).book) plan.now
        (at_moment W.state W.runs S.content P.content R.content H.content H.coming K.written
        world.old store spare second shared out.old)
        (W.runs world.new).steps (R.images second)) }
    ensures shared_left { W.tells → S.tells → P.tells → R.tells → H.Device.tells
        → IsTrustedBy uses order.now (W.effect (W.runs world.old).book) plan.now
        (at_moment W.state W.runs S.content P.content R.content H.content H.coming K.written
        world.old store spare second shared out.old)
        → LeavesOnly H.moment H.images_since shared result.4 (IsLeftShared H.Shared shared uses
        order.now (W.effect (W.runs world.old).book) plan.now
        (at_moment W.state W.runs S.content P.content R.content H.content H.coming K.written
        world.old store spare second shared out.old)
        (at_moment W.state W.runs S.content P.content R.content H.content H.coming K.written
        world.new result.1 result.2 result.3 result.4 out.new)) }
    ensures cause { HasCauseBy uses H.Device.tells
        (counts_at (W.state world.old) (W.runs world.old)
        (S.store_faults store + P.store_faults spare + R.store_faults second
        + H.store_faults shared) (K.faults out.old))
        (counts_at (W.state world.new) (W.runs world.new)
        (S.store_faults result.1 + P.store_faults result.2 + R.store_faults result.3
        + H.store_faults result.4) (K.faults out.new)) result.0 }
{
    match uses {
        Uses::Shared => {
            let (answer, shared) = run_shared(alloc, order.dry, plan, world, shared, out);
            (answer, store, spare, second, shared)
        }
        Uses::Second => {
            let (answer, store, spare, second) = run_second(
                alloc,
                order.access,
                order.dry,
                plan,
                world,
                store,
                spare,
                second,
                out,
            );
            (answer, store, spare, second, shared)
        }
        Uses::Current => {
            let (answer, store, spare) = run_current(
                alloc, order.dry, plan, world, store, spare, out,
            );
            (answer, store, spare, second, shared)
        }
    }
}
