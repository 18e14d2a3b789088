// Orders to run.
ghost use Rattle.std.specs.Prelude.{◌≡◌, ◌++◌, ◌+◌, ◌<◌, ◌≤◌, false};
ghost use Rattle.rel_path.specs.Limits.{width_limit};
ghost use Rattle.store_dev.specs.Device.{LeavesOnly};
ghost use Rattle.spawn_dev.specs.Spawn.{IsIdle};
ghost use Rattle.cli_words.specs.Laws.{IsAccess};
ghost use Rattle.refusals.specs.Refusals.{line_of, refusal_text};
ghost use Rattle.compact.specs.Current.{current_of};
ghost use Rattle.compact.specs.Left.{IsReread};
ghost use Rattle.answers.specs.Answers.{IfDone, IfRefused, counts_at};
ghost use Rattle.answers.specs.Stops.{IfFault};
ghost use Rattle.second_runs.specs.Images.{AddsTo, LeavesPairs};
ghost use Rattle.file_runs.specs.Images.{StaysSound};
ghost use Rattle.run_orders.specs.Asking.{IsRefusedRunOrder, HasNoOtherRun};
ghost use Rattle.run_orders.specs.Causes.{HasCauseBy};
ghost use Rattle.run_orders.specs.Images.{
  AddsToShared,
  IsLeftByOrder,
  IsSecondByOrder,
  IsSharedByOrder,
  IsTrustedOrder,
  RereadsOther,
  puts_local,
  puts_second,
};
ghost use Rattle.run_orders.specs.Moments.{at_moment, stores_at};
ghost use Rattle.run_orders.specs.Outcomes.{
  KeepsLocal,
  KeepsSecond,
  KeepsShared,
  LastsLocal,
  LastsSecond,
  LastsShared,
  MayChangeRun,
  RanOrder,
};
ghost use Rattle.run_orders.specs.Stops.{StoppedRun};
ghost use Rattle.run_orders.specs.Uses.{uses_of};

use crate::asking::asked;
use crate::planned::run_planned;
use crate::uses::uses_of;
use answers::{Answer, tell_stop};
use cli_words::RunOrder;
use plan_laws::order_law;
use rel_path::Text;
use shared_runs::Shared;
use spawn_dev::Spawner;
use std::alloc::Global;
use store_dev::StoreDevice;
use tree_dev::Sink;

/// Does what `turbo` does with words that are an order to run. With `--shared` the store of the run
/// is the shared file. Else it is the current one of the store and the spare one, and the second
/// store, as the order's access says. A device without access is not opened.
pub fn run_order<W: Spawner, S: StoreDevice, P: StoreDevice, R: StoreDevice, H: Shared, K: Sink>(
    alloc: Global,
    order: &RunOrder,
    env: &[(Text, Text)],
    world: &mut W,
    store: S,
    spare: P,
    second: R,
    shared: H,
    out: &mut K,
) -> (Answer, S, P, R, H)
    requires idle { IsIdle (W.runs world.old) }
    requires wide { 0 < order.now.width }
    requires narrow { order.now.width ≤ width_limit }
    requires access { IsAccess order.now.access }
    requires turn { (H.turn shared).held ≡ false }

    // What came to its end.
    ensures ran { W.tells → S.tells → P.tells → R.tells → H.Device.tells → IfDone result.0
        (RanOrder (W.effect (W.runs world.old).book) order.now env.now K.tells
        (at_moment W.state W.runs S.content P.content R.content H.content H.coming K.written
        world.old store spare second shared out.old)
        (at_moment W.state W.runs S.content P.content R.content H.content H.coming K.written
        world.new result.1 result.2 result.3 result.4 out.new)) }
    ensures lasts { S.tells → IfDone result.0 (λ _. LastsLocal (uses_of order.now)
        order.now.access (S.content result.1) (S.images result.1)) }
    ensures spare_lasts { P.tells → IfDone result.0 (λ _. LastsLocal (uses_of order.now)
        order.now.access (P.content result.2) (P.images result.2)) }
    ensures second_lasts { R.tells → IfDone result.0 (λ _.
        LastsSecond (uses_of order.now) (R.content result.3) (R.images result.3)) }
    ensures shared_lasts { H.Device.tells → IfDone result.0 (λ _.
        LastsShared (uses_of order.now) (H.content result.4) (H.images result.4)) }

    // What was refused.
    ensures refused { W.tells → S.tells → P.tells → R.tells → H.Device.tells → IfRefused result.0
        (IsRefusedRunOrder order.now env.now (W.state world.old).files
        (stores_at S.content P.content R.content H.content H.coming store spare second shared)) }
    ensures only { W.tells → S.tells → P.tells → R.tells → H.Device.tells
        → HasNoOtherRun order.now env.now (W.state world.old).files
        (stores_at S.content P.content R.content H.content H.coming store spare second shared)
        result.0 }
    ensures unstarted { IfRefused result.0 (λ _. W.runs world.new ≡ W.runs world.old) }
    ensures untouched { IfRefused result.0 (λ _.
        (W.state world.new).files ≡ (W.state world.old).files) }
    ensures reread { S.tells → IfRefused result.0 (λ _. IsReread S.StoreDevice store result.1) }
    ensures spare_reread { P.tells
        → IfRefused result.0 (λ _. IsReread P.StoreDevice spare result.2) }
    ensures second_reread { R.tells
        → IfRefused result.0 (λ _. IsReread R.StoreDevice second result.3) }
    ensures line { K.tells → IfRefused result.0 (λ reason.
        K.written out.new ≡ K.written out.old ++ line_of (refusal_text reason)) }

    // What was stopped.
    ensures stopped { W.tells → S.tells → P.tells → R.tells → H.Device.tells → K.tells
        → IfFault result.0
        (StoppedRun order.now (W.effect (W.runs world.old).book) env.now K.tells
        (at_moment W.state W.runs S.content P.content R.content H.content H.coming K.written
        world.old store spare second shared out.old)
        (at_moment W.state W.runs S.content P.content R.content H.content H.coming K.written
        world.new result.1 result.2 result.3 result.4 out.new)) }

    // Whatever it answers.
    ensures turn { (H.turn result.4).held ≡ false }
    ensures idle { IsIdle (W.runs world.new) }
    ensures book { (W.runs world.new).book ≡ (W.runs world.old).book }
    ensures elsewhere { W.tells → MayChangeRun order.now env.now
        (W.state world.old).files (W.state world.new).files }
    ensures kept { KeepsLocal (uses_of order.now) order.now.access store result.1 }
    ensures spare_kept { KeepsLocal (uses_of order.now) order.now.access spare result.2 }
    ensures second_kept { KeepsSecond (uses_of order.now) second result.3 }
    ensures shared_kept { KeepsShared (uses_of order.now) shared result.4 }
    ensures sound { S.tells → P.tells → R.tells
        → LeavesOnly S.moment S.images_since store result.1
        (AddsTo (puts_local (uses_of order.now) order.now.access) (S.images store)) }
    ensures spare_sound { S.tells → P.tells → R.tells
        → LeavesOnly P.moment P.images_since spare result.2
        (AddsTo (puts_local (uses_of order.now) order.now.access) (P.images spare)) }
    ensures second_sound { S.tells → P.tells → R.tells
        → LeavesOnly R.moment R.images_since second result.3
        (AddsTo (puts_second (uses_of order.now) order.now.access) (R.images second)) }
    ensures shared_sound { H.Device.tells → StaysSound H.Shared shared result.4 }
    ensures shared_adds { H.Device.tells → LeavesOnly H.moment H.images_since shared result.4
        (AddsToShared H.Shared shared (uses_of order.now)
        (at_moment W.state W.runs S.content P.content R.content H.content H.coming K.written
        world.old store spare second shared out.old)) }
    ensures other { S.tells → P.tells → RereadsOther S.StoreDevice P.StoreDevice
        (current_of (S.content store) (P.content spare)) store result.1 spare result.2 }
    ensures left { W.tells → S.tells → P.tells → R.tells → H.Device.tells
        → IsTrustedOrder order.now (W.effect (W.runs world.old).book) env.now
        (at_moment W.state W.runs S.content P.content R.content H.content H.coming K.written
        world.old store spare second shared out.old)
        → LeavesPairs S.StoreDevice P.StoreDevice store result.1 spare result.2
        (IsLeftByOrder order.now (W.effect (W.runs world.old).book) env.now
        (at_moment W.state W.runs S.content P.content R.content H.content H.coming K.written
        world.old store spare second shared out.old)
        (W.runs world.new).steps (S.images store) (P.images spare)) }
    ensures second_left { W.tells → S.tells → P.tells → R.tells → H.Device.tells
        → IsTrustedOrder order.now (W.effect (W.runs world.old).book) env.now
        (at_moment W.state W.runs S.content P.content R.content H.content H.coming K.written
        world.old store spare second shared out.old)
        → LeavesOnly R.moment R.images_since second result.3
        (IsSecondByOrder order.now (W.effect (W.runs world.old).book) env.now
        (at_moment W.state W.runs S.content P.content R.content H.content H.coming K.written
        world.old store spare second shared out.old)
        (W.runs world.new).steps (R.images second)) }
    ensures shared_left { W.tells → S.tells → P.tells → R.tells → H.Device.tells
        → IsTrustedOrder order.now (W.effect (W.runs world.old).book) env.now
        (at_moment W.state W.runs S.content P.content R.content H.content H.coming K.written
        world.old store spare second shared out.old)
        → LeavesOnly H.moment H.images_since shared result.4
        (IsSharedByOrder H.Shared shared order.now (W.effect (W.runs world.old).book) env.now
        (at_moment W.state W.runs S.content P.content R.content H.content H.coming K.written
        world.old store spare second shared out.old)
        (at_moment W.state W.runs S.content P.content R.content H.content H.coming K.written
        world.new result.1 result.2 result.3 result.4 out.new)) }
    ensures cause { HasCauseBy (uses_of order.now) H.Device.tells
        (counts_at (W.state world.old) (W.runs world.old)
        (S.store_faults store + P.store_faults spare + R.store_faults second
        + H.store_faults shared) (K.faults out.old))
        (counts_at (W.state world.new) (W.runs world.new)
        (S.store_faults result.1 + P.store_faults result.2 + R.store_faults result.3
        + H.store_faults result.4) (K.faults out.new)) result.0 }
{
    order_law();
    match asked(alloc, world, order, env) {
        Ok(plan) => run_planned(
            alloc,
            uses_of(order),
            order,
            &plan,
            world,
            store,
            spare,
            second,
            shared,
            out,
        ),
        Err(stop) => (tell_stop(alloc, stop, out), store, spare, second, shared),
    }
}
