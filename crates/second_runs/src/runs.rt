// A run of a plan over the stores that an access says.
ghost use Rattle.std.specs.Prelude.{◌≡◌, ◌+◌, ◌++◌, true, false, IsTrue};
ghost use Rattle.store_dev.specs.Device.{LeavesOnly, Only};
ghost use Rattle.spawn_dev.specs.Spawn.{IsIdle};
ghost use Rattle.cli_words.specs.Laws.{IsAccess};
ghost use Rattle.refusals.specs.Refusals.{line_of, refusal_text};
ghost use Rattle.compact.specs.Current.{current_of, generation_in};
ghost use Rattle.compact.specs.Left.{IsReread};
ghost use Rattle.run_plan.specs.Answers.{SameElsewhere};
ghost use Rattle.run_plan.specs.Openings.{HoldsInputs};
ghost use Rattle.run_plan.specs.Plans.{IsValidPlan};
ghost use Rattle.answers.specs.Answers.{IfDone, IfRefused, HasRunCause, counts_at};
ghost use Rattle.answers.specs.Moments.{moment_of};
ghost use Rattle.answers.specs.Stops.{IfFault};
ghost use Rattle.store_answers.specs.Stores.{stores_of};
ghost use Rattle.second_runs.specs.Images.{AddsTo, IsLeftInBoth, IsLeftInLocal, IsLeftInSecond};
ghost use Rattle.second_runs.specs.Images.{IsTrustedSecond, LeavesPairs};
ghost use Rattle.second_runs.specs.Moments.{Both, at_moment};
ghost use Rattle.second_runs.specs.Outcomes.{RanSecond};
ghost use Rattle.second_runs.specs.Refused.{HasNoOther, IsNoneRead};
ghost use Rattle.second_runs.specs.Stops.{StopsSecond};

use crate::opening::{with_local, with_second};
use answers::Answer;
use artifact_store::Store;
use cli_words::Access;
use compact::{Side, current};
use refusals::StoreFile;
use run_plan::Plan;
use spawn_dev::Spawner;
use std::alloc::Global;
use store_answers::not_current;
use store_dev::StoreDevice;
use tree_dev::Sink;

/// Runs the plan over the current one of a store and a spare one and over the second store. The
/// devices are handed back whatever the answer is.
fn over_current<W: Spawner, S: StoreDevice, P: StoreDevice, R: StoreDevice, K: Sink>(
    alloc: Global,
    access: Access,
    is_dry: bool,
    plan: &Plan,
    world: &mut W,
    store: S,
    spare: P,
    second: R,
    out: &mut K,
) -> (Answer, S, P, R)
    requires access { IsAccess access }
    requires second { IsTrue access.second_reads }
    requires reads { access.local_reads ≡ true }
    requires plan { IsValidPlan plan.now }
    requires idle { IsIdle (W.runs world.old) }
    requires inputs { W.tells → HoldsInputs plan.now (W.state world.old).files }

    // What came to its end.
    ensures ran { W.tells → S.tells → P.tells → R.tells → IfDone result.0 (RanSecond is_dry
        access (W.effect (W.runs world.old).book) plan.now K.tells
        (at_moment W.state W.runs S.content P.content R.content K.written access
        world.old store spare second out.old)
        (at_moment W.state W.runs S.content P.content R.content K.written access
        world.new result.1 result.2 result.3 out.new)) }
    ensures current { S.tells → P.tells → R.tells → IfDone result.0 (λ _.
        current_of (S.content result.1) (P.content result.2)
        ≡ current_of (S.content store) (P.content spare)) }
    ensures lasts { S.tells → access.local_reads ≡ true
        → IfDone result.0 (λ _. Only (S.content result.1) (S.images result.1)) }
    ensures spare_lasts { P.tells → access.local_reads ≡ true
        → IfDone result.0 (λ _. Only (P.content result.2) (P.images result.2)) }
    ensures second_lasts { R.tells
        → IfDone result.0 (λ _. Only (R.content result.3) (R.images result.3)) }

    // What was refused.
    ensures refused { S.tells → P.tells → R.tells → IfRefused result.0 (IsNoneRead access
        (stores_of (S.content store) (P.content spare)) (R.content second)) }
    ensures untouched { IfRefused result.0 (λ _. W.state world.new ≡ W.state world.old) }
    ensures unstarted { IfRefused result.0 (λ _. W.runs world.new ≡ W.runs world.old) }
    ensures reread { S.tells → IfRefused result.0 (λ _. IsReread S.StoreDevice store result.1) }
    ensures spare_reread { P.tells
        → IfRefused result.0 (λ _. IsReread P.StoreDevice spare result.2) }
    ensures second_reread { R.tells
        → IfRefused result.0 (λ _. IsReread R.StoreDevice second result.3) }
    ensures line { K.tells → IfRefused result.0 (λ reason.
        K.written out.new ≡ K.written out.old ++ line_of (refusal_text reason)) }

    // What was stopped.
    ensures stopped { W.tells → S.tells → P.tells → R.tells → K.tells → (kept : Both)
        → IfFault result.0 (StopsSecond (IsNoneRead access
        (stores_of (S.content store) (P.content spare)) (R.content second)) is_dry access
        (W.effect (W.runs world.old).book) plan.now K.tells
        (at_moment W.state W.runs S.content P.content R.content K.written access
        world.old store spare second out.old)
        (moment_of (W.state world.new) (W.runs world.new) kept (K.written out.new))) }

    // Whatever it answers.
    ensures idle { IsIdle (W.runs world.new) }
    ensures book { (W.runs world.new).book ≡ (W.runs world.old).book }
    ensures elsewhere { W.tells
        → SameElsewhere plan.now (W.state world.old).files (W.state world.new).files }
    ensures other { S.tells → P.tells
        → current_of (S.content store) (P.content spare) ≡ Side.Spare
        → IsReread S.StoreDevice store result.1 }
    ensures spare_other { S.tells → P.tells
        → current_of (S.content store) (P.content spare) ≡ Side.First
        → IsReread P.StoreDevice spare result.2 }
    ensures sound { S.tells → P.tells → R.tells
        → LeavesOnly S.moment S.images_since store result.1
        (AddsTo access.local_puts (S.images store)) }
    ensures spare_sound { S.tells → P.tells → R.tells
        → LeavesOnly P.moment P.images_since spare result.2
        (AddsTo access.local_puts (P.images spare)) }
    ensures second_sound { S.tells → P.tells → R.tells
        → LeavesOnly R.moment R.images_since second result.3
        (AddsTo access.second_puts (R.images second)) }
    ensures left { W.tells → S.tells → P.tells → R.tells
        → IsTrustedSecond is_dry access (W.effect (W.runs world.old).book) plan.now
        (at_moment W.state W.runs S.content P.content R.content K.written access
        world.old store spare second out.old)
        → LeavesOnly S.moment S.images_since store result.1 (IsLeftInLocal is_dry access
        (W.effect (W.runs world.old).book) plan.now
        (at_moment W.state W.runs S.content P.content R.content K.written access
        world.old store spare second out.old)
        (W.runs world.new).steps (generation_in (S.content store)) (S.images store)) }
    ensures spare_left { W.tells → S.tells → P.tells → R.tells
        → IsTrustedSecond is_dry access (W.effect (W.runs world.old).book) plan.now
        (at_moment W.state W.runs S.content P.content R.content K.written access
        world.old store spare second out.old)
        → LeavesOnly P.moment P.images_since spare result.2 (IsLeftInLocal is_dry access
        (W.effect (W.runs world.old).book) plan.now
        (at_moment W.state W.runs S.content P.content R.content K.written access
        world.old store spare second out.old)
        (W.runs world.new).steps (generation_in (P.content spare)) (P.images spare)) }
    ensures second_left { W.tells → S.tells → P.tells → R.tells
        → IsTrustedSecond is_dry access (W.effect (W.runs world.old).book) plan.now
        (at_moment W.state W.runs S.content P.content R.content K.written access
        world.old store spare second out.old)
        → LeavesOnly R.moment R.images_since second result.3 (IsLeftInSecond is_dry access
        (W.effect (W.runs world.old).book) plan.now
        (at_moment W.state W.runs S.content P.content R.content K.written access
        world.old store spare second out.old)
        (W.runs world.new).steps (generation_in (R.content second)) (R.images second)) }
    ensures cause { HasRunCause
        (counts_at (W.state world.old) (W.runs world.old)
        (S.store_faults store + P.store_faults spare + R.store_faults second) (K.faults out.old))
        (counts_at (W.state world.new) (W.runs world.new)
        (S.store_faults result.1 + P.store_faults result.2 + R.store_faults result.3)
        (K.faults out.new)) result.0 }
{
    let (found, store, spare) = current(alloc, store, spare);
    match found {
        Ok(Side::First) => {
            let file = StoreFile::Store;
            let (answer, store, second) = with_local(
                alloc, access, is_dry, plan, world, file, store, second, out,
            );
            (answer, store, spare, second)
        }
        Ok(Side::Spare) => {
            let file = StoreFile::Spare;
            let (answer, spare, second) = with_local(
                alloc, access, is_dry, plan, world, file, spare, second, out,
            );
            (answer, store, spare, second)
        }
        Err(fault) => (not_current(alloc, fault, out), store, spare, second),
    }
}

/// Runs the plan over the stores that the access says, of which the second one is read, or says
/// what a run would do.
///
/// Where the local store is read, it is the current one of the store and the spare one: both are
/// opened, the store first, and then the second store. Where it is not, they are not opened. What
/// is put into is read too, and one store at least is put into. All three devices are handed back
/// whatever the answer is, and the current one stays the current one.
///
/// # Refusals
/// In this order: `NotAStore` and `Damaged` of the store and of the spare one, where the local
/// store is read, and of the second one.
pub fn run_second<W: Spawner, S: StoreDevice, P: StoreDevice, R: StoreDevice, K: Sink>(
    alloc: Global,
    access: Access,
    is_dry: bool,
    plan: &Plan,
    world: &mut W,
    store: S,
    spare: P,
    second: R,
    out: &mut K,
) -> (Answer, S, P, R)
    requires access { IsAccess access }
    requires second { IsTrue access.second_reads }
    requires plan { IsValidPlan plan.now }
    requires idle { IsIdle (W.runs world.old) }
    requires inputs { W.tells → HoldsInputs plan.now (W.state world.old).files }

    // What came to its end.
    ensures ran { W.tells → S.tells → P.tells → R.tells → IfDone result.0 (RanSecond is_dry
        access (W.effect (W.runs world.old).book) plan.now K.tells
        (at_moment W.state W.runs S.content P.content R.content K.written access
        world.old store spare second out.old)
        (at_moment W.state W.runs S.content P.content R.content K.written access
        world.new result.1 result.2 result.3 out.new)) }
    ensures current { S.tells → P.tells → R.tells → IfDone result.0 (λ _.
        current_of (S.content result.1) (P.content result.2)
        ≡ current_of (S.content store) (P.content spare)) }
    ensures lasts { S.tells → access.local_reads ≡ true
        → IfDone result.0 (λ _. Only (S.content result.1) (S.images result.1)) }
    ensures spare_lasts { P.tells → access.local_reads ≡ true
        → IfDone result.0 (λ _. Only (P.content result.2) (P.images result.2)) }
    ensures second_lasts { R.tells
        → IfDone result.0 (λ _. Only (R.content result.3) (R.images result.3)) }

    // What was refused.
    ensures refused { S.tells → P.tells → R.tells → IfRefused result.0 (IsNoneRead access
        (stores_of (S.content store) (P.content spare)) (R.content second)) }
    ensures only { W.tells → S.tells → P.tells → R.tells → HasNoOther access
        (stores_of (S.content store) (P.content spare)) (R.content second) result.0 }
    ensures untouched { IfRefused result.0 (λ _. W.state world.new ≡ W.state world.old) }
    ensures unstarted { IfRefused result.0 (λ _. W.runs world.new ≡ W.runs world.old) }
    ensures reread { S.tells → IfRefused result.0 (λ _. IsReread S.StoreDevice store result.1) }
    ensures spare_reread { P.tells
        → IfRefused result.0 (λ _. IsReread P.StoreDevice spare result.2) }
    ensures second_reread { R.tells
        → IfRefused result.0 (λ _. IsReread R.StoreDevice second result.3) }
    ensures line { K.tells → IfRefused result.0 (λ reason.
        K.written out.new ≡ K.written out.old ++ line_of (refusal_text reason)) }

    // What was stopped.
    ensures stopped { W.tells → S.tells → P.tells → R.tells → K.tells → (kept : Both)
        → IfFault result.0 (StopsSecond (IsNoneRead access
        (stores_of (S.content store) (P.content spare)) (R.content second)) is_dry access
        (W.effect (W.runs world.old).book) plan.now K.tells
        (at_moment W.state W.runs S.content P.content R.content K.written access
        world.old store spare second out.old)
        (moment_of (W.state world.new) (W.runs world.new) kept (K.written out.new))) }

    // Whatever it answers.
    ensures idle { IsIdle (W.runs world.new) }
    ensures book { (W.runs world.new).book ≡ (W.runs world.old).book }
    ensures elsewhere { W.tells
        → SameElsewhere plan.now (W.state world.old).files (W.state world.new).files }
    ensures alone { access.local_reads ≡ false → (result.1 ≡ store) × (result.2 ≡ spare) }
    ensures other { S.tells → P.tells
        → current_of (S.content store) (P.content spare) ≡ Side.Spare
        → IsReread S.StoreDevice store result.1 }
    ensures spare_other { S.tells → P.tells
        → current_of (S.content store) (P.content spare) ≡ Side.First
        → IsReread P.StoreDevice spare result.2 }
    ensures sound { S.tells → P.tells → R.tells
        → LeavesOnly S.moment S.images_since store result.1
        (AddsTo access.local_puts (S.images store)) }
    ensures spare_sound { S.tells → P.tells → R.tells
        → LeavesOnly P.moment P.images_since spare result.2
        (AddsTo access.local_puts (P.images spare)) }
    ensures second_sound { S.tells → P.tells → R.tells
        → LeavesOnly R.moment R.images_since second result.3
        (AddsTo access.second_puts (R.images second)) }
    ensures left { W.tells → S.tells → P.tells → R.tells
        → IsTrustedSecond is_dry access (W.effect (W.runs world.old).book) plan.now
        (at_moment W.state W.runs S.content P.content R.content K.written access
        world.old store spare second out.old)
        → LeavesOnly S.moment S.images_since store result.1 (IsLeftInLocal is_dry access
        (W.effect (W.runs world.old).book) plan.now
        (at_moment W.state W.runs S.content P.content R.content K.written access
        world.old store spare second out.old)
        (W.runs world.new).steps (generation_in (S.content store)) (S.images store)) }
    ensures spare_left { W.tells → S.tells → P.tells → R.tells
        → IsTrustedSecond is_dry access (W.effect (W.runs world.old).book) plan.now
        (at_moment W.state W.runs S.content P.content R.content K.written access
        world.old store spare second out.old)
        → LeavesOnly P.moment P.images_since spare result.2 (IsLeftInLocal is_dry access
        (W.effect (W.runs world.old).book) plan.now
        (at_moment W.state W.runs S.content P.content R.content K.written access
        world.old store spare second out.old)
        (W.runs world.new).steps (generation_in (P.content spare)) (P.images spare)) }
    ensures second_left { W.tells → S.tells → P.tells → R.tells
        → IsTrustedSecond is_dry access (W.effect (W.runs world.old).book) plan.now
        (at_moment W.state W.runs S.content P.content R.content K.written access
        world.old store spare second out.old)
        → LeavesOnly R.moment R.images_since second result.3 (IsLeftInSecond is_dry access
        (W.effect (W.runs world.old).book) plan.now
        (at_moment W.state W.runs S.content P.content R.content K.written access
        world.old store spare second out.old)
        (W.runs world.new).steps (generation_in (R.content second)) (R.images second)) }
    ensures pairs_left { W.tells → S.tells → P.tells → R.tells
        → IsTrustedSecond is_dry access (W.effect (W.runs world.old).book) plan.now
        (at_moment W.state W.runs S.content P.content R.content K.written access
        world.old store spare second out.old)
        → LeavesPairs S.StoreDevice P.StoreDevice store result.1 spare result.2
        (IsLeftInBoth is_dry access (W.effect (W.runs world.old).book) plan.now
        (at_moment W.state W.runs S.content P.content R.content K.written access
        world.old store spare second out.old)
        (W.runs world.new).steps (S.images store) (P.images spare)) }
    ensures cause { HasRunCause
        (counts_at (W.state world.old) (W.runs world.old)
        (S.store_faults store + P.store_faults spare + R.store_faults second) (K.faults out.old))
        (counts_at (W.state world.new) (W.runs world.new)
        (S.store_faults result.1 + P.store_faults result.2 + R.store_faults result.3)
        (K.faults out.new)) result.0 }
{
    if access.local_reads {
        return over_current(
            alloc, access, is_dry, plan, world, store, spare, second, out,
        );
    }
    let none: Option<Store<S>> = None;
    let (answer, local, second) = with_second(
        alloc, access, is_dry, plan, world, none, second, out,
    );
    match local {
        None => (answer, store, spare, second),
        Some(_) => unreachable!(),
    }
}
