// A run of a plan over a second store that is still to be opened, and over a local one.
ghost use Rattle.std.specs.Prelude.{◌≡◌, ◌+◌, ◌++◌, Some, IsTrue};
ghost use Rattle.store_dev.specs.Device.{LeavesOnly, Only};
ghost use Rattle.spawn_dev.specs.Spawn.{IsIdle};
ghost use Rattle.refusals.specs.Refusals.{line_of, refusal_text};
ghost use Rattle.artifact_store.specs.Pairs.{told_as};
ghost use Rattle.compact.specs.Current.{generation_in};
ghost use Rattle.compact.specs.Left.{IsReread};
ghost use Rattle.relay_store.specs.Access.{IsAccessOf, is_there};
ghost use Rattle.relay_store.specs.Stores.{state_in};
ghost use Rattle.run_plan.specs.Answers.{SameElsewhere};
ghost use Rattle.run_plan.specs.Openings.{HoldsInputs};
ghost use Rattle.run_plan.specs.Plans.{IsValidPlan};
ghost use Rattle.answers.specs.Answers.{IfDone, IfRefused, HasRunCause, counts_at};
ghost use Rattle.answers.specs.Moments.{Held, moment_of};
ghost use Rattle.answers.specs.Stops.{IfFault};
ghost use Rattle.store_answers.specs.Refused.{IsNoStore};
ghost use Rattle.store_answers.specs.Stores.{held_by};
ghost use Rattle.second_runs.specs.Images.{
  AddsTo,
  IsBehind,
  IsLeftInLocal,
  IsLeftInSecond,
  IsLeftOfLocal,
  IsTrustedSecond,
};
ghost use Rattle.second_runs.specs.Moments.{Both, both_of};
ghost use Rattle.second_runs.specs.Opened.{StaysOr, held_of};
ghost use Rattle.second_runs.specs.Outcomes.{RanSecond};
ghost use Rattle.second_runs.specs.Refused.{IsNoneBehind};
ghost use Rattle.second_runs.specs.Stops.{StopsSecond};

use crate::foreseen::open_for_plan;
use crate::opened::{device_in, run_opened};
use answers::Answer;
use artifact_store::Store;
use cli_words::Access;
use record_log::Unopened;
use refusals::StoreFile;
use run_plan::Plan;
use spawn_dev::Spawner;
use std::alloc::Global;
use store_answers::unopened;
use store_dev::StoreDevice;
use tree_dev::Sink;

/// Opens the second store and runs the plan over it and a local one that was opened, where that is
/// read. The local store and the second device are handed back whatever the answer is.
pub(crate) fn with_second<W: Spawner, D: StoreDevice, R: StoreDevice, K: Sink>(
    alloc: Global,
    access: Access,
    is_dry: bool,
    plan: &Plan,
    world: &mut W,
    local: Option<Store<D>>,
    second: R,
    out: &mut K,
) -> (Answer, Option<Store<D>>, R)
    requires access { IsAccessOf access local (Some second) }
    requires local { IsTrue (state_in local).whole }
    requires plan { IsValidPlan plan.now }
    requires idle { IsIdle (W.runs world.old) }
    requires inputs { W.tells → HoldsInputs plan.now (W.state world.old).files }

    // What came to its end.
    ensures whole { IfDone result.0 (λ _. IsTrue (state_in result.1).whole) }
    ensures ran { W.tells → D.tells → R.tells → (own : Held)
        → own.pairs ≡ Some (state_in local).pairs
        → IfDone result.0 (RanSecond is_dry access (W.effect (W.runs world.old).book) plan.now
        K.tells (moment_of (W.state world.old) (W.runs world.old)
        (both_of own (held_by (R.content second))) (K.written out.old))
        (moment_of (W.state world.new) (W.runs world.new)
        (both_of (held_of result.1) (held_by (R.content result.2))) (K.written out.new))) }
    ensures lasts { R.tells
        → IfDone result.0 (λ _. Only (R.content result.2) (R.images result.2)) }

    // What was refused.
    ensures refused { R.tells
        → IfRefused result.0 (IsNoStore StoreFile.Second (R.content second)) }
    ensures untouched { IfRefused result.0 (λ _. W.state world.new ≡ W.state world.old) }
    ensures unstarted { IfRefused result.0 (λ _. W.runs world.new ≡ W.runs world.old) }
    ensures kept { IfRefused result.0 (λ _. result.1 ≡ local) }
    ensures reread { R.tells → IfRefused result.0 (λ _. IsReread R.StoreDevice second result.2) }
    ensures line { K.tells → IfRefused result.0 (λ reason.
        K.written out.new ≡ K.written out.old ++ line_of (refusal_text reason)) }

    // What was stopped.
    ensures stopped { W.tells → D.tells → R.tells → K.tells → (own : Held)
        → own.pairs ≡ Some (state_in local).pairs → (kept : Both)
        → IfFault result.0 (StopsSecond (IsNoStore StoreFile.Second (R.content second)) is_dry
        access (W.effect (W.runs world.old).book) plan.now K.tells
        (moment_of (W.state world.old) (W.runs world.old)
        (both_of own (held_by (R.content second))) (K.written out.old))
        (moment_of (W.state world.new) (W.runs world.new) kept (K.written out.new))) }

    // Whatever it answers.
    ensures idle { IsIdle (W.runs world.new) }
    ensures book { (W.runs world.new).book ≡ (W.runs world.old).book }
    ensures elsewhere { W.tells
        → SameElsewhere plan.now (W.state world.old).files (W.state world.new).files }
    ensures there { is_there result.1 ≡ is_there local }
    ensures sound { D.tells → R.tells → StaysOr local result.1
        (λ c. IsBehind access.local_puts (state_in local).pairs
        (told_as (state_in local).base c)) }
    ensures second_sound { D.tells → R.tells → LeavesOnly R.moment R.images_since second result.2
        (AddsTo access.second_puts (R.images second)) }
    ensures left { W.tells → D.tells → R.tells → (own : Held)
        → own.pairs ≡ Some (state_in local).pairs
        → IsTrustedSecond is_dry access (W.effect (W.runs world.old).book) plan.now
        (moment_of (W.state world.old) (W.runs world.old)
        (both_of own (held_by (R.content second))) (K.written out.old))
        → StaysOr local result.1 (λ c. IsLeftOfLocal is_dry access
        (W.effect (W.runs world.old).book) plan.now
        (moment_of (W.state world.old) (W.runs world.old)
        (both_of own (held_by (R.content second))) (K.written out.old))
        (W.runs world.new).steps (told_as (state_in local).base c)) }
    ensures second_left { W.tells → D.tells → R.tells → (own : Held)
        → own.pairs ≡ Some (state_in local).pairs
        → IsTrustedSecond is_dry access (W.effect (W.runs world.old).book) plan.now
        (moment_of (W.state world.old) (W.runs world.old)
        (both_of own (held_by (R.content second))) (K.written out.old))
        → LeavesOnly R.moment R.images_since second result.2 (IsLeftInSecond is_dry access
        (W.effect (W.runs world.old).book) plan.now
        (moment_of (W.state world.old) (W.runs world.old)
        (both_of own (held_by (R.content second))) (K.written out.old))
        (W.runs world.new).steps (generation_in (R.content second)) (R.images second)) }
    ensures cause { HasRunCause
        (counts_at (W.state world.old) (W.runs world.old)
        ((state_in local).faults + R.store_faults second) (K.faults out.old))
        (counts_at (W.state world.new) (W.runs world.new)
        ((state_in result.1).faults + R.store_faults result.2) (K.faults out.new)) result.0 }
{
    match open_for_plan(alloc, plan, second) {
        Ok(opened) => {
            let (answer, local, second) = run_opened(
                alloc,
                access,
                is_dry,
                plan,
                world,
                local,
                Some(opened),
                out,
            );
            (answer, local, device_in(second))
        }
        Err(Unopened { fault, store }) => {
            (unopened(alloc, StoreFile::Second, fault, out), local, store)
        }
    }
}

/// Opens the local store of that file, then the second store, and runs the plan over both. Both
/// devices are handed back whatever the answer is.
pub(crate) fn with_local<W: Spawner, D: StoreDevice, R: StoreDevice, K: Sink>(
    alloc: Global,
    access: Access,
    is_dry: bool,
    plan: &Plan,
    world: &mut W,
    file: StoreFile,
    local: D,
    second: R,
    out: &mut K,
) -> (Answer, D, R)
    requires access { IsAccessOf access (Some local) (Some second) }
    requires plan { IsValidPlan plan.now }
    requires idle { IsIdle (W.runs world.old) }
    requires inputs { W.tells → HoldsInputs plan.now (W.state world.old).files }

    // What came to its end.
    ensures ran { W.tells → D.tells → R.tells
        → IfDone result.0 (RanSecond is_dry access (W.effect (W.runs world.old).book) plan.now
        K.tells (moment_of (W.state world.old) (W.runs world.old)
        (both_of (held_by (D.content local)) (held_by (R.content second))) (K.written out.old))
        (moment_of (W.state world.new) (W.runs world.new)
        (both_of (held_by (D.content result.1)) (held_by (R.content result.2)))
        (K.written out.new))) }
    ensures lasts { D.tells
        → IfDone result.0 (λ _. Only (D.content result.1) (D.images result.1)) }
    ensures second_lasts { R.tells
        → IfDone result.0 (λ _. Only (R.content result.2) (R.images result.2)) }

    // What was refused.
    ensures refused { D.tells → R.tells
        → IfRefused result.0 (IsNoneBehind file (D.content local) (R.content second)) }
    ensures untouched { IfRefused result.0 (λ _. W.state world.new ≡ W.state world.old) }
    ensures unstarted { IfRefused result.0 (λ _. W.runs world.new ≡ W.runs world.old) }
    ensures reread { D.tells → IfRefused result.0 (λ _. IsReread D.StoreDevice local result.1) }
    ensures second_reread { R.tells
        → IfRefused result.0 (λ _. IsReread R.StoreDevice second result.2) }
    ensures line { K.tells → IfRefused result.0 (λ reason.
        K.written out.new ≡ K.written out.old ++ line_of (refusal_text reason)) }

    // What was stopped.
    ensures stopped { W.tells → D.tells → R.tells → K.tells → (kept : Both)
        → IfFault result.0 (StopsSecond (IsNoneBehind file (D.content local) (R.content second))
        is_dry access (W.effect (W.runs world.old).book) plan.now K.tells
        (moment_of (W.state world.old) (W.runs world.old)
        (both_of (held_by (D.content local)) (held_by (R.content second))) (K.written out.old))
        (moment_of (W.state world.new) (W.runs world.new) kept (K.written out.new))) }

    // Whatever it answers.
    ensures idle { IsIdle (W.runs world.new) }
    ensures book { (W.runs world.new).book ≡ (W.runs world.old).book }
    ensures elsewhere { W.tells
        → SameElsewhere plan.now (W.state world.old).files (W.state world.new).files }
    ensures sound { D.tells → R.tells → LeavesOnly D.moment D.images_since local result.1
        (AddsTo access.local_puts (D.images local)) }
    ensures second_sound { D.tells → R.tells → LeavesOnly R.moment R.images_since second result.2
        (AddsTo access.second_puts (R.images second)) }
    ensures left { W.tells → D.tells → R.tells
        → IsTrustedSecond is_dry access (W.effect (W.runs world.old).book) plan.now
        (moment_of (W.state world.old) (W.runs world.old)
        (both_of (held_by (D.content local)) (held_by (R.content second))) (K.written out.old))
        → LeavesOnly D.moment D.images_since local result.1 (IsLeftInLocal is_dry access
        (W.effect (W.runs world.old).book) plan.now
        (moment_of (W.state world.old) (W.runs world.old)
        (both_of (held_by (D.content local)) (held_by (R.content second))) (K.written out.old))
        (W.runs world.new).steps (generation_in (D.content local)) (D.images local)) }
    ensures second_left { W.tells → D.tells → R.tells
        → IsTrustedSecond is_dry access (W.effect (W.runs world.old).book) plan.now
        (moment_of (W.state world.old) (W.runs world.old)
        (both_of (held_by (D.content local)) (held_by (R.content second))) (K.written out.old))
        → LeavesOnly R.moment R.images_since second result.2 (IsLeftInSecond is_dry access
        (W.effect (W.runs world.old).book) plan.now
        (moment_of (W.state world.old) (W.runs world.old)
        (both_of (held_by (D.content local)) (held_by (R.content second))) (K.written out.old))
        (W.runs world.new).steps (generation_in (R.content second)) (R.images second)) }
    ensures cause { HasRunCause
        (counts_at (W.state world.old) (W.runs world.old)
        (D.store_faults local + R.store_faults second) (K.faults out.old))
        (counts_at (W.state world.new) (W.runs world.new)
        (D.store_faults result.1 + R.store_faults result.2) (K.faults out.new)) result.0 }
{
    match open_for_plan(alloc, plan, local) {
        Ok(opened) => {
            let (answer, local, second) = with_second(
                alloc,
                access,
                is_dry,
                plan,
                world,
                Some(opened),
                second,
                out,
            );
            (answer, device_in(local), second)
        }
        Err(Unopened { fault, store }) => (unopened(alloc, file, fault, out), store, second),
    }
}
