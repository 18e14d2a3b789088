// A run of a plan over stores that were opened.
ghost use Rattle.std.specs.Prelude.{◌≡◌, ◌+◌, true, Some, IsTrue};
ghost use Rattle.store_dev.specs.Device.{LeavesOnly, Only};
ghost use Rattle.spawn_dev.specs.Spawn.{IsIdle};
ghost use Rattle.artifact_store.specs.Pairs.{told_as};
ghost use Rattle.relay_store.specs.Access.{IsAccessOf, is_there};
ghost use Rattle.relay_store.specs.Relays.{all_pairs};
ghost use Rattle.relay_store.specs.Stores.{state_in, moment_in, images_in};
ghost use Rattle.run_plan.specs.Answers.{SameElsewhere};
ghost use Rattle.run_plan.specs.Openings.{HoldsInputs};
ghost use Rattle.run_plan.specs.Plans.{IsValidPlan};
ghost use Rattle.answers.specs.Answers.{IfDone, IfRefused, HasRunCause, counts_at};
ghost use Rattle.answers.specs.Moments.{moment_of};
ghost use Rattle.answers.specs.Stops.{IfFault};
ghost use Rattle.cache_runs.specs.Openings.{IsTrustedRun};
ghost use Rattle.cache_runs.specs.Stops.{StopsRun};
ghost use Rattle.store_answers.specs.Stores.{held_by};
ghost use Rattle.second_runs.specs.Images.{IsBehind, IsLeftBy};
ghost use Rattle.second_runs.specs.Moments.{Both, both_of};
ghost use Rattle.second_runs.specs.Opened.{IsDeviceIn, held_of};
ghost use Rattle.second_runs.specs.Outcomes.{RanSecond};

use answers::Answer;
use artifact_store::Store;
use cache_runs::run_over;
use cli_words::Access;
use relay_store::Relay;
use run_plan::Plan;
use spawn_dev::Spawner;
use std::alloc::Global;
use store_dev::StoreDevice;
use tree_dev::Sink;

/// The device of a store that is there.
pub(crate) fn device_in<D: StoreDevice>(store: Option<Store<D>>) -> D
    requires { is_there store ≡ true }
    ensures device { IsDeviceIn store result }
    ensures held { D.tells → IsTrue (state_in store).whole
        → held_by (D.content result) ≡ held_of store }
    ensures lasts { D.tells → IsTrue (state_in store).whole
        → Only (D.content result) (D.images result) }
{
    match store {
        Some(store) => store.device(),
        None => unreachable!(),
    }
}

/// Runs the plan over a cache over opened stores, or says what a run would do, and hands them back.
/// A local store is there where it is read.
pub(crate) fn run_opened<W: Spawner, D: StoreDevice, R: StoreDevice, K: Sink>(
    alloc: Global,
    access: Access,
    is_dry: bool,
    plan: &Plan,
    world: &mut W,
    local: Option<Store<D>>,
    second: Option<Store<R>>,
    out: &mut K,
) -> (Answer, Option<Store<D>>, Option<Store<R>>)
    requires access { IsAccessOf access local second }
    requires local { IsTrue (state_in local).whole }
    requires second { IsTrue (state_in second).whole }
    requires plan { IsValidPlan plan.now }
    requires idle { IsIdle (W.runs world.old) }
    requires inputs { W.tells → HoldsInputs plan.now (W.state world.old).files }

    // What came to its end.
    ensures whole { IfDone result.0 (λ _. IsTrue (state_in result.1).whole
        × IsTrue (state_in result.2).whole) }
    ensures ran { W.tells → D.tells → R.tells → (held : Both)
        → held.local.pairs ≡ Some (state_in local).pairs
        → held.second.pairs ≡ Some (state_in second).pairs
        → IfDone result.0 (RanSecond is_dry access (W.effect (W.runs world.old).book) plan.now
        K.tells (moment_of (W.state world.old) (W.runs world.old) held (K.written out.old))
        (moment_of (W.state world.new) (W.runs world.new)
        (both_of (held_of result.1) (held_of result.2)) (K.written out.new))) }

    // What was refused.
    ensures not_refused { IfRefused result.0 (λ _. ⊥) }

    // What was stopped.
    ensures stopped { W.tells → D.tells → R.tells → K.tells → (held kept : Both)
        → IfFault result.0 (StopsRun is_dry (W.effect (W.runs world.old).book) plan.now
        (all_pairs access local second) K.tells
        (moment_of (W.state world.old) (W.runs world.old) held (K.written out.old))
        (moment_of (W.state world.new) (W.runs world.new) kept (K.written out.new))) }

    // Whatever it answers.
    ensures idle { IsIdle (W.runs world.new) }
    ensures book { (W.runs world.new).book ≡ (W.runs world.old).book }
    ensures elsewhere { W.tells
        → SameElsewhere plan.now (W.state world.old).files (W.state world.new).files }
    ensures local_there { is_there result.1 ≡ is_there local }
    ensures second_there { is_there result.2 ≡ is_there second }
    ensures local_sound { D.tells → R.tells → LeavesOnly moment_in images_in local result.1
        (λ c. IsBehind access.local_puts (state_in local).pairs
        (told_as (state_in local).base c)) }
    ensures second_sound { D.tells → R.tells → LeavesOnly moment_in images_in second result.2
        (λ c. IsBehind access.second_puts (state_in second).pairs
        (told_as (state_in second).base c)) }
    ensures local_left { W.tells → D.tells → R.tells → (held : Both)
        → IsTrustedRun is_dry (W.effect (W.runs world.old).book) plan.now
        (all_pairs access local second)
        → LeavesOnly moment_in images_in local result.1 (λ c. IsLeftBy is_dry access.local_puts
        (W.effect (W.runs world.old).book) plan.now
        (moment_of (W.state world.old) (W.runs world.old) held (K.written out.old))
        (W.runs world.new).steps (all_pairs access local second) (state_in local).pairs
        (told_as (state_in local).base c)) }
    ensures second_left { W.tells → D.tells → R.tells → (held : Both)
        → IsTrustedRun is_dry (W.effect (W.runs world.old).book) plan.now
        (all_pairs access local second)
        → LeavesOnly moment_in images_in second result.2 (λ c. IsLeftBy is_dry access.second_puts
        (W.effect (W.runs world.old).book) plan.now
        (moment_of (W.state world.old) (W.runs world.old) held (K.written out.old))
        (W.runs world.new).steps (all_pairs access local second) (state_in second).pairs
        (told_as (state_in second).base c)) }
    ensures cause { HasRunCause
        (counts_at (W.state world.old) (W.runs world.old)
        ((state_in local).faults + (state_in second).faults) (K.faults out.old))
        (counts_at (W.state world.new) (W.runs world.new)
        ((state_in result.1).faults + (state_in result.2).faults) (K.faults out.new)) result.0 }
{
    let cache = Relay::new(local, second, access);
    let (answer, cache) = run_over(alloc, is_dry, plan, world, cache, out);
    let (local, second) = cache.parts();
    (answer, local, second)
}
