// A run of a plan over a shared file.
ghost use Rattle.std.specs.Prelude.{◌≡◌, ◌++◌, false, ⊤};
ghost use Rattle.store_dev.specs.Device.{LeavesOnly, Only};
ghost use Rattle.spawn_dev.specs.Spawn.{IsIdle};
ghost use Rattle.refusals.specs.Refusals.{line_of, refusal_text};
ghost use Rattle.run_plan.specs.Answers.{SameElsewhere};
ghost use Rattle.run_plan.specs.Openings.{HoldsInputs};
ghost use Rattle.run_plan.specs.Plans.{IsValidPlan};
ghost use Rattle.answers.specs.Answers.{IfDone, IfRefused, counts_at};
ghost use Rattle.answers.specs.Stops.{IfFault};
ghost use Rattle.store_answers.specs.Refused.{IsNoStore};
ghost use Rattle.file_runs.specs.Causes.{HasCauseOver};
ghost use Rattle.file_runs.specs.Images.{IsOneOrAddedTo, StaysSound, IsDueBy};
ghost use Rattle.file_runs.specs.Outcomes.{IsTrustedOver, RanAs};
ghost use Rattle.file_runs.specs.Stops.{StopsOpening};
ghost use Rattle.file_runs.specs.Turns.{at_moment};

use answers::Answer;
use cache_runs::run_over;
use record_log::Unopened;
use refusals::StoreFile;
use run_plan::Plan;
use shared_runs::{Shared, SharedStore};
use spawn_dev::Spawner;
use std::alloc::Global;
use store_answers::unopened;
use tree_dev::Sink;

/// Runs the plan over the store in a file that several runs use, or says what a run would do, and
/// hands the file back. Its turn is not held before and after.
pub fn run_shared<W: Spawner, H: Shared, K: Sink>(
    alloc: Global,
    is_dry: bool,
    plan: &Plan,
    world: &mut W,
    shared: H,
    out: &mut K,
) -> (Answer, H)
    requires plan { IsValidPlan plan.now }
    requires idle { IsIdle (W.runs world.old) }
    requires inputs { W.tells → HoldsInputs plan.now (W.state world.old).files }
    requires turn { (H.turn shared).held ≡ false }

    // What came to its end.
    ensures ran { W.tells → H.Device.tells → IfDone result.0
        (RanAs is_dry (W.effect (W.runs world.old).book) plan.now K.tells
        (at_moment W.state W.runs H.content H.coming K.written world.old shared out.old)
        (at_moment W.state W.runs H.content H.coming K.written world.new result.1 out.new)
        (H.content result.1)) }
    ensures lasts { H.Device.tells
        → IfDone result.0 (λ _. Only (H.content result.1) (H.images result.1)) }

    // What was refused.
    ensures refused { H.Device.tells
        → IfRefused result.0 (IsNoStore StoreFile.Shared (H.content shared)) }
    ensures untouched { IfRefused result.0 (λ _. W.state world.new ≡ W.state world.old) }
    ensures unstarted { IfRefused result.0 (λ _. W.runs world.new ≡ W.runs world.old) }
    ensures line { K.tells → IfRefused result.0 (λ reason.
        K.written out.new ≡ K.written out.old ++ line_of (refusal_text reason)) }

    // What was stopped.
    ensures stopped { W.tells → H.Device.tells → K.tells → IfFault result.0
        (StopsOpening (IsNoStore StoreFile.Shared (H.content shared)) is_dry
        (W.effect (W.runs world.old).book) plan.now K.tells
        (at_moment W.state W.runs H.content H.coming K.written world.old shared out.old)
        (at_moment W.state W.runs H.content H.coming K.written world.new result.1 out.new)
        (H.content result.1)) }

    // Whatever it answers.
    ensures turn { (H.turn result.1).held ≡ false }
    ensures idle { IsIdle (W.runs world.new) }
    ensures book { (W.runs world.new).book ≡ (W.runs world.old).book }
    ensures elsewhere { W.tells
        → SameElsewhere plan.now (W.state world.old).files (W.state world.new).files }
    ensures sound { H.Device.tells → StaysSound H.Shared shared result.1 }
    ensures grows { H.Device.tells → LeavesOnly H.moment H.images_since shared result.1
        (IsOneOrAddedTo H.Shared shared
        (at_moment W.state W.runs H.content H.coming K.written world.old shared out.old)
        (λ _ _. ⊤)) }
    ensures left { W.tells → H.Device.tells
        → IsTrustedOver is_dry (W.effect (W.runs world.old).book) plan.now
        (at_moment W.state W.runs H.content H.coming K.written world.old shared out.old)
        → LeavesOnly H.moment H.images_since shared result.1 (IsOneOrAddedTo H.Shared shared
        (at_moment W.state W.runs H.content H.coming K.written world.old shared out.old)
        (IsDueBy is_dry (W.effect (W.runs world.old).book) plan.now
        (at_moment W.state W.runs H.content H.coming K.written world.old shared out.old)
        (at_moment W.state W.runs H.content H.coming K.written world.new result.1 out.new))) }
    ensures cause { HasCauseOver H.Device.tells
        (counts_at (W.state world.old) (W.runs world.old) (H.store_faults shared)
        (K.faults out.old))
        (counts_at (W.state world.new) (W.runs world.new) (H.store_faults result.1)
        (K.faults out.new)) result.0 }
{
    match SharedStore::open(alloc, shared) {
        Ok(opened) => {
            let (answer, cache) = run_over(alloc, is_dry, plan, world, opened, out);
            (answer, cache.shared())
        }
        Err(Unopened { fault, store }) => {
            (unopened(alloc, StoreFile::Shared, fault, out), store)
        }
    }
}
