// Orders to prune.
ghost use Rattle.std.specs.Prelude.{◌≡◌, ◌++◌, ℕ, false};
ghost use Rattle.tree_dev.specs.Tree.{Keeps};
ghost use Rattle.refusals.specs.Refusals.{line_of, refusal_text};
ghost use Rattle.rel_path.specs.Paths.{Path};
ghost use Rattle.prune.specs.Cause.{counts_of};
ghost use Rattle.answers.specs.Answers.{IfDone, IfRefused, IsNothingBut, HasCauseIn};
ghost use Rattle.answers.specs.Answers as answers;
ghost use Rattle.answers.specs.Stops.{IfFault};
ghost use Rattle.prune_orders.specs.Asking.{IsRefusedPrune};
ghost use Rattle.prune_orders.specs.Outcomes.{LeavesRefused, PrunedAll, SameOutside};
ghost use Rattle.prune_orders.specs.Steps.{HasCounts, IsRefusalOf, StopsAs};
ghost use Rattle.prune_orders.specs.Stops.{StoppedPrune};

use crate::laws::once_law;
use answers::{Answer, refuse, tell, tell_stop};
use plan_laws::repository_law;
use prune::{PruneErr, prune};
use refusals::{DeviceFault, Refusal};
use rel_path::Texts;
use repository::read_repository;
use std::alloc::Global;
use tree_dev::{Sink, Tree};

/// Writes the files that the packages of these names need below `out`, and puts a line for each
/// package that stays. With `docker` all files are written below `out/full`, and those that an
/// installation needs below `out/json` too.
///
/// # Refusals
/// The repository's own come first, as for a run. Then, in this order: `NoPackage`, the first name
/// that no package has; `OutTaken`, the least walked file below `out`; `LockMissing`, a name that
/// the lockfile lacks; `TooLarge`, the first file over 256 MiB that is to be copied, where those in
/// front of it were written. Else nothing was written.
pub fn prune_order<T: Tree, K: Sink>(
    alloc: Global,
    targets: &Texts,
    docker: bool,
    tree: &mut T,
    out: &mut K,
) -> Answer
    requires none { (path : Path) → (T.state tree.old).held path ≡ false }

    // What came to its end.
    ensures pruned { T.tells → IfDone result (PrunedAll docker targets.now K.tells
        (T.state tree.old).files (T.state tree.new).files (K.written out.old) (K.written out.new)) }

    // What was refused.
    ensures refused { T.tells → IfRefused result
        (IsRefusedPrune targets.now (T.state tree.old).files) }
    ensures only { T.tells → (reason : Refusal)
        → IsRefusedPrune targets.now (T.state tree.old).files reason → IsNothingBut reason result }
    ensures untouched { T.tells → IfRefused result (LeavesRefused docker targets.now
        (T.state tree.old).files (T.state tree.new).files) }
    ensures line { K.tells → IfRefused result (λ reason.
        K.written out.new ≡ K.written out.old ++ line_of (refusal_text reason)) }

    // What was stopped.
    ensures stopped { T.tells → K.tells → IfFault result (StoppedPrune targets.now
        (T.state tree.old).files (K.written out.old) (K.written out.new)) }

    // Whatever it answers.
    ensures keeps { Keeps (T.state tree.old) (T.state tree.new) }
    ensures elsewhere { T.tells
        → SameOutside (T.state tree.old).files (T.state tree.new).files }
    ensures cause { (store start : ℕ) → HasCauseIn
        (answers.counts_of (T.state tree.old).faults store start (K.faults out.old))
        (answers.counts_of (T.state tree.new).faults store start (K.faults out.new)) result }
{
    once_law();
    repository_law();
    let repository = match read_repository(alloc, tree) {
        Ok(repository) => repository,
        Err(stop) => return tell_stop(alloc, stop, out),
    };
    match prune(alloc, targets, docker, tree, &repository, out) {
        Ok(()) => Answer::Done { status: 0 },
        Err(fault) => stopped(alloc, fault, out),
    }
}

/// Answers why nothing was pruned, or not all. Where the output failed nothing more is put.
fn stopped<K: Sink>(alloc: Global, fault: PruneErr, out: &mut K) -> Answer
    ensures not_done { IfDone result (λ _. ⊥) }
    ensures refused { IfRefused result (IsRefusalOf fault) }
    ensures line { K.tells → IfRefused result (λ reason.
        K.written out.new ≡ K.written out.old ++ line_of (refusal_text reason)) }
    ensures told { K.tells → IfFault result
        (StopsAs fault (K.written out.old) (K.written out.new)) }
    ensures cause { (tree before after start sink : ℕ)
        → HasCounts (counts_of tree sink) (counts_of after (K.faults out.old)) fault
        → HasCauseIn (answers.counts_of tree before start sink)
        (answers.counts_of after before start (K.faults out.new)) result }
{
    match fault {
        PruneErr::NoPackage { name } => refuse(alloc, Refusal::NoPackage { name }, out),
        PruneErr::OutTaken { path } => refuse(alloc, Refusal::OutTaken { path }, out),
        PruneErr::Missing { from, name } => refuse(alloc, Refusal::LockMissing { from, name }, out),
        PruneErr::TooLarge { path } => refuse(alloc, Refusal::TooLarge { path }, out),
        PruneErr::TreeFailed => {
            tell(alloc, DeviceFault::Tree, out);
            Answer::TreeFault
        }
        PruneErr::SinkFailed => Answer::SinkFault,
        PruneErr::OutOfMemory => Answer::OutOfMemory,
    }
}
