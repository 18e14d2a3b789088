// How the program is called.
ghost use Rattle.std.specs.Prelude.{◌≡◌, ◌++◌, ℕ};
ghost use Rattle.answers.specs.Answers.{IfDone, IfRefused, HasCauseIn, counts_of};
ghost use Rattle.answers.specs.Stops.{IfFault, CutsText};
ghost use Rattle.turbo_app.specs.Outcomes.{usage};

use answers::Answer;
use page::{PageErr, emit};
use std::alloc::Global;
use tree_dev::Sink;

const USAGE: &str = "usage: turbo [run] <task>... [options] [-- words]\n";

/// Puts how the program is called.
pub(crate) fn help<K: Sink>(alloc: Global, out: &mut K) -> Answer
    ensures done { K.tells → IfDone result (λ _. K.written out.new ≡ K.written out.old ++ usage) }
    ensures status { IfDone result (λ status. status ≡ 0) }
    ensures cut { K.tells → IfFault result (λ cause _.
        CutsText cause usage (K.written out.old) (K.written out.new)) }
    ensures not_refused { IfRefused result (λ _. ⊥) }
    ensures cause { (tree store start : ℕ) → HasCauseIn
        (counts_of tree store start (K.faults out.old))
        (counts_of tree store start (K.faults out.new)) result }
{
    match emit(alloc, out, USAGE.as_bytes()) {
        Ok(()) => Answer::Done { status: 0 },
        Err(PageErr::SinkFault) => Answer::SinkFault,
        Err(PageErr::OutOfMemory) => Answer::OutOfMemory,
    }
}
