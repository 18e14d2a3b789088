// A sample.
ghost use Rattle.std.specs.Prelude.{◌≡◌, ℕ};
ghost use Rattle.answers.specs.Answers.{IfDone, IfRefused, HasCauseIn, counts_of};
ghost use Rattle.answers.specs.Stops.{IfFault};
ghost use Rattle.sample.specs.Lines.{PutsSample};
ghost use Rattle.sample_repository.specs.Repository.{IsSize};
ghost use Rattle.turbo_app.specs.Samples.{StoppedSample};

use answers::Answer;
use page::PageErr;
use sample::sample;
use std::alloc::Global;
use tree_dev::Sink;

/// Puts what four runs over a made repository of so many packages came to.
pub(crate) fn sampled<K: Sink>(alloc: Global, size: u32, out: &mut K) -> Answer
    requires { IsSize size }
    ensures done { K.tells
        → IfDone result (λ _. PutsSample size (K.written out.old) (K.written out.new)) }
    ensures status { IfDone result (λ status. status ≡ 0) }
    ensures stopped { K.tells → IfFault result
        (StoppedSample size (K.written out.old) (K.written out.new)) }
    ensures not_refused { IfRefused result (λ _. ⊥) }
    ensures cause { (tree store start : ℕ) → HasCauseIn
        (counts_of tree store start (K.faults out.old))
        (counts_of tree store start (K.faults out.new)) result }
{
    match sample(alloc, size, out) {
        Ok(()) => Answer::Done { status: 0 },
        Err(PageErr::SinkFault) => Answer::SinkFault,
        Err(PageErr::OutOfMemory) => Answer::OutOfMemory,
    }
}
