// What is printed in the place of a run.
ghost use Rattle.std.specs.Prelude.{◌≡◌, ◌++◌, ◌≤◌, ℕ};
ghost use Rattle.rel_path.specs.Causes.{Counts};
ghost use Rattle.refusals.specs.Stops.{is_failed};
ghost use Rattle.refusals.specs.Refusals.{line_of, refusal_text, device_fault_line};
ghost use Rattle.answers.specs.Answers.{IfDone, IfRefused, HasCauseIn, counts_of};
ghost use Rattle.answers.specs.Stops.{IfFault, CutsText, PrintsSome, StopsEarly, raised};

use crate::Answer;
use page::{PageErr, emit};
use refusals::{DeviceFault, Refusal, Stop, device_fault_text, fault_text};
use std::alloc::Global;
use tree_dev::Sink;

/// Puts the line of a refusal, which is all that is printed then.
pub fn refuse<K: Sink>(alloc: Global, refusal: Refusal, out: &mut K) -> Answer
    ensures not_done { IfDone result (λ _. ⊥) }
    ensures refused { IfRefused result (λ answered. answered ≡ refusal) }
    ensures line { K.tells → IfRefused result (λ answered.
        K.written out.new ≡ K.written out.old ++ line_of (refusal_text answered)) }
    ensures cut { K.tells → IfFault result (λ cause _.
        CutsText cause (line_of (refusal_text refusal)) (K.written out.old) (K.written out.new)) }
    ensures cause { (tree store start : ℕ) → HasCauseIn
        (counts_of tree store start (K.faults out.old))
        (counts_of tree store start (K.faults out.new)) result }
{
    let line = match fault_text(alloc, &refusal) {
        Ok(line) => line,
        Err(_) => return Answer::OutOfMemory,
    };
    match emit(alloc, out, line.as_slice()) {
        Ok(()) => Answer::Refused(refusal),
        Err(PageErr::SinkFault) => Answer::SinkFault,
        Err(PageErr::OutOfMemory) => Answer::OutOfMemory,
    }
}

/// Tries to print once which device failed. Whether that fails is not answered.
pub fn tell<K: Sink>(alloc: Global, fault: DeviceFault, out: &mut K)
    ensures told { K.tells
        → PrintsSome (device_fault_line fault) (K.written out.old) (K.written out.new) }
    ensures later { K.faults out.old ≤ K.faults out.new }
{
    let _ = emit(alloc, out, device_fault_text(fault).as_bytes());
}

/// Answers why a repository was not read or planned: the line of a refusal is put, and of a tree that
/// failed it is tried to say so.
pub fn tell_stop<K: Sink>(alloc: Global, stop: Stop, out: &mut K) -> Answer
    ensures not_done { IfDone result (λ _. ⊥) }
    ensures refused { IfRefused result (λ reason. stop ≡ Stop.Refused reason) }
    ensures line { K.tells → IfRefused result (λ reason.
        K.written out.new ≡ K.written out.old ++ line_of (refusal_text reason)) }
    ensures stopped { K.tells → IfFault result (StopsEarly (λ reason. stop ≡ Stop.Refused reason)
        (K.written out.old) (K.written out.new)) }
    ensures cause { (before after store start : ℕ) → Counts is_failed before after (raised stop)
        → HasCauseIn (counts_of before store start (K.faults out.old))
        (counts_of after store start (K.faults out.new)) result }
{
    match stop {
        Stop::Refused(reason) => refuse(alloc, reason, out),
        Stop::Failed => {
            tell(alloc, DeviceFault::Tree, out);
            Answer::TreeFault
        }
        Stop::OutOfMemory => Answer::OutOfMemory,
    }
}
