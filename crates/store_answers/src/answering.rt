// What is answered where a device was not opened as a store.
ghost use Rattle.std.specs.Prelude.{◌≡◌, ◌+◌, ◌++◌, ℕ};
ghost use Rattle.rel_path.specs.Causes.{Counts};
ghost use Rattle.refusals.specs.Refusals.{line_of, refusal_text};
ghost use Rattle.artifact_store.specs.Answers.{is_fault, raised};
ghost use Rattle.compact.specs.Answers.{CountsBoth, is_current_fault, IsCurrentErr};
ghost use Rattle.answers.specs.Answers.{IfDone, IfRefused, HasCauseIn, counts_of};
ghost use Rattle.answers.specs.Stops.{IfFault, StopsEarly};
ghost use Rattle.store_answers.specs.Refused.{IsStoreRefusal, IsCurrentRefusal, raised_current};

use answers::{Answer, refuse, tell};
use artifact_store::OpenErr;
use compact::CurrentErr;
use refusals::{DeviceFault, Refusal, StoreFile};
use std::alloc::Global;
use tree_dev::Sink;

/// Answers why the device of a file was not opened as a store.
pub fn unopened<K: Sink>(alloc: Global, file: StoreFile, fault: OpenErr, out: &mut K) -> Answer
    ensures not_done { IfDone result (λ _. ⊥) }
    ensures refused { IfRefused result (IsStoreRefusal file fault) }
    ensures line { K.tells → IfRefused result (λ reason.
        K.written out.new ≡ K.written out.old ++ line_of (refusal_text reason)) }
    ensures stopped { K.tells → IfFault result
        (StopsEarly (IsStoreRefusal file fault) (K.written out.old) (K.written out.new)) }
    ensures cause { (tree start before after : ℕ) → Counts is_fault before after (raised fault)
        → HasCauseIn (counts_of tree before start (K.faults out.old))
        (counts_of tree after start (K.faults out.new)) result }
{
    match fault {
        OpenErr::NotAStore => refuse(alloc, Refusal::NotAStore { file }, out),
        OpenErr::Damaged { at } => refuse(alloc, Refusal::Damaged { file, at }, out),
        OpenErr::Failed => {
            tell(alloc, DeviceFault::Store, out);
            Answer::StoreFault
        }
        OpenErr::OutOfMemory => Answer::OutOfMemory,
    }
}

/// Answers why two devices were not opened as stores, as `compact::current` says it.
pub fn not_current<K: Sink>(alloc: Global, fault: CurrentErr, out: &mut K) -> Answer
    requires { IsCurrentErr fault }
    ensures not_done { IfDone result (λ _. ⊥) }
    ensures refused { IfRefused result (IsCurrentRefusal fault) }
    ensures line { K.tells → IfRefused result (λ reason.
        K.written out.new ≡ K.written out.old ++ line_of (refusal_text reason)) }
    ensures stopped { K.tells → IfFault result
        (StopsEarly (IsCurrentRefusal fault) (K.written out.old) (K.written out.new)) }
    ensures cause { (tree start a now_a b now_b : ℕ)
        → CountsBoth is_current_fault a now_a b now_b (raised_current fault)
        → HasCauseIn (counts_of tree (a + b) start (K.faults out.old))
        (counts_of tree (now_a + now_b) start (K.faults out.new)) result }
{
    match fault {
        CurrentErr::First(fault) => unopened(alloc, StoreFile::Store, fault, out),
        CurrentErr::Spare(fault) => unopened(alloc, StoreFile::Spare, fault, out),
        CurrentErr::Failed => {
            tell(alloc, DeviceFault::Store, out);
            Answer::StoreFault
        }
        CurrentErr::OutOfMemory => Answer::OutOfMemory,
    }
}
