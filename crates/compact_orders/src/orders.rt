// Orders to compact.
ghost use Rattle.std.specs.Prelude.{◌≡◌, ◌++◌, ◌+◌, ℕ, IsOk, IfOk, IfErr, string_bytes};
ghost use Rattle.store_dev.specs.Device.{LeavesOnly};
ghost use Rattle.compact.specs.declared.side.Side.{Side};
ghost use Rattle.compact.specs.Answers.{CountsBoth};
ghost use Rattle.refusals.specs.Refusals.{line_of, refusal_text};
ghost use Rattle.answers.specs.Answers.{IfDone, IfRefused, IsNothingBut, HasCauseIn, counts_of};
ghost use Rattle.answers.specs.Answers.{Completes};
ghost use Rattle.answers.specs.Stops.{IfFault, CutsText};
ghost use Rattle.store_answers.specs.Stores.{stores_of};
ghost use Rattle.compact_orders.specs.Asking.{IsRefusedCompact};
ghost use Rattle.compact_orders.specs.Outcomes.{kept_line, Compacted};
ghost use Rattle.compact_orders.specs.Left.{LastsCompacted, LeavesRefused, LeavesCompact};
ghost use Rattle.compact_orders.specs.Left.{IsFurther, KeepsSound};
ghost use Rattle.compact_orders.specs.Steps.{is_failed, IsHaltErr, IsRefusalIn};
ghost use Rattle.compact_orders.specs.Stops.{StopsAs, StoppedCompact};

use crate::renewing::{Halt, renew};
use answers::{Answer, refuse};
use compact::Kept;
use page::{PageErr, emit};
use refusals::Refusal;
use std::alloc::{AllocError, Global};
use store_answers::not_current;
use store_dev::StoreDevice;
use tree_dev::Sink;

/// Compacts the current one of two stores into the other one: its pairs that are worth keeping, the
/// last so many of them or all. It prints how many were kept, of how many. Both devices are handed
/// back.
///
/// # Refusals
/// In this order: `NotAStore` and `Damaged` of the first file, and then of the spare one;
/// `LastGeneration`, where the current store has the last one; `NoRoom`, what is needed where less
/// is free. The current store has its pairs then.
pub fn compact_order<S: StoreDevice, P: StoreDevice, K: Sink>(
    alloc: Global,
    keep: Option<u64>,
    store: S,
    spare: P,
    out: &mut K,
) -> (Answer, S, P)
    // What came to its end.
    ensures did { S.tells → P.tells → IfDone result.0 (Compacted keep K.tells
        (stores_of (S.content store) (P.content spare)) (K.written out.old)
        (K.written out.new)) }
    ensures lasts { S.tells → P.tells → IfDone result.0 (λ _.
        LastsCompacted S.StoreDevice P.StoreDevice keep
        (stores_of (S.content store) (P.content spare)) result.1 result.2) }

    // What was refused.
    ensures refused { S.tells → P.tells → IfRefused result.0
        (IsRefusedCompact keep (stores_of (S.content store) (P.content spare))) }
    ensures only { S.tells → P.tells → (reason : Refusal)
        → IsRefusedCompact keep (stores_of (S.content store) (P.content spare)) reason
        → IsNothingBut reason result.0 }
    ensures after_refusal { S.tells → P.tells → IfRefused result.0
        (LeavesRefused S.StoreDevice P.StoreDevice store result.1 spare result.2) }
    ensures line { K.tells → IfRefused result.0 (λ reason.
        K.written out.new ≡ K.written out.old ++ line_of (refusal_text reason)) }

    // What was stopped.
    ensures stopped { S.tells → P.tells → K.tells → IfFault result.0 (StoppedCompact keep
        (stores_of (S.content store) (P.content spare)) (K.written out.old)
        (K.written out.new)) }

    // Whatever it answers.
    ensures complete { S.tells → P.tells → (tree start : ℕ) → Completes
        (counts_of tree (S.store_faults store + P.store_faults spare) start (K.faults out.old))
        (counts_of tree (S.store_faults result.1 + P.store_faults result.2) start
        (K.faults out.new))
        (IsRefusedCompact keep (stores_of (S.content store) (P.content spare))) result.0 }
    ensures moments { S.tells → P.tells
        → LeavesCompact S.StoreDevice P.StoreDevice keep store result.1 spare result.2 }
    ensures images { S.tells → P.tells → LeavesOnly S.moment S.images_since store result.1
        (IsFurther (S.images store) Side.First keep
        (stores_of (S.content store) (P.content spare))) }
    ensures spare_images { S.tells → P.tells → LeavesOnly P.moment P.images_since spare result.2
        (IsFurther (P.images spare) Side.Spare keep
        (stores_of (S.content store) (P.content spare))) }
    ensures sound { S.tells → P.tells → LeavesOnly S.moment S.images_since store result.1
        (KeepsSound (S.images store)) }
    ensures spare_sound { S.tells → P.tells → LeavesOnly P.moment P.images_since spare result.2
        (KeepsSound (P.images spare)) }
    ensures cause { (tree start : ℕ) → HasCauseIn
        (counts_of tree (S.store_faults store + P.store_faults spare) start (K.faults out.old))
        (counts_of tree (S.store_faults result.1 + P.store_faults result.2) start
        (K.faults out.new)) result.0 }
{
    let (outcome, store, spare) = renew(alloc, keep, store, spare);
    (told(alloc, outcome, out), store, spare)
}

/// Prints what came of it, and answers it.
fn told<K: Sink>(alloc: Global, outcome: Result<Kept, Halt>, out: &mut K) -> Answer
    requires { IfErr outcome IsHaltErr }
    ensures done { IfDone result (λ status. IsOk outcome × (status ≡ 0)) }
    ensures printed { K.tells → IfDone result (λ _. IfOk outcome (λ kept.
        K.written out.new ≡ K.written out.old ++ kept_line kept.kept kept.before)) }
    ensures refused { IfRefused result (IsRefusalIn outcome) }
    ensures line { K.tells → IfRefused result (λ reason.
        K.written out.new ≡ K.written out.old ++ line_of (refusal_text reason)) }
    ensures stopped { K.tells → IfFault result
        (StopsAs outcome (K.written out.old) (K.written out.new)) }
    ensures cause { (tree start a now_a b now_b : ℕ)
        → CountsBoth is_failed a now_a b now_b outcome
        → HasCauseIn (counts_of tree (a + b) start (K.faults out.old))
        (counts_of tree (now_a + now_b) start (K.faults out.new)) result }
{
    match outcome {
        Ok(kept) => tell_kept(alloc, kept, out),
        Err(Halt::Unopened(fault)) => not_current(alloc, fault, out),
        Err(Halt::NoRoom { need, free }) => refuse(alloc, Refusal::NoRoom { need, free }, out),
        Err(Halt::LastGeneration) => refuse(alloc, Refusal::LastGeneration, out),
    }
}

/// Prints how many pairs were kept.
fn tell_kept<K: Sink>(alloc: Global, kept: Kept, out: &mut K) -> Answer
    ensures done { IfDone result (λ status. status ≡ 0) }
    ensures printed { K.tells → IfDone result (λ _.
        K.written out.new ≡ K.written out.old ++ kept_line kept.kept kept.before) }
    ensures not_refused { IfRefused result (λ _. ⊥) }
    ensures cut { K.tells → IfFault result (λ cause _.
        CutsText cause (kept_line kept.kept kept.before) (K.written out.old)
        (K.written out.new)) }
    ensures cause { (tree store start : ℕ) → HasCauseIn
        (counts_of tree store start (K.faults out.old))
        (counts_of tree store start (K.faults out.new)) result }
{
    let line = match kept_line(alloc, kept.kept, kept.before) {
        Ok(line) => line,
        Err(_) => return Answer::OutOfMemory,
    };
    match emit(alloc, out, line.as_str().as_bytes()) {
        Ok(()) => Answer::Done { status: 0 },
        Err(PageErr::SinkFault) => Answer::SinkFault,
        Err(PageErr::OutOfMemory) => Answer::OutOfMemory,
    }
}

/// The line that says how many pairs were kept, of how many.
fn kept_line(alloc: Global, kept: u64, before: u64) -> Result<String, AllocError>
    ensures line { IfOk result (λ line. string_bytes line ≡ kept_line kept before) }
{
    Ok(format!(in alloc; "kept {kept} of {before}\n")?)
}
