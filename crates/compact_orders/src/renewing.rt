// The current one of two stores is compacted into the other one.
ghost use Rattle.std.specs.Prelude.{◌≡◌, IfOk, IfErr, OnOk};
ghost use Rattle.store_dev.specs.Device.{LeavesOnly};
ghost use Rattle.compact.specs.declared.side.Side.{Side};
ghost use Rattle.compact.specs.Answers.{CountsBoth};
ghost use Rattle.compact.specs.Left.{IsCountIn};
ghost use Rattle.store_answers.specs.Stores.{stores_of};
ghost use Rattle.compact_orders.specs.Asking.{IsCompactable, IsRefusedCompact, current_pairs};
ghost use Rattle.compact_orders.specs.Left.{LastsCompacted, LeavesRefused, LeavesCompact};
ghost use Rattle.compact_orders.specs.Left.{IsFurther};
ghost use Rattle.compact_orders.specs.Steps.{unopened_on, other, outcome_of, is_failed};
ghost use Rattle.compact_orders.specs.Steps.{IsRefusalIn, IsHaltErr};

use artifact_store::OpenErr;
use compact::{CompactErr, CurrentErr, Kept, Side, compact, current};
use refusals::Refusal;
use std::alloc::Global;
use store_dev::StoreDevice;

/// Why no store was compacted.
#[derive(Clone, Copy, Debug)]
pub(crate) enum Halt {
    /// One of them is no store, a device failed, or memory was wanting.
    Unopened(CurrentErr),
    /// What is kept needs so many bytes, and fewer are free.
    NoRoom { need: u64, free: u64 },
    /// The current one has the last generation.
    LastGeneration,
}

/// Compacts the current one of two stores into the other one.
pub(crate) fn renew<S: StoreDevice, P: StoreDevice>(
    alloc: Global,
    keep: Option<u64>,
    store: S,
    spare: P,
) -> (Result<Kept, Halt>, S, P)
    ensures could { S.tells → P.tells → OnOk result.0
        (IsCompactable keep (stores_of (S.content store) (P.content spare))) }
    ensures counts { S.tells → P.tells → IfOk result.0
        (IsCountIn (current_pairs (stores_of (S.content store) (P.content spare))) keep) }
    ensures lasts { S.tells → P.tells → OnOk result.0 (LastsCompacted S.StoreDevice P.StoreDevice
        keep (stores_of (S.content store) (P.content spare)) result.1 result.2) }
    ensures refused { S.tells → P.tells → (reason : Refusal) → IsRefusalIn result.0 reason
        → IsRefusedCompact keep (stores_of (S.content store) (P.content spare)) reason }
    ensures after { S.tells → P.tells → (reason : Refusal) → IsRefusalIn result.0 reason
        → LeavesRefused S.StoreDevice P.StoreDevice store result.1 spare result.2 reason }

    // whatever it answers
    ensures moments { S.tells → P.tells
        → LeavesCompact S.StoreDevice P.StoreDevice keep store result.1 spare result.2 }
    ensures left { S.tells → P.tells → LeavesOnly S.moment S.images_since store result.1
        (IsFurther (S.images store) Side.First keep
        (stores_of (S.content store) (P.content spare))) }
    ensures spare_left { S.tells → P.tells → LeavesOnly P.moment P.images_since spare result.2
        (IsFurther (P.images spare) Side.Spare keep
        (stores_of (S.content store) (P.content spare))) }
    ensures answers { IfErr result.0 IsHaltErr }
    ensures cause { CountsBoth is_failed (S.store_faults store) (S.store_faults result.1)
        (P.store_faults spare) (P.store_faults result.2) result.0 }
{
    let (found, store, spare) = current(alloc, store, spare);
    match found {
        Ok(Side::First) => {
            let (result, store, spare) = compact(alloc, store, spare, keep);
            (outcome(Side::First, result), store, spare)
        }
        Ok(Side::Spare) => {
            let (result, spare, store) = compact(alloc, spare, store, keep);
            (outcome(Side::Spare, result), store, spare)
        }
        Err(fault) => (Err(Halt::Unopened(fault)), store, spare),
    }
}

/// What compaction of the store on that side answered.
fn outcome(side: Side, answered: Result<Kept, CompactErr>) -> Result<Kept, Halt>
    ensures { result ≡ outcome_of side answered }
{
    match answered {
        Ok(kept) => Ok(kept),
        Err(CompactErr::From(fault)) => Err(Halt::Unopened(unopened_on(side, fault))),
        Err(CompactErr::To(fault)) => Err(Halt::Unopened(unopened_on(other(side), fault))),
        Err(CompactErr::NoRoom { need, free }) => Err(Halt::NoRoom { need, free }),
        Err(CompactErr::LastGeneration) => Err(Halt::LastGeneration),
        Err(CompactErr::Failed) => Err(Halt::Unopened(CurrentErr::Failed)),
        Err(CompactErr::OutOfMemory) => Err(Halt::Unopened(CurrentErr::OutOfMemory)),
    }
}

/// The device on that side is no store.
fn unopened_on(side: Side, fault: OpenErr) -> CurrentErr
    ensures { result ≡ unopened_on side fault }
{
    match side {
        Side::First => CurrentErr::First(fault),
        Side::Spare => CurrentErr::Spare(fault),
    }
}

fn other(side: Side) -> Side
    ensures { result ≡ other side }
{
    match side {
        Side::First => Side::Spare,
        Side::Spare => Side::First,
    }
}
