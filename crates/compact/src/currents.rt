// Which of two stores is current.
ghost use Rattle.std.specs.Prelude.{◌≡◌, IfOk, IfErr, OnOk};
ghost use Rattle.compact.specs.Current.{current_of, newer_of};
ghost use Rattle.compact.specs.Answers.{CountsBoth, is_current_fault, IsCurrentErr, IsFirstFault};
ghost use Rattle.compact.specs.Answers.{IsSpareFault};
ghost use Rattle.compact.specs.Left.{IsReread, StillRests};

use crate::faults::{first_err, open_err, spare_err};
use crate::{CurrentErr, Side};
use record_log::{Log, Unopened};
use std::alloc::Global;
use store_dev::StoreDevice;

/// Which of two stores is current: the one with the greater generation, and the first where they
/// are equal. The first is opened before the spare, and both are handed back.
pub fn current<S: StoreDevice, P: StoreDevice>(
    alloc: Global,
    store: S,
    spare: P,
) -> (Result<Side, CurrentErr>, S, P)
    ensures side { S.tells → P.tells → IfOk result.0 (λ side.
        side ≡ current_of (S.content store) (P.content spare)) }
    // After `Ok` each device has one image, with the frames that it had.
    ensures first { S.tells → OnOk result.0 (StillRests S.StoreDevice store result.1) }
    ensures spare { P.tells → OnOk result.0 (StillRests P.StoreDevice spare result.2) }
    // whatever it answers
    ensures first_left { S.tells → IsReread S.StoreDevice store result.1 }
    ensures spare_left { P.tells → IsReread P.StoreDevice spare result.2 }
    ensures first_fault { S.tells → IfErr result.0 (λ e. IsFirstFault e (S.content store)) }
    ensures spare_fault { P.tells → IfErr result.0 (λ e. IsSpareFault e (P.content spare)) }
    ensures answers { IfErr result.0 IsCurrentErr }
    ensures cause { CountsBoth is_current_fault (S.store_faults store) (S.store_faults result.1)
        (P.store_faults spare) (P.store_faults result.2) result.0 }
{
    match Log::open(alloc, store) {
        Err(Unopened { fault, store }) => (Err(first_err(open_err(fault))), store, spare),
        Ok(first) => match Log::open(alloc, spare) {
            Err(Unopened { fault, store }) => {
                (Err(spare_err(open_err(fault))), first.device(), store)
            }
            Ok(second) => {
                let side = newer(first.generation(), second.generation());
                (Ok(side), first.device(), second.device())
            }
        },
    }
}

/// The side with the greater generation, and the first where they are equal.
fn newer(first: u64, spare: u64) -> Side
    ensures { result ≡ newer_of first spare }
{
    if first < spare {
        Side::Spare
    } else {
        Side::First
    }
}
