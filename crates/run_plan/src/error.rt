// Why a plan gives nothing.
ghost use Rattle.std.specs.Prelude.{◌≡◌};
ghost use Rattle.run_plan.specs.declared.error.PlanErr.TheVariants.{OutOfMemory};

use globs::ListGlobErr;
use listing::ListErr;
use page::PageErr;
use run_core::CoreErr;
use std::alloc::{AllocError, AllocFailed};
use thiserror::Error;

/// Why a plan gives nothing.
#[derive(Clone, Copy, Debug, PartialEq, Eq, Error)]
pub enum PlanErr {
    #[error("out of memory")]
    OutOfMemory,
}

impl From<AllocError> for PlanErr {
    ghost from_gives = { λ _ e. e ≡ OutOfMemory };

    fn from(_error: AllocError) -> PlanErr {
        PlanErr::OutOfMemory
    }
}

impl<T: Drop> From<AllocFailed<T>> for PlanErr {
    ghost from_gives = { λ _ e. e ≡ OutOfMemory };

    fn from(_error: AllocFailed<T>) -> PlanErr {
        PlanErr::OutOfMemory
    }
}

impl From<ListErr> for PlanErr {
    ghost from_gives = { λ _ e. e ≡ OutOfMemory };

    fn from(_error: ListErr) -> PlanErr {
        PlanErr::OutOfMemory
    }
}

impl From<ListGlobErr> for PlanErr {
    ghost from_gives = { λ _ e. e ≡ OutOfMemory };

    fn from(_error: ListGlobErr) -> PlanErr {
        PlanErr::OutOfMemory
    }
}

impl From<PageErr> for PlanErr {
    ghost from_gives = { λ _ e. e ≡ OutOfMemory };

    fn from(_error: PageErr) -> PlanErr {
        PlanErr::OutOfMemory
    }
}

impl From<CoreErr> for PlanErr {
    ghost from_gives = { λ _ e. e ≡ OutOfMemory };

    fn from(_error: CoreErr) -> PlanErr {
        PlanErr::OutOfMemory
    }
}
