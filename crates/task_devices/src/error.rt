// Why a run did not come to its end.
ghost use Rattle.std.specs.Prelude.{◌≡◌};
ghost use Rattle.task_devices.specs.declared.error.RunErr.TheVariants.{OutOfMemory};

use run_core::CoreErr;
use run_plan::PlanErr;
use std::alloc::{AllocError, AllocFailed};
use thiserror::Error;

/// Why a run did not come to its end. The first fault is answered, after all running commands were
/// waited for.
#[derive(Clone, Copy, Debug, PartialEq, Eq, Error)]
pub enum RunErr {
    /// A file could not be read, written or removed, or a folder not be listed.
    #[error("a file could not be read or written")]
    TreeFault,
    /// The cache failed.
    #[error("the cache failed")]
    StoreFault,
    /// A command could not be started or waited for.
    #[error("a command could not be started or waited for")]
    StartFault,
    /// The output could not be written.
    #[error("the output could not be written")]
    SinkFault,
    #[error("out of memory")]
    OutOfMemory,
}

impl From<AllocError> for RunErr {
    ghost from_gives = { λ _ e. e ≡ OutOfMemory };

    fn from(_error: AllocError) -> RunErr {
        RunErr::OutOfMemory
    }
}

impl<T: Drop> From<AllocFailed<T>> for RunErr {
    ghost from_gives = { λ _ e. e ≡ OutOfMemory };

    fn from(_error: AllocFailed<T>) -> RunErr {
        RunErr::OutOfMemory
    }
}

impl From<PlanErr> for RunErr {
    ghost from_gives = { λ _ e. e ≡ OutOfMemory };

    fn from(_error: PlanErr) -> RunErr {
        RunErr::OutOfMemory
    }
}

impl From<CoreErr> for RunErr {
    ghost from_gives = { λ _ e. e ≡ OutOfMemory };

    fn from(_error: CoreErr) -> RunErr {
        RunErr::OutOfMemory
    }
}
