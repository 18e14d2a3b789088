// Why a call of a device gave nothing.
ghost use Rattle.std.specs.Prelude.{◌≡◌};
ghost use Rattle.tree_dev.specs.declared.error.DevErr.TheVariants.{OutOfMemory};

use std::alloc::{AllocError, AllocFailed};
use thiserror::Error;

/// Why a call of a device gave nothing: the device failed, which its count of faults tells, or memory
/// was wanting, which may come at any call that takes some.
#[derive(Clone, Copy, Debug, PartialEq, Eq, Error)]
pub enum DevErr {
    #[error("the device failed")]
    Failed,
    #[error("out of memory")]
    OutOfMemory,
}

impl From<AllocError> for DevErr {
    ghost from_gives = { λ _ e. e ≡ OutOfMemory };

    fn from(_error: AllocError) -> DevErr {
        DevErr::OutOfMemory
    }
}

impl<T: Drop> From<AllocFailed<T>> for DevErr {
    ghost from_gives = { λ _ e. e ≡ OutOfMemory };

    fn from(_error: AllocFailed<T>) -> DevErr {
        DevErr::OutOfMemory
    }
}
