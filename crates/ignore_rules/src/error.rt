// Why a call answers nothing.
ghost use Rattle.std.specs.Prelude.{◌≡◌};
ghost use Rattle.ignore_rules.specs.declared.error.IgnoreErr.TheVariants.{OutOfMemory};

use std::alloc::{AllocError, AllocFailed};
use thiserror::Error;

/// The one reason why a call may answer nothing.
#[derive(Clone, Copy, Debug, PartialEq, Eq, Error)]
pub enum IgnoreErr {
    #[error("OutOfMemory")]
    OutOfMemory,
}

impl From<AllocError> for IgnoreErr {
    ghost from_gives = { λ _ e. e ≡ OutOfMemory };

    fn from(_error: AllocError) -> IgnoreErr {
        IgnoreErr::OutOfMemory
    }
}

impl<T: Drop> From<AllocFailed<T>> for IgnoreErr {
    ghost from_gives = { λ _ e. e ≡ OutOfMemory };

    fn from(_error: AllocFailed<T>) -> IgnoreErr {
        IgnoreErr::OutOfMemory
    }
}
