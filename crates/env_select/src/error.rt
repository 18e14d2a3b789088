// Why a call answers nothing.
ghost use Rattle.std.specs.Prelude.{◌≡◌};
ghost use Rattle.env_select.specs.declared.error.EnvErr.TheVariants.{OutOfMemory};

use std::alloc::{AllocError, AllocFailed};
use thiserror::Error;

/// The one reason why a call may answer nothing.
#[derive(Clone, Copy, Debug, PartialEq, Eq, Error)]
pub enum EnvErr {
    #[error("OutOfMemory")]
    OutOfMemory,
}

impl From<AllocError> for EnvErr {
    ghost from_gives = { λ _ e. e ≡ OutOfMemory };

    fn from(_error: AllocError) -> EnvErr {
        EnvErr::OutOfMemory
    }
}

impl<T: Drop> From<AllocFailed<T>> for EnvErr {
    ghost from_gives = { λ _ e. e ≡ OutOfMemory };

    fn from(_error: AllocFailed<T>) -> EnvErr {
        EnvErr::OutOfMemory
    }
}
