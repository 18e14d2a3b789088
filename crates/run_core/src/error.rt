// Why no scheduler is made.
ghost use Rattle.std.specs.Prelude.{◌≡◌};
ghost use Rattle.run_core.specs.declared.error.CoreErr.TheVariants.{OutOfMemory};

use std::alloc::{AllocError, AllocFailed};
use thiserror::Error;

/// Why no scheduler is made.
#[derive(Clone, Copy, Debug, PartialEq, Eq, Error)]
pub enum CoreErr {
    #[error("out of memory")]
    OutOfMemory,
}

impl From<AllocError> for CoreErr {
    ghost from_gives = { λ _ e. e ≡ OutOfMemory };

    fn from(_error: AllocError) -> CoreErr {
        CoreErr::OutOfMemory
    }
}

impl<T: Drop> From<AllocFailed<T>> for CoreErr {
    ghost from_gives = { λ _ e. e ≡ OutOfMemory };

    fn from(_error: AllocFailed<T>) -> CoreErr {
        CoreErr::OutOfMemory
    }
}
