// Why reading a repository, or planning a run, came to no value.
ghost use Rattle.std.specs.Prelude.{◌≡◌};
ghost use Rattle.refusals.specs.declared.stop.Stop.TheVariants.{OutOfMemory};

use crate::Refusal;
use std::alloc::{AllocError, AllocFailed};
use thiserror::Error;

/// Why there is no value: of reading a repository, and of planning a run.
#[derive(Debug, Drop, Error)]
pub enum Stop {
    /// The words, or the files, ask for nothing that can be done.
    #[error("the order is refused")]
    Refused(Refusal),
    /// The tree failed.
    #[error("a file could not be read")]
    Failed,
    #[error("out of memory")]
    OutOfMemory,
}

impl From<AllocError> for Stop {
    ghost from_gives = { λ _ e. e ≡ OutOfMemory };

    fn from(_error: AllocError) -> Stop {
        Stop::OutOfMemory
    }
}

impl<T: Drop> From<AllocFailed<T>> for Stop {
    ghost from_gives = { λ _ e. e ≡ OutOfMemory };

    fn from(_error: AllocFailed<T>) -> Stop {
        Stop::OutOfMemory
    }
}
