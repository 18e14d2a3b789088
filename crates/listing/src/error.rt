// Why there is no listing, or no text of it.
ghost use Rattle.std.specs.Prelude.{◌≡◌};
ghost use Rattle.listing.specs.declared.error.ListErr.TheVariants.{OutOfMemory};

use std::alloc::{AllocError, AllocFailed};
use thiserror::Error;

/// Why there is no listing, or no text of it.
#[derive(Debug, Drop, Error)]
pub enum ListErr {
    #[error("OutOfMemory")]
    OutOfMemory,
}

impl From<AllocError> for ListErr {
    ghost from_gives = { λ _ e. e ≡ OutOfMemory };

    fn from(_error: AllocError) -> ListErr {
        ListErr::OutOfMemory
    }
}

impl<T: Drop> From<AllocFailed<T>> for ListErr {
    ghost from_gives = { λ _ e. e ≡ OutOfMemory };

    fn from(_error: AllocFailed<T>) -> ListErr {
        ListErr::OutOfMemory
    }
}
