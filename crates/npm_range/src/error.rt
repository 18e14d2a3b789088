// Why a text is no range.
ghost use Rattle.std.specs.Prelude.{◌≡◌};
ghost use Rattle.npm_range.specs.declared.error.RangeErr.TheVariants.{OutOfMemory};

use std::alloc::{AllocError, AllocFailed};
use thiserror::Error;

/// Why a text is no range.
#[derive(Clone, Copy, Debug, PartialEq, Eq, Error)]
pub enum RangeErr {
    /// The text is no range of npm, or a hyphen range.
    #[error("NotARange")]
    NotARange,
    #[error("OutOfMemory")]
    OutOfMemory,
}

impl From<AllocError> for RangeErr {
    ghost from_gives = { λ _ e. e ≡ OutOfMemory };

    fn from(_error: AllocError) -> RangeErr {
        RangeErr::OutOfMemory
    }
}

impl<T: Drop> From<AllocFailed<T>> for RangeErr {
    ghost from_gives = { λ _ e. e ≡ OutOfMemory };

    fn from(_error: AllocFailed<T>) -> RangeErr {
        RangeErr::OutOfMemory
    }
}
