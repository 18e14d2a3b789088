// Why a list of texts is no list of globs.
ghost use Rattle.std.specs.Prelude.{◌≡◌};
ghost use Rattle.globs.specs.declared.error.ListGlobErr.TheVariants.{OutOfMemory};

use glob_syntax::GlobErr;
use std::alloc::{AllocError, AllocFailed};
use thiserror::Error;

/// Why a list of texts is no list of globs.
#[derive(Clone, Copy, Debug, PartialEq, Eq, Error)]
pub enum ListGlobErr {
    /// The text at the index, the first of the list that is no glob, and why it is none. The place in the fault counts
    /// the characters of the whole text, with a `!` that begins it.
    #[error("At {index} {fault}")]
    At { index: u32, fault: GlobErr },
    #[error("OutOfMemory")]
    OutOfMemory,
}

impl From<AllocError> for ListGlobErr {
    ghost from_gives = { λ _ e. e ≡ OutOfMemory };

    fn from(_error: AllocError) -> ListGlobErr {
        ListGlobErr::OutOfMemory
    }
}

impl<T: Drop> From<AllocFailed<T>> for ListGlobErr {
    ghost from_gives = { λ _ e. e ≡ OutOfMemory };

    fn from(_error: AllocFailed<T>) -> ListGlobErr {
        ListGlobErr::OutOfMemory
    }
}
