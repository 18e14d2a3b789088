// Why a text is no path.
ghost use Rattle.std.specs.Prelude.{◌≡◌};
ghost use Rattle.rel_path.specs.declared.error.PathErr.TheVariants.{OutOfMemory};

use std::alloc::{AllocError, AllocFailed};
use thiserror::Error;

/// Why a text is no path, or a name no component. Memory may be wanting at any call that takes some.
#[derive(Clone, Copy, Debug, PartialEq, Eq, Error)]
pub enum PathErr {
    /// The text is empty.
    #[error("empty path")]
    Empty,
    /// A component is `.` or `..`.
    #[error("a component is . or ..")]
    DotPart,
    /// A component is empty, or a name holds a `/`.
    #[error("an empty component, or a slash in a name")]
    Slash,
    #[error("out of memory")]
    OutOfMemory,
}

impl From<AllocError> for PathErr {
    ghost from_gives = { λ _ e. e ≡ OutOfMemory };

    fn from(_error: AllocError) -> PathErr {
        PathErr::OutOfMemory
    }
}

impl<T: Drop> From<AllocFailed<T>> for PathErr {
    ghost from_gives = { λ _ e. e ≡ OutOfMemory };

    fn from(_error: AllocFailed<T>) -> PathErr {
        PathErr::OutOfMemory
    }
}
