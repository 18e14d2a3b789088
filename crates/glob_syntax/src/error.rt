// Why a text is no glob.
ghost use Rattle.std.specs.Prelude.{◌≡◌};
ghost use Rattle.glob_syntax.specs.declared.error.GlobErr.TheVariants.{OutOfMemory};

use std::alloc::{AllocError, AllocFailed};
use thiserror::Error;

/// Why a text is no glob. A place counts the characters of the text as written, from 0.
#[derive(Clone, Copy, Debug, PartialEq, Eq, Error)]
pub enum GlobErr {
    /// The class that the `[` at the place begins meets a `/` or the end of the text.
    #[error("OpenClass {at}")]
    OpenClass { at: u64 },
    /// No `}` follows the `{` at the place.
    #[error("OpenBrace {at}")]
    OpenBrace { at: u64 },
    /// The `{` at the place stands inside braces.
    #[error("Nested {at}")]
    Nested { at: u64 },
    /// The component that begins at the place is `..`.
    #[error("Climbs {at}")]
    Climbs { at: u64 },
    /// With the braces that the `{` at the place begins there are more than `MAX_ALTERNATIVES`.
    #[error("Wide {at}")]
    Wide { at: u64 },
    #[error("OutOfMemory")]
    OutOfMemory,
}

impl GlobErr {
    ghost use Rattle.glob_syntax.specs.Faults.{moved};

    /// The fault with its place further on, for a text that was cut off a longer one before it was read. A place stays
    /// within a u64.
    pub fn moved(self, by: u64) -> GlobErr
        ensures { result ≡ moved by self }
    {
        match self {
            GlobErr::OpenClass { at } => GlobErr::OpenClass {
                at: at.saturating_add(by),
            },
            GlobErr::OpenBrace { at } => GlobErr::OpenBrace {
                at: at.saturating_add(by),
            },
            GlobErr::Nested { at } => GlobErr::Nested {
                at: at.saturating_add(by),
            },
            GlobErr::Climbs { at } => GlobErr::Climbs {
                at: at.saturating_add(by),
            },
            GlobErr::Wide { at } => GlobErr::Wide {
                at: at.saturating_add(by),
            },
            GlobErr::OutOfMemory => GlobErr::OutOfMemory,
        }
    }
}

impl From<AllocError> for GlobErr {
    ghost from_gives = { λ _ e. e ≡ OutOfMemory };

    fn from(_error: AllocError) -> GlobErr {
        GlobErr::OutOfMemory
    }
}

impl<T: Drop> From<AllocFailed<T>> for GlobErr {
    ghost from_gives = { λ _ e. e ≡ OutOfMemory };

    fn from(_error: AllocFailed<T>) -> GlobErr {
        GlobErr::OutOfMemory
    }
}
