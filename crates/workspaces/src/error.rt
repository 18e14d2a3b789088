// Why there are no packages.
ghost use Rattle.std.specs.Prelude.{◌≡◌};
ghost use Rattle.workspaces.specs.declared.error.SpaceErr.TheVariants.{Failed, OutOfMemory};

use globs::GlobErr;
use manifest::ManifestErr;
use rel_path::{RelPath, Text};
use std::alloc::{AllocError, AllocFailed};
use thiserror::Error;

/// Why a workspace has no packages that can be worked with.
#[derive(Debug, Drop, Error)]
pub enum SpaceErr {
    /// The entry of `workspaces` at the pointer into the root manifest is no glob. The place in the fault counts the
    /// characters of the entry as it stands.
    #[error("an entry of workspaces is no glob")]
    Glob {
        pointer: Text,
        fault: GlobErr,
    },
    /// The manifest at the path has more than 256 MiB.
    #[error("a manifest is too large")]
    TooLarge {
        path: RelPath,
    },
    /// The manifest at the path is none.
    #[error("a manifest is none")]
    Manifest {
        path: RelPath,
        fault: ManifestErr,
    },
    /// The package in the one folder lies inside the package in the other.
    #[error("a package lies inside another")]
    Inside {
        outer: RelPath,
        inner: RelPath,
    },
    /// The packages in two folders have one name.
    #[error("two packages have one name")]
    NameTwice {
        name: Text,
        first: RelPath,
        second: RelPath,
    },
    /// A manifest could not be read.
    #[error("a file could not be read")]
    Failed,
    #[error("out of memory")]
    OutOfMemory,
}

impl From<AllocError> for SpaceErr {
    ghost from_gives = { λ _ e. e ≡ OutOfMemory };

    fn from(_error: AllocError) -> SpaceErr {
        SpaceErr::OutOfMemory
    }
}

impl<T: Drop> From<AllocFailed<T>> for SpaceErr {
    ghost from_gives = { λ _ e. e ≡ OutOfMemory };

    fn from(_error: AllocFailed<T>) -> SpaceErr {
        SpaceErr::OutOfMemory
    }
}
