// Why nothing is pruned.
ghost use Rattle.std.specs.Prelude.{◌≡◌};
ghost use Rattle.prune.specs.declared.error.PruneErr.TheVariants.{OutOfMemory};

use rel_path::{RelPath, Text};
use std::alloc::{AllocError, AllocFailed};
use thiserror::Error;

/// Why nothing is pruned, or not all.
#[derive(Debug, Drop, Error)]
pub enum PruneErr {
    /// No package has this name.
    #[error("no package {}", .name.as_str())]
    NoPackage { name: Text },
    /// This file stands below `out` already.
    #[error("a file stands below out")]
    OutTaken { path: RelPath },
    /// From the location in the lockfile nothing is found for the name, which is neither optional nor a peer.
    #[error("{} not found from {}", .name.as_str(), .from.as_str())]
    Missing { from: Text, name: Text },
    /// This file is over 256 MiB. The files in front of it were written.
    #[error("a file is too large")]
    TooLarge { path: RelPath },
    /// The tree failed.
    #[error("a file could not be read or written")]
    TreeFailed,
    /// The output failed. All files were written.
    #[error("the output failed")]
    SinkFailed,
    #[error("out of memory")]
    OutOfMemory,
}

impl From<AllocError> for PruneErr {
    ghost from_gives = { λ _ e. e ≡ OutOfMemory };

    fn from(_error: AllocError) -> PruneErr {
        PruneErr::OutOfMemory
    }
}

impl<T: Drop> From<AllocFailed<T>> for PruneErr {
    ghost from_gives = { λ _ e. e ≡ OutOfMemory };

    fn from(_error: AllocFailed<T>) -> PruneErr {
        PruneErr::OutOfMemory
    }
}
