// Why going through a tree stops.
ghost use Rattle.std.specs.Prelude.{◌≡◌};
ghost use Rattle.tree_walk.specs.declared.error.WalkErr.TheVariants.{OutOfMemory, Failed};

use rel_path::RelPath;
use std::alloc::AllocError;
use thiserror::Error;
use tree_dev::DevErr;

/// Why going through a tree stops before its end.
#[derive(Debug, Drop, Error)]
pub enum WalkErr {
    /// The entry at this path has one component more than a path may have.
    #[error("an entry lies too deep")]
    TooDeep { path: RelPath },
    /// There are more files than may be.
    #[error("too many files")]
    TooMany,
    /// The tree could not be listed.
    #[error("a folder could not be listed")]
    Failed,
    #[error("out of memory")]
    OutOfMemory,
}

impl From<AllocError> for WalkErr {
    ghost from_gives = { λ _ e. e ≡ OutOfMemory };

    fn from(_error: AllocError) -> WalkErr {
        WalkErr::OutOfMemory
    }
}
