// Why there is no cut lockfile.
ghost use Rattle.std.specs.Prelude.{◌≡◌};
ghost use Rattle.pruned_files.specs.declared.error.CutErr.TheVariants.{OutOfMemory};

use rel_path::Text;
use std::alloc::{AllocError, AllocFailed};
use thiserror::Error;

/// Why there is no cut lockfile.
#[derive(Debug, Drop, Error)]
pub enum CutErr {
    /// From the location in the lockfile nothing is found for the name, which is neither optional nor a peer.
    #[error("{} not found from {}", .name.as_str(), .from.as_str())]
    Missing { from: Text, name: Text },
    #[error("out of memory")]
    OutOfMemory,
}

impl From<AllocError> for CutErr {
    ghost from_gives = { λ _ e. e ≡ OutOfMemory };

    fn from(_error: AllocError) -> CutErr {
        CutErr::OutOfMemory
    }
}

impl<T: Drop> From<AllocFailed<T>> for CutErr {
    ghost from_gives = { λ _ e. e ≡ OutOfMemory };

    fn from(_error: AllocFailed<T>) -> CutErr {
        CutErr::OutOfMemory
    }
}
