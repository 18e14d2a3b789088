// Why filters select nothing.
ghost use Rattle.std.specs.Prelude.{◌≡◌};
ghost use Rattle.filters.specs.declared.error.FilterErr.TheVariants.{OutOfMemory};

use rel_path::Text;
use std::alloc::{AllocError, AllocFailed};
use thiserror::Error;

/// Why filters select nothing.
#[derive(Debug, Drop, Error)]
pub enum FilterErr {
    /// The word writes no filter.
    #[error("a word is no filter")]
    Unreadable { word: Text },
    /// No package has the name.
    #[error("no package has a name")]
    NoPackage { name: Text },
    #[error("out of memory")]
    OutOfMemory,
}

impl From<AllocError> for FilterErr {
    ghost from_gives = { λ _ e. e ≡ OutOfMemory };

    fn from(_error: AllocError) -> FilterErr {
        FilterErr::OutOfMemory
    }
}

impl<T: Drop> From<AllocFailed<T>> for FilterErr {
    ghost from_gives = { λ _ e. e ≡ OutOfMemory };

    fn from(_error: AllocFailed<T>) -> FilterErr {
        FilterErr::OutOfMemory
    }
}
