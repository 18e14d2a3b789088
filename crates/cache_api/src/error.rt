// Why a cache did not do what it was asked.
ghost use Rattle.std.specs.Prelude.{◌≡◌};
ghost use Rattle.cache_api.specs.declared.error.CacheErr.TheVariants.{OutOfMemory};

use std::alloc::{AllocError, AllocFailed};
use thiserror::Error;

/// Why a cache did not do what it was asked.
#[derive(Clone, Copy, Debug, PartialEq, Eq, Error)]
pub enum CacheErr {
    /// The pair does not fit. The pairs are as before.
    #[error("the cache is full")]
    Full,
    /// A device of the cache failed, and the cache counted it.
    #[error("the cache's device failed")]
    Failed,
    #[error("out of memory")]
    OutOfMemory,
}

impl From<AllocError> for CacheErr {
    ghost from_gives = { λ _ e. e ≡ OutOfMemory };

    fn from(_error: AllocError) -> CacheErr {
        CacheErr::OutOfMemory
    }
}

impl<T: Drop> From<AllocFailed<T>> for CacheErr {
    ghost from_gives = { λ _ e. e ≡ OutOfMemory };

    fn from(_error: AllocFailed<T>) -> CacheErr {
        CacheErr::OutOfMemory
    }
}
