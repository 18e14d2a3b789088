// Why two stores were not opened, or one was not compacted.
ghost use Rattle.std.specs.Prelude.{◌≡◌};
ghost use Rattle.compact.specs.Answers.{of_cache};
ghost use Rattle.compact.specs.declared.error.CompactErr.TheVariants.{Failed, OutOfMemory};

use artifact_store::OpenErr;
use cache_api::CacheErr;
use std::alloc::{AllocError, AllocFailed};
use thiserror::Error;

/// Why it was not found which of two stores is current.
#[derive(Clone, Copy, Debug, PartialEq, Eq, Error)]
pub enum CurrentErr {
    /// The first device is no store, or a damaged one.
    #[error("the first store: {0}")]
    First(OpenErr),
    /// The spare device is no store, or a damaged one. The first one is sound.
    #[error("the spare store: {0}")]
    Spare(OpenErr),
    /// A device failed, and counted it.
    #[error("a store's device failed")]
    Failed,
    #[error("out of memory")]
    OutOfMemory,
}

/// Why a store was not compacted.
#[derive(Clone, Copy, Debug, PartialEq, Eq, Error)]
pub enum CompactErr {
    /// The store that is read is none, or a damaged one.
    #[error("the store: {0}")]
    From(OpenErr),
    /// The store that is written is none, or a damaged one.
    #[error("the spare store: {0}")]
    To(OpenErr),
    /// The frames of a pair, or the generation's, need so many bytes, and fewer are free.
    #[error("{need} bytes needed, {free} free")]
    NoRoom { need: u64, free: u64 },
    /// There is no generation behind the store's. Nothing was written.
    #[error("last generation")]
    LastGeneration,
    /// A device failed, and counted it.
    #[error("a store's device failed")]
    Failed,
    #[error("out of memory")]
    OutOfMemory,
}

impl From<CacheErr> for CompactErr {
    ghost from_gives = { λ e r. r ≡ of_cache e };

    fn from(error: CacheErr) -> CompactErr {
        match error {
            CacheErr::Failed => CompactErr::Failed,
            CacheErr::Full | CacheErr::OutOfMemory => CompactErr::OutOfMemory,
        }
    }
}

impl From<AllocError> for CompactErr {
    ghost from_gives = { λ _ e. e ≡ OutOfMemory };

    fn from(_error: AllocError) -> CompactErr {
        CompactErr::OutOfMemory
    }
}

impl<T: Drop> From<AllocFailed<T>> for CompactErr {
    ghost from_gives = { λ _ e. e ≡ OutOfMemory };

    fn from(_error: AllocFailed<T>) -> CompactErr {
        CompactErr::OutOfMemory
    }
}
