// Why owned files were not cleared, taken or restored.
ghost use Rattle.std.specs.Prelude.{◌≡◌};
ghost use Rattle.capture.specs.declared.error.CapErr.TheVariants.{Failed, OutOfMemory};
ghost use Rattle.capture.specs.Cause.{as_device, of_clearing, of_tree, of_cache};

use cache_api::CacheErr;
use rel_path::RelPath;
use std::alloc::AllocError;
use thiserror::Error;
use tree_dev::DevErr;
use tree_walk::WalkErr;

/// Why owned files were not cleared, taken or restored.
#[derive(Debug, Drop, Error)]
pub enum CapErr {
    /// The task and another one of its package declare this file.
    #[error("a file is shared")]
    Shared { path: RelPath },
    /// This owned file is over the limit.
    #[error("a file is too large")]
    TooLarge { path: RelPath },
    /// The tree failed.
    #[error("a file could not be read or written")]
    Failed,
    #[error("out of memory")]
    OutOfMemory,
}

impl From<AllocError> for CapErr {
    ghost from_gives = { λ _ e. e ≡ OutOfMemory };

    fn from(_error: AllocError) -> CapErr {
        CapErr::OutOfMemory
    }
}

impl From<DevErr> for CapErr {
    ghost from_gives = { λ error e. e ≡ as_device error };

    fn from(error: DevErr) -> CapErr {
        match error {
            DevErr::Failed => CapErr::Failed,
            DevErr::OutOfMemory => CapErr::OutOfMemory,
        }
    }
}

/// Why a stored artifact was not put back.
#[derive(Clone, Copy, Debug, PartialEq, Eq, Error)]
pub enum HitErr {
    /// The tree failed, and counted it.
    #[error("a file could not be written")]
    TreeFault,
    /// A device of the cache failed, and the cache counted it.
    #[error("the cache's device failed")]
    StoreFault,
    #[error("out of memory")]
    OutOfMemory,
}

impl From<CapErr> for HitErr {
    ghost from_gives = { λ error e. e ≡ of_clearing error };

    fn from(error: CapErr) -> HitErr {
        match error {
            CapErr::Failed => HitErr::TreeFault,
            CapErr::Shared { path: _ } | CapErr::TooLarge { path: _ } | CapErr::OutOfMemory =>
                HitErr::OutOfMemory,
        }
    }
}

impl From<DevErr> for HitErr {
    ghost from_gives = { λ error e. e ≡ of_tree error };

    fn from(error: DevErr) -> HitErr {
        match error {
            DevErr::Failed => HitErr::TreeFault,
            DevErr::OutOfMemory => HitErr::OutOfMemory,
        }
    }
}

impl From<CacheErr> for HitErr {
    ghost from_gives = { λ error e. e ≡ of_cache error };

    fn from(error: CacheErr) -> HitErr {
        match error {
            CacheErr::Failed => HitErr::StoreFault,
            CacheErr::Full | CacheErr::OutOfMemory => HitErr::OutOfMemory,
        }
    }
}
