// Why there is no listing.
ghost use Rattle.std.specs.Prelude.{◌≡◌};
ghost use Rattle.collect.specs.declared.error.CollectErr.TheVariants.{OutOfMemory};

use env_select::EnvErr;
use globs::ListGlobErr;
use ignore_rules::IgnoreErr;
use listing::ListErr;
use rel_path::{RelPath, Text};
use std::alloc::{AllocError, AllocFailed};
use thiserror::Error;
use turbo_config::ConfigErr;

/// Why there is no listing.
#[derive(Debug, Drop, Error)]
pub enum CollectErr {
    /// From the location in the lockfile nothing is found for the name, which is neither optional nor a peer.
    #[error("{} not found from {}", .name.as_str(), .from.as_str())]
    Missing { from: Text, name: Text },
    /// This file is over 256 MiB.
    #[error("a file is too large")]
    TooLarge { path: RelPath },
    /// The input files have this many bytes together, which is over 1 GiB.
    #[error("the input files have {bytes} bytes")]
    TooMuch { bytes: u64 },
    /// The tree failed.
    #[error("a file could not be read")]
    Failed,
    #[error("out of memory")]
    OutOfMemory,
}

impl From<AllocError> for CollectErr {
    ghost from_gives = { λ _ e. e ≡ OutOfMemory };

    fn from(_error: AllocError) -> CollectErr {
        CollectErr::OutOfMemory
    }
}

impl<T: Drop> From<AllocFailed<T>> for CollectErr {
    ghost from_gives = { λ _ e. e ≡ OutOfMemory };

    fn from(_error: AllocFailed<T>) -> CollectErr {
        CollectErr::OutOfMemory
    }
}

impl From<ListErr> for CollectErr {
    ghost from_gives = { λ _ e. e ≡ OutOfMemory };

    fn from(_error: ListErr) -> CollectErr {
        CollectErr::OutOfMemory
    }
}

impl From<ConfigErr> for CollectErr {
    ghost from_gives = { λ _ e. e ≡ OutOfMemory };

    fn from(_error: ConfigErr) -> CollectErr {
        CollectErr::OutOfMemory
    }
}

impl From<EnvErr> for CollectErr {
    ghost from_gives = { λ _ e. e ≡ OutOfMemory };

    fn from(_error: EnvErr) -> CollectErr {
        CollectErr::OutOfMemory
    }
}

impl From<IgnoreErr> for CollectErr {
    ghost from_gives = { λ _ e. e ≡ OutOfMemory };

    fn from(_error: IgnoreErr) -> CollectErr {
        CollectErr::OutOfMemory
    }
}

impl From<ListGlobErr> for CollectErr {
    ghost from_gives = { λ _ e. e ≡ OutOfMemory };

    fn from(_error: ListGlobErr) -> CollectErr {
        CollectErr::OutOfMemory
    }
}
