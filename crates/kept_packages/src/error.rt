// Why no packages can be said to stay.
ghost use Rattle.std.specs.Prelude.{◌≡◌};
ghost use Rattle.kept_packages.specs.declared.error.KeptErr.TheVariants.{OutOfMemory};

use collect::CollectErr;
use listing::ListErr;
use npm_lock::ExtErr;
use rel_path::Text;
use std::alloc::{AllocError, AllocFailed};
use thiserror::Error;
use turbo_config::ConfigErr;

/// Why no packages can be said to stay.
#[derive(Debug, Drop, Error)]
pub enum KeptErr {
    /// No package has this name.
    #[error("no package {}", .name.as_str())]
    NoPackage { name: Text },
    #[error("out of memory")]
    OutOfMemory,
}

impl From<AllocError> for KeptErr {
    ghost from_gives = { λ _ e. e ≡ OutOfMemory };

    fn from(_error: AllocError) -> KeptErr {
        KeptErr::OutOfMemory
    }
}

impl<T: Drop> From<AllocFailed<T>> for KeptErr {
    ghost from_gives = { λ _ e. e ≡ OutOfMemory };

    fn from(_error: AllocFailed<T>) -> KeptErr {
        KeptErr::OutOfMemory
    }
}

// The calls below that end in one of these want memory and nothing else.

impl From<ConfigErr> for KeptErr {
    ghost from_gives = { λ _ e. e ≡ OutOfMemory };

    fn from(_error: ConfigErr) -> KeptErr {
        KeptErr::OutOfMemory
    }
}

impl From<ListErr> for KeptErr {
    ghost from_gives = { λ _ e. e ≡ OutOfMemory };

    fn from(_error: ListErr) -> KeptErr {
        KeptErr::OutOfMemory
    }
}

impl From<CollectErr> for KeptErr {
    ghost from_gives = { λ _ e. e ≡ OutOfMemory };

    fn from(_error: CollectErr) -> KeptErr {
        KeptErr::OutOfMemory
    }
}

impl From<ExtErr> for KeptErr {
    ghost from_gives = { λ _ e. e ≡ OutOfMemory };

    fn from(_error: ExtErr) -> KeptErr {
        KeptErr::OutOfMemory
    }
}
