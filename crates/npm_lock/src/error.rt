// Why there are no externals.
ghost use Rattle.std.specs.Prelude.{◌≡◌};
ghost use Rattle.npm_lock.specs.declared.error.ExtErr.TheVariants.{OutOfMemory};

use rel_path::Text;
use std::alloc::AllocError;
use thiserror::Error;

/// Why there are no externals. Memory may be wanting at any call that takes some.
#[derive(Debug, Drop, Error)]
pub enum ExtErr {
    /// From the location nothing is found for the name, which is neither optional nor a peer.
    #[error("{} not found from {}", .name.as_str(), .from.as_str())]
    Missing { from: Text, name: Text },
    #[error("out of memory")]
    OutOfMemory,
}

impl From<AllocError> for ExtErr {
    ghost from_gives = { λ _ e. e ≡ OutOfMemory };

    fn from(_error: AllocError) -> ExtErr {
        ExtErr::OutOfMemory
    }
}
