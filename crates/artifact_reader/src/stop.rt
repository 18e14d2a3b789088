// Why nothing was read.
ghost use Rattle.std.specs.Prelude.{◌≡◌};
ghost use Rattle.artifact_reader.specs.declared.stop.Stop.TheVariants.{OutOfMemory};

use std::alloc::AllocError;

/// Why nothing was read.
pub(crate) enum Stop {
    /// What stands there is no such value.
    NoArtifact,
    /// It stands in a part that is not known.
    Unknown,
    OutOfMemory,
}

impl From<AllocError> for Stop {
    ghost from_gives = { λ _ e. e ≡ OutOfMemory };

    fn from(_error: AllocError) -> Stop {
        Stop::OutOfMemory
    }
}
