// Why bytes are no lockfile.
ghost use Rattle.std.specs.Prelude.{◌≡◌};
ghost use Rattle.lock_entries.specs.declared.error.LockErr.TheVariants.{OutOfMemory};
ghost use Rattle.lock_entries.specs.Errors.{as_refusal};

use json_view::{JsonErr, Shape};
use rel_path::Text;
use std::alloc::{AllocError, AllocFailed};
use thiserror::Error;

/// Why bytes are no lockfile. Memory may be wanting at any call that takes some.
#[derive(Debug, Drop, Error)]
pub enum LockErr {
    /// The bytes are no JSON text.
    #[error("no JSON text")]
    NotJson,
    /// At the pointer (RFC 6901) stands something else than what is wanted, or nothing where something has to stand.
    #[error("{} is to be: {}", .pointer.as_str(), .wanted.word())]
    WrongKind { pointer: Text, wanted: Shape },
    /// `lockfileVersion` is not 3.
    #[error("lockfileVersion {n}")]
    Version { n: i128 },
    /// At the pointer stands a number that is not whole or needs more than 64 bits.
    #[error("{} is no whole number of 64 bits", .pointer.as_str())]
    Number { pointer: Text },
    #[error("out of memory")]
    OutOfMemory,
}

impl From<AllocError> for LockErr {
    ghost from_gives = { λ _ e. e ≡ OutOfMemory };

    fn from(_error: AllocError) -> LockErr {
        LockErr::OutOfMemory
    }
}

impl<T: Drop> From<AllocFailed<T>> for LockErr {
    ghost from_gives = { λ _ e. e ≡ OutOfMemory };

    fn from(_error: AllocFailed<T>) -> LockErr {
        LockErr::OutOfMemory
    }
}

impl From<JsonErr> for LockErr {
    ghost from_gives = { λ error refusal. refusal ≡ as_refusal error };

    fn from(error: JsonErr) -> LockErr {
        match error {
            JsonErr::WrongKind { pointer, wanted } => LockErr::WrongKind { pointer, wanted },
            JsonErr::OutOfMemory => LockErr::OutOfMemory,
            JsonErr::NotJson => LockErr::NotJson,
            // No call over a value answers it.
            JsonErr::OpenComment { at: _ } => LockErr::NotJson,
        }
    }
}
