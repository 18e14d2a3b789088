// Why a file is no turbo.json.
ghost use Rattle.std.specs.Prelude.{◌≡◌};
ghost use Rattle.turbo_config.specs.declared.error.ConfigErr.TheVariants.{OutOfMemory};
ghost use Rattle.turbo_config.specs.Faults.{as_config};

use globs::GlobErr;
use json_view::{JsonErr, Shape};
use rel_path::Text;
use std::alloc::{AllocError, AllocFailed};
use thiserror::Error;

/// Why a file is no turbo.json. Pointers are those of RFC 6901. Memory may be wanting at any call that takes some.
#[derive(Debug, Drop, Error)]
pub enum ConfigErr {
    /// The file has the key `pipeline`, which is Turborepo 1's.
    #[error("Pipeline")]
    Pipeline,
    /// A task has a key that none may have.
    #[error("UnknownKey {}", .pointer.as_str())]
    UnknownKey { pointer: Text },
    /// At the pointer stands something else than what is wanted.
    #[error("WrongKind {} {}", .pointer.as_str(), .wanted.word())]
    WrongKind { pointer: Text, wanted: Shape },
    /// A package's file has a key `package#task`.
    #[error("ForeignKey {}", .pointer.as_str())]
    ForeignKey { pointer: Text },
    /// A package's file has no `"extends": ["//"]`.
    #[error("NoExtends")]
    NoExtends,
    /// A key of `tasks` has a name of a task that is empty, holds a `#`, a `$` or a character below U+0020, or begins
    /// with a `^`.
    #[error("TaskName {}", .pointer.as_str())]
    TaskName { pointer: Text },
    /// The block comment whose `/` is the byte `at` has no end. Bytes count from 0.
    #[error("OpenComment {at}")]
    OpenComment { at: u64 },
    /// The file is no JSON text.
    #[error("NotJson")]
    NotJson,
    /// The text at the pointer is no glob. The place in the fault counts the characters of the text as it is written.
    #[error("Glob {} {fault}", .pointer.as_str())]
    Glob { pointer: Text, fault: GlobErr },
    #[error("OutOfMemory")]
    OutOfMemory,
}

impl From<AllocError> for ConfigErr {
    ghost from_gives = { λ _ e. e ≡ OutOfMemory };

    fn from(_error: AllocError) -> ConfigErr {
        ConfigErr::OutOfMemory
    }
}

impl<T: Drop> From<AllocFailed<T>> for ConfigErr {
    ghost from_gives = { λ _ e. e ≡ OutOfMemory };

    fn from(_error: AllocFailed<T>) -> ConfigErr {
        ConfigErr::OutOfMemory
    }
}

impl From<JsonErr> for ConfigErr {
    ghost from_gives = { λ error fault. fault ≡ as_config error };

    fn from(error: JsonErr) -> ConfigErr {
        match error {
            JsonErr::NotJson => ConfigErr::NotJson,
            JsonErr::WrongKind { pointer, wanted } => ConfigErr::WrongKind { pointer, wanted },
            JsonErr::OpenComment { at } => ConfigErr::OpenComment { at },
            JsonErr::OutOfMemory => ConfigErr::OutOfMemory,
        }
    }
}
