// Why bytes are no manifest.
ghost use Rattle.std.specs.Prelude.{◌≡◌};
ghost use Rattle.manifest.specs.declared.error.ManifestErr.TheVariants.{OutOfMemory};
ghost use Rattle.manifest.specs.Steps.{as_fault};

use json_view::{JsonErr, Shape};
use rel_path::Text;
use std::alloc::AllocError;
use thiserror::Error;

/// Why bytes are no manifest. Memory may be wanting at any call that takes some.
#[derive(Debug, Drop, Error)]
pub enum ManifestErr {
    /// The bytes are no JSON text.
    #[error("NotJson")]
    NotJson,
    /// A package has no name, or one that is empty, is `//` or holds a `#`.
    #[error("NoName")]
    NoName,
    /// Something else than what is wanted stands at the pointer (RFC 6901).
    #[error("WrongKind {} {}", .pointer.as_str(), .wanted.word())]
    WrongKind { pointer: Text, wanted: Shape },
    /// The root names a package manager that is not npm.
    #[error("OtherManager {}", .text.as_str())]
    OtherManager { text: Text },
    #[error("OutOfMemory")]
    OutOfMemory,
}

impl From<AllocError> for ManifestErr {
    ghost from_gives = { λ _ e. e ≡ OutOfMemory };

    fn from(_error: AllocError) -> ManifestErr {
        ManifestErr::OutOfMemory
    }
}

impl From<JsonErr> for ManifestErr {
    ghost from_gives = { λ error fault. fault ≡ as_fault error };

    fn from(error: JsonErr) -> ManifestErr {
        match error {
            JsonErr::WrongKind { pointer, wanted } => ManifestErr::WrongKind { pointer, wanted },
            JsonErr::OutOfMemory => ManifestErr::OutOfMemory,
            // No look-up answers the other two.
            JsonErr::NotJson | JsonErr::OpenComment { at: _ } => ManifestErr::NotJson,
        }
    }
}
