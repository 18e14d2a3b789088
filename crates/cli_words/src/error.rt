// Why words are no order.
ghost use Rattle.std.specs.Prelude.{◌≡◌};
ghost use Rattle.cli_words.specs.declared.error.WordsErr.TheVariants.{OutOfMemory};

use std::alloc::{AllocError, AllocFailed};
use thiserror::Error;

/// Why words are no order. `at` is the place of a word, counted from 0 over the words after the program's name.
#[derive(Clone, Copy, Debug, PartialEq, Eq, Error)]
pub enum WordsErr {
    /// The word begins with `-` and is no option, or it has no place in the command.
    #[error("Unknown {at}")]
    Unknown { at: u64 },
    /// A run names no task, or a prune no package.
    #[error("NoTask")]
    NoTask,
    /// The value is missing, is none that is allowed, or is given to an option without one.
    #[error("BadValue {at}")]
    BadValue { at: u64 },
    /// The option, which may stand once, stands there again.
    #[error("Twice {at}")]
    Twice { at: u64 },
    /// Also the answer for 2^32 words or more.
    #[error("OutOfMemory")]
    OutOfMemory,
}

impl From<AllocError> for WordsErr {
    ghost from_gives = { λ _ e. e ≡ OutOfMemory };

    fn from(_error: AllocError) -> WordsErr {
        WordsErr::OutOfMemory
    }
}

impl<T: Drop> From<AllocFailed<T>> for WordsErr {
    ghost from_gives = { λ _ e. e ≡ OutOfMemory };

    fn from(_error: AllocFailed<T>) -> WordsErr {
        WordsErr::OutOfMemory
    }
}
