// Why a call of a log did not do what it was asked.
ghost use Rattle.std.specs.Prelude.{◌≡◌};
ghost use Rattle.record_log.specs.Answers.{of_store};
ghost use Rattle.record_log.specs.declared.error.LogErr.TheVariants.{OutOfMemory};

use std::alloc::{AllocError, AllocFailed};
use store_dev::StoreErr;
use thiserror::Error;

/// Why a device was not opened as a log, or a log did not do what it was asked.
#[derive(Clone, Copy, Debug, PartialEq, Eq, Error)]
pub enum LogErr {
    /// The device holds more than nine bytes, which don't begin as a store does.
    #[error("not a store")]
    NotAStore,
    /// At this offset stands the kind byte of a frame behind an open gate that passes the end of the file, is of no
    /// known kind or lacks its kind's form.
    #[error("damaged at {at}")]
    Damaged { at: u64 },
    /// The frame, with the gate behind it, takes `need` bytes, and the store may grow by `free` bytes.
    #[error("{need} bytes needed, {free} free")]
    Full { need: u64, free: u64 },
    /// The device failed, and counted it.
    #[error("the store's device failed")]
    Failed,
    #[error("out of memory")]
    OutOfMemory,
}

impl From<StoreErr> for LogErr {
    ghost from_gives = { λ e r. r ≡ of_store e };

    fn from(error: StoreErr) -> LogErr {
        match error {
            StoreErr::Failed => LogErr::Failed,
            StoreErr::OutOfMemory => LogErr::OutOfMemory,
        }
    }
}

impl From<AllocError> for LogErr {
    ghost from_gives = { λ _ e. e ≡ OutOfMemory };

    fn from(_error: AllocError) -> LogErr {
        LogErr::OutOfMemory
    }
}

impl<T: Drop> From<AllocFailed<T>> for LogErr {
    ghost from_gives = { λ _ e. e ≡ OutOfMemory };

    fn from(_error: AllocFailed<T>) -> LogErr {
        LogErr::OutOfMemory
    }
}

/// A device that was not opened is handed back beside the fault.
#[derive(Drop)]
pub struct Unopened<S, E> {
    pub fault: E,
    pub store: S,
}
