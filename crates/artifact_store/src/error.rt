// Why a device was not opened as a store.
ghost use Rattle.std.specs.Prelude.{◌≡◌};
ghost use Rattle.record_log.specs.Answers.{IsOpenErr};
ghost use Rattle.artifact_store.specs.Answers.{opens_as, reads_as, IsIndexErr};

use cache_api::CacheErr;
use record_log::LogErr;
use thiserror::Error;

/// Why a device was not opened as a store.
#[derive(Clone, Copy, Debug, PartialEq, Eq, Error)]
pub enum OpenErr {
    /// The device holds more than nine bytes, which don't begin as a store does.
    #[error("not a store")]
    NotAStore,
    /// At this offset stands the kind byte of a frame behind an open gate that passes the end of the file, is of no
    /// known kind or lacks its kind's form.
    #[error("damaged at {at}")]
    Damaged { at: u64 },
    /// The device failed, and counted it.
    #[error("the store's device failed")]
    Failed,
    #[error("out of memory")]
    OutOfMemory,
}

/// What an opening answers where its log was not opened.
pub(crate) fn open_err(fault: LogErr) -> OpenErr
    requires { IsOpenErr fault }
    ensures { result ≡ opens_as fault }
{
    match fault {
        LogErr::NotAStore => OpenErr::NotAStore,
        LogErr::Damaged { at } => OpenErr::Damaged { at },
        LogErr::Failed => OpenErr::Failed,
        LogErr::Full { .. } | LogErr::OutOfMemory => OpenErr::OutOfMemory,
    }
}

/// What an opening answers where the frames of its log were not read.
pub(crate) fn index_err(fault: CacheErr) -> OpenErr
    ensures value { result ≡ reads_as fault }
    ensures answers { IsIndexErr result }
{
    match fault {
        CacheErr::Failed => OpenErr::Failed,
        CacheErr::Full | CacheErr::OutOfMemory => OpenErr::OutOfMemory,
    }
}
