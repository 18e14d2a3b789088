// Why a call of this crate gives nothing.
ghost use Rattle.std.specs.Prelude.{◌≡◌};
ghost use Rattle.page.specs.Answers.{as_page_err};
ghost use Rattle.page.specs.declared.error.PageErr.TheVariants.{OutOfMemory};

use std::alloc::{AllocError, AllocFailed};
use thiserror::Error;
use tree_dev::DevErr;

/// Why a call gives nothing: the sink failed, which its count of faults tells, or memory was wanting, which may come at
/// any call that takes some.
#[derive(Clone, Copy, Debug, PartialEq, Eq, Error)]
pub enum PageErr {
    #[error("the output could not be written")]
    SinkFault,
    #[error("out of memory")]
    OutOfMemory,
}

impl From<AllocError> for PageErr {
    ghost from_gives = { λ _ e. e ≡ OutOfMemory };

    fn from(_error: AllocError) -> PageErr {
        PageErr::OutOfMemory
    }
}

impl<T: Drop> From<AllocFailed<T>> for PageErr {
    ghost from_gives = { λ _ e. e ≡ OutOfMemory };

    fn from(_error: AllocFailed<T>) -> PageErr {
        PageErr::OutOfMemory
    }
}

impl From<DevErr> for PageErr {
    ghost from_gives = { λ error e. e ≡ as_page_err error };

    fn from(error: DevErr) -> PageErr {
        match error {
            DevErr::Failed => PageErr::SinkFault,
            DevErr::OutOfMemory => PageErr::OutOfMemory,
        }
    }
}
