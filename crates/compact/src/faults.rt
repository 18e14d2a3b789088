// What is answered for a device that was not opened.
ghost use Rattle.std.specs.Prelude.{◌≡◌};
ghost use Rattle.record_log.specs.Answers.{IsOpenErr, IsReadErr};
ghost use Rattle.artifact_store.specs.Answers.{opens_as};
ghost use Rattle.compact.specs.Answers.{as_first, as_spare, as_from, as_to, of_log};

use crate::{CompactErr, CurrentErr};
use artifact_store::OpenErr;
use record_log::LogErr;

/// What the opening of a store answers where its log was not opened.
pub(crate) fn open_err(fault: LogErr) -> OpenErr
    requires { IsOpenErr fault }
    ensures { result ≡ opens_as fault }
{
    match fault {
        LogErr::NotAStore => OpenErr::NotAStore,
        LogErr::Damaged { at } => OpenErr::Damaged { at },
        LogErr::Failed => OpenErr::Failed,
        LogErr::Full { .. } | LogErr::OutOfMemory => OpenErr::OutOfMemory,
    }
}

pub(crate) fn first_err(fault: OpenErr) -> CurrentErr
    ensures { result ≡ as_first fault }
{
    match fault {
        OpenErr::NotAStore | OpenErr::Damaged { .. } => CurrentErr::First(fault),
        OpenErr::Failed => CurrentErr::Failed,
        OpenErr::OutOfMemory => CurrentErr::OutOfMemory,
    }
}

pub(crate) fn spare_err(fault: OpenErr) -> CurrentErr
    ensures { result ≡ as_spare fault }
{
    match fault {
        OpenErr::NotAStore | OpenErr::Damaged { .. } => CurrentErr::Spare(fault),
        OpenErr::Failed => CurrentErr::Failed,
        OpenErr::OutOfMemory => CurrentErr::OutOfMemory,
    }
}

pub(crate) fn from_err(fault: OpenErr) -> CompactErr
    ensures { result ≡ as_from fault }
{
    match fault {
        OpenErr::NotAStore | OpenErr::Damaged { .. } => CompactErr::From(fault),
        OpenErr::Failed => CompactErr::Failed,
        OpenErr::OutOfMemory => CompactErr::OutOfMemory,
    }
}

pub(crate) fn to_err(fault: OpenErr) -> CompactErr
    ensures { result ≡ as_to fault }
{
    match fault {
        OpenErr::NotAStore | OpenErr::Damaged { .. } => CompactErr::To(fault),
        OpenErr::Failed => CompactErr::Failed,
        OpenErr::OutOfMemory => CompactErr::OutOfMemory,
    }
}

pub(crate) fn reset_err(fault: LogErr) -> CompactErr
    requires { IsReadErr fault }
    ensures { result ≡ of_log fault }
{
    append_err(fault)
}

pub(crate) fn append_err(fault: LogErr) -> CompactErr
    ensures { result ≡ of_log fault }
{
    match fault {
        LogErr::Full { need, free } => CompactErr::NoRoom { need, free },
        LogErr::Failed => CompactErr::Failed,
        _ => CompactErr::OutOfMemory,
    }
}
