// How a child ended.
ghost use Rattle.std.specs.Prelude.{◌≡◌, ◌≤◌, ◌<◌, length, pos, IfOk, IfSome, IfNone, OnOk, OnErr};
ghost use Rattle.std.specs.Process.{exit_code};
ghost use Rattle.rel_path.specs.Limits.{log_limit};

use rel_path::Bytes;
use rel_path::limits::MAX_LOG_BYTES;
use std::io;
use std::io::ErrorKind;
use std::process::ExitStatus;

/// How a child ended, and what it wrote.
#[derive(Drop)]
pub struct ChildEnd {
    pub status: u8,
    pub log: Bytes,
    ghost short: { length log ≤ log_limit },
}

/// The end by the status that was waited for and the log that was read. A log over the limit is an error.
pub fn child_end(status: ExitStatus, log: Vec<u8>) -> io::Result<ChildEnd>
    ensures log { IfOk result (λ end. end.log ≡ log.items) }
    ensures short { OnOk result (length log.items ≤ log_limit) }
    ensures over { OnErr result (log_limit < length log.items) }
    ensures code { IfOk result (λ end. IfSome (exit_code status) (λ code. pos end.status ≡ code)) }
{
    if log.len() > MAX_LOG_BYTES {
        return Err(io::Error::from(ErrorKind::FileTooLarge));
    }
    Ok(ChildEnd {
        status: status_byte(status),
        log: Bytes::from_vec(log),
    })
}

// A signal leaves no code.
fn status_byte(status: ExitStatus) -> u8
    ensures code { IfSome (exit_code status) (λ code. pos result ≡ code) }
    ensures signal { IfNone (exit_code status) (result ≡ 255) }
{
    match status.code() {
        Some(code) => u8::try_from(code).unwrap_or(255),
        None => 255,
    }
}
