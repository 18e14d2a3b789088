// What failed of a command, in a line on standard error.
ghost use Rattle.std.specs.Prelude.{◌≡◌};
ghost use Rattle.std.specs.IoError.{error_kind};

use rel_path::limits::MAX_LOG_BYTES;
use spawn_dev::Command;
use std::io;
use std::io::ErrorKind;

/// Whether the error is worth a line. Memory that is wanting is said by the program.
pub fn is_fault(error: &io::Error) -> bool {
    error.kind() != ErrorKind::OutOfMemory
}

/// The error of a call that only takes memory.
pub fn out_of_memory() -> io::Error
    ensures { error_kind result ≡ ErrorKind.OutOfMemory }
{
    io::Error::from(ErrorKind::OutOfMemory)
}

/// Says of which task the command was not started.
pub fn told_of_start(rt: &impl Eprint, command: &Command, error: io::Error) -> io::Error
    ensures same { result ≡ error }
{
    if is_fault(&error) {
        let (package, task) = (command.package.as_str(), command.task.as_str());
        let _ = eprintln!(rt; "turbo: {package}#{task} could not be started: {error}");
    }
    error
}

/// Says of which task the command's end was not told.
pub fn told_of_end<T>(rt: &impl Eprint, command: &Command, outcome: io::Result<T>) -> io::Result<T>
    ensures same { result ≡ outcome }
{
    if let Err(error) = &outcome {
        say_of_end(rt, command, error);
    }
    outcome
}

fn say_of_end(rt: &impl Eprint, command: &Command, error: &io::Error) {
    let (package, task) = (command.package.as_str(), command.task.as_str());
    if error.kind() == ErrorKind::FileTooLarge {
        let _ = eprintln!(rt; "turbo: {package}#{task} wrote more than {MAX_LOG_BYTES} bytes");
    } else if is_fault(error) {
        let _ = eprintln!(rt; "turbo: {package}#{task} could not be waited for: {error}");
    }
}
