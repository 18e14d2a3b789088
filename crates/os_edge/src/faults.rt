// What the system answers, as a device answers it.
ghost use Rattle.std.specs.Prelude.{◌≡◌, Ok, Some, None, IfOk, IsErr, OnErr};
ghost use Rattle.tree_dev.specs.Cause.{HasCause};

use std::io;
use std::io::ErrorKind;
use tree_dev::{DevErr, count_fault};

/// Counts a fault, unless memory was wanting.
pub fn counted<T>(faults: &mut u64, outcome: io::Result<T>) -> Result<T, DevErr>
    ensures value { IfOk result (λ x. outcome ≡ Ok x) }
    ensures error { OnErr result (IsErr outcome) }
    ensures cause { HasCause faults.old faults.new result }
{
    match outcome {
        Ok(value) => Ok(value),
        Err(e) if e.kind() == ErrorKind::OutOfMemory => Err(DevErr::OutOfMemory),
        Err(_) => {
            count_fault(faults);
            Err(DevErr::Failed)
        }
    }
}

/// What the call found, or nothing where it found no such path.
pub fn present<T>(outcome: io::Result<T>) -> io::Result<Option<T>>
    ensures found { IfOk outcome (λ x. result ≡ Ok (Some x)) }
    ensures none { OnErr outcome (IfOk result (λ found. found ≡ None)) }
{
    match outcome {
        Ok(value) => Ok(Some(value)),
        Err(e) if is_absent(&e) => Ok(None),
        Err(e) => Err(e),
    }
}

fn is_absent(e: &io::Error) -> bool {
    e.kind() == ErrorKind::NotFound || e.kind() == ErrorKind::NotADirectory
}
