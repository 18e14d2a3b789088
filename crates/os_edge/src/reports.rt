// What failed, in a line on standard error.
ghost use Rattle.std.specs.Prelude.{◌≡◌};

use crate::folders::system_path;
use os_children::is_fault;
use rel_path::RelPath;
use std::alloc::Global;
use std::io;

fn say(rt: &impl Eprint, path: &str, tried: &str, error: &io::Error) {
    let _ = eprintln!(rt; "turbo: {path} could not be {tried}: {error}");
}

/// Says what could not be done with a file or folder.
pub fn told<T>(
    rt: &impl Eprint,
    alloc: Global,
    path: &RelPath,
    tried: &str,
    outcome: io::Result<T>,
) -> io::Result<T>
    ensures same { result ≡ outcome }
{
    if let Err(error) = &outcome {
        if is_fault(error) {
            if let Ok(path) = system_path(alloc, path) {
                say(rt, path.as_str(), tried, error);
            }
        }
    }
    outcome
}

/// Says what could not be done with the file at a path.
pub fn told_of<T>(
    rt: &impl Eprint,
    path: &str,
    tried: &str,
    outcome: io::Result<T>,
) -> io::Result<T>
    ensures same { result ≡ outcome }
{
    if let Err(error) = &outcome {
        say(rt, path, tried, error);
    }
    outcome
}
