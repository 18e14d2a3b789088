// Where the bytes of a store stand.
ghost use Rattle.std.specs.Prelude.{◌≡◌, ◌↔◌, true, false, Ok, Err, IsOk};

use std::alloc::Global;
use std::fs::{File, TryLockError};
use std::io;
use std::io::ErrorKind;
use std::os::unix::fs::FileExt;

/// The file of a store, or bytes in memory that nobody keeps.
#[derive(Drop)]
pub enum Backing {
    File(File),
    Memory(Vec<u8>),
}

/// Whether this run got the lock. That another run has it is no error.
pub fn is_ours(lock: Result<(), TryLockError>) -> io::Result<bool>
    ensures got { (result ≡ Ok true) ↔ IsOk lock }
    ensures held { (result ≡ Ok false) ↔ (lock ≡ Err TryLockError.WouldBlock) }
{
    match lock {
        Ok(()) => Ok(true),
        Err(TryLockError::WouldBlock) => Ok(false),
        Err(TryLockError::Error(error)) => Err(error),
    }
}

impl Backing {
    pub fn len(&self) -> io::Result<u64> {
        match self {
            Backing::File(file) => Ok(file.metadata()?.len()),
            Backing::Memory(bytes) => Ok(bytes.len() as u64),
        }
    }

    pub fn read_at(&self, at: u64, buf: &mut [u8]) -> io::Result<()> {
        match self {
            Backing::File(file) => file.read_exact_at(buf, at),
            Backing::Memory(bytes) => read_of(bytes.as_slice(), at, buf),
        }
    }

    pub fn write_at(&mut self, at: u64, bytes: &[u8]) -> io::Result<()> {
        match self {
            Backing::File(file) => file.write_all_at(bytes, at),
            Backing::Memory(all) => write_to(all, at, bytes),
        }
    }

    pub fn sync(&self) -> io::Result<()> {
        match self {
            Backing::File(file) => file.sync_all(),
            Backing::Memory(_) => Ok(()),
        }
    }
}

// The bytes from there on. Where there are fewer it is an error, as with a file.
fn read_of(bytes: &[u8], at: u64, buf: &mut [u8]) -> io::Result<()> {
    let rest = usize::try_from(at).ok().and_then(|at| bytes.get(at..));
    match rest.and_then(|rest| rest.get(..buf.len())) {
        Some(found) => {
            buf.copy_from_slice(found);
            Ok(())
        }
        None => Err(io::Error::from(ErrorKind::UnexpectedEof)),
    }
}

// Between the old end and the new bytes come zeros, as in a file.
fn write_to(all: &mut Vec<u8>, at: u64, bytes: &[u8]) -> io::Result<()> {
    let end = usize::try_from(at)
        .ok()
        .and_then(|at| at.checked_add(bytes.len()));
    let (Ok(at), Some(end)) = (usize::try_from(at), end) else {
        return Err(io::Error::from(ErrorKind::FileTooLarge));
    };
    if bytes.is_empty() {
        return Ok(());
    }
    if all.len() < end {
        all.resize(end, 0)?;
    }
    all[at..end].copy_from_slice(bytes);
    Ok(())
}
