// Files of the system: reading, writing and removing one.
ghost use Rattle.std.specs.Prelude.{◌≡◌, ◌≤◌, Some, IfOk, IfSome, length, take};
ghost use Rattle.tree_dev.specs.Tree.{within};
ghost use Rattle.os_edge.specs.Paths.{IsWithin};
ghost use Rattle.std.specs.Io.KnownBytes.{Consumes};

use crate::faults::present;
use crate::folders::system_path;
use rel_path::{Bytes, RelPath};
use std::alloc::Global;
use std::fs::{Metadata, OpenOptions};
use std::io::{ErrorKind, Read, Write};
use std::rt::Files;
use std::{fs, io};
use tree_dev::Found;

/// The bytes of a file, of which at most one more than the limit is read. A link is followed. What is
/// neither a file nor absent is an error, and is not opened: a pipe might never give an end.
pub fn read(rt: &impl Files, alloc: Global, path: &RelPath, limit: u64) -> io::Result<Found>
    ensures { IfOk result (IsWithin limit) }
{
    let path = system_path(alloc, path)?;
    let Some(metadata) = present(fs::metadata(rt, path.as_str()))? else {
        return Ok(Found::Absent);
    };
    if !metadata.is_file() {
        return Err(io::Error::from(kind_of(&metadata)));
    }
    if metadata.len() > limit {
        return Ok(Found::TooLong);
    }
    let Some(file) = present(fs::open(rt, path.as_str()))? else {
        return Ok(Found::Absent);
    };
    let room = usize::try_from(metadata.len())
        .unwrap_or(0)
        .saturating_add(1);
    read_within(alloc, file, room, limit)
}

// The error of what is no file.
fn kind_of(metadata: &Metadata) -> ErrorKind {
    if metadata.is_dir() {
        ErrorKind::IsADirectory
    } else {
        ErrorKind::Unsupported
    }
}

// All of the file, which may have grown since its length was asked for. The room is a byte more than that, so
// that a file that has not is read by the first call, and found at its end by the second.
fn read_within<F: Read + Drop>(alloc: Global, file: F, room: usize, limit: u64) -> io::Result<Found>
    ensures short { IfOk result (IsWithin limit) }
    ensures whole { IfOk result
        (λ found. IfSome (F.remaining file) (λ bytes. found ≡ within limit (Some bytes))) }
{
    let mut bytes = vec![in alloc; 0u8; room]?;
    let mut file = file.take(limit.saturating_add(1));
    let count = read_once(&mut file, bytes.as_mut_slice())?;
    bytes.truncate(count);
    file.read_to_end(&mut bytes)?;
    if bytes.len() as u64 > limit {
        return Ok(Found::TooLong);
    }
    Ok(Found::Here(Bytes::from_vec(bytes)))
}

// One read. A signal counts as nothing read.
fn read_once<F: Read>(file: &mut F, buf: &mut [u8]) -> io::Result<usize>
    ensures bytes { IfOk result (λ n. Consumes (F.remaining file.old) (F.remaining file.new)
        (take n buf.new)) }
    ensures within { IfOk result (λ n. n ≤ length buf.new) }
{
    match file.read(buf) {
        Err(e) if e.kind() == ErrorKind::Interrupted => Ok(0),
        outcome => outcome,
    }
}

/// Makes the folders above the path, takes away what stands at it, and makes the file anew. So a link
/// is replaced, and its target stays. A folder that holds anything but folders is an error.
pub fn write<R: Files + AllocGlobal + Clone + Drop>(
    rt: &R,
    alloc: Global,
    path: &RelPath,
    bytes: &[u8],
) -> io::Result<()> {
    let path = system_path(alloc, path)?;
    if let Some((parent, _)) = path.as_str().rsplit_once('/') {
        fs::create_dir_all(rt, parent)?;
    }
    clear(rt, alloc, path.as_str())?;
    let mut file = OpenOptions::new()
        .write(true)
        .create_new(true)
        .open(rt, path.as_str())?;
    file.write_all(bytes)
}

fn clear<R: Files + AllocGlobal + Clone + Drop>(
    rt: &R,
    alloc: Global,
    path: &str,
) -> io::Result<()> {
    match fs::remove_file(rt, path) {
        Err(e) if e.kind() == ErrorKind::IsADirectory => remove_folders(rt, alloc, path),
        outcome => {
            present(outcome)?;
            Ok(())
        }
    }
}

// Removes the folder with all folders in it, where it holds nothing else.
fn remove_folders<R: Files + AllocGlobal + Clone + Drop>(
    rt: &R,
    alloc: Global,
    path: &str,
) -> io::Result<()> {
    let mut folders = Vec::new(alloc);
    folders.push(String::from_str(alloc, path)?)?;
    for number in 0..usize::MAX {
        let Some(folder) = folders.get(number) else {
            break;
        };
        let mut below = folders_in(rt, alloc, folder.as_str())?;
        folders.append(&mut below)?;
    }
    while let Some(folder) = folders.pop() {
        fs::remove_dir(rt, folder.as_str())?;
    }
    Ok(())
}

// The paths of the folders in a folder that holds nothing else.
fn folders_in<R: Files + AllocGlobal + Clone + Drop>(
    rt: &R,
    alloc: Global,
    folder: &str,
) -> io::Result<Vec<String>> {
    let mut folders = Vec::new(alloc);
    for item in fs::read_dir(rt, folder)? {
        let item = item?;
        if !item.file_type()?.is_dir() {
            return Err(io::Error::from(ErrorKind::DirectoryNotEmpty));
        }
        folders.push(String::from_str(alloc, item.path().as_str())?)?;
    }
    Ok(folders)
}

/// Takes away what stands at the path. A folder is left, and so are the folders above.
pub fn remove(rt: &impl Files, alloc: Global, path: &RelPath) -> io::Result<()> {
    let path = system_path(alloc, path)?;
    match fs::remove_file(rt, path.as_str()) {
        Err(e) if e.kind() == ErrorKind::IsADirectory => Ok(()),
        outcome => {
            present(outcome)?;
            Ok(())
        }
    }
}
