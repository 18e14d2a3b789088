// The names in a folder of the system.
ghost use Rattle.std.specs.Prelude.{◌≡◌, IfOk, IfErr, IfSome};
ghost use Rattle.std.specs.IoError.{error_kind};
ghost use Rattle.std.specs.List.{All};
ghost use Rattle.std.specs.List.Sorted.{IsStrictlySortedBy};
ghost use Rattle.tree_dev.specs.Names.{IsProper, entry_cmp};
ghost use Rattle.os_edge.specs.Paths.{IsNamed, system_path_of};

use crate::faults::present;
use os_children::out_of_memory;
use rel_path::{RelPath, Text, is_component};
use std::alloc::Global;
use std::fs::DirEntry;
use std::io::ErrorKind;
use std::rt::Files;
use std::{fs, io};
use tree_dev::{Entries, Entry};

/// No folder named in a listing has more components. The system's own limit on a path is 4,096 bytes.
pub const REACH: usize = 4096;

/// The path for the system, from the current folder.
pub fn system_path(alloc: Global, path: &RelPath) -> io::Result<Text>
    ensures path { IfOk result (λ text. text ≡ system_path_of path.now) }
    ensures memory { IfErr result (λ e. error_kind e ≡ ErrorKind.OutOfMemory) }
{
    if path.components().is_empty() {
        return Ok(Text::from_string(String::from_str(alloc, ".")?));
    }
    path.text(alloc).map_err(|_| out_of_memory())
}

// A file or a folder by its name. Links, pipes, sockets and devices are passed over.
fn entry_of<R: Files>(alloc: Global, item: &DirEntry<R, Global>) -> io::Result<Option<Entry>>
    ensures { IfOk result (λ entry. IfSome entry IsNamed) }
{
    let kind = item.file_type()?;
    if !kind.is_dir() && !kind.is_file() {
        return Ok(None);
    }
    let name = item.file_name();
    if !is_component(name) {
        return Err(io::Error::from(ErrorKind::InvalidFilename));
    }
    let name = String::from_str(alloc, name)?;
    Ok(Some(Entry {
        name: Text::from_string(name),
        folder: kind.is_dir(),
    }))
}

// In the order of the system. A name that is not UTF-8 is an error of the system's own.
fn names_in<R: Files + AllocGlobal + Clone + Drop>(
    rt: &R,
    alloc: Global,
    path: &str,
) -> io::Result<Vec<Entry>>
    ensures { IfOk result (λ names. All IsNamed names.items) }
{
    let mut names = Vec::new(alloc);
    let Some(items) = present(fs::read_dir(rt, path))? else {
        return Ok(names);
    };
    for item in items {
        if let Some(entry) = entry_of(alloc, &item?)? {
            names.push(entry)?;
        }
    }
    Ok(names)
}

/// The names of the files and folders in a folder, in order, each once. A folder that is not there has
/// none. A name that is not UTF-8, and a folder of `REACH` components, is an error.
pub fn list<R: Files + AllocGlobal + Clone + Drop>(
    rt: &R,
    alloc: Global,
    folder: &RelPath,
) -> io::Result<Entries>
    ensures ascend { IfOk result (λ names. IsStrictlySortedBy entry_cmp names) }
    ensures proper { IfOk result (λ names. All (IsProper REACH folder.now) names) }
{
    if folder.components().len() >= REACH {
        return Err(io::Error::from(ErrorKind::InvalidFilename));
    }
    let path = system_path(alloc, folder)?;
    let mut names = names_in(rt, alloc, path.as_str())?;
    names.sort()?;
    names.dedup();
    Ok(Entries::from_vec(names))
}
