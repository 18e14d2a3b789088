// The names that a list of files gives a folder.
ghost use Rattle.std.specs.Prelude.{◌≡◌, ◌++◌, Some, length, IfOk, IfSome, OnOk, option_to_list};
ghost use Rattle.std.specs.List.{All};
ghost use Rattle.std.specs.List.Sorted.{IsStrictlySortedBy};
ghost use Rattle.tree_dev.specs.Cause.{OnlyMemory};
ghost use Rattle.tree_dev.specs.Listing.{Gives, deepest};
ghost use Rattle.tree_dev.specs.Names.{IsProper, entry_cmp, entry_of, first_of};

use crate::{DevErr, Entry};
use rel_path::{Bytes, RelPath, Text};
use std::alloc::Global;

fn first_of(rest: &[Text]) -> Result<Option<Entry>, DevErr>
    ensures entry { IfOk result (λ entry. entry ≡ first_of (Some rest.now)) }
    ensures memory { OnlyMemory result }
{
    if rest.is_empty() {
        return Ok(None);
    }
    Ok(Some(Entry {
        name: rest[0].copy()?,
        folder: rest.len() > 1,
    }))
}

fn entry_of(folder: &[Text], path: &[Text]) -> Result<Option<Entry>, DevErr>
    ensures entry { IfOk result (λ entry. entry ≡ entry_of folder.now path.now) }
    ensures memory { OnlyMemory result }
{
    let Some((first, folder)) = folder.split_first() else {
        return first_of(path);
    };
    let Some((name, path)) = path.split_first() else {
        return Ok(None);
    };
    if *first == *name {
        entry_of(folder, path)
    } else {
        Ok(None)
    }
}

fn entry_in(folder: &RelPath, path: &RelPath) -> Result<Option<Entry>, DevErr>
    ensures entry { IfOk result (λ entry. entry ≡ entry_of folder.now path.now) }
    ensures proper { IfOk result (λ entry. IfSome entry (IsProper (length path.now) folder.now)) }
    ensures memory { OnlyMemory result }
{
    let entry = entry_of(folder.components(), path.components())?;
    Ok(entry)
}

fn add(names: &mut Vec<Entry>, entry: Option<Entry>) -> Result<(), DevErr>
    ensures adds { OnOk result (names.new.items ≡ names.old.items ++ option_to_list entry) }
    ensures memory { OnlyMemory result }
{
    if let Some(entry) = entry {
        names.push(entry)?;
    }
    Ok(())
}

// In the order of the files, each as often as a file gives it.
fn all_names(
    alloc: Global,
    files: &[(RelPath, Bytes)],
    folder: &RelPath,
) -> Result<Vec<Entry>, DevErr>
    ensures names { IfOk result (λ names. Gives files.now folder.now names.items) }
    ensures proper { IfOk result
        (λ names. All (IsProper (deepest files.now) folder.now) names.items) }
    ensures memory { OnlyMemory result }
{
    let mut names = Vec::new(alloc);
    for file in files {
        let entry = entry_in(folder, &file.0)?;
        add(&mut names, entry)?;
    }
    Ok(names)
}

// The names in a folder, in order, each once, a file before a folder of its name.
pub fn sorted_names(
    alloc: Global,
    files: &[(RelPath, Bytes)],
    folder: &RelPath,
) -> Result<Vec<Entry>, DevErr>
    ensures names { IfOk result (λ names. Gives files.now folder.now names.items) }
    ensures ascend { IfOk result (λ names. IsStrictlySortedBy entry_cmp names.items) }
    ensures proper { IfOk result
        (λ names. All (IsProper (deepest files.now) folder.now) names.items) }
    ensures memory { OnlyMemory result }
{
    let mut names = all_names(alloc, files, folder)?;
    names.sort()?;
    names.dedup();
    Ok(names)
}
