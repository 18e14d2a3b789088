// What is left of a path below a folder.
ghost use Rattle.std.specs.Prelude.{◌≡◌, IfOk, MatchOption, None, Some};
ghost use Rattle.rel_path.specs.Paths.{strip, AreNames};
ghost use Rattle.listing.specs.Memory.{OnlyMemory};
ghost use Rattle.input_entries.specs.Entries.{relative, rest_where};

use listing::ListErr;
use rel_path::{RelPath, Text};
use std::alloc::Global;

fn strip<'a>(folder: &[Text], path: &'a [Text]) -> Option<&'a [Text]>
    ensures { MatchOption result
        (strip folder.now path.now ≡ None) (λ rest. strip folder.now path.now ≡ Some rest.now) }
{
    path.strip_prefix(folder)
}

/// The path with these components.
fn path_of(alloc: Global, names: &[Text]) -> Result<RelPath, ListErr>
    requires { AreNames names.now }
    ensures value { IfOk result (λ path. path ≡ names.now) }
    ensures memory { OnlyMemory result }
{
    let mut path = RelPath::root(alloc);
    for name in names {
        path = path.child(name)?;
    }
    Ok(path)
}

/// What is left of the path below the folder, where it lies below it.
fn relative(alloc: Global, folder: &RelPath, path: &RelPath) -> Result<Option<RelPath>, ListErr>
    ensures value { IfOk result (λ rest. rest ≡ relative folder.now path.now) }
    ensures memory { OnlyMemory result }
{
    match strip(folder.components(), path.components()) {
        None => Ok(None),
        Some([]) => Ok(None),
        Some(rest) => Ok(Some(path_of(alloc, rest)?)),
    }
}

/// What is left of the path below the folder where the path is one of the folder's own files, and nothing elsewhere.
pub fn rest_where(
    alloc: Global,
    own: bool,
    folder: &RelPath,
    path: &RelPath,
) -> Result<Option<RelPath>, ListErr>
    ensures value { IfOk result (λ rest. rest ≡ rest_where own folder.now path.now) }
    ensures memory { OnlyMemory result }
{
    if own {
        relative(alloc, folder, path)
    } else {
        Ok(None)
    }
}
