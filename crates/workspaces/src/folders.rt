// The folders of packages, among the walked files.
ghost use Rattle.std.specs.Prelude.{◌≡◌, IfOk, IsTrue};
ghost use Rattle.std.specs.List.{list_all};
ghost use Rattle.rel_path.specs.Paths.{is_component};
ghost use Rattle.workspaces.specs.Space.{folder_of, is_taken, folders_in};
ghost use Rattle.workspaces.specs.Steps.{OnlyMemory};

use crate::SpaceErr;
use crate::sorted::sorted_paths;
use globs::GlobList;
use rel_path::{RelPath, Text};
use std::alloc::Global;

/// The path of these components.
fn path_of(alloc: Global, names: &[Text]) -> Result<RelPath, SpaceErr>
    requires { IsTrue (list_all is_component names.now) }
    ensures value { IfOk result (λ path. path ≡ names.now) }
    ensures memory { OnlyMemory result }
{
    let mut path = RelPath::root(alloc);
    for name in names {
        path = path.child(name)?;
    }
    Ok(path)
}

/// The folder of a path that ends in `package.json`.
fn folder_of(alloc: Global, path: &RelPath) -> Result<Option<RelPath>, SpaceErr>
    ensures value { IfOk result (λ folder. folder ≡ folder_of path.now) }
    ensures memory { OnlyMemory result }
{
    let Some((last, above)) = path.components().split_last() else {
        return Ok(None);
    };
    if last.as_str() != "package.json" {
        return Ok(None);
    }
    Ok(Some(path_of(alloc, above)?))
}

/// Whether the folder is not the root and the globs take it.
fn is_taken(globs: &GlobList, folder: &RelPath) -> bool
    ensures { result ≡ is_taken globs.now folder.now }
{
    !folder.components().is_empty() && globs.takes_whole(folder)
}

/// The folders with a walked `package.json` that the globs take, ascending.
#[tactic(auto, unfolding(crate::specs::Space::folders_in))]
pub(crate) fn package_folders(
    alloc: Global,
    globs: &GlobList,
    walk: &[RelPath],
) -> Result<Vec<RelPath>, SpaceErr>
    ensures value { IfOk result (λ folders. folders.items ≡ folders_in globs.now walk.now) }
    ensures memory { OnlyMemory result }
{
    let mut folders = Vec::new(alloc);
    for path in walk {
        if let Some(folder) = folder_of(alloc, path)? {
            if is_taken(globs, &folder) {
                folders.push(folder)?;
            }
        }
    }
    sorted_paths(folders)
}
