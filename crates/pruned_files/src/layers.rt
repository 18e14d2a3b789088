// The files that an installation needs.
ghost use Rattle.std.specs.Prelude.{◌≡◌, List, length, IfOk};
ghost use Rattle.std.specs.List.{list_any};
ghost use Rattle.rel_path.specs.Paths.{path_eq};
ghost use Rattle.listing.specs.Memory.{OnlyMemory};
ghost use Rattle.workspaces.specs.declared.member.Package.{Package};
ghost use Rattle.workspaces.specs.Reach.{AreBelow};
ghost use Rattle.workspaces.specs.Space.{owners, manifest_in};
ghost use Rattle.repository.specs.Reading.{contents_of};
ghost use Rattle.pruned_files.specs.Layers.{is_manifest_layer};
ghost use Rattle.pruned_files.specs.Folders.{AreFoldersOf};
ghost use Rattle.pruned_files.specs.Calls.{IsLayer};

use crate::folders::{Folders, has_folder, owner_folders};
use crate::root_files::{MANIFEST_NAME, is_layer_root};
use listing::ListErr;
use rel_path::{Paths, Places, RelPath};
use repository::Repository;
use std::alloc::Global;

/// Whether this is the manifest in one of the folders.
fn is_manifest_in(folders: &Folders, path: &RelPath) -> bool
    ensures { (members : List Package) → AreFoldersOf members folders.now
        → result ≡ list_any (λ p. path_eq path.now (manifest_in p.folder)) members }
{
    match path.components().split_last() {
        None => false,
        Some((last, folder)) => last.as_str() == MANIFEST_NAME && has_folder(folders, folder),
    }
}

/// Whether an installation of the owners with these folders needs the file.
fn is_manifest_layer(folders: &Folders, path: &RelPath) -> bool
    ensures { (members : List Package) → AreFoldersOf members folders.now
        → result ≡ is_manifest_layer members path.now }
{
    is_layer_root(path) || is_manifest_in(folders, path)
}

/// Those of the paths that an installation of the owners of these numbers needs: the root's `package.json`,
/// `package-lock.json` and `.npmrc`, and each owner's `package.json`. Its only error is want of memory.
pub fn layer_paths(
    alloc: Global,
    repository: &Repository,
    kept: &Places,
    paths: &Paths,
) -> Result<Paths, ListErr>
    requires { AreBelow (length (owners repository.now.packages)) kept.now }
    ensures layer { IfOk result (IsLayer (contents_of repository.now) kept.now paths.now) }
    ensures memory { OnlyMemory result }
{
    let folders = owner_folders(alloc, &repository.packages, kept.as_slice())?;
    let mut layer = Paths::new(alloc);
    for path in paths.as_slice() {
        if is_manifest_layer(&folders, path) {
            layer.push(path.copy()?)?;
        }
    }
    Ok(layer)
}
