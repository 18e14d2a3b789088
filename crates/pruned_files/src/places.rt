// Files that stay for their places.
ghost use Rattle.std.specs.Prelude.{◌≡◌, ◌||◌, ◌&&◌, not, [], map, length, IfOk, List};
ghost use Rattle.std.specs.List.{list_any};
ghost use Rattle.rel_path.specs.Paths.{path_eq};
ghost use Rattle.listing.specs.Memory.{OnlyMemory};
ghost use Rattle.workspaces.specs.declared.member.Package.{Package};
ghost use Rattle.workspaces.specs.Reach.{AreBelow};
ghost use Rattle.workspaces.specs.Space.{Space, owners, lies_below, lies_in_some};
ghost use Rattle.task_inputs.specs.Homes.{LieApart, is_home};
ghost use Rattle.repository.specs.Reading.{Contents, contents_of};
ghost use Rattle.pruned_files.specs.Pruned.{lock_path, is_own_file};
ghost use Rattle.pruned_files.specs.Folders.{AreFoldersOf, is_folder, is_ignore_in};
ghost use Rattle.pruned_files.specs.Calls.{owners_at, Knows, settles};

use crate::folders::{
    Folders, folders_above, has_folder, lies_in_some, owner_folders, package_folders,
};
use crate::root_files::{IGNORE_NAME, is_lockfile, is_root_file};
use listing::ListErr;
use rel_path::{RelPath, Text};
use repository::Repository;
use std::alloc::Global;
use task_inputs::Declared;

/// What is known of the folders of a repository, by which files are told that stay for their places.
#[derive(Drop)]
pub(crate) struct Known {
    /// Those of the owners that stay.
    kept: Folders,
    /// Those, and the folders that they lie in.
    above: Folders,
    /// Those of all packages.
    packages: Folders,
    declared: Declared,
}

impl Known {
    /// What is known where the owners of these numbers stay.
    pub(crate) fn new(
        alloc: Global,
        repository: &Repository,
        numbers: &[u32],
    ) -> Result<Known, ListErr>
        requires { AreBelow (length (owners repository.now.packages)) numbers.now }
        ensures knows { IfOk result (Knows (contents_of repository.now)
            (owners_at repository.now.packages numbers.now)) }
        ensures apart { LieApart repository.now.packages.packages }
        ensures memory { OnlyMemory result }
    {
        let packages = &repository.packages;
        let all = package_folders(alloc, packages)?;
        let kept = owner_folders(alloc, packages, numbers)?;
        let above = folders_above(alloc, packages, numbers)?;
        let declared = Declared::new(alloc, packages, &repository.config)?;
        Ok(Known {
            kept,
            above,
            packages: all,
            declared,
        })
    }
}

/// Whether the path is that of an ignore file in one of the folders.
fn is_ignore_in(folders: &Folders, path: &RelPath) -> bool
    ensures { result ≡ is_ignore_in folders.now path.now }
{
    match path.components().split_last() {
        None => false,
        Some((last, folder)) => last.as_str() == IGNORE_NAME && has_folder(folders, folder),
    }
}

/// Whether the root stays, and is the path's home.
fn is_at_root_home(kept: &Folders, packages: &Folders, path: &[Text]) -> bool
    ensures { (space : Space) → AreFoldersOf space.packages packages.now
        → result ≡ (lies_below path.now [] && (is_folder kept.now []
        && not (lies_in_some (map (λ p. p.folder) (owners space)) path.now))) }
{
    if path.is_empty() {
        return false;
    }
    has_folder(kept, &path[..0]) && !lies_in_some(packages, path)
}

/// Whether the file's home is an owner that stays.
fn has_home(kept: &Folders, packages: &Folders, path: &RelPath) -> bool
    ensures { (space : Space) (stay : List Package) → AreFoldersOf stay kept.now
        → AreFoldersOf space.packages packages.now
        → result ≡ list_any (λ p. is_home (owners space) p path.now) stay }
{
    let names = path.components();
    lies_in_some(kept, names) || is_at_root_home(kept, packages, names)
}

/// Whether the file's home stays, and none of its configured tasks declares the file.
fn is_own(known: &Known, path: &RelPath) -> bool
    ensures { (contents : Contents) (kept : List Package) → Knows contents kept known.now → result
        ≡ is_own_file contents.setup (owners contents.space) kept path.now }
{
    has_home(&known.kept, &known.packages, path) && !known.declared.holds(path)
}

/// Whether the file stays for its place.
fn settles(known: &Known, path: &RelPath) -> bool
    ensures { (contents : Contents) (kept : List Package) → Knows contents kept known.now → result
        ≡ settles contents kept path.now }
{
    is_root_file(path) || is_ignore_in(&known.above, path) || is_own(known, path)
}

/// Whether the file stays: for its place, or since it is the lockfile, or is asked for from anywhere.
pub(crate) fn stays(known: &Known, is_rooted: bool, path: &RelPath) -> bool
    ensures { (contents : Contents) (kept : List Package) → Knows contents kept known.now → result
        ≡ (path_eq path.now lock_path || (settles contents kept path.now || is_rooted)) }
{
    is_lockfile(path) || is_rooted || settles(known, path)
}
