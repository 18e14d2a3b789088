// The paths of the files that stay.
ghost use Rattle.std.specs.Prelude.{
  ◌≡◌,
  ◌++◌,
  ◌∷◌,
  [],
  Bool,
  List,
  length,
  filter,
  if◌then◌else◌,
  IfOk,
  OnOk,
};
ghost use Rattle.rel_path.specs.Paths.{Path};
ghost use Rattle.listing.specs.Memory.{OnlyMemory};
ghost use Rattle.workspaces.specs.declared.member.Package.{Package};
ghost use Rattle.workspaces.specs.Reach.{AreBelow};
ghost use Rattle.workspaces.specs.Space.{owners};
ghost use Rattle.repository.specs.Reading.{Contents, contents_of};
ghost use Rattle.pruned_files.specs.Calls.{Knows, ArePruned, is_first, behind, stays};

use crate::places::{Known, stays};
use listing::ListErr;
use rel_path::{Paths, Places, RelPath};
use repository::Repository;
use std::alloc::Global;
use task_inputs::rooted;

/// Whether the path stands first in the list.
fn is_first(list: &[RelPath], path: &RelPath) -> bool
    ensures { result ≡ is_first list.now path.now }
{
    match list {
        [] => false,
        [first, ..] => *first == *path,
    }
}

/// The list without the path, if that stands first.
fn behind<'a>(list: &'a [RelPath], path: &RelPath) -> &'a [RelPath]
    ensures { result.now ≡ behind list.now path.now }
{
    match list.split_first() {
        Some((first, rest)) if *first == *path => rest,
        _ => list,
    }
}

fn add_if(paths: &mut Paths, path: &RelPath, stays: bool) -> Result<(), ListErr>
    ensures added { OnOk result (paths.new
        ≡ paths.old ++ (if stays then path.now ∷ [] else [])) }
    ensures memory { OnlyMemory result }
{
    if stays {
        paths.push(path.copy()?)?;
    }
    Ok(())
}

/// Those of the walked files that stay. Those that are asked for from anywhere are among the walked ones, in their order.
fn picked(
    alloc: Global,
    known: &Known,
    rooted: &[RelPath],
    walk: &[RelPath],
) -> Result<Paths, ListErr>
    ensures value { IfOk result (λ paths. (contents : Contents) (kept : List Package)
        (test : Path → Bool) → Knows contents kept known.now → rooted.now ≡ filter test walk.now
        → paths ≡ filter (stays contents kept test) walk.now) }
    ensures memory { OnlyMemory result }
{
    let mut paths = Paths::new(alloc);
    let mut left = rooted;
    for path in walk {
        let is_rooted = is_first(left, path);
        add_if(&mut paths, path, stays(known, is_rooted, path))?;
        left = behind(left, path);
    }
    Ok(paths)
}

/// The paths of the files that stay where the owners of these numbers do, in the order of the walk: the root's own files
/// and its lockfile, ignore files above the owners, what the owners' tasks do not declare, and what they ask for from
/// anywhere. Owners are numbered: the packages in their order and, behind them, the root. It reads no file, and its
/// only error is want of memory.
pub fn pruned_paths(alloc: Global, repository: &Repository, kept: &Places) -> Result<Paths, ListErr>
    requires { AreBelow (length (owners repository.now.packages)) kept.now }
    ensures paths { IfOk result (ArePruned (contents_of repository.now) kept.now) }
    ensures memory { OnlyMemory result }
{
    let packages = &repository.packages;
    let walk = &repository.walk;
    let known = Known::new(alloc, repository, kept.as_slice())?;
    let rooted = rooted(alloc, walk, packages, &repository.config, kept)?;
    let paths = picked(alloc, &known, rooted.as_slice(), walk.as_slice())?;
    Ok(paths)
}
