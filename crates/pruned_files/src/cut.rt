// The lockfile, cut to owners that stay.
ghost use Rattle.std.specs.Prelude.{◌≡◌, ◌<◌, ◌++◌, Some, length, map, Bool, IfOk, OnOk};
ghost use Rattle.std.specs.List.{HoldsAt, join_with_byte};
ghost use Rattle.serde_json.specs.View.{view};
ghost use Rattle.npm_lock.specs.Cut.{cut};
ghost use Rattle.rel_path.specs.Paths.{Path};
ghost use Rattle.workspaces.specs.Reach.{AreBelow};
ghost use Rattle.workspaces.specs.Space.{owners};
ghost use Rattle.repository.specs.Reading.{contents_of};
ghost use Rattle.kept_packages.specs.Kept.{kept_places};
ghost use Rattle.pruned_files.specs.Cut.{Writes};
ghost use Rattle.pruned_files.specs.Calls.{
  OnlyMemory,
  owners_at,
  CutsOne,
  Locates,
  CutsText,
  CutsLock,
};

use crate::CutErr;
use crate::by_name::by_name;
use collect::{CollectErr, uses_of};
use npm_lock::Lock;
use rel_path::{Bytes, Pairs, Places, Texts};
use repository::Repository;
use std::alloc::Global;
use workspaces::Packages;

fn uses(alloc: Global, packages: &Packages, lock: &Lock, owner: u32) -> Result<Pairs, CutErr>
    requires { owner < length (owners packages.now) }
    ensures { HoldsAt (λ p. CutsOne packages.now (view lock.now) p result)
        (owners packages.now) owner }
{
    match uses_of(alloc, packages, Some(lock), owner) {
        Ok(pairs) => Ok(pairs),
        Err(CollectErr::Missing { from, name }) => Err(CutErr::Missing { from, name }),
        Err(_) => Err(CutErr::OutOfMemory),
    }
}

fn add_locations(keep: &mut Texts, pairs: &Pairs) -> Result<(), CutErr>
    ensures added { OnOk result (keep.new ≡ keep.old ++ map (λ pair. pair.0) pairs.now) }
    ensures memory { OnlyMemory result }
{
    for pair in pairs.as_slice() {
        keep.push(pair.0.copy()?)?;
    }
    Ok(())
}

/// The locations of the installed packages that these owners use, or the first name that one of them misses.
fn locations(
    alloc: Global,
    packages: &Packages,
    lock: &Lock,
    numbers: &[u32],
) -> Result<Texts, CutErr>
    requires { AreBelow (length (owners packages.now)) numbers.now }
    ensures { Locates packages.now (view lock.now) numbers.now result }
{
    let mut keep = Texts::new(alloc);
    for number in numbers {
        let pairs = match uses(alloc, packages, lock, *number) {
            Ok(pairs) => pairs,
            Err(e) => return Err(e),
        };
        match add_locations(&mut keep, &pairs) {
            Ok(()) => {}
            Err(_) => return Err(CutErr::OutOfMemory),
        }
    }
    Ok(keep)
}

/// The folders of these owners, as texts.
fn folders(alloc: Global, packages: &Packages, numbers: &[u32]) -> Result<Texts, CutErr>
    requires { AreBelow (length (owners packages.now)) numbers.now }
    ensures value { IfOk result (λ texts. texts
        ≡ map (λ p. join_with_byte 47 p.folder) (owners_at packages.now numbers.now)) }
    ensures memory { OnlyMemory result }
{
    let mut texts = Texts::new(alloc);
    for number in numbers {
        texts.push(packages.folder(*number).text(alloc)?)?;
    }
    Ok(texts)
}

/// The text of the lockfile that keeps these folders and locations.
fn cut_text(alloc: Global, lock: &Lock, folders: &Texts, keep: &Texts) -> Result<Bytes, CutErr>
    ensures text { IfOk result (Writes (cut folders.now keep.now (view lock.now))) }
    ensures memory { OnlyMemory result }
{
    let cut = match lock.cut(alloc, folders, keep) {
        Ok(cut) => cut,
        Err(_) => return Err(CutErr::OutOfMemory),
    };
    match cut.print(alloc) {
        Ok(text) => Ok(text),
        Err(_) => Err(CutErr::OutOfMemory),
    }
}

/// The text of the lockfile, cut to these owners.
fn text_for(
    alloc: Global,
    repository: &Repository,
    lock: &Lock,
    numbers: &[u32],
) -> Result<Bytes, CutErr>
    requires { AreBelow (length (owners repository.now.packages)) numbers.now }
    ensures { (set : Path → Bool) → numbers.now ≡ kept_places (contents_of repository.now) set
        → CutsText (contents_of repository.now) (view lock.now) set result }
{
    let packages = &repository.packages;
    let ordered = match by_name(alloc, packages, numbers) {
        Ok(ordered) => ordered,
        Err(_) => return Err(CutErr::OutOfMemory),
    };
    let keep = match locations(alloc, packages, lock, ordered.as_slice()) {
        Ok(keep) => keep,
        Err(e) => return Err(e),
    };
    let folders = match folders(alloc, packages, numbers) {
        Ok(folders) => folders,
        Err(_) => return Err(CutErr::OutOfMemory),
    };
    match cut_text(alloc, lock, &folders, &keep) {
        Ok(text) => Ok(text),
        Err(_) => Err(CutErr::OutOfMemory),
    }
}

/// The text of the repository's lockfile, if it has one, cut to the owners of these numbers: of `packages` it keeps the
/// root's entry, the entries of the owners' folders, the links to these, and what the owners use.
///
/// # Errors
/// `Missing` where an owner misses a name that is neither optional nor a peer: the least such name of the first such
/// owner, in the order of their names.
pub fn cut_lock(
    alloc: Global,
    repository: &Repository,
    kept: &Places,
) -> Result<Option<Bytes>, CutErr>
    requires { AreBelow (length (owners repository.now.packages)) kept.now }
    ensures { CutsLock (contents_of repository.now) kept.now result }
{
    match &repository.lock {
        None => Ok(None),
        Some(lock) => match text_for(alloc, repository, lock, kept.as_slice()) {
            Ok(text) => Ok(Some(text)),
            Err(e) => Err(e),
        },
    }
}
