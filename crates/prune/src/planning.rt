// What is to be written.
ghost use Rattle.std.specs.Prelude.{length};
ghost use Rattle.workspaces.specs.Reach.{AreBelow};
ghost use Rattle.workspaces.specs.Space.{owners};
ghost use Rattle.repository.specs.Reading.{contents_of};
ghost use Rattle.prune.specs.Steps.{KeepsFor, IsTaken, GivesText, PlansOf, Plans};

use crate::PruneErr;
use crate::out_folder::first_below_out;
use kept_packages::{KeptErr, kept};
use pruned_files::{CutErr, cut_lock, layer_paths, pruned_paths};
use rel_path::{Bytes, Paths, Places, RelPath, Texts};
use repository::Repository;
use std::alloc::Global;

/// What is to be written: the paths of the files that stay, those that an installation needs, and the text of the cut
/// lockfile; and the owners that stay.
#[derive(Drop)]
pub(crate) struct Plan {
    pub kept: Places,
    pub paths: Paths,
    pub layer: Paths,
    pub text: Option<Bytes>,
}

/// The owners that stay, or why none do.
fn kept_for(alloc: Global, targets: &Texts, repository: &Repository) -> Result<Places, PruneErr>
    ensures { KeepsFor (contents_of repository.now) targets.now result }
{
    match kept(alloc, targets, repository) {
        Ok(places) => Ok(places),
        Err(KeptErr::NoPackage { name }) => Err(PruneErr::NoPackage { name }),
        Err(KeptErr::OutOfMemory) => Err(PruneErr::OutOfMemory),
    }
}

fn out_taken(path: &RelPath) -> PruneErr
    ensures { IsTaken path.now result }
{
    match path.copy() {
        Ok(path) => PruneErr::OutTaken { path },
        Err(_) => PruneErr::OutOfMemory,
    }
}

/// The text of the cut lockfile.
fn lock_text(
    alloc: Global,
    repository: &Repository,
    kept: &Places,
) -> Result<Option<Bytes>, PruneErr>
    requires { AreBelow (length (owners repository.now.packages)) kept.now }
    ensures { GivesText (contents_of repository.now) kept.now result }
{
    match cut_lock(alloc, repository, kept) {
        Ok(text) => Ok(text),
        Err(CutErr::Missing { from, name }) => Err(PruneErr::Missing { from, name }),
        Err(CutErr::OutOfMemory) => Err(PruneErr::OutOfMemory),
    }
}

/// What is to be written where these owners stay.
fn plan_of(alloc: Global, repository: &Repository, kept: Places) -> Result<Plan, PruneErr>
    requires { AreBelow (length (owners repository.now.packages)) kept }
    ensures { PlansOf (contents_of repository.now) kept result }
{
    let text = match lock_text(alloc, repository, &kept) {
        Ok(text) => text,
        Err(e) => return Err(e),
    };
    let paths = match pruned_paths(alloc, repository, &kept) {
        Ok(paths) => paths,
        Err(_) => return Err(PruneErr::OutOfMemory),
    };
    match layer_paths(alloc, repository, &kept, &paths) {
        Ok(layer) => Ok(Plan {
            kept,
            paths,
            layer,
            text,
        }),
        Err(_) => Err(PruneErr::OutOfMemory),
    }
}

/// What is to be written. `NoPackage` names the first target that is no package, `OutTaken` the first walked file below
/// `out`, `Missing` the first name that the lockfile lacks.
pub(crate) fn plan_for(
    alloc: Global,
    targets: &Texts,
    repository: &Repository,
) -> Result<Plan, PruneErr>
    ensures { Plans (contents_of repository.now) targets.now result }
{
    let kept = match kept_for(alloc, targets, repository) {
        Ok(kept) => kept,
        Err(e) => return Err(e),
    };
    match first_below_out(repository.walk.as_slice()) {
        Some(path) => Err(out_taken(path)),
        None => plan_of(alloc, repository, kept),
    }
}
