// The files that the tasks of some packages get from anywhere.
ghost use Rattle.std.specs.Prelude.{length, IfOk};
ghost use Rattle.workspaces.specs.Reach.{AreBelow};

use crate::repositories::repository_of;
use anyhow::Result;
use case_files::answers;
use rel_path::Places;
use repository::Repository;
use serde_json::Value;
use std::alloc::Global;
use task_inputs::rooted;
use workspaces::Packages;

fn first_of(alloc: Global, packages: &Packages) -> Result<Places>
    ensures { IfOk result (AreBelow (length packages.now.packages)) }
{
    let mut kept = Places::new(alloc);
    if packages.count() == 0 {
        return Ok(kept);
    }
    kept.push(0)?;
    Ok(kept)
}

fn rooted_files(alloc: Global, repository: &Repository) -> Result<Value> {
    let packages = &repository.packages;
    let kept = first_of(alloc, packages)?;
    let _count = packages.count();
    let files = rooted(alloc, &repository.walk, packages, &repository.config, &kept)?;
    answers::paths(alloc, files.as_slice())
}

/// Of the first package.
pub fn answer(alloc: Global, case: &Value) -> Result<Value> {
    rooted_files(alloc, &repository_of(alloc, case)?)
}
