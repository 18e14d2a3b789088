// Repositories: what is read of their files, and the line of each refusal.
use crate::repositories::{reading_of, refused};
use anyhow::{Result, bail};
use case_files::answers;
use refusals::Stop;
use repository::Repository;
use serde_json::{Value, json};
use std::alloc::Global;
use workspaces::Packages;

fn names(alloc: Global, packages: &Packages) -> Result<Value> {
    let mut names = Vec::new(alloc);
    for p in 0..packages.count() {
        names.push(answers::text(alloc, packages.name(p).as_str())?)?;
    }
    Ok(Value::Array(names))
}

fn parts(alloc: Global, repository: &Repository) -> Result<Value> {
    let packages = names(alloc, &repository.packages)?;
    let files = answers::paths(alloc, repository.walk.as_slice())?;
    let tasks = answers::texts(alloc, repository.config.names(alloc)?.as_slice())?;
    let is_locked = repository.lock.is_some();
    Ok(
        json!(in alloc; {"packages": packages, "files": files, "tasks": tasks, "locked": is_locked})?,
    )
}

pub fn answer(alloc: Global, case: &Value) -> Result<Value> {
    match reading_of(alloc, case)? {
        Ok(repository) => parts(alloc, &repository),
        Err(Stop::Refused(refusal)) => refused(alloc, &refusal),
        Err(Stop::Failed) => answers::error(alloc, "Failed"),
        Err(Stop::OutOfMemory) => bail!("out of memory"),
    }
}
