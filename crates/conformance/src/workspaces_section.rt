// The packages of workspaces against the answers of npm.
use crate::cases::Outcome;
use crate::spaces::{space_of, text_at};
use anyhow::{Context, Result};
use json_view::View;
use rel_path::RelPath;
use std::alloc::Global;
use workspaces::{Packages, SpaceErr};

// The folders of the packages in their order, one a line.
fn folder_lines(alloc: Global, space: &Packages) -> Result<String> {
    let mut folders = Vec::new(alloc);
    for p in 0..space.count() {
        folders.push(space.folder(p))?;
    }
    folders.sort()?;
    path_lines(alloc, folders.as_slice())
}

fn path_lines(alloc: Global, paths: &[&RelPath]) -> Result<String> {
    let mut lines = String::new(alloc);
    for path in paths {
        lines.push_str(path.text(alloc).ok().context("memory")?.as_str())?;
        lines.push('\n')?;
    }
    Ok(lines)
}

// The folders of the packages, or the name of the refusal.
fn found(alloc: Global, case: &View) -> Result<String> {
    match space_of(alloc, case)? {
        Ok(space) => folder_lines(alloc, &space),
        Err(SpaceErr::NameTwice { .. }) => Ok(String::from_str(alloc, "NameTwice")?),
        Err(_) => Ok(String::from_str(alloc, "another refusal")?),
    }
}

fn wanted(alloc: Global, case: &View) -> Result<String> {
    let Some(folders) = case.texts_at(alloc, "/packages").ok().flatten() else {
        return Ok(String::from_str(alloc, text_at(alloc, case, "/error")?.as_str())?);
    };
    let mut lines = String::new(alloc);
    for folder in folders.as_slice() {
        lines.push_str(folder.as_str())?;
        lines.push('\n')?;
    }
    Ok(lines)
}

fn compare_case(alloc: Global, line: &str, outcome: &mut Outcome) -> Result<()> {
    let case = View::read(alloc, line.as_bytes()).ok().context("a case")?;
    let found = found(alloc, &case)?;
    let wanted = wanted(alloc, &case)?;
    outcome.count_case();
    outcome.count_answer(found.as_str() == wanted.as_str(), line)
}

/// Compares each case of the text, one a line: the manifests of a workspace, and the folders of its packages in the
/// order of paths, or the name of the refusal.
pub fn compare(alloc: Global, text: &str) -> Result<Outcome> {
    let mut outcome = Outcome::new(alloc);
    for line in text.lines() {
        compare_case(alloc, line, &mut outcome)?;
    }
    Ok(outcome)
}
