// Ignore rules against the answers of git.
use crate::cases::Outcome;
use anyhow::{Context, Result};
use ignore_rules::{Ignore, Stack};
use json_view::{View, pointer_to};
use rel_path::{RelPath, Text};
use std::alloc::Global;
use std::collections::BTreeSet;

fn folder_of(alloc: Global, name: &str) -> Result<RelPath> {
    if name.is_empty() {
        return Ok(RelPath::root(alloc));
    }
    RelPath::read(alloc, name).ok().context("a folder")
}

// The ignore files of a case.
fn stack_of(alloc: Global, case: &View) -> Result<Stack> {
    let folders = case
        .keys_at(alloc, "/ignore")
        .ok()
        .flatten()
        .context("folders")?;
    let mut files = Vec::new(alloc);
    for folder in folders.as_slice() {
        let pointer = pointer_to(alloc, "/ignore", folder.as_str())
            .ok()
            .context("a pointer")?;
        let text = case
            .text_at(alloc, pointer.as_str())
            .ok()
            .flatten()
            .context("a text")?;
        let path = folder_of(alloc, folder.as_str())?;
        files.push(Ignore::read(alloc, &path, text.as_str().as_bytes())?)?;
    }
    Ok(Stack::new(alloc, files)?)
}

// Compares the files, of which some are wanted to be ignored.
fn compare_files(
    alloc: Global,
    stack: &Stack,
    files: &[Text],
    ignored: &BTreeSet<Text>,
    line: &str,
    outcome: &mut Outcome,
) -> Result<()> {
    for file in files {
        let path = RelPath::read(alloc, file.as_str()).ok().context("a path")?;
        let wanted = ignored.contains(file);
        outcome.count_answer(stack.ignored(&path) == wanted, line)?;
    }
    Ok(())
}

fn compare_case(alloc: Global, line: &str, outcome: &mut Outcome) -> Result<()> {
    let case = View::read(alloc, line.as_bytes()).ok().context("a case")?;
    let files = case
        .texts_at(alloc, "/files")
        .ok()
        .flatten()
        .context("files")?;
    let names = case
        .texts_at(alloc, "/ignored")
        .ok()
        .flatten()
        .context("ignored files")?;
    let mut ignored = BTreeSet::new(alloc);
    for name in names.into_vec() {
        ignored.insert(name)?;
    }
    outcome.count_case();
    let stack = stack_of(alloc, &case)?;
    compare_files(alloc, &stack, files.as_slice(), &ignored, line, outcome)
}

/// Compares each case of the text, one a line: ignore files by folder, and the files of a tree.
pub fn compare(alloc: Global, text: &str) -> Result<Outcome> {
    let mut outcome = Outcome::new(alloc);
    for line in text.lines() {
        compare_case(alloc, line, &mut outcome)?;
    }
    Ok(outcome)
}

// The files whose numbers the case lists.
fn listed(alloc: Global, case: &View, files: &[Text]) -> Result<BTreeSet<Text>> {
    let mut names = BTreeSet::new(alloc);
    for n in 0..files.len() {
        let pointer = format!(in alloc; "/1/{n}")?;
        let number = case.whole_at(alloc, pointer.as_str()).ok().flatten();
        let Some(number) = number else {
            return Ok(names);
        };
        let number = usize::try_from(number).ok().context("a number")?;
        let file = files.get(number).context("a file")?;
        names.insert(file.copy().ok().context("a copy")?)?;
    }
    Ok(names)
}

fn compare_pattern(alloc: Global, line: &str, files: &[Text], outcome: &mut Outcome) -> Result<()> {
    let case = View::read(alloc, line.as_bytes()).ok().context("a case")?;
    let pattern = case
        .text_at(alloc, "/0")
        .ok()
        .flatten()
        .context("a pattern")?;
    let ignored = listed(alloc, &case, files)?;
    outcome.count_case();
    let mut read = Vec::new(alloc);
    read.push(Ignore::read(alloc, &RelPath::root(alloc), pattern.as_str().as_bytes())?)?;
    let stack = Stack::new(alloc, read)?;
    compare_files(alloc, &stack, files, &ignored, line, outcome)
}

/// Compares each pattern of the text over one tree, whose files the first line lists.
pub fn compare_grid(alloc: Global, text: &str) -> Result<Outcome> {
    let mut outcome = Outcome::new(alloc);
    let mut lines = text.lines();
    let first = lines.next().context("a tree")?;
    let tree = View::read(alloc, first.as_bytes()).ok().context("a tree")?;
    let files = tree
        .texts_at(alloc, "/files")
        .ok()
        .flatten()
        .context("files")?;
    for line in lines {
        compare_pattern(alloc, line, files.as_slice(), &mut outcome)?;
    }
    Ok(outcome)
}
