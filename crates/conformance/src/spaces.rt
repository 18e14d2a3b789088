// Workspaces in memory, and what is found of them.
use anyhow::{Context, Result};
use json_view::View;
use manifest::Manifest;
use rel_path::{Bytes, Files, Pairs, RelPath, Text};
use std::alloc::Global;
use tree_dev::MemTree;
use tree_walk::walk;
use workspaces::{Packages, SpaceErr, discover};

fn files_of(alloc: Global, texts: &Pairs) -> Result<Files> {
    let mut files = Files::new(alloc);
    for (path, text) in texts.as_slice() {
        let path = RelPath::read(alloc, path.as_str()).ok().context("a path")?;
        let bytes = Bytes::read(alloc, text.as_str().as_bytes())
            .ok()
            .context("a text")?;
        files.push((path, bytes))?;
    }
    Ok(files)
}

/// The text at the pointer of the case.
pub fn text_at(alloc: Global, case: &View, pointer: &str) -> Result<Text> {
    case.text_at(alloc, pointer)
        .ok()
        .flatten()
        .context("a text")
}

/// What is found of the workspace whose files the case has, by their paths.
pub fn space_of(alloc: Global, case: &View) -> Result<Result<Packages, SpaceErr>> {
    let texts = case
        .pairs_at(alloc, "/files")
        .ok()
        .flatten()
        .context("files")?;
    let root = text_at(alloc, case, "/files/package.json")?;
    let root = Manifest::read(alloc, root.as_str().as_bytes(), true)
        .ok()
        .context("a root manifest")?;
    let mut tree = MemTree::new(alloc, files_of(alloc, &texts)?, Vec::new(alloc));
    let walk = walk(alloc, &mut tree).ok().context("a walk")?;
    Ok(discover(alloc, &mut tree, root, &walk))
}
