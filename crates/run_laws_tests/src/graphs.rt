// Listings and books to be run.
use crate::book::{Piece, Rule, Write};
use globs::{GlobList, GlobLists, OutSet};
use listing::{Listing, Part, Parts};
use rel_path::{Bytes, Files, Pairs, Paths, Places, RelPath, Text, Texts};
use std::alloc::Global;
use std::test::Fail;

fn texts(alloc: Global, words: &[&str]) -> Result<Texts, Fail> {
    let mut all = Texts::new(alloc);
    for word in words {
        all.push(Text::read(alloc, word)?)?;
    }
    Ok(all)
}

fn paths(alloc: Global, words: &[&str]) -> Result<Paths, Fail> {
    let mut all = Paths::new(alloc);
    for word in words {
        all.push(RelPath::read(alloc, word)?)?;
    }
    Ok(all)
}

fn places(alloc: Global, deps: &[u32]) -> Result<Places, Fail> {
    let mut all = Places::new(alloc);
    for dep in deps {
        all.push(*dep)?;
    }
    Ok(all)
}

pub fn files(alloc: Global, words: &[(&str, &str)]) -> Result<Files, Fail> {
    let mut all = Files::new(alloc);
    for (path, text) in words {
        let bytes = Bytes::read(alloc, text.as_bytes())?;
        all.push((RelPath::read(alloc, path)?, bytes))?;
    }
    Ok(all)
}

/// A task `build` that declares `dist/**`.
pub fn part(
    alloc: Global,
    package: &str,
    folder: &str,
    inputs: &[&str],
    deps: &[u32],
) -> Result<Part, Fail> {
    let globs = texts(alloc, &["dist/**"])?;
    Ok(Part {
        package: Text::read(alloc, package)?,
        folder: RelPath::read(alloc, folder)?,
        task: Text::read(alloc, "build")?,
        scripts: texts(alloc, &["make"])?,
        args: Texts::new(alloc),
        outs: OutSet {
            folder: RelPath::read(alloc, folder)?,
            mine: GlobList::read(alloc, &globs)?,
            others: GlobLists::new(alloc),
        },
        env: Pairs::new(alloc),
        inputs: paths(alloc, inputs)?,
        externals: Pairs::new(alloc),
        deps: places(alloc, deps)?,
    })
}

/// `packages/ui`, and `packages/web` that depends on it, each with one source file.
pub fn two_packages(alloc: Global, ui: &str, web: &str) -> Result<Listing, Fail> {
    let mut parts = Parts::new(alloc);
    parts.push(part(alloc, "ui", "packages/ui", &["packages/ui/src/a.js"], &[])?)?;
    parts.push(part(
        alloc,
        "web",
        "packages/web",
        &["packages/web/src/a.js"],
        &[0],
    )?)?;
    let sources = [("packages/ui/src/a.js", ui), ("packages/web/src/a.js", web)];
    Ok(Listing {
        files: files(alloc, &sources)?,
        parts,
    })
}

/// Packages a, b and c, each with the places of the tasks that it depends on.
pub fn three_packages(alloc: Global, a: &[u32], b: &[u32], c: &[u32]) -> Result<Listing, Fail> {
    let mut parts = Parts::new(alloc);
    parts.push(part(alloc, "a", "a", &[], a)?)?;
    parts.push(part(alloc, "b", "b", &[], b)?)?;
    parts.push(part(alloc, "c", "c", &[], c)?)?;
    Ok(Listing {
        files: Files::new(alloc),
        parts,
    })
}

pub fn lit(alloc: Global, text: &str) -> Result<Piece, Fail> {
    Ok(Piece::Lit(Bytes::read(alloc, text.as_bytes())?))
}

pub fn file(alloc: Global, path: &str) -> Result<Piece, Fail> {
    Ok(Piece::File(RelPath::read(alloc, path)?))
}

pub fn one(alloc: Global, piece: Piece) -> Result<Vec<Piece>, Fail> {
    let mut all = Vec::new(alloc);
    all.push(piece)?;
    Ok(all)
}

/// What `build` of a package does: a log, a status, and one file that it writes.
pub fn rule(
    alloc: Global,
    package: &str,
    log: Vec<Piece>,
    status: u8,
    path: &str,
    bytes: Vec<Piece>,
) -> Result<Rule, Fail> {
    let path = RelPath::read(alloc, path)?;
    let mut files = Vec::new(alloc);
    files.push(Write { path, bytes })?;
    Ok(Rule {
        package: Text::read(alloc, package)?,
        task: Text::read(alloc, "build")?,
        status,
        log,
        files,
    })
}
