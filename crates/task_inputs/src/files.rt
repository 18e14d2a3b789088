// What is known of the walked files, whatever task is asked about.
ghost use Rattle.std.specs.Prelude.{◌≡◌, ◌<◌, ◌^◌, ◌++◌, ◌∷◌, [], length, map, if◌then◌else◌, IfOk, IfSome, OnOk};
ghost use Rattle.rel_path.specs.Paths.{path_eq};
ghost use Rattle.ignore_rules.specs.Ignored.{is_ignored};
ghost use Rattle.ignore_rules.specs.Stacks.{rules_in};
ghost use Rattle.listing.specs.Memory.{OnlyMemory};
ghost use Rattle.workspaces.specs.Lists.{places};
ghost use Rattle.task_inputs.specs.Facts.{fact_by, Adds, AreNear, AreHomesBelow};

use crate::declared::Declared;
use globs::GlobList;
use ignore_rules::Stack;
use listing::ListErr;
use rel_path::{Places, RelPath};
use std::alloc::Global;
use task_definitions::Config;

/// What is known of a walked file, whatever task is asked about.
#[derive(Clone, Copy, Debug)]
pub(crate) struct FileFacts {
    /// The number of its home: the package in whose folder it lies, else the root.
    pub home: Option<usize>,
    /// No task declares it, and it is no package's `package.json`.
    pub may_count: bool,
    /// An ignore file leaves it out.
    pub ignored: bool,
    /// `globalDependencies` take it.
    pub global: bool,
}

/// Whether the path is that of the file of this name in the folder.
pub(crate) fn is_file_in(path: &RelPath, folder: &RelPath, name: &str) -> bool
    ensures { result ≡ path_eq path.now (folder.now ++ name.now ∷ []) }
{
    match path.components().split_last() {
        None => false,
        Some((last, above)) => last.as_str() == name && above == folder.components(),
    }
}

/// The globs of `globalDependencies`.
pub(crate) fn global_list(alloc: Global, config: &Config) -> Result<GlobList, ListErr>
    ensures value { IfOk result (λ list. list ≡ config.now.globals.inputs) }
    ensures memory { OnlyMemory result }
{
    match GlobList::read(alloc, &config.globals().inputs) {
        Ok(list) => Ok(list),
        Err(_) => Err(ListErr::OutOfMemory),
    }
}

/// What is known of the file.
#[tactic(auto, unfolding(crate::specs::Facts::fact_by))]
fn fact_of(ignores: &Stack, declared: &Declared, globals: &GlobList, path: &RelPath) -> FileFacts
    ensures { result
        ≡ fact_by (is_ignored (rules_in ignores.now)) declared.now globals.now path.now }
{
    let home = declared.home(path);
    FileFacts {
        home,
        may_count: declared.may_count(home, path),
        ignored: ignores.ignored(path),
        global: globals.takes(path),
    }
}

/// What is known of each file.
pub(crate) fn facts_of(
    alloc: Global,
    walk: &[RelPath],
    ignores: &Stack,
    declared: &Declared,
    globals: &GlobList,
) -> Result<Vec<FileFacts>, ListErr>
    ensures facts { IfOk result (λ files. files.items
        ≡ map (fact_by (is_ignored (rules_in ignores.now)) declared.now globals.now) walk.now) }
    ensures memory { OnlyMemory result }
{
    let mut files = Vec::new(alloc);
    for path in walk {
        files.push(fact_of(ignores, declared, globals, path))?;
    }
    Ok(files)
}

/// Puts the place behind the others, if it is one of them.
pub(crate) fn add_place(found: &mut Vec<u32>, place: u32, is_one: bool) -> Result<(), ListErr>
    ensures added { OnOk result
        (found.new.items ≡ found.old.items ++ (if is_one then place ∷ [] else [])) }
    ensures memory { OnlyMemory result }
{
    if is_one {
        found.push(place)?;
    }
    Ok(())
}

/// Puts the place behind those of its home.
fn add_near(rows: &mut Vec<Places>, home: Option<usize>, place: u32) -> Result<(), ListErr>
    requires { IfSome home (λ h. h < length rows.old.items) }
    ensures added { OnOk result (Adds home place rows.old.items rows.new.items) }
    ensures memory { OnlyMemory result }
{
    if let Some(home) = home {
        rows[home].push(place)?;
    }
    Ok(())
}

/// So many empty rows.
fn empty_rows(alloc: Global, count: usize) -> Result<Vec<Places>, ListErr>
    ensures near { IfOk result (λ rows. AreNear [] rows.items) }
    ensures count { IfOk result (λ rows. length rows.items ≡ count) }
    ensures memory { OnlyMemory result }
{
    let mut rows = Vec::new(alloc);
    for _row in 0..count {
        rows.push(Places::new(alloc))?;
    }
    Ok(rows)
}

/// For each home the places of its files, ascending.
pub(crate) fn near_places(
    alloc: Global,
    count: usize,
    files: &[FileFacts],
) -> Result<Vec<Places>, ListErr>
    requires few { length files.now < 2 ^ 32 }
    requires below { AreHomesBelow count files.now }
    ensures near { IfOk result (λ rows. AreNear files.now rows.items) }
    ensures count { IfOk result (λ rows. length rows.items ≡ count) }
    ensures memory { OnlyMemory result }
{
    let mut rows = empty_rows(alloc, count)?;
    for (place, file) in files.iter().enumerate() {
        add_near(&mut rows, file.home, place as u32)?;
    }
    Ok(rows)
}

/// The places of the files that `globalDependencies` take.
pub(crate) fn global_places(alloc: Global, files: &[FileFacts]) -> Result<Vec<u32>, ListErr>
    requires few { length files.now < 2 ^ 32 }
    ensures places { IfOk result (λ found. found.items ≡ places (λ f. f.global) files.now) }
    ensures memory { OnlyMemory result }
{
    let mut found = Vec::new(alloc);
    for (place, file) in files.iter().enumerate() {
        add_place(&mut found, place as u32, file.global)?;
    }
    Ok(found)
}
