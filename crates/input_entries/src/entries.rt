// The entries of a task's `inputs`.
ghost use Rattle.std.specs.Prelude.{◌≡◌, ◌++◌, IfOk, OnOk, option_to_list, Some};
ghost use Rattle.std.specs.List.{list_any};
ghost use Rattle.std.specs.Str.{chars};
ghost use Rattle.glob_syntax.specs.Reading.{glob_from};
ghost use Rattle.listing.specs.Memory.{OnlyMemory};
ghost use Rattle.input_entries.specs.Entries.{is_default_entry, has_default, entry_of, entries_of, glob_entry, is_wide, any_wide, matches_from, any_reaches};

use globs::Glob;
use listing::ListErr;
use rel_path::{RelPath, Text, Texts};
use std::alloc::Global;

/// What a glob is relative to.
#[derive(Clone, Copy, Debug)]
pub enum Base {
    /// The root folder.
    Root,
    /// The folder of the task's owner.
    Owner,
}

/// A glob of a list of inputs.
#[derive(Debug, Drop)]
pub struct InputGlob {
    /// What it is relative to.
    pub base: Base,
    /// Whether what it matches is left out.
    pub excluded: bool,
    /// What it matches below its base.
    pub glob: Glob,
}

/// A list of inputs.
#[derive(Debug, Drop)]
pub struct InputList {
    /// Its globs, in the order of the list.
    pub globs: Vec<InputGlob>,
    /// Whether the default files are among them.
    pub has_default: bool,
}

/// The glob that the text writes. Lists of inputs were read before, so that each is one.
fn read_glob(alloc: Global, text: &str) -> Result<Glob, ListErr>
    ensures value { IfOk result (λ glob. glob ≡ glob_from 0 (chars text.now)) }
    ensures memory { OnlyMemory result }
{
    match Glob::read(alloc, text) {
        Ok(glob) => Ok(glob),
        Err(_) => Err(ListErr::OutOfMemory),
    }
}

fn is_default_entry(text: &str) -> bool
    ensures { result ≡ is_default_entry text.now }
{
    text == "$TURBO_DEFAULT$"
}

/// The glob that the text writes, relative to that base.
fn input_glob(
    alloc: Global,
    base: Base,
    excluded: bool,
    text: &str,
) -> Result<Option<InputGlob>, ListErr>
    ensures value { IfOk result
        (λ entry. entry ≡ Some (glob_entry base excluded (glob_from 0 (chars text.now)))) }
    ensures memory { OnlyMemory result }
{
    Ok(Some(InputGlob {
        base,
        excluded,
        glob: read_glob(alloc, text)?,
    }))
}

/// The glob of an entry, unless it stands for the default set.
#[tactic(auto, unfolding(crate::specs::Entries::entry_of))]
fn read_entry(alloc: Global, text: &str) -> Result<Option<InputGlob>, ListErr>
    ensures value { IfOk result (λ entry. entry ≡ entry_of text.now) }
    ensures memory { OnlyMemory result }
{
    if is_default_entry(text) {
        return Ok(None);
    }
    if let Some(glob) = text.strip_prefix("$TURBO_ROOT$/") {
        return input_glob(alloc, Base::Root, false, glob);
    }
    if let Some(glob) = text.strip_prefix("!$TURBO_ROOT$/") {
        return input_glob(alloc, Base::Root, true, glob);
    }
    if let Some(glob) = text.strip_prefix("!") {
        return input_glob(alloc, Base::Owner, true, glob);
    }
    input_glob(alloc, Base::Owner, false, text)
}

fn add_entry(globs: &mut Vec<InputGlob>, entry: Option<InputGlob>) -> Result<(), ListErr>
    ensures added { OnOk result (globs.new.items ≡ globs.old.items ++ option_to_list entry) }
    ensures memory { OnlyMemory result }
{
    if let Some(glob) = entry {
        globs.push(glob)?;
    }
    Ok(())
}

impl InputList {
    /// The list that the texts write. Each text is a glob or stands for the default files: lists of inputs are
    /// checked where the file that has them is read.
    pub fn read(alloc: Global, texts: &Texts) -> Result<InputList, ListErr>
        ensures globs { IfOk result (λ list. list.globs.items ≡ entries_of texts.now) }
        ensures default { IfOk result (λ list. list.has_default ≡ has_default texts.now) }
        ensures memory { OnlyMemory result }
    {
        let mut globs = Vec::new(alloc);
        for text in texts.as_slice() {
            add_entry(&mut globs, read_entry(alloc, text.as_str())?)?;
        }
        let has_default = has_default(texts.as_slice());
        Ok(InputList { globs, has_default })
    }
}

fn has_default(texts: &[Text]) -> bool
    ensures { result ≡ has_default texts.now }
{
    texts.iter().any(|text| is_default_entry(text.as_str()))
}

fn is_wide(entry: &InputGlob) -> bool
    ensures { result ≡ is_wide entry.now }
{
    matches!(entry.base, Base::Root) && !entry.excluded
}

/// Whether some entry that does not exclude is relative to the root.
pub fn has_wide(globs: &[InputGlob]) -> bool
    ensures { result ≡ list_any is_wide globs.now }
{
    globs.iter().any(|entry| is_wide(entry))
}

/// Whether an entry of the root that does not exclude matches the path.
#[tactic(auto, unfolding(crate::specs::Entries::any_wide))]
pub fn any_wide(globs: &[InputGlob], path: &RelPath) -> bool
    ensures { result ≡ any_wide globs.now path.now }
{
    globs
        .iter()
        .any(|entry| is_wide(entry) && entry.glob.matches(path))
}

/// Whether the entry matches the path, which is also given by what is left of it below the owner's folder.
fn reaches(entry: &InputGlob, path: &RelPath, below: &Option<RelPath>) -> bool
    ensures { result ≡ matches_from entry.now.base entry.now.glob path.now below.now }
{
    match (entry.base, below) {
        (Base::Root, _) => entry.glob.matches(path),
        (Base::Owner, Some(rest)) => entry.glob.matches(rest),
        (Base::Owner, None) => false,
    }
}

/// Whether an entry that excludes, or one that does not, matches the path. `below` is what is left of the path below
/// the owner's folder, where it is one of the owner's files (`rest_where`).
#[tactic(auto, unfolding(crate::specs::Entries::any_reaches))]
pub fn any_reaches(
    excluded: bool,
    globs: &[InputGlob],
    path: &RelPath,
    below: &Option<RelPath>,
) -> bool
    ensures { result ≡ any_reaches excluded globs.now path.now below.now }
{
    globs.iter().any(|entry| entry.excluded == excluded && reaches(entry, path, below))
}
