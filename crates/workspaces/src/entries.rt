// The globs of a root manifest's `workspaces`.
ghost use Rattle.std.specs.Prelude.{◌≡◌, IfOk, MatchResult, None, Some, false, slice_index_or, map, []};
ghost use Rattle.glob_syntax.specs.Faults.{moved};
ghost use Rattle.workspaces.specs.Entries.{has_dot, without_dot, without_slash, trimmed, dropped, entry_pointer, list_pointer, globs_of, globs_fault};
ghost use Rattle.workspaces.specs.Steps.{OnlyMemory, MayRefuse, HasCause, is_failed};

use crate::SpaceErr;
use globs::{GlobErr, GlobList, ListGlobErr};
use manifest::Manifest;
use rel_path::{Text, Texts};
use std::alloc::Global;

fn has_dot(entry: &str) -> bool
    ensures { result ≡ has_dot entry.now }
{
    matches!(entry.as_bytes(), [b'.', b'/', ..])
}

fn without_dot(entry: &str) -> &str
    ensures text { result.now ≡ without_dot entry.now }
{
    let Some(rest) = entry.strip_prefix('.') else {
        return entry;
    };
    let Some(rest) = rest.strip_prefix('/') else {
        return entry;
    };
    rest
}

fn without_slash(entry: &str) -> &str
    ensures text { result.now ≡ without_slash entry.now }
{
    match entry.strip_suffix('/') {
        None => entry,
        Some(rest) => rest,
    }
}

/// The globs of the entries.
fn trimmed_entries(alloc: Global, entries: &[Text]) -> Result<Texts, SpaceErr>
    ensures value { IfOk result (λ globs. globs ≡ map trimmed entries.now) }
    ensures memory { OnlyMemory result }
{
    let mut globs = Texts::new(alloc);
    for entry in entries {
        let glob = without_slash(without_dot(entry.as_str()));
        globs.push(Text::read(alloc, glob)?)?;
    }
    Ok(globs)
}

/// How many characters in front of the entry's glob are dropped.
fn dropped(entries: &[Text], index: u32) -> u64
    ensures { result ≡ dropped (slice_index_or entries.now index []) }
{
    match entries.get(index as usize) {
        Some(entry) if has_dot(entry.as_str()) => 2,
        _ => 0,
    }
}

fn list_pointer(object_form: bool) -> &'static str
    ensures { result.now ≡ list_pointer object_form }
{
    if object_form {
        "/workspaces/packages"
    } else {
        "/workspaces"
    }
}

/// Where the entry stands.
fn entry_pointer(alloc: Global, object_form: bool, index: u32) -> Result<Text, SpaceErr>
    ensures value { IfOk result (λ pointer. pointer ≡ entry_pointer object_form index) }
    ensures memory { OnlyMemory result }
{
    let list = list_pointer(object_form);
    Ok(Text::from_string(format!(in alloc; "{list}/{index}")?))
}

/// The entry of that number is no glob.
fn refusal(alloc: Global, root: &Manifest, index: u32, fault: GlobErr) -> SpaceErr
    ensures refusal { MayRefuse
        (Some (SpaceErr.Glob (entry_pointer root.now.object_form index)
        (moved (dropped (slice_index_or root.now.workspaces index [])) fault))) result }
    ensures no_failure { is_failed result ≡ false }
{
    let by = dropped(root.workspaces.as_slice(), index);
    match entry_pointer(alloc, root.object_form, index) {
        Ok(pointer) => SpaceErr::Glob {
            pointer,
            fault: fault.moved(by),
        },
        Err(_) => SpaceErr::OutOfMemory,
    }
}

/// The globs of `workspaces`.
pub(crate) fn read_globs(alloc: Global, root: &Manifest) -> Result<GlobList, SpaceErr>
    ensures found { MatchResult result
        (λ globs. (globs_fault root.now ≡ None) × (globs ≡ globs_of root.now))
        (MayRefuse (globs_fault root.now)) }
    ensures no_failure { HasCause 0 0 result }
{
    let texts = trimmed_entries(alloc, root.workspaces.as_slice())?;
    match GlobList::read(alloc, &texts) {
        Ok(globs) => Ok(globs),
        Err(ListGlobErr::At { index, fault }) => Err(refusal(alloc, root, index, fault)),
        Err(ListGlobErr::OutOfMemory) => Err(SpaceErr::OutOfMemory),
    }
}
