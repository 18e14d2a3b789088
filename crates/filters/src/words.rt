// The parts of a filter word.
ghost use Rattle.std.specs.Prelude.{◌≡◌, IfOk, IsOkUnless};
ghost use Rattle.std.specs.Option.{option_copied};
ghost use Rattle.std.specs.List.{list_any};
ghost use Rattle.wildcards.specs.Bytes.{is_star};
ghost use Rattle.filters.specs.Words.{behind, before, mark_of, front_of, back_of, folder_glob, glob_core, name_core, core_of, is_bracket};

use crate::FilterErr;
use crate::filter::{Core, End};
use globs::{Glob, GlobErr};
use rel_path::Text;
use std::alloc::Global;

/// What stands behind the mark at the front of the text.
fn behind<'a>(mark: &str, text: &'a str) -> Option<&'a str>
    ensures { option_copied result ≡ behind mark.now text.now }
{
    text.strip_prefix(mark)
}

/// What stands before the mark at the end of the text.
fn before<'a>(mark: &str, text: &'a str) -> Option<&'a str>
    ensures { option_copied result ≡ before mark.now text.now }
{
    text.strip_suffix(mark)
}

/// Whether a `!` stands in front, and what is behind it.
pub(crate) fn split_mark(text: &str) -> (bool, &str)
    ensures mark { result.0 ≡ (mark_of text.now).0 }
    ensures rest { result.1.now ≡ (mark_of text.now).1 }
{
    match behind("!", text) {
        Some(rest) => (true, rest),
        None => (false, text),
    }
}

/// The longest end in front, and what is behind it.
pub(crate) fn split_front(text: &str) -> (End, &str)
    ensures end { result.0 ≡ (front_of text.now).0 }
    ensures rest { result.1.now ≡ (front_of text.now).1 }
{
    if let Some(rest) = behind("...^", text) {
        return (End::Caret, rest);
    }
    match behind("...", text) {
        Some(rest) => (End::Dots, rest),
        None => (End::Bare, text),
    }
}

/// The longest end at the back, and what is before it.
pub(crate) fn split_back(text: &str) -> (End, &str)
    ensures end { result.0 ≡ (back_of text.now).0 }
    ensures rest { result.1.now ≡ (back_of text.now).1 }
{
    if let Some(rest) = before("^...", text) {
        return (End::Caret, rest);
    }
    match before("...", text) {
        Some(rest) => (End::Dots, rest),
        None => (End::Bare, text),
    }
}

/// The glob of a folder: what stands behind `./`, or between `{./` and `}`.
fn folder_glob(text: &str) -> Option<&str>
    ensures { option_copied result ≡ folder_glob text.now }
{
    if let Some(glob) = behind("./", text) {
        return Some(glob);
    }
    match behind("{./", text) {
        Some(rest) => before("}", rest),
        None => None,
    }
}

fn glob_core(alloc: Global, text: &str) -> Result<Option<Core>, FilterErr>
    ensures value { IfOk result (λ core. core ≡ glob_core text.now) }
    ensures memory { IsOkUnless result FilterErr.OutOfMemory }
{
    match Glob::read(alloc, text) {
        Ok(glob) => Ok(Some(Core::Folder(glob))),
        Err(GlobErr::OutOfMemory) => Err(FilterErr::OutOfMemory),
        Err(_) => Ok(None),
    }
}

fn has_star(text: &str) -> bool
    ensures { result ≡ list_any is_star text.now }
{
    text.as_bytes().iter().any(|b| *b == b'*')
}

fn has_bracket(text: &str) -> bool
    ensures { result ≡ list_any is_bracket text.now }
{
    text.as_bytes().iter().any(|b| *b == b'[')
}

fn name_core(alloc: Global, text: &str) -> Result<Option<Core>, FilterErr>
    ensures value { IfOk result (λ core. core ≡ name_core text.now) }
    ensures memory { IsOkUnless result FilterErr.OutOfMemory }
{
    if text.is_empty() || has_bracket(text) {
        return Ok(None);
    }
    let name = Text::read(alloc, text)?;
    if has_star(text) {
        Ok(Some(Core::Pattern(name)))
    } else {
        Ok(Some(Core::Name(name)))
    }
}

/// The core that the text writes, if it writes one.
#[tactic(auto, unfolding(crate::specs::Words::core_of))]
pub(crate) fn core_of(alloc: Global, text: &str) -> Result<Option<Core>, FilterErr>
    ensures value { IfOk result (λ core. core ≡ core_of text.now) }
    ensures memory { IsOkUnless result FilterErr.OutOfMemory }
{
    match folder_glob(text) {
        Some(glob) => glob_core(alloc, glob),
        None => name_core(alloc, text),
    }
}
