// The first entry of a list that is no glob.
ghost use Rattle.std.specs.Prelude.{◌≡◌, ◌+◌, ◌<◌, ◌^◌, length, IfOk, IsOkUnless};
ghost use Rattle.std.specs.Str.{chars};
ghost use Rattle.glob_syntax.specs.Reading.{fault_at};
ghost use Rattle.turbo_config.specs.Answers.{Passes};
ghost use Rattle.turbo_config.specs.Globs.{input_fault, glob_fault, fault_of, item_at, first_glob_fault, Finds};

use crate::error::ConfigErr;
use glob_syntax::{GlobErr, read_alternatives};
use json_view::pointer_to;
use rel_path::{Text, split_first_char};
use std::alloc::Global;

// Begins an entry that takes files away.
const NOT: char = '!';

const NOT_CHARS: u64 = 1;

/// Stands for the default inputs.
pub(crate) const DEFAULT_INPUTS: &str = "$TURBO_DEFAULT$";

// Begins a glob that is relative to the root.
const ROOT: &str = "$TURBO_ROOT$/";

const ROOT_CHARS: u64 = 13;

// Begins such a glob whose files are taken away.
const NOT_ROOT: &str = "!$TURBO_ROOT$/";

const NOT_ROOT_CHARS: u64 = 14;

/// What the entries of a list are.
#[derive(Clone, Copy, Debug)]
pub(crate) enum ListKind {
    /// Any texts.
    Texts,
    /// Globs, each with a `!` in front or not.
    Globs,
    /// The same, or `$TURBO_DEFAULT$`, or globs behind `$TURBO_ROOT$/`.
    Inputs,
}

/// Why the text, which begins at the place, is no glob.
fn fault_from(alloc: Global, start: u64, text: &str) -> Result<Option<GlobErr>, ConfigErr>
    requires { start + length text.now < 2 ^ 64 }
    ensures { Finds (fault_at start (chars text.now)) result }
{
    match read_alternatives(alloc, start, text) {
        Ok(_) => Ok(None),
        Err(GlobErr::OutOfMemory) => Err(ConfigErr::OutOfMemory),
        Err(fault) => Ok(Some(fault)),
    }
}

#[tactic(auto, unfolding(crate::specs::Globs::glob_fault))]
fn glob_fault(alloc: Global, text: &str) -> Result<Option<GlobErr>, ConfigErr>
    ensures { Finds (glob_fault text.now) result }
{
    let _len = text.len();
    match split_first_char(text) {
        Some((c, behind)) if c == NOT => fault_from(alloc, NOT_CHARS, behind),
        _ => fault_from(alloc, 0, text),
    }
}

#[tactic(auto, unfolding(crate::specs::Globs::input_fault, crate::specs::Globs::glob_fault))]
fn input_fault(alloc: Global, text: &str) -> Result<Option<GlobErr>, ConfigErr>
    ensures { Finds (input_fault text.now) result }
{
    let _len = text.len();
    if text == DEFAULT_INPUTS {
        return Ok(None);
    }
    if let Some(glob) = text.strip_prefix(ROOT) {
        return fault_from(alloc, ROOT_CHARS, glob);
    }
    if let Some(glob) = text.strip_prefix(NOT_ROOT) {
        return fault_from(alloc, NOT_ROOT_CHARS, glob);
    }
    glob_fault(alloc, text)
}

fn fault_of(alloc: Global, kind: ListKind, text: &str) -> Result<Option<GlobErr>, ConfigErr>
    ensures { Finds (fault_of kind text.now) result }
{
    match kind {
        ListKind::Texts => Ok(None),
        ListKind::Globs => glob_fault(alloc, text),
        ListKind::Inputs => input_fault(alloc, text),
    }
}

fn item_at(alloc: Global, at: &str, index: usize) -> Result<Text, ConfigErr>
    ensures value { IfOk result (λ pointer. pointer ≡ item_at at.now index) }
    ensures memory { IsOkUnless result ConfigErr.OutOfMemory }
{
    let number = index.to_string(alloc)?;
    match pointer_to(alloc, at, number.as_str()) {
        Ok(pointer) => Ok(pointer),
        Err(_) => Err(ConfigErr::OutOfMemory),
    }
}

/// Tests the entries of the list at the pointer.
pub(crate) fn check_entries(
    alloc: Global,
    kind: ListKind,
    at: &str,
    texts: &[Text],
) -> Result<(), ConfigErr>
    ensures { Passes (first_glob_fault (fault_of kind) at.now 0 texts.now) result }
{
    for (index, text) in texts.iter().enumerate() {
        if let Some(fault) = fault_of(alloc, kind, text.as_str())? {
            let pointer = item_at(alloc, at, index)?;
            return Err(ConfigErr::Glob { pointer, fault });
        }
    }
    Ok(())
}
