// What a dry run says of a task.
ghost use Rattle.std.specs.Prelude.{◌≡◌, IfOk, string_bytes, IsOkUnless};
ghost use Rattle.std.specs.Option.{option_map};
ghost use Rattle.page.specs.DryBlocks.{held_word, script_text, key_line, dry_block_text};

use crate::PageErr;
use crate::tasks::{joined, task_name};
use rel_path::{Bytes, Text};
use std::alloc::Global;
use turbo_config::{TaskId, TaskIds};

/// What the cache holds of a task.
#[derive(Clone, Copy, Debug, PartialEq, Eq)]
pub enum DryMark {
    /// Its result.
    Hit,
    /// Nothing.
    Miss,
    /// It would not be asked.
    Bypass,
    /// The task has no script.
    NoScript,
}

fn held_word(held: DryMark) -> &'static str
    ensures { result.now ≡ held_word held }
{
    match held {
        DryMark::Hit => "HIT",
        DryMark::Miss => "MISS",
        DryMark::Bypass => "BYPASS",
        DryMark::NoScript => "NONE",
    }
}

fn script_text<'a>(script: Option<&'a Text>) -> &'a str
    ensures { result.now ≡ script_text (option_map (λ text. text.now) script.entry) }
{
    match script {
        Some(script) => script.as_str(),
        None => "<NONEXISTENT>",
    }
}

fn key_line(alloc: Global, key: &str, value: &str) -> Result<String, PageErr>
    ensures line { IfOk result (λ line. string_bytes line ≡ key_line key.now value.now) }
    ensures memory { IsOkUnless result PageErr.OutOfMemory }
{
    Ok(format!(in alloc; "  {key} = {value}\n")?)
}

/// The lines of a task in a dry run: its name, the fingerprint that is printed, what the cache holds, the task's own
/// script, and its direct dependencies in the order that they are given.
pub fn dry_block(
    alloc: Global,
    task: &TaskId,
    print: &Text,
    held: DryMark,
    script: Option<&Text>,
    deps: &TaskIds,
) -> Result<Bytes, PageErr>
    ensures text { IfOk result
        (λ bytes. bytes ≡ dry_block_text task.now print.now held
        (option_map (λ text. text.now) script.entry) deps.now) }
    ensures memory { IsOkUnless result PageErr.OutOfMemory }
{
    let task = task_name(alloc, task)?;
    let task = task.as_str();
    let hash = key_line(alloc, "hash", print.as_str())?;
    let hash = hash.as_str();
    let cache = key_line(alloc, "cache", held_word(held))?;
    let cache = cache.as_str();
    let command = key_line(alloc, "command", script_text(script))?;
    let command = command.as_str();
    let deps = joined(alloc, ", ", deps.as_slice())?;
    let deps = key_line(alloc, "dependencies", deps.as_str())?;
    let deps = deps.as_str();
    let text = format!(in alloc; "{task}\n{hash}{cache}{command}{deps}")?;
    Ok(Bytes::from_vec(text.into_bytes()))
}
