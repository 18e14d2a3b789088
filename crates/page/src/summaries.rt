// How a run went.
ghost use Rattle.std.specs.Prelude.{◌≡◌, IfOk, string_bytes, IsOkUnless};
ghost use Rattle.page.specs.Summaries.{tasks_line, cached_line, failed_line, summary_text};

use crate::PageErr;
use crate::tasks::joined;
use rel_path::Bytes;
use std::alloc::Global;
use turbo_config::{TaskId, TaskIds};

fn tasks_line(alloc: Global, good: u32, total: u32) -> Result<String, PageErr>
    ensures line { IfOk result (λ line. string_bytes line ≡ tasks_line good total) }
    ensures memory { IsOkUnless result PageErr.OutOfMemory }
{
    Ok(format!(in alloc; " Tasks:    {good} successful, {total} total\n")?)
}

fn cached_line(alloc: Global, cached: u32, total: u32) -> Result<String, PageErr>
    ensures line { IfOk result (λ line. string_bytes line ≡ cached_line cached total) }
    ensures memory { IsOkUnless result PageErr.OutOfMemory }
{
    Ok(format!(in alloc; "Cached:    {cached} cached, {total} total\n")?)
}

fn failed_line(alloc: Global, failed: &[TaskId]) -> Result<String, PageErr>
    ensures line { IfOk result (λ line. string_bytes line ≡ failed_line failed.now) }
    ensures memory { IsOkUnless result PageErr.OutOfMemory }
{
    if failed.is_empty() {
        return Ok(String::new(alloc));
    }
    let names = joined(alloc, ", ", failed)?;
    let names = names.as_str();
    Ok(format!(in alloc; "Failed:    {names}\n")?)
}

/// The summary of a run: behind an empty line how many tasks succeeded and how many came from the cache, of how many with
/// a script, and which tasks failed, in the order that they are given.
pub fn summary(
    alloc: Global,
    good: u32,
    cached: u32,
    total: u32,
    failed: &TaskIds,
) -> Result<Bytes, PageErr>
    ensures text { IfOk result (λ bytes. bytes ≡ summary_text good cached total failed.now) }
    ensures memory { IsOkUnless result PageErr.OutOfMemory }
{
    let tasks = tasks_line(alloc, good, total)?;
    let tasks = tasks.as_str();
    let cached = cached_line(alloc, cached, total)?;
    let cached = cached.as_str();
    let failed = failed_line(alloc, failed.as_slice())?;
    let failed = failed.as_str();
    let text = format!(in alloc; "\n{tasks}{cached}{failed}")?;
    Ok(Bytes::from_vec(text.into_bytes()))
}
