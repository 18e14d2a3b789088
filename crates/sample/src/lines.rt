// The lines that are printed.
ghost use Rattle.std.specs.Prelude.{◌≡◌, ◌++◌, IfOk, OnOk, IsOkUnless, string_bytes};
ghost use Rattle.sample.specs.RunLines.{size_line, ran_line, ended_line, run_line, pages_line};

use listing::{fingerprint, short};
use page::PageErr;
use std::alloc::Global;

pub(crate) fn size_line(alloc: Global, n: u32) -> Result<String, PageErr>
    ensures line { IfOk result (λ line. string_bytes line ≡ size_line n) }
    ensures memory { IsOkUnless result PageErr.OutOfMemory }
{
    Ok(format!(in alloc; "sample {n}\n")?)
}

fn ran_line(alloc: Global, n: u32, run: u32, started: usize) -> Result<String, PageErr>
    ensures line { IfOk result (λ line. string_bytes line ≡ ran_line n run started) }
    ensures memory { IsOkUnless result PageErr.OutOfMemory }
{
    let cached = (n as usize).saturating_sub(started);
    Ok(format!(in alloc; "run {run}: {started} started, {cached} cached\n")?)
}

fn ended_line(alloc: Global, run: u32, status: u8) -> Result<String, PageErr>
    ensures line { IfOk result (λ line. string_bytes line ≡ ended_line run status) }
    ensures memory { IsOkUnless result PageErr.OutOfMemory }
{
    Ok(format!(in alloc; "run {run}: ended with {status}\n")?)
}

/// The line of a run that started so many commands, of n, and had this exit status.
fn run_line(alloc: Global, n: u32, run: u32, started: usize, status: u8) -> Result<String, PageErr>
    ensures line { IfOk result (λ line. string_bytes line ≡ run_line n run started status) }
    ensures memory { IsOkUnless result PageErr.OutOfMemory }
{
    match status {
        0 => ran_line(alloc, n, run, started),
        _ => ended_line(alloc, run, status),
    }
}

/// Puts the line of a run behind the others.
pub(crate) fn push_run(
    alloc: Global,
    lines: &mut String,
    n: u32,
    run: u32,
    started: usize,
    status: u8,
) -> Result<(), PageErr>
    ensures pushed { OnOk result
        (string_bytes lines.new ≡ string_bytes lines.old ++ run_line n run started status) }
    ensures memory { IsOkUnless result PageErr.OutOfMemory }
{
    let line = run_line(alloc, n, run, started, status)?;
    lines.push_str(line.as_str())?;
    Ok(())
}

/// The line of the digits of all that the runs printed.
pub(crate) fn pages_line(alloc: Global, pages: &[u8]) -> Result<String, PageErr>
    ensures line { IfOk result (λ line. string_bytes line ≡ pages_line pages.now) }
    ensures memory { IsOkUnless result PageErr.OutOfMemory }
{
    let Ok(digits) = short(alloc, &fingerprint(pages)) else {
        return Err(PageErr::OutOfMemory);
    };
    let digits = digits.as_str();
    Ok(format!(in alloc; "pages {digits}\n")?)
}
