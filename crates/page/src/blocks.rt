// The lines of a task that was looked up or ran.
ghost use Rattle.std.specs.Prelude.{◌≡◌, ◌++◌, ◌∷◌, ◌<◌, length, position, IfOk, OnOk, string_bytes, IsOkUnless};
ghost use Rattle.page.specs.Blocks.{lines_shown, front_of, mark_words, mark_line, is_newline, lines_of, log_lines, failure_line, note_line, block_text};

use crate::PageErr;
use rel_path::{Bytes, RelPath, Text};
use std::alloc::Global;
use turbo_config::{LogMode, TaskId};

/// Where a task's result comes from.
#[derive(Clone, Copy, Debug, PartialEq, Eq)]
pub enum Mark {
    /// From the cache.
    Hit,
    /// From its command, as the cache had none.
    Miss,
    /// From its command, without a look into the cache.
    Bypass,
}

/// What became of a result that was to be put into the cache. A result that was not to be put is `Stored`, of which
/// nothing is printed.
#[derive(Debug, Drop)]
pub enum Note {
    Stored,
    /// Not put: another task declares this path too.
    Shared(RelPath),
    /// Not put: this file is too large.
    Large(RelPath),
    /// Not put: the cache is full.
    Full,
}

/// Which of a task's lines are shown.
#[derive(Clone, Copy, Debug, PartialEq, Eq)]
pub(crate) enum Shown {
    All,
    /// All but the log.
    WithoutLog,
    /// The first line alone.
    FirstLine,
    Nothing,
}

// The table of `outputLogs`.
fn lines_shown(mode: LogMode, mark: Mark, failed: bool) -> Shown
    ensures { result ≡ lines_shown mode mark failed }
{
    match mode {
        LogMode::Full => Shown::All,
        LogMode::HashOnly => Shown::WithoutLog,
        LogMode::NewOnly => match mark {
            Mark::Hit => Shown::FirstLine,
            Mark::Miss | Mark::Bypass => Shown::All,
        },
        LogMode::ErrorsOnly => { if failed { Shown::All } else { Shown::Nothing } }
        LogMode::Silent => Shown::Nothing,
    }
}

fn front(alloc: Global, task: &TaskId) -> Result<String, PageErr>
    ensures front { IfOk result (λ front. string_bytes front ≡ front_of task.now) }
    ensures memory { IsOkUnless result PageErr.OutOfMemory }
{
    let package = task.package.as_str();
    let task = task.task.as_str();
    Ok(format!(in alloc; "{package}:{task}: ")?)
}

fn mark_words(mark: Mark) -> &'static str
    ensures { result.now ≡ mark_words mark }
{
    match mark {
        Mark::Hit => "cache hit, replaying logs",
        Mark::Miss => "cache miss, executing",
        Mark::Bypass => "cache bypass, force executing",
    }
}

fn mark_line(alloc: Global, front: &str, mark: Mark, print: &Text) -> Result<String, PageErr>
    ensures line { IfOk result (λ line. string_bytes line ≡ mark_line front.now mark print.now) }
    ensures memory { IsOkUnless result PageErr.OutOfMemory }
{
    let words = mark_words(mark);
    let print = print.as_str();
    Ok(format!(in alloc; "{front}{words} {print}\n")?)
}

fn newline_at(log: &[u8]) -> Option<usize>
    ensures { result ≡ position is_newline log.now }
{
    log.iter().position(|byte| *byte == b'\n')
}

// The first line, without its newline, and what stands behind it.
fn cut_line(log: &[u8]) -> (&[u8], &[u8])
    requires { 0 < length log.now }
    ensures lines { lines_of log.now ≡ result.0.now ∷ lines_of result.1.now }
    ensures smaller { length result.1.now < length log.now }
{
    match newline_at(log) {
        Some(end) => (&log[..end], &log[end + 1..]),
        None => log.split_at(log.len()),
    }
}

// Adds the log, each line behind the front.
fn push_log(text: &mut Vec<u8>, front: &str, log: &[u8]) -> Result<(), PageErr>
    ensures text { OnOk result (text.new.items ≡ text.old.items ++ log_lines front.now log.now) }
    ensures memory { IsOkUnless result PageErr.OutOfMemory }
{
    let mut rest = log;
    while !rest.is_empty() {
        let (line, more) = cut_line(rest);
        text.extend_from_slice(front.as_bytes())?;
        text.extend_from_slice(line)?;
        text.push(b'\n')?;
        rest = more;
    }
    Ok(())
}

fn failure_line(alloc: Global, front: &str, status: u8) -> Result<String, PageErr>
    ensures line { IfOk result (λ line. string_bytes line ≡ failure_line front.now status) }
    ensures memory { IsOkUnless result PageErr.OutOfMemory }
{
    if status == 0 {
        return Ok(String::new(alloc));
    }
    Ok(format!(in alloc; "{front}failed with status {status}\n")?)
}

fn note_line(alloc: Global, front: &str, note: &Note) -> Result<String, PageErr>
    ensures line { IfOk result (λ line. string_bytes line ≡ note_line front.now note.now) }
    ensures memory { IsOkUnless result PageErr.OutOfMemory }
{
    match note {
        Note::Stored => Ok(String::new(alloc)),
        Note::Shared(path) => {
            let path = path.text(alloc)?;
            let path = path.as_str();
            Ok(format!(in alloc; "{front}not stored, shared {path}\n")?)
        }
        Note::Large(path) => {
            let path = path.text(alloc)?;
            let path = path.as_str();
            Ok(format!(in alloc; "{front}not stored, large {path}\n")?)
        }
        Note::Full => Ok(format!(in alloc; "{front}not stored, store full\n")?),
    }
}

// The lines behind the log.
fn end_lines(alloc: Global, front: &str, status: u8, note: &Note) -> Result<String, PageErr>
    ensures lines { IfOk result
        (λ lines. string_bytes lines
        ≡ failure_line front.now status ++ note_line front.now note.now) }
    ensures memory { IsOkUnless result PageErr.OutOfMemory }
{
    let mut lines = failure_line(alloc, front, status)?;
    let note = note_line(alloc, front, note)?;
    lines.push_str(note.as_str())?;
    Ok(lines)
}

/// The lines of a task that has a script: where its result comes from, with the fingerprint that is printed, its log,
/// the status where it failed, and why its result was not stored; each behind the task's package and name. The mode says
/// which of them are shown.
pub fn block(
    alloc: Global,
    task: &TaskId,
    mark: Mark,
    print: &Text,
    log: &[u8],
    status: u8,
    note: &Note,
    mode: LogMode,
) -> Result<Bytes, PageErr>
    ensures text { IfOk result
        (λ bytes. bytes ≡ block_text task.now mark print.now log.now status note.now mode) }
    ensures memory { IsOkUnless result PageErr.OutOfMemory }
{
    let front = front(alloc, task)?;
    let front = front.as_str();
    let mut text = Vec::new(alloc);
    match lines_shown(mode, mark, status != 0) {
        Shown::All => {
            text.extend_from_slice(mark_line(alloc, front, mark, print)?.as_str().as_bytes())?;
            push_log(&mut text, front, log)?;
            text.extend_from_slice(end_lines(alloc, front, status, note)?.as_str().as_bytes())?;
            Ok(Bytes::from_vec(text))
        }
        Shown::WithoutLog => {
            text.extend_from_slice(mark_line(alloc, front, mark, print)?.as_str().as_bytes())?;
            text.extend_from_slice(end_lines(alloc, front, status, note)?.as_str().as_bytes())?;
            Ok(Bytes::from_vec(text))
        }
        Shown::FirstLine => {
            text.extend_from_slice(mark_line(alloc, front, mark, print)?.as_str().as_bytes())?;
            Ok(Bytes::from_vec(text))
        }
        Shown::Nothing => Ok(Bytes::from_vec(text)),
    }
}
