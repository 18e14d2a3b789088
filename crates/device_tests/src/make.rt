// Paths, files and commands from texts.
ghost use Rattle.std.specs.Prelude.{◌≡◌, [], IfOk};
ghost use Rattle.tree_dev.specs.Tree.{Looks};
ghost use Rattle.spawn_dev.specs.Spawn.{IsIdle};
ghost use Rattle.device_tests.specs.Plain.{IsPlain};
ghost use Rattle.device_tests.specs.Quiet.{IsQuiet};

use crate::generic::{run_plain, start_plain};
use globs::{GlobList, GlobLists, OutSet, OutSets};
use rel_path::{Bytes, Files, Pairs, Paths, RelPath, Text, Texts};
use spawn_dev::{Command, Ended, Spawner};
use std::alloc::{AllocError, Global};
use std::process::Abort;
use tree_dev::{DevErr, Found, Tree};

/// The path that the text writes; the root for an empty one. No test writes a text that is none.
pub fn path_of(alloc: Global, text: &str) -> Result<RelPath, AllocError> {
    if text.is_empty() {
        return Ok(RelPath::root(alloc));
    }
    RelPath::read(alloc, text).map_err(|_| AllocError)
}

pub fn files_of(alloc: Global, files: &[(&str, &str)]) -> Result<Files, AllocError> {
    let mut all = Files::new(alloc);
    for (path, text) in files {
        let path = path_of(alloc, path)?;
        let bytes = Bytes::read(alloc, text.as_bytes())?;
        all.push((path, bytes))?;
    }
    Ok(all)
}

/// The names in a folder, each with a blank behind it, and folders with a slash.
pub fn names_in<T: Tree>(alloc: Global, tree: &mut T, folder: &str) -> Result<String, DevErr>
    ensures { Looks (T.state tree.old) (T.state tree.new) }
{
    let folder = path_of(alloc, folder)?;
    let names = tree.list(alloc, &folder)?;
    let mut text = String::new(alloc);
    for entry in names.as_slice() {
        text.push_str(entry.name.as_str())?;
        text.push_str(if entry.folder { "/ " } else { " " })?;
    }
    Ok(text)
}

/// What is read at a path of a tree in which none may change.
pub fn read_at<T: Tree>(
    alloc: Global,
    tree: &mut T,
    path: &str,
    limit: u64,
) -> Result<Found, DevErr>
    requires { IsQuiet (T.state tree.old) }
    ensures { IsQuiet (T.state tree.new) }
{
    let path = path_of(alloc, path)?;
    let found = tree.read(alloc, &path, limit)?;
    Ok(found)
}

/// Whether these bytes stand at a path.
pub fn has<T: Tree>(alloc: Global, tree: &mut T, path: &str, text: &str) -> Result<bool, DevErr>
    requires { IsQuiet (T.state tree.old) }
    ensures { IsQuiet (T.state tree.new) }
{
    match read_at(alloc, tree, path, text.len() as u64)? {
        Found::Here(bytes) => Ok(bytes.as_slice() == text.as_bytes()),
        _ => Ok(false),
    }
}

pub fn is_absent<T: Tree>(alloc: Global, tree: &mut T, path: &str) -> Result<bool, DevErr>
    requires { IsQuiet (T.state tree.old) }
    ensures { IsQuiet (T.state tree.new) }
{
    match read_at(alloc, tree, path, u64::MAX)? {
        Found::Absent => Ok(true),
        _ => Ok(false),
    }
}

pub fn is_longer<T: Tree>(
    alloc: Global,
    tree: &mut T,
    path: &str,
    limit: u64,
) -> Result<bool, DevErr>
    requires { IsQuiet (T.state tree.old) }
    ensures { IsQuiet (T.state tree.new) }
{
    match read_at(alloc, tree, path, limit)? {
        Found::TooLong => Ok(true),
        _ => Ok(false),
    }
}

pub fn write_at<T: Tree>(alloc: Global, tree: &mut T, path: &str, text: &str) -> Result<(), DevErr>
    requires { IsQuiet (T.state tree.old) }
    ensures { IsQuiet (T.state tree.new) }
{
    let path = path_of(alloc, path)?;
    tree.write(alloc, &path, text.as_bytes())?;
    Ok(())
}

pub fn remove_at<T: Tree>(alloc: Global, tree: &mut T, path: &str) -> Result<(), DevErr>
    requires { IsQuiet (T.state tree.old) }
    ensures { IsQuiet (T.state tree.new) }
{
    let path = path_of(alloc, path)?;
    tree.remove(alloc, &path)?;
    Ok(())
}

fn texts_of(alloc: Global, texts: &[&str]) -> Result<Texts, AllocError> {
    let mut all = Texts::new(alloc);
    for text in texts {
        all.push(Text::read(alloc, text)?)?;
    }
    Ok(all)
}

fn pairs_of(alloc: Global, pairs: &[(&str, &str)]) -> Result<Pairs, AllocError> {
    let mut all = Pairs::new(alloc);
    for (name, value) in pairs {
        all.push((Text::read(alloc, name)?, Text::read(alloc, value)?))?;
    }
    Ok(all)
}

/// The output set of a task in the folder with these outputs, beside no other task.
pub fn outs_of(alloc: Global, folder: &str, outputs: &[&str]) -> Result<OutSet, DevErr> {
    let folder = path_of(alloc, folder)?;
    match GlobList::read(alloc, &texts_of(alloc, outputs)?) {
        Ok(mine) => Ok(OutSet {
            folder,
            mine,
            others: GlobLists::new(alloc),
        }),
        Err(_) => Err(DevErr::Failed),
    }
}

fn no_outputs(alloc: Global, folder: &RelPath) -> Result<OutSet, AllocError>
    ensures { IfOk result (λ outs. outs.mine ≡ []) }
{
    let folder = folder.copy()?;
    match GlobList::read(alloc, &Texts::new(alloc)) {
        Ok(mine) => Ok(OutSet {
            folder,
            mine,
            others: GlobLists::new(alloc),
        }),
        Err(_) => Err(AllocError),
    }
}

/// A command of the package `p` and the task `t` that owns nothing and may read nothing, with a search path.
pub fn command_of(
    alloc: Global,
    place: u32,
    dir: &str,
    scripts: &[&str],
    args: &[&str],
) -> Result<Command, AllocError>
    ensures place { IfOk result (λ command. command.place ≡ place) }
    ensures plain { IfOk result IsPlain }
{
    let dir = path_of(alloc, dir)?;
    let outs = no_outputs(alloc, &dir)?;
    Ok(Command {
        place,
        package: Text::read(alloc, "p")?,
        task: Text::read(alloc, "t")?,
        dir,
        scripts: texts_of(alloc, scripts)?,
        args: texts_of(alloc, args)?,
        env: pairs_of(alloc, &[("A", "1"), ("A", "2")])?,
        given: pairs_of(alloc, &[("B", "3"), ("PATH", "/usr/bin:/bin")])?,
        externals: Pairs::new(alloc),
        reads: Paths::new(alloc),
        above: OutSets::new(alloc),
        outs,
    })
}

/// Runs scripts with words in a folder, alone: their status and what they write.
pub fn run_scripts<W: Spawner>(
    alloc: Global,
    world: &mut W,
    dir: &str,
    scripts: &[&str],
    args: &[&str],
) -> Result<(u8, Bytes), DevErr>
    requires { IsIdle (W.runs world.old) }
    ensures { IsIdle (W.runs world.new) }
{
    let command = command_of(alloc, 0, dir, scripts, args)?;
    let ended = run_plain(alloc, world, command)?;
    Ok((ended.status, ended.log))
}

/// Whether the scripts end with this status, and write this.
pub fn is_run<W: Spawner>(
    alloc: Global,
    world: &mut W,
    scripts: &[&str],
    status: u8,
    log: &str,
) -> Result<bool, DevErr>
    requires { IsIdle (W.runs world.old) }
    ensures { IsIdle (W.runs world.new) }
{
    let (ended, written) = run_scripts(alloc, world, "", scripts, &["it's", "$A *"])?;
    Ok(ended == status && written.as_slice() == log.as_bytes())
}

/// The end of the next command, of which one has to run.
pub fn next_end<W: Spawner>(
    rt: &impl Abort,
    alloc: Global,
    world: &mut W,
) -> Result<Ended, DevErr> {
    assert!(rt; !world.is_idle());
    world.wait(alloc)
}
