// Worlds in memory whose commands write files.
ghost use Rattle.std.specs.Prelude.{◌≡◌, ◌==◌, [], false, not, IfOk};
ghost use Rattle.std.specs.List.{list_all};
ghost use Rattle.globs.specs.Outputs.{takes};
ghost use Rattle.spawn_dev.specs.Spawn.{IsIdle};
ghost use Rattle.device_tests.specs.Apart.{go_apart};

use crate::generic::{run_alone, start_both};
use crate::make::{command_of, files_of, names_in, next_end, outs_of, path_of};
use globs::{OutSet, OutSets};
use rel_path::{Bytes, RelPath, Text};
use spawn_dev::{Book, Command, Ended, MemWorld, Piece, Pieces, Rule, Spawner, Writes};
use std::alloc::Global;
use std::process::Abort;
use std::test::Fail;
use tree_dev::{DevErr, bytes_at};

fn lit(alloc: Global, text: &str) -> Result<Pieces, DevErr> {
    let mut pieces = Pieces::new(alloc);
    pieces.push(Piece::Lit(Bytes::read(alloc, text.as_bytes())?))?;
    Ok(pieces)
}

fn file(alloc: Global, path: &str) -> Result<Pieces, DevErr> {
    let mut pieces = Pieces::new(alloc);
    pieces.push(Piece::File(path_of(alloc, path)?))?;
    Ok(pieces)
}

// The command of the package prints this and writes these files.
fn rule_of(
    alloc: Global,
    package: &str,
    log: Pieces,
    files: &[(&str, &str)],
) -> Result<Rule, DevErr> {
    let mut writes = Writes::new(alloc);
    for (path, text) in files {
        writes.push((path_of(alloc, path)?, lit(alloc, text)?))?;
    }
    Ok(Rule {
        package: Text::read(alloc, package)?,
        task: Text::read(alloc, "t")?,
        status: 0,
        log,
        files: writes,
    })
}

// The command of `a` writes a file twice, one that it does not own, and another one; that of `b` prints what it sees
// of the first, and writes one.
fn book(alloc: Global) -> Result<Book, DevErr> {
    let mut book = Book::new(alloc);
    let writes = [
        ("a/out/x", "one"),
        ("a/src/x", "no"),
        ("a/out/b/c", "two"),
        ("a/out/x", "three"),
    ];
    book.push(rule_of(alloc, "a", lit(alloc, "done")?, &writes)?)?;
    let writes = [("b/out/y", "four")];
    book.push(rule_of(alloc, "b", file(alloc, "a/out/x")?, &writes)?)?;
    Ok(book)
}

fn world_of(alloc: Global, ends: &[u32], fails: &[u64]) -> Result<MemWorld, DevErr>
    ensures { IfOk result (λ world. IsIdle (⟦<MemWorld as Spawner>⟧.runs world)) }
{
    let files = files_of(alloc, &[("a/src/y", "kept")])?;
    let ends = Vec::from_slice(alloc, ends)?;
    let fails = Vec::from_slice(alloc, fails)?;
    Ok(MemWorld::new(alloc, files, book(alloc)?, ends, fails))
}

// The command of a package, which owns what lies in its folder `out`.
fn owner(alloc: Global, place: u32, package: &str) -> Result<Command, DevErr>
    ensures place { IfOk result (λ command. command.place ≡ place) }
    ensures above { IfOk result (λ command. command.above ≡ []) }
    ensures reads { IfOk result (λ command. command.reads ≡ []) }
{
    let mut command = command_of(alloc, place, package, &["x"], &[])?;
    command.package = Text::read(alloc, package)?;
    command.outs = outs_of(alloc, package, &["out/**"])?;
    Ok(command)
}

// Whether the set takes none of the files.
fn is_clear(outs: &OutSet, files: &[(RelPath, Bytes)]) -> bool
    ensures { result ≡ list_all (λ file. not (takes outs.now file.0)) files.now }
{
    files.iter().all(|file| !outs.takes(&file.0))
}

// Whether the folders of the sets go apart at their first name.
fn go_apart(one: &OutSet, other: &OutSet) -> bool
    ensures { result ≡ go_apart one.now.folder other.now.folder }
{
    match (one.folder.components(), other.folder.components()) {
        ([name, ..], [next, ..]) => name != next,
        _ => false,
    }
}

fn run_checked(
    rt: &impl Abort,
    alloc: Global,
    world: &mut MemWorld,
    command: Command,
) -> Result<Ended, DevErr>
    requires { IsIdle (⟦<MemWorld as Spawner>⟧.runs world.old) }
    ensures { IsIdle (⟦<MemWorld as Spawner>⟧.runs world.new) }
{
    let clear = is_clear(&command.outs, world.files().as_slice());
    assert!(rt; clear);
    let ended = run_alone(alloc, world, command)?;
    Ok(ended)
}

fn start_checked(
    rt: &impl Abort,
    alloc: Global,
    world: &mut MemWorld,
    first: Command,
    second: Command,
) -> Result<(), DevErr>
    requires idle { IsIdle (⟦<MemWorld as Spawner>⟧.runs world.old) }
    requires places { (second.place == first.place) ≡ false }
    requires above { (first.above ≡ []) × (second.above ≡ []) }
    requires reads { (first.reads ≡ []) × (second.reads ≡ []) }
{
    let clear = is_clear(&first.outs, world.files().as_slice());
    assert!(rt; clear);
    let clear = is_clear(&second.outs, world.files().as_slice());
    assert!(rt; clear);
    let apart = go_apart(&first.outs, &second.outs);
    assert!(rt; apart);
    start_both(alloc, world, first, second)
}

// Whether these bytes stand at the path.
fn is_at(alloc: Global, world: &MemWorld, path: &str, text: &str) -> Result<bool, DevErr> {
    let path = path_of(alloc, path)?;
    match bytes_at(world.files().as_slice(), &path) {
        Some(bytes) => Ok(bytes.as_slice() == text.as_bytes()),
        None => Ok(false),
    }
}

// The later write counts, a file that is not owned is left out, and other files stay.
#[test]
fn own_files(rt: HostRuntime) -> Result<(), Fail> {
    let alloc = rt.alloc();
    let mut world = world_of(alloc, &[], &[])?;
    let ended = run_checked(&rt, alloc, &mut world, owner(alloc, 1, "a")?)?;
    assert!(rt; ended.log.as_slice() == b"done".as_slice());
    assert!(rt; names_in(alloc, &mut world, "a/out")?.as_str() == "b/ x ");
    assert!(rt; names_in(alloc, &mut world, "a/src")?.as_str() == "y ");
    assert!(rt; is_at(alloc, &world, "a/out/x", "three")?);
    assert!(rt; is_at(alloc, &world, "a/out/b/c", "two")?);
    assert!(rt; is_at(alloc, &world, "a/src/y", "kept")?);
    Ok(())
}

fn end_both(rt: &impl Abort, alloc: Global, world: &mut MemWorld) -> Result<(), DevErr> {
    for folder in ["a/out", "b/out"] {
        assert!(rt; names_in(alloc, world, folder)?.as_str() == "");
    }
    assert!(rt; next_end(rt, alloc, world)?.place == 2);
    assert!(rt; names_in(alloc, world, "a/out")?.as_str() == "");
    assert!(rt; names_in(alloc, world, "b/out")?.as_str() == "y ");
    assert!(rt; next_end(rt, alloc, world)?.place == 1);
    assert!(rt; names_in(alloc, world, "a/out")?.as_str() == "b/ x ");
    assert!(rt; names_in(alloc, world, "b/out")?.as_str() == "y ");
    Ok(())
}

// What a command owns is no file while it runs.
#[test]
fn both_at_once(rt: HostRuntime) -> Result<(), Fail> {
    let alloc = rt.alloc();
    let mut world = world_of(alloc, &[1], &[])?;
    let (first, second) = (owner(alloc, 1, "a")?, owner(alloc, 2, "b")?);
    start_checked(&rt, alloc, &mut world, first, second)?;
    end_both(&rt, alloc, &mut world)?;
    Ok(())
}

// A command sees the files of the tasks that it stands on, and no others.
#[test]
fn files_above(rt: HostRuntime) -> Result<(), Fail> {
    let alloc = rt.alloc();
    for (stands, log) in [(true, b"three".as_slice()), (false, b"".as_slice())] {
        let mut world = world_of(alloc, &[], &[])?;
        let first = owner(alloc, 1, "a")?;
        let mut second = owner(alloc, 2, "b")?;
        if stands {
            let mut above = OutSets::new(alloc);
            above.push(outs_of(alloc, "a", &["out/**"])?)?;
            second.above = above;
        }
        run_checked(&rt, alloc, &mut world, first)?;
        let ended = run_checked(&rt, alloc, &mut world, second)?;
        assert!(rt; ended.log.as_slice() == log);
    }
    Ok(())
}

// A wait that fails writes nothing, and other files stay.
#[test]
fn failing_wait(rt: HostRuntime) -> Result<(), Fail> {
    let alloc = rt.alloc();
    let mut world = world_of(alloc, &[], &[1])?;
    let failed = run_checked(&rt, alloc, &mut world, owner(alloc, 1, "a")?);
    assert!(rt; matches!(failed, Err(DevErr::Failed)));
    assert!(rt; world.is_idle());
    assert!(rt; names_in(alloc, &mut world, "a")?.as_str() == "src/ ");
    assert!(rt; is_at(alloc, &world, "a/src/y", "kept")?);
    Ok(())
}
