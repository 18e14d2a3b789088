// A world in memory.
ghost use Rattle.std.specs.Prelude.{◌≡◌, [], IfOk};
ghost use Rattle.spawn_dev.specs.Spawn.{IsIdle};

use crate::generic::{run_plain, start_plain};
use crate::make::{command_of, files_of, names_in, next_end, path_of};
use rel_path::{Bytes, Paths, Text};
use spawn_dev::{Book, Command, MemWorld, Piece, Pieces, Rule, Spawner, Writes};
use std::alloc::Global;
use std::process::Abort;
use std::test::Fail;
use tree_dev::DevErr;

fn rule_of(
    alloc: Global,
    package: &str,
    task: &str,
    status: u8,
    log: Pieces,
) -> Result<Rule, DevErr> {
    Ok(Rule {
        package: Text::read(alloc, package)?,
        task: Text::read(alloc, task)?,
        status,
        log,
        files: Writes::new(alloc),
    })
}

fn every_piece(alloc: Global) -> Result<Pieces, DevErr> {
    let mut log = Pieces::new(alloc);
    log.push(Piece::Lit(Bytes::read(alloc, b"<")?))?;
    for path in ["seen", "unseen", "absent"] {
        log.push(Piece::File(path_of(alloc, path)?))?;
    }
    for name in ["A", "B"] {
        log.push(Piece::Env(Text::read(alloc, name)?))?;
    }
    log.push(Piece::Args)?;
    log.push(Piece::Scripts)?;
    log.push(Piece::Lit(Bytes::read(alloc, b">")?))?;
    Ok(log)
}

fn rules(alloc: Global) -> Result<Book, DevErr> {
    let mut book = Book::new(alloc);
    for (package, task, status) in [("q", "t", 5), ("p", "u", 6)] {
        book.push(rule_of(alloc, package, task, status, Pieces::new(alloc))?)?;
    }
    book.push(rule_of(alloc, "p", "t", 7, every_piece(alloc)?)?)?;
    book.push(rule_of(alloc, "p", "t", 8, Pieces::new(alloc))?)?;
    Ok(book)
}

fn reader(alloc: Global) -> Result<Command, DevErr>
    ensures { IfOk result (λ command. command.outs.mine ≡ []) }
{
    let mut command = command_of(alloc, 3, "p", &["s", "", "u"], &["x", "y z"])?;
    let mut reads = Paths::new(alloc);
    for path in ["absent", "seen"] {
        reads.push(path_of(alloc, path)?)?;
    }
    command.reads = reads;
    Ok(command)
}

fn world_of(
    alloc: Global,
    files: &[(&str, &str)],
    book: Book,
    ends: &[u32],
    fails: &[u64],
) -> Result<MemWorld, DevErr>
    ensures { IfOk result (λ world. IsIdle (⟦<MemWorld as Spawner>⟧.runs world)) }
{
    let files = files_of(alloc, files)?;
    let ends = Vec::from_slice(alloc, ends)?;
    let fails = Vec::from_slice(alloc, fails)?;
    Ok(MemWorld::new(alloc, files, book, ends, fails))
}

#[test]
fn pieces(rt: HostRuntime) -> Result<(), Fail> {
    let alloc = rt.alloc();
    let files = [("seen", "(one)"), ("unseen", "(two)")];
    let mut world = world_of(alloc, &files, rules(alloc)?, &[], &[])?;
    let ended = run_plain(alloc, &mut world, reader(alloc)?)?;
    assert_eq!(rt; (ended.place, ended.status), (3, 7));
    assert!(rt; ended.log.as_slice() == b"<(one)1x\ny zs\n\nu>".as_slice());
    Ok(())
}

#[test]
fn no_rule(rt: HostRuntime) -> Result<(), Fail> {
    let alloc = rt.alloc();
    let mut world = world_of(alloc, &[], Book::new(alloc), &[], &[])?;
    let command = command_of(alloc, 0, "", &["exit 9"], &[])?;
    let ended = run_plain(alloc, &mut world, command)?;
    assert!(rt; ended.status == 0 && ended.log.as_slice().is_empty());
    Ok(())
}

fn start_three<W: Spawner>(alloc: Global, world: &mut W) -> Result<(), DevErr>
    requires { IsIdle (W.runs world.old) }
{
    start_plain(alloc, world, command_of(alloc, 4, "", &["x"], &[])?)?;
    start_plain(alloc, world, command_of(alloc, 2, "", &["x"], &[])?)?;
    start_plain(alloc, world, command_of(alloc, 6, "", &["x"], &[])?)?;
    Ok(())
}

// The first wait ends the second of three, the next one the last of two, and one past the list the first.
#[test]
fn ends(rt: HostRuntime) -> Result<(), Fail> {
    let alloc = rt.alloc();
    let mut world = world_of(alloc, &[], Book::new(alloc), &[1, 5], &[])?;
    start_three(alloc, &mut world)?;
    for place in [2, 6, 4] {
        assert!(rt; next_end(&rt, alloc, &mut world)?.place == place);
    }
    assert!(rt; world.is_idle());
    assert!(rt; world.starts().as_slice() == [4, 2, 6].as_slice());
    Ok(())
}

fn fail_in_turn(rt: &impl Abort, alloc: Global, world: &mut MemWorld) -> Result<(), DevErr> {
    assert!(rt; names_in(alloc, world, "")?.as_str() == "a ");
    assert!(rt; world.is_idle());
    let command = command_of(alloc, 0, "", &["x"], &[])?;
    assert!(rt; start_plain(alloc, world, command) == Err(DevErr::Failed));
    assert!(rt; world.starts().as_slice().is_empty());
    assert!(rt; world.is_idle());
    let command = command_of(alloc, 0, "", &["x"], &[])?;
    start_plain(alloc, world, command)?;
    assert!(rt; names_in(alloc, world, "")?.as_str() == "a ");
    assert!(rt; matches!(next_end(rt, alloc, world), Err(DevErr::Failed)));
    assert!(rt; world.is_idle() && world.starts().as_slice() == [0].as_slice());
    Ok(())
}

// The numbers count the calls of the tree too. A wait that fails ends its command all the same.
#[test]
fn failing_calls(rt: HostRuntime) -> Result<(), Fail> {
    let alloc = rt.alloc();
    let mut world = world_of(alloc, &[("a", "one")], Book::new(alloc), &[], &[1, 4])?;
    fail_in_turn(&rt, alloc, &mut world)?;
    Ok(())
}
