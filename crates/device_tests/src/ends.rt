// Ends of real commands, in the order in which they come.
ghost use Rattle.std.specs.Prelude.{ℕ, ◌+◌, OnOk};
ghost use Rattle.spawn_dev.specs.Spawn.{IsIdle};
ghost use Rattle.device_tests.specs.Below.{AreBelow};

use crate::generic::start_plain;
use crate::make::{command_of, is_run, next_end, run_scripts};
use crate::system::{enter, leave};
use os_edge::OsWorld;
use rel_path::limits::MAX_LOG_BYTES;
use spawn_dev::{Ended, Spawner};
use std::alloc::Global;
use std::process::Abort;
use std::test::Fail;
use std::time::{Duration, Instant};
use tree_dev::DevErr;

// Ends with 0 once the file `go` is there, and with 1 where that takes longer than ten seconds.
const AWAIT: &str =
    "i=0; while [ $i -lt 1000 ] && ! [ -e go ]; do sleep 0.01; i=$((i+1)); done; [ -e go ]";

// Starts a script at the first place behind all others.
fn start_script<W: Spawner>(
    alloc: Global,
    world: &mut W,
    place: u32,
    script: &str,
) -> Result<(), DevErr>
    requires { AreBelow place (W.runs world.old) }
    ensures { OnOk result (AreBelow (place + 1) (W.runs world.new)) }
{
    let command = command_of(alloc, place, "", &[script], &[])?;
    start_plain(alloc, world, command)?;
    Ok(())
}

// Waits for an end, for which one has to run.
fn end_next<W: Spawner>(rt: &impl Abort, alloc: Global, world: &mut W) -> Result<Ended, DevErr>
    ensures { OnOk result ((n : ℕ) → AreBelow n (W.runs world.old) → AreBelow n (W.runs world.new)) }
{
    assert!(rt; !world.is_idle());
    let ended = world.wait(alloc)?;
    Ok(ended)
}

fn run_beside_older<W: Spawner>(rt: &impl Abort, alloc: Global, world: &mut W) -> Result<(), DevErr>
    requires { IsIdle (W.runs world.old) }
{
    start_script(alloc, world, 0, AWAIT)?;
    start_script(alloc, world, 1, "exit 7")?;
    let ended = end_next(rt, alloc, world)?;
    assert_eq!(rt; (ended.place, ended.status), (1, 7));
    start_script(alloc, world, 2, "exit 8")?;
    let ended = end_next(rt, alloc, world)?;
    assert_eq!(rt; (ended.place, ended.status), (2, 8));
    start_script(alloc, world, 3, ": >go")?;
    let (one, other) = (end_next(rt, alloc, world)?, end_next(rt, alloc, world)?);
    assert!(rt; one.status == 0 && other.status == 0 && world.is_idle());
    Ok(())
}

// Two run at a time. The older one waits for what the last of the younger ones makes.
#[test]
fn older_runs_on(rt: HostRuntime) -> Result<(), Fail> {
    let alloc = rt.alloc();
    let folder = enter(&rt, "older")?;
    run_beside_older(&rt, alloc, &mut OsWorld::new(&rt, alloc))?;
    leave(&rt, folder)
}

// The ends of two commands by their places, 0 and 1.
fn end_both<W: Spawner>(
    rt: &impl Abort,
    alloc: Global,
    world: &mut W,
) -> Result<(Ended, Ended), DevErr> {
    let (one, other) = (next_end(rt, alloc, world)?, next_end(rt, alloc, world)?);
    if one.place == 0 {
        Ok((one, other))
    } else {
        Ok((other, one))
    }
}

fn run_chatty<W: Spawner>(rt: &impl Abort, alloc: Global, world: &mut W) -> Result<(), DevErr>
    requires { IsIdle (W.runs world.old) }
{
    start_script(alloc, world, 0, AWAIT)?;
    let chatty = "head -c 1000000 /dev/zero; : >go; exit 5";
    start_script(alloc, world, 1, chatty)?;
    let (silent, chatty) = end_both(rt, alloc, world)?;
    assert!(rt; silent.status == 0 && silent.log.as_slice().is_empty());
    assert!(rt; chatty.status == 5 && chatty.log.as_slice().len() == 1_000_000);
    Ok(())
}

// The younger one writes more than a pipe holds, and then makes what the older one waits for.
#[test]
fn chatty(rt: HostRuntime) -> Result<(), Fail> {
    let alloc = rt.alloc();
    let folder = enter(&rt, "chatty")?;
    run_chatty(&rt, alloc, &mut OsWorld::new(&rt, alloc))?;
    leave(&rt, folder)
}

// A process that is left behind holds the pipe for half a minute.
#[test]
fn left_behind(rt: HostRuntime) -> Result<(), Fail> {
    let alloc = rt.alloc();
    let began = Instant::now(&rt)?;
    let mut world = OsWorld::new(&rt, alloc);
    assert!(rt; is_run(alloc, &mut world, &["sleep 30 & echo hi #"], 0, "hi\n")?);
    assert!(rt; began.elapsed(&rt)? < Duration::from_secs(15));
    Ok(())
}

// A command that closes its output runs on, and its status is waited for.
#[test]
fn closed_output(rt: HostRuntime) -> Result<(), Fail> {
    let alloc = rt.alloc();
    let mut world = OsWorld::new(&rt, alloc);
    assert!(rt;
        is_run(
            alloc,
            &mut world,
            &["echo a; exec >&- 2>&-; sleep 0.3; exit 6 #"],
            6,
            "a\n"
        )?
    );
    Ok(())
}

// A log of just the limit is whole, and one of a byte more is a fault.
#[test]
fn logs_at_the_limit(rt: HostRuntime) -> Result<(), Fail> {
    let alloc = rt.alloc();
    let mut world = OsWorld::new(&rt, alloc);
    let (status, log) = run_scripts(alloc, &mut world, "", &["head -c 67108864 /dev/zero"], &[])?;
    assert!(rt; status == 0 && log.as_slice().len() == MAX_LOG_BYTES);
    let longer = run_scripts(alloc, &mut world, "", &["head -c 67108865 /dev/zero"], &[]);
    assert!(rt; matches!(longer, Err(DevErr::Failed)) && world.is_idle());
    Ok(())
}
