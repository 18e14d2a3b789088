//! How many moves a second the scheduler makes, over a chain, a tree or a flat list of tasks.
//!
//! Words: the shape, the count of tasks, how many commands may run at once, and the status of all ends; without words it says
//! these.
#![tactic(auto)]

ghost use Rattle.std.specs.Prelude.{◌≡◌, ◌<◌, ℕ, true};
ghost use Rattle.run_core.specs.Core.{rules, has_command, Keeps};

use anyhow::{Result, bail};
use rel_path::Places;
use run_core::{Core, Mode, Next, State, is_topological};
use std::alloc::Global;
use std::env;
use std::time::Instant;

/// What the tasks of a graph depend on.
#[derive(Clone, Copy)]
enum Shape {
    /// Each task on the one before it.
    Chain,
    /// Each task on the one at half its number.
    Tree,
    /// No task on any.
    Flat,
}

fn read_shape(word: &str) -> Option<Shape> {
    match word {
        "chain" => Some(Shape::Chain),
        "tree" => Some(Shape::Tree),
        "flat" => Some(Shape::Flat),
        _ => None,
    }
}

fn graph(alloc: Global, shape: Shape, count: u32) -> Result<Vec<Places>> {
    let mut deps = Vec::with_capacity(alloc, count as usize)?;
    for t in 0..count {
        let mut list = Places::new(alloc);
        let pushed = match shape {
            Shape::Chain if t > 0 => list.push(t - 1),
            Shape::Tree if t > 0 => list.push(t / 2),
            _ => Ok(()),
        };
        let Ok(()) = pushed else {
            bail!("no memory");
        };
        deps.push(list)?;
    }
    Ok(deps)
}

/// The commands that run, in the order of their starts.
#[derive(Drop)]
struct Running {
    places: Vec<u32>,
    next: usize,
}

/// One move: a task is looked up and missed, is started, or the command that was started first ends with a status. Tells
/// whether the run goes on.
fn go_on(core: &mut Core, running: &mut Running, count: u32, status: u8) -> Result<bool>
    requires size { (rules core.old).size ≡ count }
    requires commands { (t : ℕ) → t < count → has_command core.old t ≡ true }
    ensures { Keeps core.old core.new }
{
    match core.next() {
        Next::Lookup(t) => core.missed(t),
        Next::Start(t) => {
            core.started(t);
            running.places.push(t)?;
        }
        Next::WaitFirst => {
            let Some(t) = running.places.get(running.next).copied() else {
                bail!("nothing runs");
            };
            running.next = running.next.saturating_add(1);
            if t >= count {
                bail!("no task");
            }
            let State::Running = core.state(t) else {
                bail!("not running");
            };
            core.ended(t, status);
        }
        Next::Finished => return Ok(false),
    }
    Ok(true)
}

/// A whole run, with the count of its moves.
fn run(alloc: Global, core: &mut Core, count: u32, status: u8) -> Result<u64>
    requires size { (rules core.old).size ≡ count }
    requires commands { (t : ℕ) → t < count → has_command core.old t ≡ true }
{
    let mut running = Running {
        places: Vec::with_capacity(alloc, count as usize)?,
        next: 0,
    };
    for moves in 0..u64::MAX {
        if !go_on(core, &mut running, count, status)? {
            return Ok(moves);
        }
    }
    Ok(u64::MAX)
}

/// Makes a scheduler and runs it, with the times of both.
fn bench(rt: &HostRuntime, shape: Shape, count: u32, width: u32, status: u8) -> Result<()> {
    let alloc = rt.alloc();
    let deps = graph(alloc, shape, count)?;
    if !is_topological(&deps) || deps.len() != count as usize || width == 0 {
        bail!("no graph");
    }
    let runs = vec![in alloc; true; count as usize]?;
    let began = Instant::now(rt)?;
    let mut core = Core::new(alloc, &deps, &runs, width, Mode::DependenciesSuccessful)?;
    let making = began.elapsed(rt)?.as_micros();
    let began = Instant::now(rt)?;
    let moves = run(alloc, &mut core, count, status)?;
    let running = began.elapsed(rt)?.as_micros();
    println!(rt; "{count} tasks: made in {making} us, {moves} moves in {running} us")?;
    Ok(())
}

fn main(rt: HostRuntime) -> Result<()> {
    let words: Vec<String> = env::args(&rt)?.skip(1).collect(rt.alloc())?;
    match words.as_slice() {
        [word, count, width, status] => {
            let Some(shape) = read_shape(word.as_str()) else {
                bail!("no shape");
            };
            let (count, width) = (
                count.as_str().parse::<u32>()?,
                width.as_str().parse::<u32>()?,
            );
            bench(&rt, shape, count, width, status.as_str().parse::<u8>()?)
        }
        _ => {
            println!(rt; "core_bench: chain, tree or flat, COUNT WIDTH STATUS")?;
            Ok(())
        }
    }
}
