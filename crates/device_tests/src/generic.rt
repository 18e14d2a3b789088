// Callers that know a device by its trait alone.
ghost use Rattle.std.specs.Prelude.{◌≡◌, ◌==◌, [], true, false, IfOk, OnOk};
ghost use Rattle.rel_path.specs.Paths.{Path};
ghost use Rattle.rel_path.specs.Files.{file_at, over};
ghost use Rattle.globs.specs.Outputs.{takes};
ghost use Rattle.globs.specs.OwnedFiles.{SameOutside};
ghost use Rattle.tree_dev.specs.Cause.{HasCause};
ghost use Rattle.tree_dev.specs.Tree.{Looks};
ghost use Rattle.spawn_dev.specs.Effects.{may_read, seen_by};
ghost use Rattle.spawn_dev.specs.Spawn.{live, IsIdle, OwnsNothing, Starts};
ghost use Rattle.device_tests.specs.Plain.{IsPlain};

use rel_path::RelPath;
use spawn_dev::{Command, Ended, Spawner};
use std::alloc::Global;
use tree_dev::{DevErr, Found, Tree};

/// Reads a file, or another one where that is absent.
pub fn read_either<T: Tree>(
    alloc: Global,
    tree: &mut T,
    first: &RelPath,
    second: &RelPath,
) -> Result<Found, DevErr>
    requires first { (T.state tree.old).held first.now ≡ false }
    requires second { (T.state tree.old).held second.now ≡ false }
    ensures looks { Looks (T.state tree.old) (T.state tree.new) }
    ensures cause { HasCause (T.state tree.old).faults (T.state tree.new).faults result }
{
    match tree.read(alloc, first, 100)? {
        Found::Absent => {
            let found = tree.read(alloc, second, 100)?;
            Ok(found)
        }
        found => Ok(found),
    }
}

/// A call over a tree leaves what runs in it as it is.
pub fn look_while_running<W: Spawner>(
    alloc: Global,
    world: &mut W,
    first: &RelPath,
    second: &RelPath,
) -> Result<Found, DevErr>
    requires first { (W.state world.old).held first.now ≡ false }
    requires second { (W.state world.old).held second.now ≡ false }
    ensures runs { W.runs world.new ≡ W.runs world.old }
{
    let found = read_either(alloc, world, first, second)?;
    Ok(found)
}

/// A command that runs alone is the one that ends, as its effect says, and nothing runs then. No path that it does not own
/// has changed.
pub fn run_alone<W: Spawner>(
    alloc: Global,
    world: &mut W,
    command: Command,
) -> Result<Ended, DevErr>
    requires idle { IsIdle (W.runs world.old) }
    requires absent { W.tells → OwnsNothing command (W.state world.old).files }
    ensures idle { IsIdle (W.runs world.new) }
    ensures place { IfOk result (λ ended. ended.place ≡ command.place) }
    ensures effect { W.tells → IfOk result (λ ended. ended.status ≡ (W.effect (W.runs world.old).book (seen_by command (W.state world.old).files)).status) }
    ensures files { W.tells → OnOk result ((W.state world.new).files
        ≡ over (W.state world.old).files (file_at (W.effect (W.runs world.old).book (seen_by command (W.state world.old).files)).files)) }
    ensures outside { SameOutside command.outs (W.state world.old).files (W.state world.new).files }
    ensures cause { HasCause (W.runs world.old).faults (W.runs world.new).faults result }
{
    world.start(alloc, command)?;
    let ended = world.wait(alloc)?;
    Ok(ended)
}

/// Starts a command that owns and reads nothing, beside whatever runs.
pub fn start_plain<W: Spawner>(alloc: Global, world: &mut W, command: Command) -> Result<(), DevErr>
    requires plain { IsPlain command }
    requires fresh { live (W.runs world.old) command.place ≡ false }
    ensures started { OnOk result (Starts command (W.runs world.old) (W.runs world.new)) }
{
    world.start(alloc, command)?;
    Ok(())
}

/// Runs a command alone that owns nothing.
pub fn run_plain<W: Spawner>(
    alloc: Global,
    world: &mut W,
    command: Command,
) -> Result<Ended, DevErr>
    requires idle { IsIdle (W.runs world.old) }
    requires outs { command.outs.mine ≡ [] }
    ensures idle { IsIdle (W.runs world.new) }
    ensures files { (W.state world.new).files ≡ (W.state world.old).files }
{
    let ended = run_alone(alloc, world, command)?;
    Ok(ended)
}

/// Starts two commands at once that read nothing, of which none owns what the other does.
pub fn start_both<W: Spawner>(
    alloc: Global,
    world: &mut W,
    first: Command,
    second: Command,
) -> Result<(), DevErr>
    requires idle { IsIdle (W.runs world.old) }
    requires places { (second.place == first.place) ≡ false }
    requires absent { W.tells → OwnsNothing first (W.state world.old).files × OwnsNothing second (W.state world.old).files }
    requires apart { (path : Path) → takes second.outs path ≡ true → takes first.outs path ≡ false }
    requires reads { ((path : Path) → may_read first path ≡ false) × ((path : Path) → may_read second path ≡ false) }
{
    world.start(alloc, first)?;
    world.start(alloc, second)?;
    Ok(())
}
