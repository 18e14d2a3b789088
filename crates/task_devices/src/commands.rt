// The command of a task.
ghost use Rattle.std.specs.Prelude.{◌≡◌, ℕ, false, IfOk, OnOk, OnErr};
ghost use Rattle.spawn_dev.specs.Spawn.{live, IsBusy, IsOver, EndsAs, KeepsWill, KeepsClear, OwnsNothing, ReadsFree, Starts, BeginsAs, Refuses};
ghost use Rattle.task_devices.specs.Stops.{faults_of, StopsBy};

use crate::RunErr;
use spawn_dev::{Command, Ended, Spawner};
use std::alloc::Global;
use tree_dev::DevErr;

fn start_stop(error: DevErr) -> RunErr
    ensures failed { error ≡ DevErr.Failed → result ≡ RunErr.StartFault }
    ensures memory { error ≡ DevErr.OutOfMemory → result ≡ RunErr.OutOfMemory }
{
    match error {
        DevErr::Failed => RunErr::StartFault,
        DevErr::OutOfMemory => RunErr::OutOfMemory,
    }
}

/// Starts a command.
pub fn start<W: Spawner>(alloc: Global, command: Command, world: &mut W) -> Result<(), RunErr>
    requires fresh { live (W.runs world.old) command.place ≡ false }
    requires absent { W.tells → OwnsNothing command (W.state world.old).files }
    requires clear { KeepsClear command (W.runs world.old) }
    requires reads { ReadsFree command (W.state world.old).held }
    ensures files { (W.state world.new).files ≡ (W.state world.old).files }
    ensures book { (W.runs world.new).book ≡ (W.runs world.old).book }
    ensures started { OnOk result (Starts command (W.runs world.old) (W.runs world.new)) }
    ensures begins { W.tells → OnOk result (BeginsAs W.effect
        (W.state world.old).files command (W.runs world.old) (W.runs world.new)) }
    ensures refused { OnErr result (Refuses (W.runs world.old) (W.runs world.new)) }
    ensures others { KeepsWill (W.runs world.old) (W.runs world.new) }
    ensures cause { StopsBy (faults_of (W.state world.old).faults 0 (W.runs world.old).faults 0)
        (faults_of (W.state world.new).faults 0 (W.runs world.new).faults 0) result }
{
    match world.start(alloc, command) {
        Ok(()) => Ok(()),
        Err(e) => Err(start_stop(e)),
    }
}

/// Waits for the end of a command.
pub fn wait<W: Spawner>(alloc: Global, world: &mut W) -> Result<Ended, RunErr>
    requires { IsBusy (W.runs world.old) }
    ensures book { (W.runs world.new).book ≡ (W.runs world.old).book }
    ensures over { IfOk result (λ ended. IsOver ended.place
        (W.runs world.old) (W.runs world.new) (W.state world.old).files (W.state world.new).files) }
    ensures ends { W.tells → IfOk result (λ ended. EndsAs ended
        (W.runs world.old) (W.runs world.new) (W.state world.old).files (W.state world.new).files) }
    ensures failed { OnErr result ((place : ℕ) × IsOver place
        (W.runs world.old) (W.runs world.new) (W.state world.old).files (W.state world.new).files) }
    ensures unsaid { OnErr result ((W.runs world.new).steps ≡ (W.runs world.old).steps) }
    ensures others { KeepsWill (W.runs world.old) (W.runs world.new) }
    ensures cause { StopsBy (faults_of (W.state world.old).faults 0 (W.runs world.old).faults 0)
        (faults_of (W.state world.new).faults 0 (W.runs world.new).faults 0) result }
{
    match world.wait(alloc) {
        Ok(ended) => Ok(ended),
        Err(e) => Err(start_stop(e)),
    }
}
