// Commands and their ends.
ghost use Rattle.std.specs.Prelude.{◌≡◌, IfOk};
ghost use Rattle.tree_dev.specs.Cause.{OnlyMemory};

use globs::{OutSet, OutSets};
use rel_path::{Bytes, Pairs, Paths, RelPath, Text, Texts};
use tree_dev::DevErr;

/// A task's command, at its place in the plan. It may read the files of `reads` and those that a set of `above` takes,
/// and what counts as written by it are the files that `outs` takes.
#[derive(Debug, Drop)]
pub struct Command {
    pub place: u32,
    pub package: Text,
    pub task: Text,
    /// The folder of the package, in which the scripts run.
    pub dir: RelPath,
    /// The task's script; or three, the one before, its own and the one behind, of which an empty text
    /// stands for one that does not exist.
    pub scripts: Texts,
    /// Words for the task's own script.
    pub args: Texts,
    /// Pairs of the environment that count as input.
    pub env: Pairs,
    /// Pairs of the environment that are passed on and do not count.
    pub given: Pairs,
    /// External packages with their lockfile entries. Their order does not count.
    pub externals: Pairs,
    /// The input files.
    pub reads: Paths,
    /// The output sets of the tasks with scripts that the task stands on.
    pub above: OutSets,
    /// The task's own output set.
    pub outs: OutSet,
}

/// The end of a command. A status of 0 means success. A command that a signal ended has status 255.
#[derive(Clone, Debug, Drop)]
pub struct Ended {
    pub place: u32,
    pub status: u8,
    pub log: Bytes,
}

/// A start or an end.
#[derive(Debug, Drop)]
pub enum Step {
    Start(Command),
    End(Ended),
}

fn copy_of(outs: &OutSet) -> Result<OutSet, DevErr>
    ensures value { IfOk result (λ copy. copy ≡ outs.now) }
    ensures memory { OnlyMemory result }
{
    match outs.copy() {
        Ok(copy) => Ok(copy),
        Err(_) => Err(DevErr::OutOfMemory),
    }
}

fn copies_of(sets: &OutSets) -> Result<OutSets, DevErr>
    ensures value { IfOk result (λ copy. copy ≡ sets.now) }
    ensures memory { OnlyMemory result }
{
    match sets.copy() {
        Ok(copy) => Ok(copy),
        Err(_) => Err(DevErr::OutOfMemory),
    }
}

impl Command {
    pub fn copy(&self) -> Result<Command, DevErr>
        ensures value { IfOk result (λ copy. copy ≡ self.now) }
        ensures memory { OnlyMemory result }
    {
        Ok(Command {
            place: self.place,
            package: self.package.copy()?,
            task: self.task.copy()?,
            dir: self.dir.copy()?,
            scripts: self.scripts.copy()?,
            args: self.args.copy()?,
            env: self.env.copy()?,
            given: self.given.copy()?,
            externals: self.externals.copy()?,
            reads: self.reads.copy()?,
            above: copies_of(&self.above)?,
            outs: copy_of(&self.outs)?,
        })
    }
}

impl Ended {
    pub fn copy(&self) -> Result<Ended, DevErr>
        ensures value { IfOk result (λ copy. copy ≡ self.now) }
        ensures memory { OnlyMemory result }
    {
        Ok(Ended {
            place: self.place,
            status: self.status,
            log: self.log.copy()?,
        })
    }
}
