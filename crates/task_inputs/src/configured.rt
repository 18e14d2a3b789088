// The configured tasks of an owner.
ghost use Rattle.std.specs.Prelude.{◌≡◌, ◌++◌, ◌∷◌, [], IfOk, OnOk, option_to_list};
ghost use Rattle.std.specs.List.{list_any};
ghost use Rattle.globs.specs.Outputs.{takes, declares};
ghost use Rattle.listing.specs.Memory.{OnlyMemory};
ghost use Rattle.task_inputs.specs.Homes.{configured_in, others_than};
ghost use Rattle.task_inputs.specs.Lone.{lone, lone_by, lone_tasks, rest_of, as_home, IsHome};

use crate::definitions::definition;
use globs::{GlobList, GlobLists, OutSet};
use listing::ListErr;
use rel_path::{RelPath, Text, Texts};
use std::alloc::Global;
use std::marker::Model;
use task_definitions::Config;

/// A configured task, and its output set as if it were the only task of its owner.
#[derive(Debug, Drop)]
pub(crate) struct LoneTask {
    pub task: Text,
    pub outs: OutSet,
}

/// The configured tasks of an owner, in the order of its scripts, which contracts see as its folder and the tasks with
/// their outputs.
#[derive(Debug, Drop)]
pub(crate) struct OwnerTasks {
    folder: RelPath,
    tasks: Vec<LoneTask>,
}

impl Model for OwnerTasks {
    ghost use Rattle.task_inputs.specs.Homes.{Home};

    ghost Value = { Home };

    ghost use Rattle.task_inputs.specs.Lone.{as_home, IsHome};

    ghost view = { λ a. as_home a.folder a.tasks.items };

    ghost invariant = { λ a. IsHome a.folder a.tasks.items };
}

/// The outputs alone, of a task of the owner in the folder.
fn lone_outs(alloc: Global, folder: &RelPath, outputs: &Texts) -> Result<OutSet, ListErr>
    ensures value { IfOk result (λ outs. outs ≡ lone folder.now outputs.now) }
    ensures memory { OnlyMemory result }
{
    let mine = match GlobList::read(alloc, outputs) {
        Ok(mine) => mine,
        Err(_) => return Err(ListErr::OutOfMemory),
    };
    Ok(OutSet {
        folder: folder.copy()?,
        mine,
        others: GlobLists::new(alloc),
    })
}

/// The task, if it has a definition.
fn lone_task(
    alloc: Global,
    config: &Config,
    name: &Text,
    folder: &RelPath,
    script: &(Text, Text),
) -> Result<Option<LoneTask>, ListErr>
    ensures value { IfOk result
        (λ found. found ≡ lone_by config.now name.now folder.now script.now) }
    ensures memory { OnlyMemory result }
{
    match definition(alloc, config, name, &script.0)? {
        None => Ok(None),
        Some(def) => Ok(Some(LoneTask {
            task: script.0.copy()?,
            outs: lone_outs(alloc, folder, &def.outputs)?,
        })),
    }
}

fn add_task(tasks: &mut Vec<LoneTask>, found: Option<LoneTask>) -> Result<(), ListErr>
    ensures added { OnOk result (tasks.new.items ≡ tasks.old.items ++ option_to_list found) }
    ensures memory { OnlyMemory result }
{
    if let Some(task) = found {
        tasks.push(task)?;
    }
    Ok(())
}

fn is_declared_by(tasks: &[LoneTask], path: &RelPath) -> bool
    ensures { result ≡ list_any (λ t. takes t.outs path.now) tasks.now }
{
    tasks.iter().any(|t| t.outs.takes(path))
}

/// The outputs of the tasks but the one of this name.
fn outputs_but(alloc: Global, tasks: &[LoneTask], task: &Text) -> Result<GlobLists, ListErr>
    ensures value { IfOk result (λ lists. lists ≡ rest_of task.now tasks.now) }
    ensures memory { OnlyMemory result }
{
    let mut lists = GlobLists::new(alloc);
    for other in tasks {
        if other.task != *task {
            add_copy(&mut lists, &other.outs.mine)?;
        }
    }
    Ok(lists)
}

fn add_copy(lists: &mut GlobLists, list: &GlobList) -> Result<(), ListErr>
    ensures added { OnOk result (lists.new ≡ lists.old ++ list.now ∷ []) }
    ensures memory { OnlyMemory result }
{
    match list.copy() {
        Err(_) => Err(ListErr::OutOfMemory),
        Ok(copy) => match lists.push(copy) {
            Err(_) => Err(ListErr::OutOfMemory),
            Ok(()) => Ok(()),
        },
    }
}

fn tasks_of(
    alloc: Global,
    config: &Config,
    name: &Text,
    folder: &RelPath,
    scripts: &[(Text, Text)],
) -> Result<Vec<LoneTask>, ListErr>
    ensures value { IfOk result
        (λ tasks. tasks.items ≡ lone_tasks config.now name.now folder.now scripts.now) }
    ensures memory { OnlyMemory result }
{
    let mut tasks = Vec::new(alloc);
    for script in scripts {
        add_task(&mut tasks, lone_task(alloc, config, name, folder, script)?)?;
    }
    Ok(tasks)
}

impl OwnerTasks {
    /// The configured tasks of the owner of this name in this folder with these scripts.
    pub fn new(
        alloc: Global,
        config: &Config,
        name: &Text,
        folder: &RelPath,
        scripts: &[(Text, Text)],
    ) -> Result<OwnerTasks, ListErr>
        ensures value { IfOk result (λ home. home ≡ record {
          folder = folder.now;
          tasks = configured_in config.now name.now scripts.now;
        }) }
        ensures memory { OnlyMemory result }
    {
        let tasks = tasks_of(alloc, config, name, folder, scripts)?;
        let folder = folder.copy()?;
        Ok(OwnerTasks { folder, tasks })
    }

    fn tasks(&self) -> &[LoneTask]
        ensures home { as_home self.now.folder result.now ≡ self.now }
        ensures lone { IsHome self.now.folder result.now }
    {
        self.tasks.as_slice()
    }

    pub fn folder(&self) -> &RelPath
        ensures { result.now ≡ self.now.folder }
    {
        &self.folder
    }

    /// Whether one of the tasks declares the path.
    pub fn declares(&self, path: &RelPath) -> bool
        ensures { result
            ≡ list_any (λ t. declares t.outputs self.now.folder path.now) self.now.tasks }
    {
        is_declared_by(self.tasks(), path)
    }

    /// What the tasks but the one of this name declare.
    pub fn others(&self, alloc: Global, task: &Text) -> Result<GlobLists, ListErr>
        ensures value { IfOk result (λ lists. lists ≡ others_than task.now self.now.tasks) }
        ensures memory { OnlyMemory result }
    {
        outputs_but(alloc, self.tasks(), task)
    }
}
