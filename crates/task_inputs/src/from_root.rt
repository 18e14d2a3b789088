// The files that tasks of some owners get from anywhere.
ghost use Rattle.std.specs.Prelude.{◌≡◌, ◌<◌, ◌++◌, length, filter, option_to_list, IfOk, OnOk};
ghost use Rattle.std.specs.List.{list_any};
ghost use Rattle.listing.specs.Memory.{OnlyMemory};
ghost use Rattle.workspaces.specs.Reach.{AreBelow};
ghost use Rattle.workspaces.specs.Space.{owners};
ghost use Rattle.task_definitions.specs.Setup.{AreNames};
ghost use Rattle.task_inputs.specs.Homes.{LieApart};
ghost use Rattle.task_inputs.specs.Facts.{is_wide_list};
ghost use Rattle.task_inputs.specs.Rooted.{IsRooted, ArePicked, far_by, far_test, AreTasksOf, AreTasks, Reads, are_some};

use crate::declared::Declared;
use crate::definitions::{DefinedTask, definition};
use crate::files::global_list;
use crate::tasks::{TaskGlobs, read_task};
use globs::GlobList;
use listing::ListErr;
use rel_path::{Paths, Places, RelPath, Text, Texts};
use std::alloc::Global;
use task_definitions::Config;
use workspaces::Packages;

/// The names of tasks.
fn task_names(alloc: Global, config: &Config) -> Result<Texts, ListErr>
    ensures value { IfOk result (AreNames config.now) }
    ensures memory { OnlyMemory result }
{
    match config.names(alloc) {
        Ok(names) => Ok(names),
        Err(_) => Err(ListErr::OutOfMemory),
    }
}

/// What the owner's task of this name asks for, if it has a definition.
fn task_of(
    alloc: Global,
    packages: &Packages,
    config: &Config,
    owner: u32,
    name: &Text,
) -> Result<Option<TaskGlobs>, ListErr>
    requires { owner < length (owners packages.now) }
    ensures read { IfOk result (Reads config.now (owners packages.now) owner name.now) }
    ensures memory { OnlyMemory result }
{
    match definition(alloc, config, packages.name(owner), name)? {
        None => Ok(None),
        Some(def) => Ok(Some(read_task(alloc, packages, &DefinedTask { owner, def })?)),
    }
}

fn add_task(tasks: &mut Vec<TaskGlobs>, found: Option<TaskGlobs>) -> Result<(), ListErr>
    ensures added { OnOk result (tasks.new.items ≡ tasks.old.items ++ option_to_list found) }
    ensures memory { OnlyMemory result }
{
    if let Some(task) = found {
        tasks.push(task)?;
    }
    Ok(())
}

/// What the owner's tasks of these names that have a definition ask for.
fn tasks_of(
    alloc: Global,
    packages: &Packages,
    config: &Config,
    owner: u32,
    names: &[Text],
) -> Result<Vec<TaskGlobs>, ListErr>
    requires { owner < length (owners packages.now) }
    ensures tasks { IfOk result
        (λ tasks. AreTasksOf config.now (owners packages.now) owner names.now tasks.items) }
    ensures memory { OnlyMemory result }
{
    let mut tasks = Vec::new(alloc);
    for name in names {
        add_task(&mut tasks, task_of(alloc, packages, config, owner, name)?)?;
    }
    Ok(tasks)
}

fn add_all(tasks: &mut Vec<TaskGlobs>, more: Vec<TaskGlobs>) -> Result<(), ListErr>
    ensures added { OnOk result (tasks.new.items ≡ tasks.old.items ++ more.items) }
    ensures memory { OnlyMemory result }
{
    for task in more {
        tasks.push(task)?;
    }
    Ok(())
}

/// What the tasks with a definition of these owners ask for.
fn all_tasks(
    alloc: Global,
    packages: &Packages,
    config: &Config,
    kept: &[u32],
    names: &[Text],
) -> Result<Vec<TaskGlobs>, ListErr>
    requires { AreBelow (length (owners packages.now)) kept.now }
    ensures tasks { IfOk result
        (λ tasks. AreTasks config.now (owners packages.now) kept.now names.now tasks.items) }
    ensures memory { OnlyMemory result }
{
    let mut tasks = Vec::new(alloc);
    for owner in kept {
        add_all(
            &mut tasks,
            tasks_of(alloc, packages, config, *owner, names)?,
        )?;
    }
    Ok(tasks)
}

/// Whether there is a task.
fn is_some(tasks: &[TaskGlobs]) -> bool
    ensures { result ≡ are_some tasks.now }
{
    match tasks {
        [] => false,
        [_, ..] => true,
    }
}

/// Those of the tasks that have a glob of the root.
fn wide_tasks(alloc: Global, tasks: Vec<TaskGlobs>) -> Result<Vec<TaskGlobs>, ListErr>
    ensures value { IfOk result
        (λ wide. wide.items ≡ filter (λ t. is_wide_list t.inputs) tasks.items) }
    ensures memory { OnlyMemory result }
{
    let mut wide = Vec::new(alloc);
    for task in tasks {
        if task.is_wide() {
            wide.push(task)?;
        }
    }
    Ok(wide)
}

/// Whether some of the tasks asks for the path, which has this home, through a glob of the root.
fn any_far(
    alloc: Global,
    tasks: &[TaskGlobs],
    home: Option<usize>,
    path: &RelPath,
) -> Result<bool, ListErr>
    ensures value { IfOk result
        (λ far. far ≡ list_any (λ t. far_by home t path.now) tasks.now) }
    ensures memory { OnlyMemory result }
{
    for task in tasks {
        if task.asks_from_root(alloc, home, path)? {
            return Ok(true);
        }
    }
    Ok(false)
}

/// Whether a task gets the file through a glob of the root or a global one, where there are tasks or none.
#[tactic(auto, unfolding(crate::specs::Rooted::far_test))]
fn is_far(
    alloc: Global,
    declared: &Declared,
    globals: &GlobList,
    any: bool,
    wide: &[TaskGlobs],
    path: &RelPath,
) -> Result<bool, ListErr>
    ensures value { IfOk result
        (λ far. far ≡ far_test declared.now globals.now any wide.now path.now) }
    ensures memory { OnlyMemory result }
{
    let home = declared.home(path);
    if !declared.may_count(home, path) {
        return Ok(false);
    }
    if any && globals.takes(path) {
        return Ok(true);
    }
    any_far(alloc, wide, home, path)
}

/// The walked files, in the order of the walk, that some task with a definition of one of these owners gets through a
/// glob that is relative to the root or through `globalDependencies`. Owners are numbered: the packages in their order
/// and, behind them, the root. It reads no file.
pub fn rooted(
    alloc: Global,
    walk: &Paths,
    packages: &Packages,
    config: &Config,
    kept: &Places,
) -> Result<Paths, ListErr>
    requires apart { LieApart packages.now.packages }
    requires kept { AreBelow (length (owners packages.now)) kept.now }
    ensures rooted { IfOk result
        (ArePicked (IsRooted config.now (owners packages.now) kept.now) walk.now) }
    ensures memory { OnlyMemory result }
{
    let declared = Declared::new(alloc, packages, config)?;
    let globals = global_list(alloc, config)?;
    let names = task_names(alloc, config)?;
    let tasks = all_tasks(alloc, packages, config, kept.as_slice(), names.as_slice())?;
    let any = is_some(tasks.as_slice());
    let wide = wide_tasks(alloc, tasks)?;
    let paths = picked(alloc, walk.as_slice(), &declared, &globals, any, &wide)?;
    Ok(paths)
}

/// Those of the files that a task gets from anywhere.
fn picked(
    alloc: Global,
    walk: &[RelPath],
    declared: &Declared,
    globals: &GlobList,
    any: bool,
    wide: &[TaskGlobs],
) -> Result<Paths, ListErr>
    ensures value { IfOk result
        (λ paths. paths ≡ filter (far_test declared.now globals.now any wide.now) walk.now) }
    ensures memory { OnlyMemory result }
{
    let mut paths = Paths::new(alloc);
    for path in walk {
        if is_far(alloc, declared, globals, any, wide, path)? {
            paths.push(path.copy()?)?;
        }
    }
    Ok(paths)
}
