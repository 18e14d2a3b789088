// The definition of a task of a package.
ghost use Rattle.std.specs.Prelude.{IfOk, IfSome, IsOkUnless};
ghost use Rattle.std.specs.Option.{option_copied};
ghost use Rattle.turbo_config.specs.Entries.{Lends, Defines};
ghost use Rattle.turbo_config.specs.Reads.{EntryReads, DefReads};
ghost use Rattle.task_definitions.specs.Setup.{root_entry, own_entry, merged_entry, script_entry, file_entry, root_task_entry};

use rel_path::Text;
use std::alloc::{AllocError, Global};
use std::collections::{BTreeMap, BTreeSet};
use turbo_config::names::{ROOT_NAME, full_name, is_task_name};
use turbo_config::{ConfigErr, Entry, PackageConfig, TaskDef, Tasks};

/// The root's entry for a task of a package.
fn root_entry<'a>(
    alloc: Global,
    tasks: &'a Tasks,
    package: &Text,
    task: &Text,
) -> Result<Option<&'a Entry>, AllocError>
    ensures reads { IfOk result (λ entry. IfSome entry (λ e. EntryReads e.now)) }
    ensures value { IfOk result (Lends (root_entry tasks.now «package».now task.now)) }
{
    let key = full_name(alloc, package.as_str(), task)?;
    match tasks.get(&key) {
        Some(entry) => Ok(Some(entry)),
        None => Ok(tasks.get(task)),
    }
}

/// The definition by the root's entry and the package's own.
#[tactic(auto, unfolding(turbo_config::specs::Entries::over))]
fn merged_def(
    alloc: Global,
    below: Option<&Entry>,
    above: Option<&Entry>,
) -> Result<Option<TaskDef>, ConfigErr>
    requires below { IfSome below (λ e. EntryReads e.now) }
    requires above { IfSome above (λ e. EntryReads e.now) }
    ensures reads { IfOk result (λ def. IfSome def DefReads) }
    ensures value { Defines
        (merged_entry (option_copied below.entry) (option_copied above.entry)) result }
    ensures memory { IsOkUnless result ConfigErr.OutOfMemory }
{
    let nothing = Entry::new();
    match (below, above) {
        (None, None) => Ok(None),
        (Some(below), Some(above)) => Ok(Some(below.def_under(alloc, above)?)),
        (Some(below), None) => Ok(Some(below.def_under(alloc, &nothing)?)),
        (None, Some(above)) => Ok(Some(nothing.def_under(alloc, above)?)),
    }
}

/// What the package's own file says of the task.
fn own_entry<'a>(
    files: &'a BTreeMap<Text, PackageConfig>,
    package: &Text,
    task: &Text,
) -> Option<&'a Entry>
    ensures reads { IfSome result (λ e. EntryReads e.now) }
    ensures value { Lends (own_entry files.now.entries «package».now task.now) result }
{
    match files.get(package) {
        Some(file) => file.tasks.get(task),
        None => None,
    }
}

/// The definition where the root has no turbo.json.
pub(crate) fn def_by_scripts(
    alloc: Global,
    scripts: &BTreeSet<Text>,
    task: &Text,
) -> Result<Option<TaskDef>, ConfigErr>
    ensures reads { IfOk result (λ def. IfSome def DefReads) }
    ensures value { Defines (script_entry scripts.now.keys task.now) result }
    ensures memory { IsOkUnless result ConfigErr.OutOfMemory }
{
    if is_task_name(task.as_str()) && scripts.contains(task) {
        let nothing = Entry::new();
        Ok(Some(nothing.def_under(alloc, &nothing)?))
    } else {
        Ok(None)
    }
}

/// The definition where the root has a turbo.json.
pub(crate) fn def_by_files(
    alloc: Global,
    tasks: &Tasks,
    files: &BTreeMap<Text, PackageConfig>,
    package: &Text,
    task: &Text,
) -> Result<Option<TaskDef>, ConfigErr>
    ensures reads { IfOk result (λ def. IfSome def DefReads) }
    ensures value { Defines (file_entry tasks.now files.now.entries «package».now task.now) result }
    ensures memory { IsOkUnless result ConfigErr.OutOfMemory }
{
    if !is_task_name(task.as_str()) {
        return Ok(None);
    }
    let below = root_entry(alloc, tasks, package, task)?;
    merged_def(alloc, below, own_entry(files, package, task))
}

/// The definition of a task of the root.
pub(crate) fn root_task_def(
    alloc: Global,
    tasks: Option<&Tasks>,
    task: &Text,
) -> Result<Option<TaskDef>, ConfigErr>
    ensures reads { IfOk result (λ def. IfSome def DefReads) }
    ensures value { Defines (root_task_entry (option_copied tasks.entry) task.now) result }
    ensures memory { IsOkUnless result ConfigErr.OutOfMemory }
{
    let Some(tasks) = tasks else {
        return Ok(None);
    };
    if !is_task_name(task.as_str()) {
        return Ok(None);
    }
    let key = full_name(alloc, ROOT_NAME, task)?;
    merged_def(alloc, tasks.get(&key), None)
}
