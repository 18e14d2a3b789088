// The walked files with what is known of them, and the places at which a task has to look.
ghost use Rattle.std.specs.Prelude.{◌≡◌, ◌<◌, length, filter, IfOk, OnOk};
ghost use Rattle.std.specs.List.{AllByRecursion};
ghost use Rattle.ignore_rules.specs.Ignored.{is_ignored};
ghost use Rattle.ignore_rules.specs.Stacks.{rules_in};
ghost use Rattle.listing.specs.Memory.{OnlyMemory};
ghost use Rattle.task_inputs.specs.Folders.{AreHomes};
ghost use Rattle.task_inputs.specs.Tables.{IsTable, IsLooked, looked, takes_at};

use crate::declared::Declared;
use crate::files::{FileFacts, facts_of, global_places, near_places};
use crate::tasks::TaskGlobs;
use crate::union::union;
use globs::GlobList;
use ignore_rules::Stack;
use listing::ListErr;
use rel_path::{Places, RelPath};
use std::alloc::Global;

/// What is known of the walked files: of each of them, the places of those with each home, and of those that
/// `globalDependencies` take.
#[derive(Drop)]
pub(crate) struct Table {
    pub files: Vec<FileFacts>,
    pub near: Vec<Places>,
    pub globals: Vec<u32>,
}

/// What is known of the walked files.
pub(crate) fn table_of(
    alloc: Global,
    walk: &[RelPath],
    ignores: &Stack,
    declared: &Declared,
    globals: &GlobList,
) -> Result<Table, ListErr>
    ensures table { IfOk result
        (IsTable (is_ignored (rules_in ignores.now)) declared.now globals.now walk.now) }
    ensures homes { OnOk result (AreHomes declared.now) }
    ensures memory { OnlyMemory result }
{
    let files = facts_of(alloc, walk, ignores, declared, globals)?;
    if files.len() > u32::MAX as usize {
        return Err(ListErr::OutOfMemory);
    }
    let near = near_places(alloc, declared.count(), files.as_slice())?;
    let globals = global_places(alloc, files.as_slice())?;
    Ok(Table {
        files,
        near,
        globals,
    })
}

/// Of these places those of the files that the task takes.
fn taken_of(
    alloc: Global,
    task: &TaskGlobs,
    walk: &[RelPath],
    files: &[FileFacts],
    places: &[u32],
) -> Result<Places, ListErr>
    requires same { length files.now ≡ length walk.now }
    requires below { AllByRecursion (λ k. k < length walk.now) places.now }
    ensures taken { IfOk result
        (λ taken. taken ≡ filter (takes_at task.now files.now walk.now) places.now) }
    ensures memory { OnlyMemory result }
{
    let mut taken = Places::new(alloc);
    for place in places {
        let at = *place as usize;
        if task.takes(alloc, &files[at], &walk[at])? {
            taken.push(*place)?;
        }
    }
    Ok(taken)
}

/// The places of the files that the task takes. It looks at the files whose home its owner is, at the global ones and
/// at those in these places, which the globs of the root in its list match.
pub(crate) fn taken_places(
    alloc: Global,
    task: &TaskGlobs,
    wide: &[u32],
    walk: &[RelPath],
    table: &Table,
) -> Result<Places, ListErr>
    requires looked { IsLooked walk.now task.now.place table.now }
    requires wide { AllByRecursion (λ k. k < length walk.now) wide.now }
    ensures taken { IfOk result (λ taken. taken ≡ filter
        (takes_at task.now table.now.files.items walk.now)
        (looked table.now task.now.place wide.now)) }
    ensures memory { OnlyMemory result }
{
    let near = table.near[task.place].as_slice();
    let close = union(alloc, near, &table.globals)?;
    let places = union(alloc, &close, wide)?;
    taken_of(alloc, task, walk, &table.files, &places)
}
