// The inputs of tasks.
ghost use Rattle.std.specs.Prelude.{◌≡◌, ◌<◌, length, map, IfOk, OnOk};
ghost use Rattle.std.specs.List.{AllByRecursion};
ghost use Rattle.ignore_rules.specs.Ignored.{is_ignored};
ghost use Rattle.ignore_rules.specs.Stacks.{rules_in};
ghost use Rattle.listing.specs.Memory.{OnlyMemory};
ghost use Rattle.workspaces.specs.Space.{owners};
ghost use Rattle.task_inputs.specs.Homes.{LieApart, home_of};
ghost use Rattle.task_inputs.specs.Inputs.{input_row};
ghost use Rattle.task_inputs.specs.Tables.{IsLooked, IsRowOf};
ghost use Rattle.task_inputs.specs.WideLists.{AreWide};

use crate::declared::Declared;
use crate::definitions::DefinedTask;
use crate::files::global_list;
use crate::table::{Table, table_of, taken_places};
use crate::tasks::read_task;
use crate::wide::{Wide, list_number, places_by};
use ignore_rules::Stack;
use listing::ListErr;
use rel_path::{Paths, Places, RelPath};
use std::alloc::Global;
use task_definitions::Config;
use workspaces::Packages;

/// The places in the walk of the files that the task takes. Its list of inputs is found among the lists, or put there.
fn task_places(
    alloc: Global,
    walk: &[RelPath],
    packages: &Packages,
    table: &Table,
    lists: &mut Vec<Wide>,
    task: &DefinedTask,
) -> Result<Places, ListErr>
    requires looked { IsLooked walk.now task.now.owner table.now }
    requires task { task.now.owner < length (owners packages.now) }
    requires lists { AreWide walk.now lists.old.items }
    ensures row { IfOk result (IsRowOf (owners packages.now) walk.now table.now task.now) }
    ensures lists { OnOk result (AreWide walk.now lists.new.items) }
    ensures memory { OnlyMemory result }
{
    let globs = read_task(alloc, packages, task)?;
    let number = list_number(alloc, walk, lists, &task.def.inputs, &globs.inputs)?;
    let wide = places_by(lists, number);
    taken_places(alloc, &globs, wide, walk, table)
}

/// For each of the tasks the places in the walk of the files that it takes, ascending, with the rules of these ignore
/// files. `declared` is what `Declared::new` gives of the packages and the configuration. A path has one home: the
/// package whose folder it lies below, else the root. The default set of a task and the globs of its own folder take
/// files whose home its owner is, and no others. What has to be known of a file is looked up once, whatever the number of
/// tasks; a task then looks at the files whose home its owner is, at those that `globalDependencies` take, and at those
/// that a glob of its `inputs` matches which is relative to the root: these are found once for each distinct list.
pub fn input_places(
    alloc: Global,
    walk: &Paths,
    ignores: &Stack,
    packages: &Packages,
    config: &Config,
    declared: &Declared,
    tasks: &[DefinedTask],
) -> Result<Vec<Places>, ListErr>
    requires apart { LieApart packages.now.packages }
    requires declared { declared.now ≡ map (home_of config.now) (owners packages.now) }
    requires tasks { AllByRecursion (λ t. t.owner < length (owners packages.now)) tasks.now }
    ensures rows { IfOk result (λ rows. rows.items ≡ map
        (input_row (is_ignored (rules_in ignores.now)) config.now (owners packages.now) walk.now)
        tasks.now) }
    ensures memory { OnlyMemory result }
{
    let globals = global_list(alloc, config)?;
    let table = table_of(alloc, walk.as_slice(), ignores, declared, &globals)?;
    let mut lists = Vec::new(alloc);
    let mut rows = Vec::new(alloc);
    for task in tasks {
        let row = task_places(alloc, walk.as_slice(), packages, &table, &mut lists, task)?;
        rows.push(row)?;
    }
    Ok(rows)
}
