// What a task depends on.
ghost use Rattle.std.specs.Prelude.{◌≡◌, ◌++◌, drop, find, IfOk, OnOk, if◌then◌else◌};
ghost use Rattle.turbo_config.specs.Names.{begins_caret};
ghost use Rattle.workspaces.specs.Lists.{ascending};
ghost use Rattle.task_graph.specs.Ids.{id_cmp};
ghost use Rattle.task_graph.specs.Edges as spec;
ghost use Rattle.task_graph.specs.Memory.{OnlyMemory};

use crate::GraphErr;
use crate::lookup::{add_tasks, full_id, has_def, is_task};
use crate::node::listed;
use rel_path::Text;
use std::alloc::Global;
use task_definitions::Config;
use turbo_config::{TaskId, TaskIds};
use workspaces::Packages;

/// What the `dependsOn` of a task says: the tasks that it depends on, ascending, and the first text that is refused.
#[derive(Drop)]
pub(crate) struct Row {
    pub(crate) deps: TaskIds,
    pub(crate) refused: Option<Text>,
}

/// Adds the task of that name in each package that an owner depends on, where it has a definition.
#[tactic(auto, unfolding(crate::specs::Edges::upstream))]
fn add_upstream(
    alloc: Global,
    packages: &Packages,
    config: &Config,
    package: &Text,
    name: &Text,
    tasks: &mut Vec<TaskId>,
) -> Result<(), GraphErr>
    ensures added { OnOk result (tasks.new.items ≡ tasks.old.items
        ++ spec.upstream packages.now config.now «package».now name.now) }
    ensures memory { OnlyMemory result }
{
    let Some(owner) = packages.owner_of(package) else {
        return Ok(());
    };
    add_tasks(
        alloc,
        packages,
        config,
        packages.edges(owner).as_slice(),
        name,
        tasks,
    )
}

/// Adds the tasks that one text of the task's `dependsOn` stands for. Tells whether the text is refused.
#[tactic(auto, unfolding(crate::specs::Edges::text_tasks, crate::specs::Edges::is_refused))]
fn add_text(
    alloc: Global,
    packages: &Packages,
    config: &Config,
    id: &TaskId,
    text: &Text,
    tasks: &mut Vec<TaskId>,
) -> Result<bool, GraphErr>
    ensures added { OnOk result (tasks.new.items ≡ tasks.old.items
        ++ spec.text_tasks packages.now config.now id.now text.now) }
    ensures refused { IfOk result (λ refused. refused
        ≡ spec.is_refused packages.now config.now id.now text.now) }
    ensures memory { OnlyMemory result }
{
    if let Some(name) = behind_caret(alloc, text.as_str())? {
        add_upstream(alloc, packages, config, &id.package, &name, tasks)?;
        return Ok(false);
    }
    if let Some(full) = full_id(alloc, text.as_str())? {
        if !is_task(alloc, packages, config, &full)? {
            return Ok(true);
        }
        tasks.push(full)?;
        return Ok(false);
    }
    let own = TaskId {
        package: id.package.copy()?,
        task: text.copy()?,
    };
    if !has_def(alloc, config, &own)? {
        return Ok(!config.ends_in(text));
    }
    tasks.push(own)?;
    Ok(false)
}

/// The task of a text `^task`.
fn behind_caret(alloc: Global, text: &str) -> Result<Option<Text>, GraphErr>
    ensures value { IfOk result
        (λ name. name ≡ (if begins_caret text.now then Some (drop 1 text.now) else None)) }
    ensures memory { OnlyMemory result }
{
    match text.strip_prefix('^') {
        Some(name) => Ok(Some(Text::read(alloc, name)?)),
        None => Ok(None),
    }
}

/// The tasks in ascending order, each once.
fn sorted_ids(mut ids: Vec<TaskId>) -> Result<Vec<TaskId>, GraphErr>
    ensures value { IfOk result (λ found. found.items ≡ ascending id_cmp ids.items) }
    ensures memory { OnlyMemory result }
{
    ids.sort()?;
    ids.dedup();
    Ok(ids)
}

/// Adds the tasks that texts stand for, and answers the first text that is refused.
fn add_texts(
    alloc: Global,
    packages: &Packages,
    config: &Config,
    id: &TaskId,
    texts: &[Text],
    tasks: &mut Vec<TaskId>,
) -> Result<Option<Text>, GraphErr>
    ensures added { OnOk result (tasks.new.items ≡ tasks.old.items
        ++ spec.tasks_of packages.now config.now id.now texts.now) }
    ensures refused { IfOk result (λ refused. refused
        ≡ find (spec.is_refused packages.now config.now id.now) texts.now) }
    ensures memory { OnlyMemory result }
{
    let mut refused = None;
    for text in texts {
        if add_text(alloc, packages, config, id, text, tasks)? && refused.is_none() {
            refused = Some(text.copy()?);
        }
    }
    Ok(refused)
}

/// What the task depends on.
#[tactic(auto, unfolding(crate::specs::Edges::edges, crate::specs::Edges::first_refused, crate::specs::Edges::depends_on))]
pub(crate) fn row_of(
    alloc: Global,
    packages: &Packages,
    config: &Config,
    id: &TaskId,
) -> Result<Row, GraphErr>
    ensures value { IfOk result (λ row. row ≡ spec.row_of packages.now config.now id.now) }
    ensures memory { OnlyMemory result }
{
    let mut tasks = Vec::new(alloc);
    let refused = match config.task_def(alloc, &id.package, &id.task)? {
        None => None,
        Some(def) => {
            let texts = def.depends_on.as_slice();
            add_texts(alloc, packages, config, id, texts, &mut tasks)?
        }
    };
    let deps = listed(alloc, sorted_ids(tasks)?)?;
    Ok(Row { deps, refused })
}
