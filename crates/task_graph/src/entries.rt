// The tasks that the words of a command line name.
ghost use Rattle.std.specs.Prelude.{◌≡◌, ◌++◌, ◌⊎◌, not, length, MatchResult, IfOk, Ok, Err};
ghost use Rattle.std.specs.Bool.{OnTrue};
ghost use Rattle.std.specs.List.Sorted.{IsStrictlySortedBy};
ghost use Rattle.rel_path.specs.Paths.{name_cmp};
ghost use Rattle.task_definitions.specs.Setup.{AreNames, is_among};
ghost use Rattle.workspaces.specs.Reach.{AreBelow};
ghost use Rattle.workspaces.specs.Space.{owners};
ghost use Rattle.task_graph.specs.declared.error.GraphErr.TheVariants.{NoSuchTask, OutOfMemory};
ghost use Rattle.task_graph.specs.Entries as spec;
ghost use Rattle.task_graph.specs.Memory.{OnlyMemory};

use crate::GraphErr;
use crate::lookup::{add_tasks, full_id, is_task};
use rel_path::{Places, Text, Texts};
use std::alloc::{AllocError, Global};
use task_definitions::Config;
use turbo_config::TaskId;
use workspaces::Packages;

/// Whether the name is among names that ascend.
fn is_among(names: &[Text], name: &Text) -> bool
    requires { IsStrictlySortedBy name_cmp names.now }
    ensures { result ≡ is_among names.now name.now }
{
    match names.binary_search(name) {
        Ok(_) => true,
        Err(_) => false,
    }
}

/// The owners whose tasks a word `task` names: the selected packages and, where no filter stands, the root.
fn chosen(packages: &Packages, selected: &Places, all: bool) -> Result<Places, AllocError>
    ensures { IfOk result (λ places. places ≡ spec.chosen packages.now selected.now all) }
{
    let mut places = selected.copy()?;
    if all {
        places.push(packages.count())?;
    }
    Ok(places)
}

/// Adds the tasks that a word names, where these owners are chosen, or answers that it names nothing.
#[tactic(auto, unfolding(crate::specs::Entries::is_unknown))]
fn add_word(
    alloc: Global,
    packages: &Packages,
    config: &Config,
    names: &[Text],
    places: &[u32],
    word: &Text,
    tasks: &mut Vec<TaskId>,
) -> Result<bool, GraphErr>
    requires names { AreNames config.now names.now }
    requires places { AreBelow (length (owners packages.now)) places.now }
    ensures known { IfOk result (λ known. known
        ≡ not (spec.is_unknown packages.now config.now word.now)) }
    ensures added { IfOk result (λ known. OnTrue known (tasks.new.items ≡ tasks.old.items
        ++ spec.tasks_by packages.now config.now places.now word.now)) }
    ensures memory { OnlyMemory result }
{
    if let Some(id) = full_id(alloc, word.as_str())? {
        if !is_task(alloc, packages, config, &id)? {
            return Ok(false);
        }
        tasks.push(id)?;
        return Ok(true);
    }
    if !is_among(names, word) {
        return Ok(false);
    }
    add_tasks(alloc, packages, config, places, word, tasks)?;
    Ok(true)
}

/// The tasks that the words name, word by word. `NoSuchTask` comes for the first word that names nothing.
pub(crate) fn entry_tasks(
    alloc: Global,
    words: &Texts,
    selected: &Places,
    all: bool,
    packages: &Packages,
    config: &Config,
) -> Result<Vec<TaskId>, GraphErr>
    requires { AreBelow (length packages.now.packages) selected.now }
    ensures { MatchResult result
        (λ tasks. spec.entry_tasks packages.now config.now selected.now all words.now
        ≡ Ok tasks.items)
        (λ e. (e ≡ OutOfMemory)
        ⊎ (spec.entry_tasks packages.now config.now selected.now all words.now ≡ Err e)) }
{
    let names = config.names(alloc)?;
    let places = chosen(packages, selected, all)?;
    let mut tasks = Vec::new(alloc);
    for word in words.as_slice() {
        if !add_word(
            alloc,
            packages,
            config,
            names.as_slice(),
            places.as_slice(),
            word,
            &mut tasks,
        )? {
            return Err(GraphErr::NoSuchTask { name: word.copy()? });
        }
    }
    Ok(tasks)
}
