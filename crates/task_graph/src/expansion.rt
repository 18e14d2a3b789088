// The task graph of a run.
ghost use Rattle.std.specs.Prelude.{◌≡◌, ◌⊎◌, length, MatchResult, Ok, Err};
ghost use Rattle.workspaces.specs.Reach.{AreBelow};
ghost use Rattle.turbo_config.specs.declared.task_id.TaskId.{TaskId};
ghost use Rattle.task_graph.specs.declared.error.GraphErr.TheVariants.{OutOfMemory};
ghost use Rattle.task_graph.specs.Graphs.{Expands};
ghost use Rattle.task_graph.specs.Fronts.{nodes_by};

use crate::edges::Row;
use crate::entries::entry_tasks;
use crate::reached::reached;
use crate::{Graph, GraphErr, Node};
use rel_path::{Places, Texts};
use std::alloc::Global;
use task_definitions::Config;
use turbo_config::TaskId;
use workspaces::Packages;

/// The nodes of tasks with what they depend on, or the refusal of the first that has one.
fn nodes_of(alloc: Global, rows: Vec<(TaskId, Row)>) -> Result<Vec<Node>, GraphErr>
    ensures { MatchResult result (λ nodes. nodes_by rows.items ≡ Ok nodes.items)
        (λ e. (e ≡ OutOfMemory) ⊎ (nodes_by rows.items ≡ Err e)) }
{
    let mut nodes = Vec::new(alloc);
    for (id, row) in rows {
        let Row { deps, refused } = row;
        if let Some(text) = refused {
            return Err(GraphErr::NoSuchDependency { task: id, text });
        }
        nodes.push(Node { id, deps })?;
    }
    Ok(nodes)
}

/// The tasks that the words of a run name, word by word, and the graph from them.
#[derive(Debug, Drop)]
pub struct Expansion {
    pub entries: Vec<TaskId>,
    pub graph: Graph,
}

/// The tasks that the words name, and the task graph from them: these tasks, and with each task what its `dependsOn` says.
///
/// A word `task` names that task of each selected package that has a definition of it and, where `all` holds, `//#task` if
/// the root has one: `all` says that no filter stands. A word `package#task` names that task, `//#task` among them,
/// whatever is selected. `NoSuchTask` comes for the first word that names nothing. In `dependsOn` the text `^task` stands
/// for that task of each package that the task's own, or the root's manifest for a task of the root, depends on and that
/// has a definition of it, `package#task` for that task, `//#task` among them, and `task` for that of the same package.
/// Where there is none, `task` is passed over if the root has a key `package#task` of it; otherwise `NoSuchDependency`
/// comes, for the least task of the graph and its first such text.
pub fn expand(
    alloc: Global,
    words: &Texts,
    selected: &Places,
    all: bool,
    packages: &Packages,
    config: &Config,
) -> Result<Expansion, GraphErr>
    requires { AreBelow (length packages.now.packages) selected.now }
    ensures { Expands packages.now config.now selected.now all words.now result }
{
    let entries = entry_tasks(alloc, words, selected, all, packages, config)?;
    let rows = reached(alloc, packages, config, entries.as_slice())?;
    let nodes = nodes_of(alloc, rows)?;
    if nodes.len() > u32::MAX as usize {
        return Err(GraphErr::OutOfMemory);
    }
    let graph = Graph::new(nodes);
    Ok(Expansion { entries, graph })
}
