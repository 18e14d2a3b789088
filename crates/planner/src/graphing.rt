// The task graph of a run, and its plan order.
ghost use Rattle.std.specs.Prelude.{◌≡◌, None, Ok, length, find, IfOk, MatchResult};
ghost use Rattle.workspaces.specs.Reach.{AreBelow};
ghost use Rattle.task_graph.specs.Entries.{entry_tasks};
ghost use Rattle.task_graph.specs.Graphs.{Means};
ghost use Rattle.task_graph.specs.Inside.{IsWhole};
ghost use Rattle.task_graph.specs.Nodes.{ids_of};
ghost use Rattle.task_graph.specs.Persistent.{is_persistent};
ghost use Rattle.task_graph.specs.Plans.{IsPlan};
ghost use Rattle.planner.specs.Refusals.{graph_refusal};
ghost use Rattle.planner.specs.Plans.{AfterGraph, AfterOrder, AfterPersistent};
ghost use Rattle.planner.specs.Steps.{Ends, NoMore, error_of};

use refusals::{Refusal, Stop};
use rel_path::{Places, Texts};
use std::alloc::Global;
use task_definitions::Config;
use task_graph::{Expansion, Graph, GraphErr, PlanList, expand};
use workspaces::Packages;

fn graph_error(fault: GraphErr) -> Stop
    ensures { result ≡ error_of (graph_refusal fault) }
{
    match fault {
        GraphErr::NoSuchTask { name } => Stop::Refused(Refusal::NoSuchTask { name }),
        GraphErr::NoSuchDependency { task, text } => {
            Stop::Refused(Refusal::NoSuchDependency { task, text })
        }
        GraphErr::Cycle { tasks } => Stop::Refused(Refusal::Cycle { tasks }),
        GraphErr::OutOfMemory => Stop::OutOfMemory,
    }
}

/// The tasks that the words name, and the task graph of these.
pub(crate) fn expansion_of(
    alloc: Global,
    words: &Texts,
    selected: &Places,
    all: bool,
    packages: &Packages,
    config: &Config,
) -> Result<Expansion, Stop>
    requires { AreBelow (length packages.now.packages) selected.now }
    ensures graph { MatchResult result
        (λ x. Means packages.now config.now selected.now all words.now (Ok x.graph))
        (Ends (AfterGraph packages.now config.now selected.now all words.now NoMore)) }
    ensures entries { IfOk result (λ x.
        entry_tasks packages.now config.now selected.now all words.now ≡ Ok x.entries.items) }
    ensures whole { IfOk result (λ x. IsWhole x.graph) }
{
    match expand(alloc, words, selected, all, packages, config) {
        Ok(expansion) => {
            // What holds of every graph is said of its nodes.
            let _nodes = expansion.graph.nodes();
            Ok(expansion)
        }
        Err(fault) => Err(graph_error(fault)),
    }
}

/// The tasks of the graph in plan order.
pub(crate) fn order_of(alloc: Global, graph: &Graph) -> Result<PlanList, Stop>
    ensures { MatchResult result (IsPlan graph.now) (Ends (AfterOrder graph.now NoMore)) }
{
    match graph.order(alloc) {
        Ok(list) => Ok(list),
        Err(fault) => Err(graph_error(fault)),
    }
}

/// Refuses a graph with a task that does not end by itself.
pub(crate) fn check_ends(
    alloc: Global,
    graph: &Graph,
    packages: &Packages,
    config: &Config,
) -> Result<(), Stop>
    ensures { MatchResult result
        (λ u. find (is_persistent packages.now config.now) (ids_of graph.now) ≡ None)
        (Ends (AfterPersistent (find (is_persistent packages.now config.now) (ids_of graph.now))
        (λ answer. ⊥))) }
{
    match graph.persistent(alloc, config, packages) {
        Ok(None) => Ok(()),
        Ok(Some(task)) => Err(Stop::Refused(Refusal::Persistent { task })),
        Err(_) => Err(Stop::OutOfMemory),
    }
}
