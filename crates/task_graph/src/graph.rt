// A task graph.
ghost use Rattle.std.specs.Prelude.{◌≡◌, IfOk, find, MatchResult};
ghost use Rattle.task_graph.specs.Nodes.{ids_of};
ghost use Rattle.task_graph.specs.Plans.{IsPlan};
ghost use Rattle.task_graph.specs.Cycles.{IsNoPlan};
ghost use Rattle.task_graph.specs.Persistent.{is_persistent};
ghost use Rattle.task_graph.specs.Inside.{IsWhole};
ghost use Rattle.task_graph.specs.Memory.{OnlyMemory};

use crate::cycle::cycle;
use crate::node::copied;
use crate::persistent::is_persistent;
use crate::plan::{ids_at, plan_of};
use crate::rows::rows_of;
use crate::sorting::sorted;
use crate::{GraphErr, Node, PlanList};
use std::alloc::Global;
use std::marker::Model;
use task_definitions::Config;
use turbo_config::TaskId;
use workspaces::Packages;

/// The tasks of a run with what each depends on. Contracts see it as the list of its nodes, ascending by task.
#[derive(Debug, Drop)]
pub struct Graph {
    nodes: Vec<Node>,
}

impl Model for Graph {
    ghost use Rattle.std.specs.Prelude.{List};
    ghost use Rattle.task_graph.specs.declared.node.Node.{Node};
    ghost use Rattle.task_graph.specs.Inside.{IsWhole};

    ghost Value = { List Node };

    ghost view = { λ g. g.nodes.items };

    ghost invariant = { λ g. IsWhole g.nodes.items };
}

impl Graph {
    pub(crate) fn new(nodes: Vec<Node>) -> Graph
        requires { IsWhole nodes.items }
        ensures { result ≡ nodes.items }
    {
        Graph { nodes }
    }

    /// The tasks of the graph with what each depends on, ascending.
    pub fn nodes(&self) -> &[Node]
        ensures value { result.now ≡ self.now }
        ensures whole { IsWhole self.now }
    {
        self.nodes.as_slice()
    }

    /// The tasks in plan order: of those that are not planned yet, but all of whose dependencies are, the least comes next.
    /// `Cycle` comes where tasks are left over: from the least of them each is followed by the least left over that it
    /// depends on, until one comes again; the tasks from that one on.
    pub fn order(&self, alloc: Global) -> Result<PlanList, GraphErr>
        ensures { MatchResult result (IsPlan self.now) (IsNoPlan self.now) }
    {
        let nodes = self.nodes();
        let rows = rows_of(alloc, nodes)?;
        let sorting = sorted(alloc, rows.as_slice())?;
        let (order, slots) = (sorting.order.as_slice(), sorting.slots.as_slice());
        match cycle(alloc, rows.as_slice(), slots)? {
            Some(tasks) => Err(GraphErr::Cycle {
                tasks: ids_at(alloc, nodes, tasks.as_slice())?,
            }),
            None => plan_of(alloc, nodes, order, slots),
        }
    }

    /// The least task of the graph that has a script and is `persistent`, is `interactive` or has `with`.
    pub fn persistent(
        &self,
        alloc: Global,
        config: &Config,
        packages: &Packages,
    ) -> Result<Option<TaskId>, GraphErr>
        ensures value { IfOk result (λ found. found
            ≡ find (is_persistent packages.now config.now) (ids_of self.now)) }
        ensures memory { OnlyMemory result }
    {
        for node in self.nodes() {
            if is_persistent(alloc, packages, config, &node.id)? {
                return Ok(Some(copied(&node.id)?));
            }
        }
        Ok(None)
    }
}
