// What the definitions settle.
ghost use Rattle.task_graph.specs.Laws.{GraphLaw, TasksLaw, PlanLaw};

/// Words have one graph or one refusal, a graph has one plan order at most, and none where it has a cycle.
pub fn graph_law()
    ensures { GraphLaw }
{}

/// Each task of a graph has a definition, and its package is there or it is one of the root.
pub fn tasks_law()
    ensures { TasksLaw }
{}

/// The tasks of a plan differ and are tasks of its graph. Each has its row of places, which ascend.
pub fn plan_law()
    ensures { PlanLaw }
{}
