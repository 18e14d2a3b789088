// Graphs of tasks: what they depend on, their order, and those that do not end.
ghost use Rattle.std.specs.Prelude.{length, IfOk};
ghost use Rattle.workspaces.specs.Reach.{AreBelow};

use crate::repositories::{repository_of, task_value, task_values};
use anyhow::{Result, bail};
use case_files::{answers, inputs};
use rel_path::{Places, Text, Texts};
use repository::Repository;
use serde_json::{Value, json};
use std::alloc::Global;
use task_graph::{Expansion, Graph, GraphErr, Node, PlanList, expand};
use turbo_config::TaskId;
use workspaces::Packages;

fn contains(names: &[Text], name: &Text) -> bool {
    names.contains(name)
}

// The packages of these names.
fn selected(alloc: Global, packages: &Packages, names: &[Text]) -> Result<Places>
    ensures { IfOk result (AreBelow (length packages.now.packages)) }
{
    let mut places = Places::new(alloc);
    for p in 0..packages.count() {
        if contains(names, packages.name(p)) {
            places.push(p)?;
        }
    }
    Ok(places)
}

fn graph_of(
    alloc: Global,
    repository: &Repository,
    names: &[Text],
    all: bool,
    words: &Texts,
) -> Result<Result<Expansion, GraphErr>> {
    let (packages, config) = (&repository.packages, &repository.config);
    let places = selected(alloc, packages, names)?;
    Ok(expand(alloc, words, &places, all, packages, config))
}

fn no_dependency(alloc: Global, task: &TaskId, text: &Text) -> Result<Value> {
    let task = task_value(alloc, task)?;
    Ok(json!(in alloc; {"error": "NoSuchDependency", "task": task, "text": text.as_str()})?)
}

fn refusal(alloc: Global, error: &GraphErr) -> Result<Value> {
    match error {
        GraphErr::NoSuchTask { name } => {
            Ok(json!(in alloc; {"error": "NoSuchTask", "name": name.as_str()})?)
        }
        GraphErr::NoSuchDependency { task, text } => no_dependency(alloc, task, text),
        GraphErr::Cycle { tasks } => {
            let tasks = task_values(alloc, tasks.as_slice())?;
            Ok(json!(in alloc; {"error": "Cycle", "tasks": tasks})?)
        }
        GraphErr::OutOfMemory => bail!("out of memory"),
    }
}

fn nodes_value(alloc: Global, nodes: &[Node]) -> Result<Value> {
    let mut values = Vec::new(alloc);
    for node in nodes {
        let task = task_value(alloc, &node.id)?;
        let needs = task_values(alloc, node.deps.as_slice())?;
        values.push(json!(in alloc; {"task": task, "needs": needs})?)?;
    }
    Ok(Value::Array(values))
}

fn plan_value(alloc: Global, plan: &PlanList) -> Result<Value> {
    let mut values = Vec::new(alloc);
    for (task, places) in plan.ids.as_slice().iter().zip(plan.deps.as_slice()) {
        let task = task_value(alloc, task)?;
        let places = answers::places(alloc, places.as_slice())?;
        values.push(json!(in alloc; {"task": task, "needs": places})?)?;
    }
    Ok(Value::Array(values))
}

fn order_value(alloc: Global, graph: &Graph) -> Result<Value> {
    match graph.order(alloc) {
        Ok(plan) => plan_value(alloc, &plan),
        Err(error) => refusal(alloc, &error),
    }
}

// The least task that does not end by itself.
fn staying(alloc: Global, graph: &Graph, repository: &Repository) -> Result<Value> {
    match graph.persistent(alloc, &repository.config, &repository.packages) {
        Ok(Some(task)) => task_value(alloc, &task),
        Ok(None) => Ok(Value::Null),
        Err(error) => refusal(alloc, &error),
    }
}

fn value(
    alloc: Global,
    call: &str,
    expansion: &Expansion,
    repository: &Repository,
) -> Result<Value> {
    let graph = &expansion.graph;
    match call {
        "entries" => task_values(alloc, expansion.entries.as_slice()),
        "graph" => nodes_value(alloc, graph.nodes()),
        "order" => order_value(alloc, graph),
        "staying" => staying(alloc, graph, repository),
        _ => bail!("no such call"),
    }
}

pub fn answer(alloc: Global, case: &Value) -> Result<Value> {
    let repository = repository_of(alloc, case)?;
    let names = inputs::texts(alloc, case, "selected")?;
    let words = inputs::texts(alloc, case, "tasks")?;
    let all = inputs::flag(case, "all")?;
    match graph_of(alloc, &repository, names.as_slice(), all, &words)? {
        Ok(found) => value(alloc, inputs::text(case, "call")?, &found, &repository),
        Err(error) => refusal(alloc, &error),
    }
}
