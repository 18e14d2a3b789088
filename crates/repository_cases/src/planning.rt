// The plan that a case asks for.
ghost use Rattle.std.specs.Prelude.{◌≡◌, ◌<◌, ◌≤◌, false, IfOk};
ghost use Rattle.rel_path.specs.Limits.{width_limit};
ghost use Rattle.rel_path.specs.Paths.{Path};
ghost use Rattle.tree_walk.specs.Walked.{IsWalk};
ghost use Rattle.workspaces.specs.Space.{AreWalked};

use crate::repositories::files_of;
use anyhow::{Result, bail};
use case_files::inputs;
use cli_words::{Order, RunOrder};
use planner::plan_run;
use refusals::{Refusal, Stop};
use rel_path::Text;
use rel_path::limits::MAX_WIDTH;
use repository::{Repository, read_repository};
use run_plan::Plan;
use serde_json::Value;
use std::alloc::Global;
use tree_dev::{MemTree, Tree};

/// The plan, or why there is none.
#[derive(Drop)]
pub enum Answer {
    Planned(Plan),
    Refused(Refusal),
    Unread,
    Failed,
}

fn tree_of(alloc: Global, case: &Value) -> Result<MemTree>
    ensures { IfOk result (λ tree. (path : Path) → (⟦<MemTree as Tree>⟧.state tree).held path ≡ false) }
{
    let files = files_of(alloc, case)?;
    Ok(MemTree::new(alloc, files, Vec::new(alloc)))
}

fn order_of(alloc: Global, case: &Value) -> Result<RunOrder>
    ensures wide { IfOk result (λ order. 0 < order.width) }
    ensures narrow { IfOk result (λ order. order.width ≤ width_limit) }
{
    let words = inputs::texts(alloc, case, "words")?;
    let Order::Run(order) = Order::read(alloc, words.as_slice())? else {
        bail!("the words are no run");
    };
    if order.width == 0 || MAX_WIDTH < order.width {
        bail!("no width");
    }
    Ok(order)
}

// The repository, of which no more is known than a plan asks for.
fn repository_in<T: Tree>(alloc: Global, tree: &mut T) -> Result<Repository, Stop>
    requires none { (path : Path) → (T.state tree.old).held path ≡ false }
    ensures none { (path : Path) → (T.state tree.new).held path ≡ false }
    ensures walk { IfOk result (λ repository. IsWalk repository.walk) }
    ensures walked { IfOk result (λ repository.
        AreWalked repository.walk repository.packages.packages) }
{
    match read_repository(alloc, tree) {
        Ok(repository) => Ok(repository),
        Err(error) => Err(error),
    }
}

// The plan, of which the cases look at the value alone.
fn plan_in<T: Tree>(
    alloc: Global,
    tree: &mut T,
    repository: &Repository,
    order: &RunOrder,
    env: &[(Text, Text)],
) -> Answer
    requires none { (path : Path) → (T.state tree.old).held path ≡ false }
    requires walk { IsWalk repository.now.walk }
    requires walked { AreWalked repository.now.walk repository.now.packages.packages }
    requires wide { 0 < order.now.width }
    requires narrow { order.now.width ≤ width_limit }
{
    match plan_run(alloc, tree, repository, order, env) {
        Ok(plan) => Answer::Planned(plan),
        Err(Stop::Refused(refusal)) => Answer::Refused(refusal),
        Err(_) => Answer::Failed,
    }
}

fn planned_in<T: Tree>(
    alloc: Global,
    tree: &mut T,
    order: &RunOrder,
    env: &[(Text, Text)],
) -> Answer
    requires none { (path : Path) → (T.state tree.old).held path ≡ false }
    requires wide { 0 < order.now.width }
    requires narrow { order.now.width ≤ width_limit }
{
    match repository_in(alloc, tree) {
        Ok(repository) => plan_in(alloc, tree, &repository, order, env),
        Err(_) => Answer::Unread,
    }
}

/// The plan of the case's words over its files and its environment.
pub fn planned(alloc: Global, case: &Value) -> Result<Answer> {
    let mut tree = tree_of(alloc, case)?;
    let order = order_of(alloc, case)?;
    let env = inputs::pairs(alloc, case, "env")?;
    Ok(planned_in(alloc, &mut tree, &order, env.as_slice()))
}
