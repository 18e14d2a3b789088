// The plan of a run.
ghost use Rattle.std.specs.Prelude.{◌≡◌, ◌<◌, ◌≤◌, true, false, length, IfOk};
ghost use Rattle.std.specs.List.{AllByRecursion};
ghost use Rattle.rel_path.specs.Limits.{width_limit};
ghost use Rattle.rel_path.specs.Paths.{Path};
ghost use Rattle.tree_dev.specs.Tree.{Looks};
ghost use Rattle.tree_walk.specs.Walked.{IsWalk};
ghost use Rattle.workspaces.specs.Space.{AreWalked};
ghost use Rattle.task_graph.specs.Tasks.{has_def};
ghost use Rattle.run_plan.specs.Plans.{IsValidPlan};
ghost use Rattle.run_plan.specs.Openings.{HoldsInputs};
ghost use Rattle.repository.specs.Reading.{contents_of};
ghost use Rattle.refusals.specs.Stops.{HasCause};
ghost use Rattle.planner.specs.Answers.{Answers};
ghost use Rattle.planner.specs.Plans.{IsPlanOf};

use crate::collecting::listing_of;
use crate::definitions::defs_of;
use crate::passing::all_given;
use crate::preparing::prepare;
use crate::settings::{env_mode_for, logs_of, mode_of};
use cli_words::RunOrder;
use env_select::EnvList;
use listing::Listing;
use refusals::Stop;
use rel_path::Text;
use rel_path::limits::MAX_FILE_BYTES;
use repository::Repository;
use run_plan::Plan;
use std::alloc::{AllocError, Global};
use task_definitions::Config;
use task_graph::PlanList;
use tree_dev::Tree;

/// The plan of these tasks, whose parts the listing has.
fn plan_of(
    alloc: Global,
    config: &Config,
    order: &RunOrder,
    env: &[(Text, Text)],
    list: PlanList,
    listing: Listing,
) -> Result<Plan, AllocError>
    requires same { length listing.parts ≡ length list.ids }
    requires defined { AllByRecursion (λ id. has_def config.now id ≡ true) list.ids }
    ensures value { IfOk result (IsPlanOf config.now order.now env.now list listing) }
{
    let defs = defs_of(alloc, config, list.ids.as_slice())?;
    let globals = config.globals();
    let mode = env_mode_for(order.env_word, globals.env_mode);
    let Ok(pass) = EnvList::read(alloc, &globals.pass) else {
        return Err(AllocError);
    };
    let given = all_given(
        alloc,
        mode,
        &pass,
        env,
        defs.as_slice(),
        listing.parts.as_slice(),
    )?;
    Ok(Plan {
        ids: list.ids,
        defs,
        listing,
        given,
        width: order.width,
        mode: mode_of(order.keep_on),
        force: order.force,
        logs: logs_of(order.logs),
        limit: MAX_FILE_BYTES,
    })
}

/// The plan of a run: the tasks that the words name in the packages that the filters select and, where no filter stands,
/// in the root; with each task what it depends on; in plan order, with their definitions, the listing of what their
/// results depend on, and the variables that are passed on beside those that count. Words behind `--` go to the tasks that
/// are named alone. The input files are read here, each once.
///
/// `Refused` comes for the first reason why there is no plan: a filter that does not read or names no package, by the
/// order of the filters; a word that names no task, a text of `dependsOn` that stands for none, a cycle, a task that does
/// not end by itself; and then what `collect` refuses. `Failed` comes where the tree failed.
pub fn plan_run<T: Tree>(
    alloc: Global,
    tree: &mut T,
    repository: &Repository,
    order: &RunOrder,
    env: &[(Text, Text)],
) -> Result<Plan, Stop>
    requires none { (path : Path) → (T.state tree.old).held path ≡ false }
    requires walk { IsWalk repository.now.walk }
    requires walked { AreWalked repository.now.walk repository.now.packages.packages }
    requires wide { 0 < order.now.width }
    requires narrow { order.now.width ≤ width_limit }
    ensures looks { Looks (T.state tree.old) (T.state tree.new) }
    ensures plans { T.tells → Answers (contents_of repository.now) order.now env.now
        (T.state tree.old).files result }
    ensures valid { IfOk result IsValidPlan }
    ensures inputs { T.tells → IfOk result (λ plan. HoldsInputs plan (T.state tree.old).files) }
    ensures cause { HasCause (T.state tree.old).faults (T.state tree.new).faults result }
{
    let prepared = match prepare(alloc, repository, order) {
        Ok(prepared) => prepared,
        Err(e) => return Err(e),
    };
    let wanted = prepared.wanted.as_slice();
    let listing = match listing_of(alloc, tree, repository, wanted, env) {
        Ok(listing) => listing,
        Err(e) => return Err(e),
    };
    match plan_of(
        alloc,
        &repository.config,
        order,
        env,
        prepared.list,
        listing,
    ) {
        Ok(plan) => Ok(plan),
        Err(_) => Err(Stop::OutOfMemory),
    }
}
