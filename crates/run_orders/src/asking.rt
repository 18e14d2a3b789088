// The plan that an order to run asks for.
ghost use Rattle.std.specs.Prelude.{◌≡◌, ◌<◌, ◌≤◌, false, IfOk};
ghost use Rattle.rel_path.specs.Limits.{width_limit};
ghost use Rattle.rel_path.specs.Paths.{Path};
ghost use Rattle.tree_dev.specs.Tree.{Looks};
ghost use Rattle.run_plan.specs.Openings.{HoldsInputs};
ghost use Rattle.run_plan.specs.Plans.{IsValidPlan};
ghost use Rattle.refusals.specs.Stops.{HasCause};
ghost use Rattle.run_orders.specs.Steps.{AsksAs};

use cli_words::RunOrder;
use planner::plan_run;
use refusals::Stop;
use rel_path::Text;
use repository::read_repository;
use run_plan::Plan;
use std::alloc::Global;
use tree_dev::Tree;

/// The plan that an order to run asks for.
pub(crate) fn asked<T: Tree>(
    alloc: Global,
    tree: &mut T,
    order: &RunOrder,
    env: &[(Text, Text)],
) -> Result<Plan, Stop>
    requires none { (path : Path) → (T.state tree.old).held path ≡ false }
    requires wide { 0 < order.now.width }
    requires narrow { order.now.width ≤ width_limit }
    ensures looks { Looks (T.state tree.old) (T.state tree.new) }
    ensures asks { T.tells → AsksAs order.now env.now (T.state tree.old).files result }
    ensures valid { IfOk result IsValidPlan }
    ensures inputs { T.tells → IfOk result (λ plan. HoldsInputs plan (T.state tree.old).files) }
    ensures cause { HasCause (T.state tree.old).faults (T.state tree.new).faults result }
{
    let repository = match read_repository(alloc, tree) {
        Ok(repository) => repository,
        Err(stop) => return Err(stop),
    };
    // The errors stand one by one for the prover.
    match plan_run(alloc, tree, &repository, order, env) {
        Ok(plan) => Ok(plan),
        Err(Stop::Refused(reason)) => Err(Stop::Refused(reason)),
        Err(Stop::Failed) => Err(Stop::Failed),
        Err(Stop::OutOfMemory) => Err(Stop::OutOfMemory),
    }
}
