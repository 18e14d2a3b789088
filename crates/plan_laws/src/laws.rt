// What the definitions settle. Each law is the contract of a function that does nothing: who calls it, knows the law.
ghost use Rattle.plan_laws.specs.Laws.{RepositoryLaw, PlanLaw, OrderLaw};

/// At most one answer fits files: the repository that they make, or one reason why they are refused. Files that can be
/// read as a repository are refused for no reason.
pub fn repository_law()
    ensures { RepositoryLaw }
{}

/// At most one answer fits an order to run, an environment and a repository that was read: one plan, with its tasks in
/// one order, the input files and variables of each, and one setting of each option, or one reason why there is none.
pub fn plan_law()
    ensures { PlanLaw }
{
    task_graph::graph_law();
    env_select::choice_law();
}

/// At most one answer fits an order to run, an environment and files: one plan or one refusal. Where there is a plan
/// nothing is refused, and where something is refused there is no plan.
pub fn order_law()
    ensures { OrderLaw }
{
    repository_law();
    plan_law();
}
