// What stays of the tasks of a pruned repository. Each law is the contract of a function that does nothing: who calls it, knows the law.
ghost use Rattle.prune_laws.specs.Laws.{PruneLaw, OutcomeLaw};

/// A task of an owner that stays and has a script of the task's name has one closure in a plan of the repository and in a
/// plan of what a pruning leaves of it.
pub fn prune_law()
    ensures { PruneLaw }
{
    env_select::choice_law();
}

/// In the run without a cache the same becomes of such a task in both plans, and its key text is the same: a result that
/// one of the two repositories kept serves the other.
pub fn outcome_law()
    ensures { OutcomeLaw }
{
    prune_law();
    run_laws::closure_law();
}
