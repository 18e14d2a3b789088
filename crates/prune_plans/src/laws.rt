// What an order asks for in a pruned repository. Each law is the contract of a function that does
// nothing: who calls it, knows the law.
ghost use Rattle.prune_plans.specs.Laws.{PlanLaw, AnswerLaw, PairLaw, FilesLaw};

/// An order that asks for tasks of a package, by its plain name, has in the repository that was
/// pruned for that package the plan that it has in the whole one.
pub fn plan_law()
    ensures { PlanLaw }
{}

/// Such an order gets no other answer in the pruned repository: no other plan, and no refusal.
pub fn answer_law()
    ensures { AnswerLaw }
{
    plan_law();
    plan_laws::plan_law();
}

/// The plans of such an order in both repositories are as the laws of `prune_laws` ask for.
pub fn pair_law()
    ensures { PairLaw }
{
    answer_law();
}

/// Over the pruned files such an order asks for the plan of the whole repository and for nothing
/// else, where the text of the cut lockfile is within the limit of a file.
pub fn files_law()
    ensures { FilesLaw }
{
    plan_law();
    pruned_reading::reading_law();
    plan_laws::order_law();
}
