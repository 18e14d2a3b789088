// Laws of finished greedy lists of steps. Each is the contract of a function that does nothing: who
// calls it, knows the law.
ghost use Rattle.schedule_laws.specs.Reported.{UnreportedLaw, AllReportedLaw};
ghost use Rattle.schedule_laws.specs.Starts.{StartsLaw};

/// Why a run doesn't report a task. Where a failure stops the run, the first one ended before the
/// task was started or settled; where it leaves the tasks above, an ancestor failed; and where it
/// stops nothing, all tasks are reported.
pub fn unreported_law()
    ensures { UnreportedLaw }
{}

/// Where nothing fails, a run reports all tasks, in every mode.
pub fn all_reported_law()
    ensures { AllReportedLaw }
{}

/// A run starts the tasks that are to run and that it reports, and no others. Each has one start
/// and one end.
pub fn starts_law()
    ensures { StartsLaw }
{}
