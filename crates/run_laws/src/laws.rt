// The laws of runs. Each is the contract of a function that does nothing: who calls it, knows the law.
ghost use Rattle.run_laws.specs.ClosureLaws.{ClosureLaw, ClosureIsOrdered, ClosureIsValid};
ghost use Rattle.run_laws.specs.CleanLaws.{EachLaw, SeenLaw, SkippedLaw, ModesLaw, EndsLaw, EffectLaw};
ghost use Rattle.run_laws.specs.FoundLaws.{ArtifactsDiffer, FilesDiffer, FoundLaw};
ghost use Rattle.run_laws.specs.PairLaws.{KeysLaw, HitLaw, DueLaw, HistoryLaw};
ghost use Rattle.run_laws.specs.Plans.{LogLaw};
ghost use Rattle.run_laws.specs.Runs.{RunLaw};
ghost use Rattle.run_laws.specs.WorldLaws.{StartLaw, StepsLaw, ShowsLaw, LeavesLaw};

/// The closure law: what becomes of a task is what becomes of the last task of its closure, in every mode.
pub fn closure_law()
    ensures { ClosureLaw }
{}

/// The closure of a task of a valid listing is a valid listing.
pub fn closure_is_valid()
    ensures ordered { ClosureIsOrdered }
    ensures valid { ClosureIsValid }
{}

/// Each outcome of the run without a cache is that of its part, by the whole list of outcomes.
pub fn each_law()
    ensures { EachLaw }
{}

/// What a task sees at a path is what the last ancestor wrote there, and else the input.
pub fn seen_law()
    ensures { SeenLaw }
{}

/// In a mode that leaves tasks out, exactly the tasks above a failure are left out.
pub fn skipped_law()
    ensures { SkippedLaw }
{}

/// Where all ends are good, the modes agree.
pub fn modes_law()
    ensures { ModesLaw }
{}

/// An end with status 0 stands on good ends.
pub fn ends_law()
    ensures { EndsLaw }
{}

/// What a command does in the run without a cache is an effect of its task.
pub fn effect_law()
    ensures { EffectLaw }
{}

/// Equal keys stand for equal closures, and so for one task with one outcome.
pub fn keys_law()
    ensures { KeysLaw }
{}

/// Equal artifact texts stand for equal artifacts, and files in ascending order that are one map are one list.
pub fn artifact_law()
    ensures texts { ArtifactsDiffer }
    ensures files { FilesDiffer }
{}

/// What is found in a store for a task is what a pair with the whole key holds, and the task owns all its files.
pub fn found_law()
    ensures { FoundLaw }
{}

/// What good pairs hold for a task is the artifact of its clean outcome.
pub fn hit_law()
    ensures { HitLaw }
{
    cache_api::artifact_law();
}

/// A pair that is due keeps the pairs good.
pub fn due_law()
    ensures { DueLaw }
{}

/// All stores of a chain of runs are good.
pub fn history_law()
    ensures { HistoryLaw }
{}

/// Different tasks have different log files, as long as their names hold no `$`.
pub fn log_law()
    ensures { LogLaw }
{}

/// What a command does in files that are ready for it is its clean outcome.
pub fn start_law()
    ensures { StartLaw }
{}

/// Passing over, a hit, a start and an end keep what the files hold; what a command does is its clean outcome.
pub fn steps_law()
    ensures { StepsLaw }
{}

/// What a finished task has left, whatever else runs.
pub fn shows_law()
    ensures { ShowsLaw }
{}

/// What a run leaves where nothing runs any more.
pub fn leaves_law()
    ensures { LeavesLaw }
{}

/// A whole run, in whatever order commands end: what it leaves is what the run without a cache leaves, and the store stays
/// good.
pub fn run_law()
    ensures { RunLaw }
{
    cache_api::artifact_law();
}
