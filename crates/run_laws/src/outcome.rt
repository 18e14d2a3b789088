// What becomes of tasks.
use spawn_dev::Effect;

/// What becomes of a task in a run without a cache.
#[derive(Debug, Drop)]
pub enum Outcome {
    /// It was left out because of a failure below it.
    Skipped,
    /// It has no script.
    Passed,
    /// Its command ended.
    Done(Effect),
}
