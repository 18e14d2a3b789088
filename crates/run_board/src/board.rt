// What a run keeps of its tasks.
use crate::tables::{Fingerprints, Flags, Logs};
use run_core::Core;
use run_plan::Reports;

/// What a run keeps of its tasks: how far each is, what is to be said of it, its log until that
/// was said, whether it and all its ancestors came to a good end, the fingerprint of its key where
/// that was hashed, how many tasks were shown, in the order of the plan, and the place from which
/// keys are still to be hashed ahead: those of all tasks before it were hashed, or are hashed when
/// they are asked for.
#[derive(Drop)]
pub struct Board {
    pub core: Core,
    pub reports: Reports,
    pub logs: Logs,
    pub good: Flags,
    pub fingerprints: Fingerprints,
    pub shown: usize,
    pub ahead: u32,
}
