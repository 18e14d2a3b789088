// What the program answers.
ghost use Rattle.std.specs.Prelude.{◌≡◌};
ghost use Rattle.answers.specs.Answers.{exit_status};

use refusals::Refusal;

/// How a call of `turbo` ended.
#[derive(Debug, Drop)]
pub enum Answer {
    /// What was asked for was done. The status is 0 where no task failed, else the greatest status
    /// of a failed task.
    Done { status: u8 },
    /// Nothing was started, and the reason is all that was printed. Nothing changed, but that pruning
    /// which is refused for a file that is too large leaves those in front of it.
    Refused(Refusal),
    /// A file could not be read, written or removed.
    TreeFault,
    /// The store's device failed.
    StoreFault,
    /// A command could not be started or waited for.
    StartFault,
    /// The output could not be written.
    SinkFault,
    /// Memory was wanting. It may come at any time.
    OutOfMemory,
}

impl Answer {
    /// The exit status of the program: that of the run, and 1 for every other answer.
    pub fn status(&self) -> u8
        ensures { result ≡ exit_status self.now }
    {
        match self {
            Answer::Done { status } => *status,
            _ => 1,
        }
    }
}
