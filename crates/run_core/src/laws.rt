// Laws of runs of a scheduler, as functions that do nothing.
ghost use Rattle.run_core.specs.Machine.{NextLaw};
ghost use Rattle.run_core.specs.Moves.{GreedyLaw, ReportedLaw, RunLaw};

/// Whatever commands end first, and with whatever status: what a scheduler answers leads to greedy steps.
pub fn greedy_law()
    ensures { GreedyLaw }
{}

/// Where no failure stops the run, the set of reported tasks doesn't depend on the order of ends.
pub fn reported_law()
    ensures { ReportedLaw }
{}

/// What a caller of a scheduler keeps over a run: where it is, that it comes nearer to its end, and what holds there.
pub fn run_law()
    ensures { RunLaw }
{}

/// What an answer of a scheduler tells its caller.
pub fn next_law()
    ensures { NextLaw }
{}
