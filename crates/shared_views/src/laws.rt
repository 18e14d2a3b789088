// Laws of runs that share a file of pairs. Each is the contract of a function that does nothing:
// who calls it, knows the law.
ghost use Rattle.shared_views.specs.Laws.{FileLaw, MomentLaw, ViewLaw, LookLaw, OthersLaw};
ghost use Rattle.shared_views.specs.Laws.{OriginLaw};
ghost use Rattle.shared_views.specs.TwoRuns.{TwoRunsLaw};

/// Where each run adds a first part of what is due from it, in its order, the file has its first
/// pairs followed by an interleaving of these parts.
pub fn file_law()
    ensures { FileLaw }
{}

/// At every moment the events so far are a history, and the file only grows.
pub fn moment_law()
    ensures { MomentLaw }
{}

/// The view of a run is the file's pairs as it entered, followed by its own additions so far.
pub fn view_law()
    ensures { ViewLaw }
{}

/// A look-up answers from its own run's view: its own pairs first, then those of the file as the
/// run entered.
pub fn look_law()
    ensures { LookLaw }
{}

/// What other runs do behind the entering of a run changes none of its answers.
pub fn others_law()
    ensures { OthersLaw }
{}

/// Each pair of the file and of a view was there first or is due from a run.
pub fn origin_law()
    ensures { OriginLaw }
{}

/// Two runs whose additions interleave: there are such histories, and this is where one leads.
pub fn two_runs_law()
    ensures { TwoRunsLaw }
{}
