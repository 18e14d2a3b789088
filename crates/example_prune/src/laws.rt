// The law of the example: the contract of a function that does nothing.
ghost use Rattle.example_prune.specs.Laws.{ExampleLaw};

/// What the laws of pruned plans ask for holds together, of a repository of two packages that is
/// pruned for one of them alone.
pub fn premises_hold()
    ensures { ExampleLaw }
{}
