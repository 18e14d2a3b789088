// What the definitions settle.
ghost use Rattle.cache_api.specs.Pairs.{Pair};
ghost use Rattle.compact.specs.Chains.{ChainLaw};

/// Which pairs are good. Who proves something of all stores of a chain says here what.
pub trait PairRule {
    ghost good: { Pair → Type 0 };
}

/// All stores of a chain of runs and compactions that began with an empty store have good pairs
/// alone, where each run adds none but good ones.
pub fn chain_law<R: PairRule>()
    ensures { ChainLaw R.good }
{}
