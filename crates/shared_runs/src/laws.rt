// Laws of a run's cache. Each is the contract of a function that does nothing: who calls it, knows
// the law.
ghost use Rattle.shared_runs.specs.Steps.{SeenLaw, ComesLaw};

use crate::Shared;
use shared_views::view_law;

/// What a run sees is what the file had as it entered, and then what it has put itself since, in
/// order: no later pair of another run.
pub fn seen_law<H: Shared>()
    ensures { SeenLaw H.Shared H.Device.StoreDevice }
{
    view_law();
}

/// Whatever is to come before a turn, there are events of other runs that bring it. So what the
/// calls of a cache promise of each history is promised of some.
pub fn comes_law<H: Shared>()
    ensures { ComesLaw H.Shared H.Device.StoreDevice }
{}
