// The listing of the wanted tasks.
ghost use Rattle.std.specs.Prelude.{◌≡◌, true, false, IfOk};
ghost use Rattle.rel_path.specs.Paths.{Path};
ghost use Rattle.rel_path.specs.Files.{file_at};
ghost use Rattle.tree_dev.specs.Tree.{Looks};
ghost use Rattle.tree_walk.specs.Walked.{IsWalk};
ghost use Rattle.workspaces.specs.Space.{AreWalked};
ghost use Rattle.run_laws.specs.Closures.{names};
ghost use Rattle.run_laws.specs.Valid.{IsOrdered};
ghost use Rattle.run_laws.specs.Plans.{AreApart};
ghost use Rattle.repository.specs.Reading.{contents_of};
ghost use Rattle.refusals.specs.Stops.{HasCause};
ghost use Rattle.planner.specs.Steps.{AnswersListing, AreInOrder, IsListed, collect_error};

use collect::{CollectErr, Wanted, collect};
use listing::Listing;
use refusals::{Refusal, Stop};
use rel_path::Text;
use repository::Repository;
use std::alloc::Global;
use tree_dev::Tree;

fn collect_error(fault: CollectErr) -> Stop
    ensures { result ≡ collect_error fault }
{
    match fault {
        CollectErr::Missing { from, name } => { Stop::Refused(Refusal::LockMissing { from, name }) }
        CollectErr::TooLarge { path } => Stop::Refused(Refusal::TooLarge { path }),
        CollectErr::TooMuch { bytes } => Stop::Refused(Refusal::TooMuch { bytes }),
        CollectErr::Failed => Stop::Failed,
        CollectErr::OutOfMemory => Stop::OutOfMemory,
    }
}

/// The listing of the wanted tasks, whose input files are read here.
pub(crate) fn listing_of<T: Tree>(
    alloc: Global,
    tree: &mut T,
    repository: &Repository,
    wanted: &[Wanted],
    env: &[(Text, Text)],
) -> Result<Listing, Stop>
    requires none { (path : Path) → (T.state tree.old).held path ≡ false }
    requires walk { IsWalk repository.now.walk }
    requires walked { AreWalked repository.now.walk repository.now.packages.packages }
    requires order { AreInOrder repository.now.config repository.now.packages wanted.now }
    ensures looks { Looks (T.state tree.old) (T.state tree.new) }
    ensures collects { T.tells → AnswersListing (contents_of repository.now)
        (T.state tree.old).files env.now wanted.now result }
    ensures listed { IfOk result (IsListed (contents_of repository.now) env.now wanted.now) }
    ensures ordered { IfOk result IsOrdered }
    ensures apart { IfOk result AreApart }
    ensures inputs { T.tells → IfOk result (λ l. (path : Path) → names l.parts path ≡ true
        → (T.state tree.old).files path ≡ file_at l.files path) }
    ensures cause { HasCause (T.state tree.old).faults (T.state tree.new).faults result }
{
    // That there are packages at all says that none lies in another.
    let _count = repository.packages.count();
    match collect(
        alloc,
        tree,
        &repository.walk,
        &repository.packages,
        &repository.config,
        repository.lock.as_ref(),
        wanted,
        env,
    ) {
        Ok(listing) => Ok(listing),
        Err(fault) => Err(collect_error(fault)),
    }
}
