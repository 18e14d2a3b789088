// The lockfile, read.
ghost use Rattle.std.specs.Prelude.{◌≡◌, false};
ghost use Rattle.std.specs.Option.{option_map};
ghost use Rattle.serde_json.specs.View.{view};
ghost use Rattle.rel_path.specs.Paths.{Path};
ghost use Rattle.tree_dev.specs.Tree.{Looks};
ghost use Rattle.repository.specs.Steps.{at_root};
ghost use Rattle.refusals.specs.Stops.{HasCause};
ghost use Rattle.repository.specs.Reading.{lock_name, lock_from, lockfile};
ghost use Rattle.repository.specs.Answers.{AnswersAs, lock_stop};

use lock_entries::LockErr;
use npm_lock::Lock;
use refusals::{Refusal, Stop};
use rel_path::RelPath;
use rel_path::limits::MAX_FILE_BYTES;
use std::alloc::Global;
use tree_dev::{DevErr, Found, Tree};

fn lock_refused(fault: LockErr) -> Stop
    ensures { result ≡ lock_stop fault }
{
    match fault {
        LockErr::OutOfMemory => Stop::OutOfMemory,
        fault => Stop::Refused(Refusal::Lock(fault)),
    }
}

/// The lockfile by what was found at its path.
fn lock_from(alloc: Global, path: RelPath, found: Found) -> Result<Option<Lock>, Stop>
    requires { path ≡ at_root lock_name }
    ensures answers { AnswersAs (λ lock. option_map view lock) (lock_from found) result }
    ensures no_failure { HasCause 0 0 result }
{
    match found {
        Found::Absent => Ok(None),
        Found::TooLong => Err(Stop::Refused(Refusal::TooLarge { path })),
        Found::Here(bytes) => match Lock::read(alloc, bytes.as_slice()) {
            Ok(lock) => Ok(Some(lock)),
            Err(fault) => Err(lock_refused(fault)),
        },
    }
}

/// The lockfile, if there is one. The refusals: `TooLarge`, `Lock`.
#[tactic(auto, unfolding(crate::specs::Reading::lockfile))]
pub(crate) fn lockfile<T: Tree>(alloc: Global, tree: &mut T) -> Result<Option<Lock>, Stop>
    requires none { (path : Path) → (T.state tree.old).held path ≡ false }
    ensures looks { Looks (T.state tree.old) (T.state tree.new) }
    ensures answers { T.tells → AnswersAs (λ lock. option_map view lock)
        (lockfile (T.state tree.old).files) result }
    ensures cause { HasCause (T.state tree.old).faults (T.state tree.new).faults result }
{
    let path = match RelPath::root(alloc).join(alloc, "package-lock.json") {
        Ok(path) => path,
        Err(_) => return Err(Stop::OutOfMemory),
    };
    match tree.read(alloc, &path, MAX_FILE_BYTES) {
        Ok(found) => lock_from(alloc, path, found),
        Err(DevErr::Failed) => Err(Stop::Failed),
        Err(DevErr::OutOfMemory) => Err(Stop::OutOfMemory),
    }
}
