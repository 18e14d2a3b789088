// The root manifest, read.
ghost use Rattle.std.specs.Prelude.{◌≡◌, [], false, IfOk};
ghost use Rattle.rel_path.specs.Paths.{Path};
ghost use Rattle.tree_dev.specs.Tree.{Looks};
ghost use Rattle.manifest.specs.Manifest.{AreAscending};
ghost use Rattle.workspaces.specs.Space.{manifest_name};
ghost use Rattle.repository.specs.Steps.{at_root};
ghost use Rattle.refusals.specs.Stops.{HasCause};
ghost use Rattle.repository.specs.Reading.{root_from, root_manifest};
ghost use Rattle.repository.specs.Answers.{Answers, manifest_stop};

use manifest::{Manifest, ManifestErr};
use refusals::{Refusal, Stop};
use rel_path::RelPath;
use rel_path::limits::MAX_FILE_BYTES;
use std::alloc::Global;
use tree_dev::{DevErr, Found, Tree};

fn manifest_refused(path: RelPath, fault: ManifestErr) -> Stop
    ensures { result ≡ manifest_stop path fault }
{
    match fault {
        ManifestErr::OutOfMemory => Stop::OutOfMemory,
        fault => Stop::Refused(Refusal::Manifest { path, fault }),
    }
}

/// The root manifest by what was found at its path.
fn root_from(alloc: Global, path: RelPath, found: Found) -> Result<Manifest, Stop>
    requires { path ≡ at_root manifest_name }
    ensures answers { Answers (root_from found) result }
    ensures ascending { IfOk result AreAscending }
    ensures no_failure { HasCause 0 0 result }
{
    match found {
        Found::Absent => Err(Stop::Refused(Refusal::NoManifest)),
        Found::TooLong => Err(Stop::Refused(Refusal::TooLarge { path })),
        Found::Here(bytes) => match Manifest::read(alloc, bytes.as_slice(), true) {
            Ok(manifest) => Ok(manifest),
            Err(fault) => Err(manifest_refused(path, fault)),
        },
    }
}

/// The root manifest. The refusals: `NoManifest`, `TooLarge`, `Manifest`.
#[tactic(auto, unfolding(crate::specs::Reading::root_manifest))]
pub(crate) fn root_manifest<T: Tree>(alloc: Global, tree: &mut T) -> Result<Manifest, Stop>
    requires none { (path : Path) → (T.state tree.old).held path ≡ false }
    ensures looks { Looks (T.state tree.old) (T.state tree.new) }
    ensures answers { T.tells → Answers (root_manifest (T.state tree.old).files) result }
    ensures ascending { IfOk result AreAscending }
    ensures cause { HasCause (T.state tree.old).faults (T.state tree.new).faults result }
{
    let path = match RelPath::root(alloc).join(alloc, "package.json") {
        Ok(path) => path,
        Err(_) => return Err(Stop::OutOfMemory),
    };
    match tree.read(alloc, &path, MAX_FILE_BYTES) {
        Ok(found) => root_from(alloc, path, found),
        Err(DevErr::Failed) => Err(Stop::Failed),
        Err(DevErr::OutOfMemory) => Err(Stop::OutOfMemory),
    }
}
