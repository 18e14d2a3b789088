// Files that stand in the root folder.
ghost use Rattle.std.specs.Prelude.{◌≡◌};
ghost use Rattle.std.specs.List.{list_any};
ghost use Rattle.rel_path.specs.Paths.{path_eq};
ghost use Rattle.repository.specs.Steps.{at_root};
ghost use Rattle.pruned_files.specs.Pruned.{is_root_file, lock_path};
ghost use Rattle.pruned_files.specs.Folders.{is_layer_root};

use rel_path::RelPath;

/// The last name of a package's manifest.
pub(crate) const MANIFEST_NAME: &str = "package.json";
/// The last name of an ignore file.
pub(crate) const IGNORE_NAME: &str = ".gitignore";

const CONFIG_NAME: &str = "turbo.json";

const NPMRC_NAME: &str = ".npmrc";

const LOCK_NAME: &str = "package-lock.json";

/// Files of the root's that always stay as they are.
const ROOT_FILES: [&str; 4] = [MANIFEST_NAME, CONFIG_NAME, NPMRC_NAME, IGNORE_NAME];
/// Files of the root's that an installation needs.
const LAYER_FILES: [&str; 3] = [MANIFEST_NAME, LOCK_NAME, NPMRC_NAME];

fn is_at_root(path: &RelPath, name: &str) -> bool
    ensures { result ≡ path_eq path.now (at_root name.now) }
{
    match path.components() {
        [only] => only.as_str() == name,
        _ => false,
    }
}

fn is_one_of(path: &RelPath, names: &[&str]) -> bool
    ensures { result ≡ list_any (λ name. path_eq path.now (at_root name.now)) names.now }
{
    names.iter().any(|name| is_at_root(path, name))
}

/// Whether this is the path of the root's lockfile.
pub fn is_lockfile(path: &RelPath) -> bool
    ensures { result ≡ path_eq path.now lock_path }
{
    is_at_root(path, LOCK_NAME)
}

/// Whether this is a file of the root's that always stays as it is.
pub(crate) fn is_root_file(path: &RelPath) -> bool
    ensures { result ≡ is_root_file path.now }
{
    is_one_of(path, &ROOT_FILES)
}

/// Whether this is a file of the root's that an installation needs.
pub(crate) fn is_layer_root(path: &RelPath) -> bool
    ensures { result ≡ is_layer_root path.now }
{
    is_one_of(path, &LAYER_FILES)
}
