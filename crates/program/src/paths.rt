// Where the files of the stores stand.
use os_edge::STORE_PATH;
use rel_path::Text;
use turbo_app::StoreFile;

const SPARE_PATH: &str = ".turbo/spare.turb";

const SECOND_PATH: &str = ".turbo/remote.turb";

/// The variable that says where the second store stands.
const SECOND_VARIABLE: &str = "TURBO_REMOTE_STORE";

const SHARED_PATH: &str = ".turbo/shared.turb";

/// The variable that says where the shared file stands.
const SHARED_VARIABLE: &str = "TURBO_SHARED_STORE";

// The value of the variable, or that one.
fn value_or<'e>(env: &'e [(Text, Text)], variable: &str, otherwise: &'static str) -> &'e str {
    for (name, value) in env {
        if name.as_str() == variable {
            return value.as_str();
        }
    }
    otherwise
}

/// The path of the file, from the current folder or, with a `/` in front, from the root of the file
/// system.
pub(crate) fn path_of<'e>(env: &'e [(Text, Text)], file: StoreFile) -> &'e str {
    match file {
        StoreFile::Store => STORE_PATH,
        StoreFile::Spare => SPARE_PATH,
        StoreFile::Second => value_or(env, SECOND_VARIABLE, SECOND_PATH),
        StoreFile::Shared => value_or(env, SHARED_VARIABLE, SHARED_PATH),
    }
}
