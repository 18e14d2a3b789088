// A repository that was read.
use npm_lock::Lock;
use rel_path::Paths;
use task_definitions::Config;
use workspaces::Packages;

/// A repository: the walked files, in order; the packages of its workspace; what its turbo.json files say; and its
/// lockfile, if it has one.
#[derive(Drop)]
pub struct Repository {
    pub walk: Paths,
    pub packages: Packages,
    pub config: Config,
    pub lock: Option<Lock>,
}
