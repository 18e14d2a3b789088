// The turbo.json files of a repository, read.
ghost use Rattle.std.specs.Prelude.{◌≡◌, ◌++◌, map, [], false, IfOk, OnOk};
ghost use Rattle.rel_path.specs.Paths.{Path};
ghost use Rattle.tree_dev.specs.Tree.{Looks};
ghost use Rattle.turbo_config.specs.Files.{root_of, package_of};
ghost use Rattle.refusals.specs.Stops.{HasCause, OnlyMemory};
ghost use Rattle.repository.specs.Reading.{config_at, root_config, package_config, package_configs, homes_of, own_configs, script_names, setup_in};
ghost use Rattle.repository.specs.Answers.{Answers, AnswersAs, config_stop, named};

use refusals::{Refusal, Stop};
use rel_path::limits::MAX_FILE_BYTES;
use rel_path::{RelPath, Text, Texts};
use std::alloc::Global;
use std::collections::BTreeMap;
use task_definitions::Config;
use tree_dev::{DevErr, Found, Tree};
use turbo_config::{ConfigErr, PackageConfig, RootConfig};
use workspaces::Packages;

fn config_refused(path: RelPath, fault: ConfigErr) -> Stop
    ensures { result ≡ config_stop path fault }
{
    match fault {
        ConfigErr::OutOfMemory => Stop::OutOfMemory,
        ConfigErr::Glob { pointer, fault } => Stop::Refused(Refusal::Glob {
            path,
            pointer,
            fault,
        }),
        fault => Stop::Refused(Refusal::Config { path, fault }),
    }
}

/// The root's turbo.json by what was found at its path.
fn root_config_at(alloc: Global, path: RelPath, found: Found) -> Result<Option<RootConfig>, Stop>
    ensures answers { Answers (config_at root_of path found) result }
    ensures no_failure { HasCause 0 0 result }
{
    match found {
        Found::Absent => Ok(None),
        Found::TooLong => Err(Stop::Refused(Refusal::TooLarge { path })),
        Found::Here(bytes) => match RootConfig::read(alloc, bytes.as_slice()) {
            Ok(file) => Ok(Some(file)),
            Err(fault) => Err(config_refused(path, fault)),
        },
    }
}

/// A package's turbo.json by what was found at its path.
fn package_config_at(
    alloc: Global,
    path: RelPath,
    found: Found,
) -> Result<Option<PackageConfig>, Stop>
    ensures answers { Answers (config_at package_of path found) result }
    ensures no_failure { HasCause 0 0 result }
{
    match found {
        Found::Absent => Ok(None),
        Found::TooLong => Err(Stop::Refused(Refusal::TooLarge { path })),
        Found::Here(bytes) => match PackageConfig::read(alloc, bytes.as_slice()) {
            Ok(file) => Ok(Some(file)),
            Err(fault) => Err(config_refused(path, fault)),
        },
    }
}

/// The root's turbo.json, if there is one.
#[tactic(auto, unfolding(crate::specs::Reading::root_config))]
fn root_config<T: Tree>(alloc: Global, tree: &mut T) -> Result<Option<RootConfig>, Stop>
    requires none { (path : Path) → (T.state tree.old).held path ≡ false }
    ensures looks { Looks (T.state tree.old) (T.state tree.new) }
    ensures answers { T.tells → Answers (root_config (T.state tree.old).files) result }
    ensures cause { HasCause (T.state tree.old).faults (T.state tree.new).faults result }
{
    let path = match RelPath::root(alloc).join(alloc, "turbo.json") {
        Ok(path) => path,
        Err(_) => return Err(Stop::OutOfMemory),
    };
    match tree.read(alloc, &path, MAX_FILE_BYTES) {
        Ok(found) => root_config_at(alloc, path, found),
        Err(DevErr::Failed) => Err(Stop::Failed),
        Err(DevErr::OutOfMemory) => Err(Stop::OutOfMemory),
    }
}

/// The turbo.json of the package in the folder, if there is one.
#[tactic(auto, unfolding(crate::specs::Reading::package_config))]
fn package_config<T: Tree>(
    alloc: Global,
    tree: &mut T,
    folder: &RelPath,
) -> Result<Option<PackageConfig>, Stop>
    requires none { (path : Path) → (T.state tree.old).held path ≡ false }
    ensures looks { Looks (T.state tree.old) (T.state tree.new) }
    ensures answers { T.tells
        → Answers (package_config (T.state tree.old).files folder.now) result }
    ensures cause { HasCause (T.state tree.old).faults (T.state tree.new).faults result }
{
    let path = match folder.join(alloc, "turbo.json") {
        Ok(path) => path,
        Err(_) => return Err(Stop::OutOfMemory),
    };
    match tree.read(alloc, &path, MAX_FILE_BYTES) {
        Ok(found) => package_config_at(alloc, path, found),
        Err(DevErr::Failed) => Err(Stop::Failed),
        Err(DevErr::OutOfMemory) => Err(Stop::OutOfMemory),
    }
}

/// Adds the file with the package's name, if there is one.
fn push_named(
    files: &mut Vec<(Text, PackageConfig)>,
    name: &Text,
    file: Option<PackageConfig>,
) -> Result<(), Stop>
    ensures pushed { OnOk result (files.new.items ≡ files.old.items ++ named name.now file) }
    ensures memory { OnlyMemory result }
{
    if let Some(file) = file {
        files.push((name.copy()?, file))?;
    }
    Ok(())
}

/// The turbo.json files of the packages with these folders and names, with the names.
fn package_configs<T: Tree>(
    alloc: Global,
    tree: &mut T,
    homes: &[(RelPath, Text)],
) -> Result<Vec<(Text, PackageConfig)>, Stop>
    requires none { (path : Path) → (T.state tree.old).held path ≡ false }
    ensures looks { Looks (T.state tree.old) (T.state tree.new) }
    ensures answers { T.tells → AnswersAs (λ files. files.items)
        (package_configs (T.state tree.old).files homes.now) result }
    ensures cause { HasCause (T.state tree.old).faults (T.state tree.new).faults result }
{
    let mut files = Vec::new(alloc);
    for home in homes {
        let file = match package_config(alloc, tree, &home.0) {
            Ok(file) => file,
            Err(e) => return Err(e),
        };
        match push_named(&mut files, &home.1, file) {
            Ok(()) => {}
            Err(_) => return Err(Stop::OutOfMemory),
        }
    }
    Ok(files)
}

/// The packages' names by their folders. They are put in from the last package on, as the order by folders is defined.
fn names_by_folder(alloc: Global, packages: &Packages) -> Result<BTreeMap<RelPath, Text>, Stop>
    ensures value { IfOk result (λ names. names.entries ≡ homes_of packages.now.packages) }
    ensures memory { OnlyMemory result }
{
    let mut names = BTreeMap::new(alloc);
    for p in (0..packages.count()).rev() {
        names.insert(packages.folder(p).copy()?, packages.name(p).copy()?)?;
    }
    Ok(names)
}

/// The packages' folders and names, in the order of the folders.
fn homes_of(alloc: Global, packages: &Packages) -> Result<Vec<(RelPath, Text)>, Stop>
    ensures value { IfOk result (λ homes. homes.items ≡ homes_of packages.now.packages) }
    ensures memory { OnlyMemory result }
{
    let names = names_by_folder(alloc, packages)?;
    let homes: Vec<(RelPath, Text)> = names.into_iter().collect(alloc)?;
    Ok(homes)
}

/// The turbo.json files of the packages, with the packages' names; where the root has none, they are not read.
fn own_configs<T: Tree>(
    alloc: Global,
    tree: &mut T,
    packages: &Packages,
    root: &Option<RootConfig>,
) -> Result<Vec<(Text, PackageConfig)>, Stop>
    requires none { (path : Path) → (T.state tree.old).held path ≡ false }
    ensures looks { Looks (T.state tree.old) (T.state tree.new) }
    ensures answers { T.tells → AnswersAs (λ files. files.items)
        (own_configs (T.state tree.old).files packages.now.packages root.now) result }
    ensures cause { HasCause (T.state tree.old).faults (T.state tree.new).faults result }
{
    if root.is_none() {
        return Ok(Vec::new(alloc));
    }
    let homes = match homes_of(alloc, packages) {
        Ok(homes) => homes,
        Err(_) => return Err(Stop::OutOfMemory),
    };
    package_configs(alloc, tree, homes.as_slice())
}

/// Adds the names of these scripts.
fn add_names(names: &mut Texts, scripts: &[(Text, Text)]) -> Result<(), Stop>
    ensures added { OnOk result (names.new ≡ names.old ++ map (λ script. script.0) scripts.now) }
    ensures memory { OnlyMemory result }
{
    for script in scripts {
        names.push(script.0.copy()?)?;
    }
    Ok(())
}

/// The names of the scripts of all packages.
fn script_names(alloc: Global, packages: &Packages) -> Result<Texts, Stop>
    ensures value { IfOk result (λ names. names ≡ script_names packages.now.packages) }
    ensures memory { OnlyMemory result }
{
    let mut names = Texts::new(alloc);
    for p in 0..packages.count() {
        add_names(&mut names, packages.manifest(p).scripts.as_slice())?;
    }
    Ok(names)
}

/// What the turbo.json files say. The refusals of the root's, and then of the packages' in the order of their folders:
/// `TooLarge`, and `Config` or `Glob`.
#[tactic(auto, unfolding(crate::specs::Reading::setup_in))]
pub(crate) fn setup_in<T: Tree>(
    alloc: Global,
    tree: &mut T,
    packages: &Packages,
) -> Result<Config, Stop>
    requires none { (path : Path) → (T.state tree.old).held path ≡ false }
    ensures looks { Looks (T.state tree.old) (T.state tree.new) }
    ensures answers { T.tells
        → Answers (setup_in (T.state tree.old).files packages.now.packages) result }
    ensures cause { HasCause (T.state tree.old).faults (T.state tree.new).faults result }
{
    let root = match root_config(alloc, tree) {
        Ok(root) => root,
        Err(e) => return Err(e),
    };
    let own = match own_configs(alloc, tree, packages, &root) {
        Ok(own) => own,
        Err(e) => return Err(e),
    };
    let scripts = match script_names(alloc, packages) {
        Ok(scripts) => scripts,
        Err(_) => return Err(Stop::OutOfMemory),
    };
    match Config::new(alloc, root, own, scripts) {
        Ok(config) => Ok(config),
        Err(_) => Err(Stop::OutOfMemory),
    }
}
