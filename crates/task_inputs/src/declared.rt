// What the tasks of a workspace declare.
ghost use Rattle.std.specs.Prelude.{◌≡◌, ◌<◌, ◌&&◌, not, if◌then◌else◌, length, map, IfOk, OnOk, Some};
ghost use Rattle.std.specs.List.{HoldsAt};
ghost use Rattle.rel_path.specs.Paths.{Path, path_eq};
ghost use Rattle.listing.specs.Memory.{OnlyMemory};
ghost use Rattle.workspaces.specs.Space.{owners, is_root_folder, manifest_in};
ghost use Rattle.task_inputs.specs.Homes.{LieApart, home_of, declared_in, others_than};
ghost use Rattle.task_inputs.specs.Facts.{may_count_in};
ghost use Rattle.task_inputs.specs.Folders.{AreHomes, AreIndexed, IsFound, IsHomeOf, Numbers, number_at};

use crate::configured::OwnerTasks;
use crate::files::is_file_in;
use globs::GlobLists;
use listing::ListErr;
use rel_path::{RelPath, Text};
use std::alloc::Global;
use std::collections::BTreeMap;
use std::marker::Model;
use task_definitions::Config;
use workspaces::Packages;

type Folders = BTreeMap<Vec<Text>, usize>;

/// What the configured tasks of each owner declare, which contracts see as the owners' folders with their tasks: the
/// packages in their order and, behind them, the root. A path has one home, whose tasks alone may declare it: the package
/// whose folder it lies below, else the root. The package is found by the names of the folders above the path.
#[derive(Debug, Drop)]
pub struct Declared {
    homes: Vec<OwnerTasks>,
    folders: Folders,
}

impl Model for Declared {
    ghost use Rattle.std.specs.Prelude.{List};
    ghost use Rattle.task_inputs.specs.Homes.{Home};

    ghost Value = { List Home };

    ghost use Rattle.task_inputs.specs.Folders.{AreIndexed};

    ghost view = { λ a. a.homes.items };

    ghost invariant = { λ a. AreIndexed a.homes.items a.folders };
}

/// The number that stands by the folder.
fn number_at(folders: &Folders, folder: &[Text]) -> Option<usize>
    ensures { result ≡ number_at folders.now folder.now }
{
    folders.get(folder).copied()
}

/// The number of a folder above the path.
fn number_above(folders: &Folders, path: &[Text]) -> Option<usize>
    ensures { IsFound folders.now path.now result }
{
    let mut depth = path.len();
    while depth > 0 {
        depth -= 1;
        if let Some(number) = number_at(folders, &path[..depth]) {
            return Some(number);
        }
    }
    None
}

fn names_of(alloc: Global, folder: &RelPath) -> Result<Vec<Text>, ListErr>
    ensures value { IfOk result (λ names. names.items ≡ folder.now) }
    ensures memory { OnlyMemory result }
{
    let mut names = Vec::new(alloc);
    for name in folder.components() {
        names.push(name.copy()?)?;
    }
    Ok(names)
}

/// Puts the number by the folder.
fn add_folder(
    alloc: Global,
    folders: &mut Folders,
    folder: &RelPath,
    number: usize,
) -> Result<(), ListErr>
    ensures added { OnOk result ((other : Path) → number_at folders.new other
        ≡ (if path_eq other folder.now then Some number else number_at folders.old other)) }
    ensures memory { OnlyMemory result }
{
    let names = names_of(alloc, folder)?;
    folders.insert(names, number)?;
    Ok(())
}

/// Whether the path is the `package.json` of the package in the folder. The root folder has no package.
fn is_package_json(path: &RelPath, folder: &RelPath) -> bool
    ensures { result
        ≡ (not (is_root_folder folder.now) && path_eq path.now (manifest_in folder.now)) }
{
    !folder.components().is_empty() && is_file_in(path, folder, "package.json")
}

/// The configured tasks of the owner.
fn tasks_of(
    alloc: Global,
    packages: &Packages,
    config: &Config,
    owner: u32,
) -> Result<OwnerTasks, ListErr>
    requires { owner < length (owners packages.now) }
    ensures value { IfOk result
        (λ tasks. HoldsAt (λ p. tasks ≡ home_of config.now p) (owners packages.now) owner) }
    ensures memory { OnlyMemory result }
{
    let name = packages.name(owner);
    let folder = packages.folder(owner);
    let scripts = packages.manifest(owner).scripts.as_slice();
    OwnerTasks::new(alloc, config, name, folder, scripts)
}

/// The configured tasks of each owner.
fn all_homes(
    alloc: Global,
    packages: &Packages,
    config: &Config,
) -> Result<Vec<OwnerTasks>, ListErr>
    requires apart { LieApart packages.now.packages }
    ensures value { IfOk result
        (λ homes. homes.items ≡ map (home_of config.now) (owners packages.now)) }
    ensures homes { IfOk result (λ homes. AreHomes homes.items) }
    ensures memory { OnlyMemory result }
{
    let mut homes = Vec::new(alloc);
    for owner in 0..=packages.count() {
        homes.push(tasks_of(alloc, packages, config, owner)?)?;
    }
    Ok(homes)
}

/// The numbers of the packages by their folders.
fn all_folders(alloc: Global, packages: &Packages) -> Result<Folders, ListErr>
    ensures numbers { IfOk result (Numbers (owners packages.now) (length packages.now.packages)) }
    ensures memory { OnlyMemory result }
{
    let mut folders = BTreeMap::new(alloc);
    for p in 0..packages.count() {
        add_folder(alloc, &mut folders, packages.folder(p), p as usize)?;
    }
    Ok(folders)
}

impl Declared {
    /// What the configured tasks of the packages and of the root declare. No package lies in another.
    pub fn new(alloc: Global, packages: &Packages, config: &Config) -> Result<Declared, ListErr>
        requires apart { LieApart packages.now.packages }
        ensures value { IfOk result
            (λ declared. declared ≡ map (home_of config.now) (owners packages.now)) }
        ensures homes { IfOk result AreHomes }
        ensures memory { OnlyMemory result }
    {
        let homes = all_homes(alloc, packages, config)?;
        let folders = all_folders(alloc, packages)?;
        Ok(Declared { homes, folders })
    }

    fn folders(&self) -> &Folders
        ensures { AreIndexed self.now result.now }
    {
        &self.folders
    }

    fn homes(&self) -> &[OwnerTasks]
        ensures { result.now ≡ self.now }
    {
        self.homes.as_slice()
    }

    /// How many owners there are.
    pub(crate) fn count(&self) -> usize
        ensures value { result ≡ length self.now }
        ensures homes { AreHomes self.now }
    {
        self.homes.len()
    }

    /// The number of the path's home: the package in whose folder it lies, else the root. The root folder has none.
    pub(crate) fn home(&self, path: &RelPath) -> Option<usize>
        ensures home { IsHomeOf self.now path.now result }
        ensures homes { AreHomes self.now }
    {
        let names = path.components();
        match number_above(self.folders(), names) {
            Some(number) => Some(number),
            None if names.is_empty() => None,
            None => Some(self.count() - 1),
        }
    }

    /// Whether a configured task of the path's home declares it. It takes no memory.
    pub fn holds(&self, path: &RelPath) -> bool
        ensures { result ≡ declared_in self.now path.now }
    {
        match self.home(path) {
            None => false,
            Some(number) => self.homes()[number].declares(path),
        }
    }

    /// Whether the path may count through a glob: no task declares it, and it is no package's `package.json`.
    #[tactic(auto, unfolding(crate::specs::Facts::may_count_in))]
    pub(crate) fn may_count(&self, home: Option<usize>, path: &RelPath) -> bool
        requires home { IsHomeOf self.now path.now home }
        requires homes { AreHomes self.now }
        ensures { result ≡ may_count_in self.now path.now }
    {
        match home {
            None => true,
            Some(number) => {
                let tasks = &self.homes()[number];
                !tasks.declares(path) && !is_package_json(path, tasks.folder())
            }
        }
    }

    /// What the configured tasks of the owner but the one of this name declare, in the order of its scripts.
    pub fn others(&self, alloc: Global, owner: u32, task: &Text) -> Result<GlobLists, ListErr>
        requires { owner < length self.now }
        ensures value { IfOk result
            (λ lists. HoldsAt (λ home. lists ≡ others_than task.now home.tasks) self.now owner) }
        ensures memory { OnlyMemory result }
    {
        self.homes()[owner as usize].others(alloc, task)
    }
}
