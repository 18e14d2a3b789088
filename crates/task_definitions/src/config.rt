// The tasks of a repository.
ghost use Rattle.std.specs.Prelude.{◌≡◌, [], IfOk, IfSome, IsOkUnless};
ghost use Rattle.std.specs.Option.{option_copied};
ghost use Rattle.turbo_config.specs.Reads.{AreGlobs, DefReads};
ghost use Rattle.task_definitions.specs.Sets.{HasThose};
ghost use Rattle.task_definitions.specs.Setup as spec;

use crate::definition::{def_by_files, def_by_scripts, root_task_def};
use crate::task_names::{file_names, script_names, tails_of};
use rel_path::{Text, Texts};
use std::alloc::Global;
use std::collections::{BTreeMap, BTreeSet};
use std::marker::Model;
use turbo_config::names::is_root_name;
use turbo_config::{ConfigErr, Globals, PackageConfig, RootConfig, TaskDef, Tasks};

/// The tasks of a repository, by its turbo.json files, or by the scripts of its packages where the root has none.
/// Contracts see it as what was handed in, by name (`Setup`).
#[derive(Debug, Drop)]
pub struct Config {
    globals: Globals,
    root: Option<Tasks>,
    /// The tasks of the root's keys `package#task`.
    tails: BTreeSet<Text>,
    packages: BTreeMap<Text, PackageConfig>,
    scripts: BTreeSet<Text>,
}

impl Model for Config {
    ghost use Rattle.task_definitions.specs.Sets.{HasThose};
    ghost use Rattle.task_definitions.specs.Setup.{Setup, ends_in};

    ghost Value = { Setup };

    ghost view = { λ c. record {
      globals = c.globals;
      root = c.root;
      packages = c.packages.entries;
      scripts = c.scripts.keys;
    } };

    ghost use Rattle.turbo_config.specs.Reads.{AreGlobs};

    ghost invariant = { λ c. HasThose (ends_in c.root) c.tails × AreGlobs c.globals.inputs };
}

/// The files by name. Of two with one name the last counts.
fn by_name(
    alloc: Global,
    packages: Vec<(Text, PackageConfig)>,
) -> Result<BTreeMap<Text, PackageConfig>, ConfigErr>
    ensures value { IfOk result (λ files. files.entries ≡ spec.by_name [] packages.items) }
    ensures memory { IsOkUnless result ConfigErr.OutOfMemory }
{
    let mut files = BTreeMap::new(alloc);
    for (name, file) in packages {
        files.insert(name, file)?;
    }
    Ok(files)
}

fn each_once(alloc: Global, names: Texts) -> Result<BTreeSet<Text>, ConfigErr>
    ensures value { IfOk result (λ set. set.keys ≡ spec.each_once [] names) }
    ensures memory { IsOkUnless result ConfigErr.OutOfMemory }
{
    let mut set = BTreeSet::new(alloc);
    for name in names.into_vec() {
        set.insert(name)?;
    }
    Ok(set)
}

impl Config {
    /// The tasks by the root's turbo.json, if there is one, the packages' files with the packages' names, and the names of
    /// the scripts of all packages. Of two files for one package the last counts. Without a root's turbo.json the
    /// packages' files say nothing.
    #[tactic(auto, unfolding(crate::specs::Setup::setup_of, crate::specs::Setup::ends_in))]
    pub fn new(
        alloc: Global,
        root: Option<RootConfig>,
        packages: Vec<(Text, PackageConfig)>,
        scripts: Texts,
    ) -> Result<Config, ConfigErr>
        ensures value { IfOk result (λ config. config ≡ spec.setup_of root packages.items scripts) }
        ensures memory { IsOkUnless result ConfigErr.OutOfMemory }
    {
        let packages = by_name(alloc, packages)?;
        let scripts = each_once(alloc, scripts)?;
        match root {
            None => Ok(Config {
                globals: Globals::new(alloc),
                root: None,
                tails: BTreeSet::new(alloc),
                packages,
                scripts,
            }),
            Some(root) => {
                let (globals, tasks) = root.into_parts();
                let tails = tails_of(alloc, &tasks)?;
                Ok(Config {
                    globals,
                    root: Some(tasks),
                    tails,
                    packages,
                    scripts,
                })
            }
        }
    }

    /// The global keys of the root's turbo.json.
    pub fn globals(&self) -> &Globals
        ensures value { result.now ≡ self.now.globals }
        ensures reads { AreGlobs result.now.inputs }
    {
        &self.globals
    }

    /// Whether the root's turbo.json has a key `package#task` of this task.
    pub fn ends_in(&self, task: &Text) -> bool
        ensures { result ≡ spec.ends_in self.now.root task.now }
    {
        self.tails().contains(task)
    }

    fn root(&self) -> Option<&Tasks>
        ensures { option_copied result ≡ self.now.root }
    {
        self.root.as_ref()
    }

    fn tails(&self) -> &BTreeSet<Text>
        ensures { HasThose (spec.ends_in self.now.root) result.now }
    {
        &self.tails
    }

    fn packages(&self) -> &BTreeMap<Text, PackageConfig>
        ensures { result.now.entries ≡ self.now.packages }
    {
        &self.packages
    }

    fn scripts(&self) -> &BTreeSet<Text>
        ensures { result.now.keys ≡ self.now.scripts }
    {
        &self.scripts
    }

    /// The definition of a task of a package, which only a name that a task may have has (`definition_law`). Where the
    /// root has a turbo.json, the task has one where the root has the key `package#task` or `task`, or the package's own
    /// file has `task`: it begins as the first of these two of the root, or as the defaults, and each key of the
    /// package's own file replaces that key. In an array there the first text `$TURBO_EXTENDS$` stands for the array that
    /// the task began with, and later ones for nothing; `inputs` begin as `$TURBO_DEFAULT$`, other arrays without texts.
    /// Without the root's file a task has the default definition where some package has a script of its name.
    /// A task of the root, whose name among packages is `//`, is what the root's key `//#task` says, and nothing else.
    #[tactic(auto, unfolding(crate::specs::Setup::task_def))]
    pub fn task_def(
        &self,
        alloc: Global,
        package: &Text,
        task: &Text,
    ) -> Result<Option<TaskDef>, ConfigErr>
        ensures reads { IfOk result (λ def. IfSome def DefReads) }
        ensures value { IfOk result (λ def. def ≡ spec.task_def self.now «package».now task.now) }
        ensures memory { IsOkUnless result ConfigErr.OutOfMemory }
    {
        if is_root_name(package.as_str()) {
            return root_task_def(alloc, self.root(), task);
        }
        match self.root() {
            None => def_by_scripts(alloc, self.scripts(), task),
            Some(tasks) => def_by_files(alloc, tasks, self.packages(), package, task),
        }
    }

    /// The names without `#` of tasks, ascending: where the root has a turbo.json, its keys, what stands behind the `#`
    /// of a key, and the keys of the packages' files; else the names of scripts that a task may have.
    pub fn names(&self, alloc: Global) -> Result<Texts, ConfigErr>
        ensures value { IfOk result (spec.AreNames self.now) }
        ensures memory { IsOkUnless result ConfigErr.OutOfMemory }
    {
        let names = self.all_names(alloc)?;
        let items: Vec<Text> = names.into_iter().collect(alloc)?;
        Ok(Texts::from_vec(items))
    }

    #[tactic(auto, unfolding(crate::specs::Setup::is_name))]
    fn all_names(&self, alloc: Global) -> Result<BTreeSet<Text>, ConfigErr>
        ensures value { IfOk result (HasThose (spec.is_name self.now)) }
        ensures memory { IsOkUnless result ConfigErr.OutOfMemory }
    {
        match self.root() {
            None => script_names(alloc, self.scripts()),
            Some(tasks) => file_names(alloc, tasks, self.tails(), self.packages()),
        }
    }
}
