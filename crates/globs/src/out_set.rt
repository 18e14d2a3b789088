// The output set of a task: what it declares, owns and shares.
ghost use Rattle.std.specs.Prelude.{◌≡◌, ◌↔◌, ◌++◌, ◌∷◌, [], IsTrue, IfOk, IsOkUnless, OnOk, OnErr, MatchOption, Some, None};
ghost use Rattle.rel_path.specs.Paths.{strip};
ghost use Rattle.globs.specs.Outputs.{is_kept_folder, is_kept_file, may_declare, declares, any_declares, takes, shares, Owned, Shared};

use crate::error::ListGlobErr;
use crate::list::{GlobList, GlobLists};
use rel_path::{RelPath, Text};
use std::alloc::Global;
use std::marker::Model;

/// What a task of a package declares, by globs relative to the package's folder, and what the other configured tasks of
/// the package declare.
///
/// A task declares a path below the folder that its globs take. Never declared is what lies in a folder
/// `node_modules`, `.git` or `.turbo` directly in the package's folder, these folders themselves, and the files
/// `package.json`, `turbo.json`, `package-lock.json` and `.gitignore` directly in it. That the path's home is this
/// package and not one further down is for the caller to see to.
#[derive(Debug, Drop)]
pub struct OutSet {
    pub folder: RelPath,
    pub mine: GlobList,
    pub others: GlobLists,
}

impl OutSet {
    /// Whether the task owns the path: it declares it, and no other task of the package does.
    pub fn takes(&self, path: &RelPath) -> bool
        ensures value { result ≡ takes self.now path.now }
        ensures meaning { IsTrue result ↔ Owned self.now path.now }
    {
        self.owns(path.components())
    }

    /// Whether the task and another one of the package declare the path.
    pub fn shared(&self, path: &RelPath) -> bool
        ensures value { result ≡ shares self.now path.now }
        ensures meaning { IsTrue result ↔ Shared self.now path.now }
    {
        self.shares(path.components())
    }

    #[tactic(auto, unfolding(crate::specs::Outputs::takes))]
    fn owns(&self, path: &[Text]) -> bool
        ensures { result ≡ takes self.now path.now }
    {
        let folder = self.folder.components();
        declares(&self.mine, folder, path) && !any_declares(self.others.as_slice(), folder, path)
    }

    #[tactic(auto, unfolding(crate::specs::Outputs::shares))]
    fn shares(&self, path: &[Text]) -> bool
        ensures { result ≡ shares self.now path.now }
    {
        let folder = self.folder.components();
        declares(&self.mine, folder, path) && any_declares(self.others.as_slice(), folder, path)
    }

    pub fn copy(&self) -> Result<OutSet, ListGlobErr>
        ensures value { IfOk result (λ copy. copy ≡ self.now) }
        ensures memory { IsOkUnless result ListGlobErr.OutOfMemory }
    {
        let folder = self.folder.copy()?;
        let mine = self.mine.copy()?;
        let others = self.others.copy()?;
        Ok(OutSet {
            folder,
            mine,
            others,
        })
    }
}

/// What is left of the path below the folder.
fn strip<'a>(folder: &[Text], path: &'a [Text]) -> Option<&'a [Text]>
    ensures { MatchOption result (strip folder.now path.now ≡ None)
        (λ rest. strip folder.now path.now ≡ Some rest.now) }
{
    path.strip_prefix(folder)
}

/// Whether the outputs of a task in the folder take the path.
fn declares(outputs: &GlobList, folder: &[Text], path: &[Text]) -> bool
    ensures { result ≡ declares outputs.now folder.now path.now }
{
    match strip(folder, path) {
        Some(rest) => may_declare(rest) && outputs.takes_components(rest),
        None => false,
    }
}

#[tactic(auto, unfolding(crate::specs::Outputs::any_declares))]
fn any_declares(others: &[GlobList], folder: &[Text], path: &[Text]) -> bool
    ensures { result ≡ any_declares others.now folder.now path.now }
{
    others.iter().any(|outputs| declares(outputs, folder, path))
}

/// Whether any task may declare a path, by its components below the folder of the package.
fn may_declare(rest: &[Text]) -> bool
    ensures { result ≡ may_declare rest.now }
{
    match rest {
        [] => false,
        [name] => !is_kept_folder(name.as_str()) && !is_kept_file(name.as_str()),
        [name, ..] => !is_kept_folder(name.as_str()),
    }
}

fn is_kept_folder(name: &str) -> bool
    ensures { result ≡ is_kept_folder name.now }
{
    name == "node_modules" || name == ".git" || name == ".turbo"
}

fn is_kept_file(name: &str) -> bool
    ensures { result ≡ is_kept_file name.now }
{
    name == "package.json"
        || name == "turbo.json"
        || name == "package-lock.json"
        || name == ".gitignore"
}

/// Output sets, in any order.
#[derive(Debug, Drop)]
pub struct OutSets {
    items: Vec<OutSet>,
}

impl Model for OutSets {
    ghost use Rattle.std.specs.Prelude.{List};
    ghost use Rattle.globs.specs.declared.out_set.OutSet.{OutSet};

    ghost Value = { List OutSet };

    ghost view = { λ l. l.items.items };
}

impl OutSets {
    /// The empty list. It keeps the allocator and takes no memory.
    pub fn new(alloc: Global) -> OutSets
        ensures { result ≡ [] }
    {
        OutSets {
            items: Vec::new(alloc),
        }
    }

    /// Adds an item at the end. The list stays as it was where memory is wanting.
    pub fn push(&mut self, item: OutSet) -> Result<(), ListGlobErr>
        ensures pushed { OnOk result (self.new ≡ self.old ++ item ∷ []) }
        ensures kept { OnErr result (self.new ≡ self.old) }
        ensures memory { IsOkUnless result ListGlobErr.OutOfMemory }
    {
        self.items.push(item)?;
        Ok(())
    }

    pub fn as_slice(&self) -> &[OutSet]
        ensures { result.now ≡ self.now }
    {
        self.items.as_slice()
    }

    pub fn from_vec(items: Vec<OutSet>) -> OutSets
        ensures { result ≡ items.items }
    {
        OutSets { items }
    }

    pub fn into_vec(self) -> Vec<OutSet>
        ensures { result.items ≡ self }
    {
        self.items
    }

    pub fn copy(&self) -> Result<OutSets, ListGlobErr>
        ensures value { IfOk result (λ copy. copy ≡ self.now) }
        ensures memory { IsOkUnless result ListGlobErr.OutOfMemory }
    {
        let items = copies_of(*self.items.allocator(), self.as_slice())?;
        Ok(OutSets { items })
    }
}

fn copies_of(alloc: Global, sets: &[OutSet]) -> Result<Vec<OutSet>, ListGlobErr>
    ensures value { IfOk result (λ copy. copy.items ≡ sets.now) }
    ensures memory { IsOkUnless result ListGlobErr.OutOfMemory }
{
    let mut copy = Vec::new(alloc);
    for set in sets {
        copy.push(set.copy()?)?;
    }
    Ok(copy)
}
