// The packages of a workspace, with what is known of them.
ghost use Rattle.std.specs.Prelude.{◌≡◌, ◌<◌, length, map, None, Some, IfOk, MatchOption};
ghost use Rattle.std.specs.List.{HoldsAt};
ghost use Rattle.manifest.specs.Manifest.{AreAscending};
ghost use Rattle.workspaces.specs.Reach.{IsReached, AreBelow};
ghost use Rattle.workspaces.specs.Space.{Space, IsProper, root_package, owners, owner_named, IsOwnerAt};
ghost use Rattle.workspaces.specs.Members.{edges_of, users_of, leads, leads_back, needs_by, IsFit};
ghost use Rattle.workspaces.specs.Steps.{OnlyMemory, IsNoName, IsNamedAt};

use crate::edge_lists::edge_places;
use crate::lookup::package_by;
use crate::needs::needs_of;
use crate::reach::reached;
use crate::users::users_of;
use crate::{Needs, Package, SpaceErr};
use manifest::Manifest;
use rel_path::{Places, RelPath, Text};
use std::alloc::{AllocError, Global};
use std::marker::Model;

/// The packages of a workspace, ascending by name, and its root manifest.
///
/// An owner is what may have tasks: each package, named by its number in this order, and behind them the root, whose
/// number is how many packages there are. The root is called `//` (Turborepo docs, "Root tasks"), has the root folder
/// and the root manifest, and nothing depends on it.
#[derive(Debug, Drop)]
pub struct Packages {
    root: Package,
    packages: Vec<Package>,
    edges: Vec<Places>,
    users: Vec<Places>,
    needs: Vec<Needs>,
    root_edges: Places,
    root_needs: Needs,
}

impl Model for Packages {
    ghost use Rattle.workspaces.specs.Space.{Space};

    ghost Value = { Space };

    ghost use Rattle.workspaces.specs.Members.{space_in, IsWhole};

    ghost view = { space_in };

    ghost invariant = { IsWhole };
}

/// The edges of each package.
fn all_edges(alloc: Global, packages: &[Package]) -> Result<Vec<Places>, SpaceErr>
    requires { IsFit packages.now }
    ensures value { IfOk result (λ rows. rows.items ≡ map (edges_of packages.now) packages.now) }
    ensures memory { OnlyMemory result }
{
    let mut rows = Vec::new(alloc);
    for member in packages {
        rows.push(edge_places(alloc, packages, &member.name, &member.manifest)?)?;
    }
    Ok(rows)
}

/// What each package needs from outside.
fn all_needs(alloc: Global, packages: &[Package]) -> Result<Vec<Needs>, SpaceErr>
    requires { IsFit packages.now }
    ensures value { IfOk result (λ needs. needs.items ≡ map (needs_by packages.now) packages.now) }
    ensures memory { OnlyMemory result }
{
    let mut needs = Vec::new(alloc);
    for member in packages {
        needs.push(needs_of(alloc, packages, &member.manifest)?)?;
    }
    Ok(needs)
}

/// The root as an owner.
fn root_package(alloc: Global, root: Manifest) -> Result<Package, AllocError>
    ensures value { IfOk result (λ owner. owner ≡ root_package root) }
{
    Ok(Package {
        name: Text::read(alloc, "//")?,
        folder: RelPath::root(alloc),
        manifest: root,
    })
}

impl Packages {
    pub(crate) fn new(
        alloc: Global,
        root: Manifest,
        packages: Vec<Package>,
    ) -> Result<Packages, SpaceErr>
        requires fit { IsFit packages.items }
        requires proper { IsProper (record { root = root; packages = packages.items }) }
        requires root { AreAscending root }
        ensures value { IfOk result
            (λ space. space ≡ record { root = root; packages = packages.items }) }
        ensures memory { OnlyMemory result }
    {
        let edges = all_edges(alloc, packages.as_slice())?;
        let users = users_of(alloc, edges.as_slice())?;
        let needs = all_needs(alloc, packages.as_slice())?;
        let root = root_package(alloc, root)?;
        let root_edges = edge_places(alloc, packages.as_slice(), &root.name, &root.manifest)?;
        let root_needs = needs_of(alloc, packages.as_slice(), &root.manifest)?;
        Ok(Packages {
            root,
            packages,
            edges,
            users,
            needs,
            root_edges,
            root_needs,
        })
    }

    /// How many packages there are, which is the number of the root among the owners.
    pub fn count(&self) -> u32
        ensures value { result ≡ length self.now.packages }
        ensures root { result < length (owners self.now) }
        ensures proper { IsProper self.now }
    {
        self.packages.len() as u32
    }

    fn owner(&self, o: u32) -> &Package
        requires { o < length (owners self.now) }
        ensures { HoldsAt (λ p. result.now ≡ p) (owners self.now) o }
    {
        let at = o as usize;
        if at < self.packages.len() {
            &self.packages[at]
        } else {
            &self.root
        }
    }

    /// The name of the owner.
    pub fn name(&self, o: u32) -> &Text
        requires { o < length (owners self.now) }
        ensures { HoldsAt (λ p. result.now ≡ p.name) (owners self.now) o }
    {
        &self.owner(o).name
    }

    /// The number of the package of that name. It takes no memory.
    pub fn number_of(&self, name: &Text) -> Option<u32>
        ensures { MatchOption result
            (IsNoName self.now.packages name.now) (IsNamedAt self.now.packages name.now) }
    {
        match package_by(self.packages.as_slice(), name) {
            Some(place) => Some(place as u32),
            None => None,
        }
    }

    /// The number of the owner of that name: of the package that has it, and for `//`, where no package has it, of the
    /// root. It takes no memory.
    pub fn owner_of(&self, name: &Text) -> Option<u32>
        ensures { MatchOption result
            (owner_named self.now name.now ≡ None) (IsOwnerAt self.now name.now) }
    {
        match self.number_of(name) {
            Some(p) => Some(p),
            None => {
                if self.root.name == *name {
                    Some(self.count())
                } else {
                    None
                }
            }
        }
    }

    /// The folder of the owner; that of a package is not the root.
    pub fn folder(&self, o: u32) -> &RelPath
        requires { o < length (owners self.now) }
        ensures { HoldsAt (λ p. result.now ≡ p.folder) (owners self.now) o }
    {
        &self.owner(o).folder
    }

    /// The manifest of the owner.
    pub fn manifest(&self, o: u32) -> &Manifest
        requires { o < length (owners self.now) }
        ensures { HoldsAt (λ p. result.now ≡ p.manifest) (owners self.now) o }
    {
        &self.owner(o).manifest
    }

    /// The packages that the owner depends on, ascending; it is not among them.
    pub fn edges(&self, o: u32) -> &Places
        requires { o < length (owners self.now) }
        ensures { HoldsAt (λ p. result.now ≡ edges_of self.now.packages p) (owners self.now) o }
    {
        let at = o as usize;
        if at < self.edges.len() {
            &self.edges[at]
        } else {
            &self.root_edges
        }
    }

    /// The names that the owner needs from outside.
    pub fn needs(&self, o: u32) -> &Needs
        requires { o < length (owners self.now) }
        ensures { HoldsAt (λ p. result.now ≡ needs_by self.now.packages p) (owners self.now) o }
    {
        let at = o as usize;
        if at < self.needs.len() {
            &self.needs[at]
        } else {
            &self.root_needs
        }
    }

    /// The root manifest.
    pub fn root(&self) -> &Manifest
        ensures { result.now ≡ self.now.root }
    {
        &self.root.manifest
    }

    /// The packages that those of the set depend on, over any number of edges but none, ascending.
    pub fn below(&self, alloc: Global, set: &Places) -> Result<Places, AllocError>
        requires { AreBelow (length self.now.packages) set.now }
        ensures reached { IfOk result (IsReached (leads self.now.packages) set.now) }
    {
        reached(alloc, self.edges.as_slice(), set.as_slice())
    }

    /// The packages that depend on those of the set, over any number of edges but none, ascending.
    pub fn above(&self, alloc: Global, set: &Places) -> Result<Places, AllocError>
        requires { AreBelow (length self.now.packages) set.now }
        ensures reached { IfOk result (IsReached (leads_back self.now.packages) set.now) }
    {
        reached(alloc, self.users.as_slice(), set.as_slice())
    }
}
