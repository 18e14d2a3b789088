// The packages that a manifest has edges to.
ghost use Rattle.std.specs.Prelude.{◌≡◌, ◌<◌, ◌^◌, length, IfOk, OnOk};
ghost use Rattle.manifest.specs.Manifest.{AreAscending};
ghost use Rattle.workspaces.specs.Edges.{edge_from};
ghost use Rattle.workspaces.specs.Lists.{places};
ghost use Rattle.workspaces.specs.Steps.{OnlyMemory, AscendingNames, AddsEdges};

use crate::lookup::{links, package_by};
use crate::sorted::sorted_numbers;
use crate::{Package, SpaceErr};
use manifest::Manifest;
use rel_path::{Pairs, Places, Text};
use std::alloc::Global;

/// Whether the manifest of the owner of this name has an edge to the package.
#[tactic(auto, unfolding(crate::specs::Edges::edge_from))]
fn has_edge(
    alloc: Global,
    own: &Text,
    manifest: &Manifest,
    member: &Package,
) -> Result<bool, SpaceErr>
    requires { AreAscending manifest.now }
    ensures value { IfOk result (λ is. is ≡ edge_from own.now manifest.now member.now) }
    ensures memory { OnlyMemory result }
{
    if *own == member.name {
        return Ok(false);
    }
    links(alloc, manifest, member)
}

/// Adds the places of the packages that names in one map make edges to.
fn add_edges(
    alloc: Global,
    packages: &[Package],
    own: &Text,
    manifest: &Manifest,
    pairs: &Pairs,
    found: &mut Vec<u32>,
) -> Result<(), SpaceErr>
    requires packages { AscendingNames packages.now }
    requires few { length packages.now < 2 ^ 32 }
    requires manifest { AreAscending manifest.now }
    ensures added { OnOk result (AddsEdges
        packages.now own.now manifest.now pairs.now found.old.items found.new.items) }
    ensures memory { OnlyMemory result }
{
    for pair in pairs.as_slice() {
        if let Some(place) = package_by(packages, &pair.0) {
            if has_edge(alloc, own, manifest, &packages[place])? {
                found.push(place as u32)?;
            }
        }
    }
    Ok(())
}

/// The places of the packages that the manifest of the owner of this name has edges to, ascending. The name itself makes
/// none.
pub(crate) fn edge_places(
    alloc: Global,
    packages: &[Package],
    own: &Text,
    manifest: &Manifest,
) -> Result<Places, SpaceErr>
    requires packages { AscendingNames packages.now }
    requires few { length packages.now < 2 ^ 32 }
    requires manifest { AreAscending manifest.now }
    ensures value { IfOk result
        (λ found. found ≡ places (edge_from own.now manifest.now) packages.now) }
    ensures memory { OnlyMemory result }
{
    let mut found = Vec::new(alloc);
    add_edges(
        alloc,
        packages,
        own,
        manifest,
        &manifest.optional,
        &mut found,
    )?;
    add_edges(alloc, packages, own, manifest, &manifest.deps, &mut found)?;
    add_edges(alloc, packages, own, manifest, &manifest.dev, &mut found)?;
    Ok(Places::from_vec(sorted_numbers(found)?))
}
