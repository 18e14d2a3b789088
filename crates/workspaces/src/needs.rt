// The names that a manifest needs from outside of the workspace.
ghost use Rattle.std.specs.Prelude.{◌≡◌, ◌++◌, IfOk, OnOk, filter};
ghost use Rattle.manifest.specs.Manifest.{AreAscending};
ghost use Rattle.workspaces.specs.Edges.{is_inner, is_outer, is_soft, is_hard_need, is_soft_need, names_by, needs_of};
ghost use Rattle.workspaces.specs.Steps.{OnlyMemory, AscendingNames};

use crate::lookup::{dep_text, has_name, is_peer, links, package_by};
use crate::sorted::sorted_texts;
use crate::{Package, SpaceErr};
use manifest::Manifest;
use rel_path::{Pairs, Text, Texts};
use std::alloc::Global;

/// The names that a manifest needs from outside of the workspace, ascending: those that have to be found, and those
/// that may be missing, optional dependencies and peers.
#[derive(Debug, Drop)]
pub struct Needs {
    pub hard: Texts,
    pub soft: Texts,
}

/// Whether the name makes an edge to one of the packages.
fn is_inner(
    alloc: Global,
    packages: &[Package],
    manifest: &Manifest,
    name: &Text,
) -> Result<bool, SpaceErr>
    requires packages { AscendingNames packages.now }
    requires manifest { AreAscending manifest.now }
    ensures value { IfOk result (λ is. is ≡ is_inner packages.now manifest.now name.now) }
    ensures memory { OnlyMemory result }
{
    match package_by(packages, name) {
        Some(place) => links(alloc, manifest, &packages[place]),
        None => Ok(false),
    }
}

/// Whether the name is needed from outside.
#[tactic(auto, unfolding(crate::specs::Edges::is_outer))]
fn is_outer(
    alloc: Global,
    packages: &[Package],
    manifest: &Manifest,
    name: &Text,
) -> Result<bool, SpaceErr>
    requires packages { AscendingNames packages.now }
    requires manifest { AreAscending manifest.now }
    ensures value { IfOk result (λ is. is ≡ is_outer packages.now manifest.now name.now) }
    ensures memory { OnlyMemory result }
{
    if is_peer(manifest, name) {
        return Ok(true);
    }
    if dep_text(manifest, name).is_none() {
        return Ok(false);
    }
    Ok(!is_inner(alloc, packages, manifest, name)?)
}

fn is_soft(manifest: &Manifest, name: &Text) -> bool
    requires { AreAscending manifest.now }
    ensures { result ≡ is_soft manifest.now name.now }
{
    has_name(&manifest.optional, name) || is_peer(manifest, name)
}

/// The names in one map that are needed from outside.
#[derive(Drop)]
struct Found {
    hard: Vec<Text>,
    soft: Vec<Text>,
}

fn add_needs(
    alloc: Global,
    packages: &[Package],
    manifest: &Manifest,
    pairs: &Pairs,
    found: &mut Found,
) -> Result<(), SpaceErr>
    requires packages { AscendingNames packages.now }
    requires manifest { AreAscending manifest.now }
    ensures hard { OnOk result (found.new.hard.items ≡ found.old.hard.items
        ++ filter (is_hard_need packages.now manifest.now) (names_by pairs.now)) }
    ensures soft { OnOk result (found.new.soft.items ≡ found.old.soft.items
        ++ filter (is_soft_need packages.now manifest.now) (names_by pairs.now)) }
    ensures memory { OnlyMemory result }
{
    for pair in pairs.as_slice() {
        let name = &pair.0;
        if is_outer(alloc, packages, manifest, name)? {
            if is_soft(manifest, name) {
                found.soft.push(name.copy()?)?;
            } else {
                found.hard.push(name.copy()?)?;
            }
        }
    }
    Ok(())
}

/// What the manifest needs from outside of these packages.
pub(crate) fn needs_of(
    alloc: Global,
    packages: &[Package],
    manifest: &Manifest,
) -> Result<Needs, SpaceErr>
    requires packages { AscendingNames packages.now }
    requires manifest { AreAscending manifest.now }
    ensures value { IfOk result (λ needs. needs ≡ needs_of packages.now manifest.now) }
    ensures memory { OnlyMemory result }
{
    let mut found = Found {
        hard: Vec::new(alloc),
        soft: Vec::new(alloc),
    };
    add_needs(alloc, packages, manifest, &manifest.optional, &mut found)?;
    add_needs(alloc, packages, manifest, &manifest.deps, &mut found)?;
    add_needs(alloc, packages, manifest, &manifest.dev, &mut found)?;
    add_needs(alloc, packages, manifest, &manifest.peer, &mut found)?;
    let Found { hard, soft } = found;
    let hard = Texts::from_vec(sorted_texts(hard)?);
    let soft = Texts::from_vec(sorted_texts(soft)?);
    Ok(Needs { hard, soft })
}
