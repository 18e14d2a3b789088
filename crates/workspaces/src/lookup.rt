// Names, looked up in lists that ascend by name.
ghost use Rattle.std.specs.Prelude.{◌≡◌, IfOk, MatchOption};
ghost use Rattle.std.specs.Option.{option_copied};
ghost use Rattle.json_view.specs.Pairs.{AscendByName};
ghost use Rattle.manifest.specs.Manifest.{AreAscending};
ghost use Rattle.workspaces.specs.Edges.{text_by, dep_text, is_peer, has_name, links};
ghost use Rattle.workspaces.specs.Steps.{OnlyMemory, AscendingNames, IsNamedAt, IsNoName};

use crate::edges::is_edge;
use crate::{Package, SpaceErr};
use manifest::Manifest;
use rel_path::{Pairs, Text};
use std::alloc::Global;

/// The text that stands by the name.
pub(crate) fn text_by<'a>(pairs: &'a Pairs, name: &Text) -> Option<&'a Text>
    requires { AscendByName pairs.now }
    ensures { option_copied result ≡ text_by name.now pairs.now }
{
    let pairs = pairs.as_slice();
    match pairs.binary_search_by(|pair| pair.0.cmp(name)) {
        Ok(place) => Some(&pairs[place].1),
        Err(_) => None,
    }
}

pub(crate) fn has_name(pairs: &Pairs, name: &Text) -> bool
    requires { AscendByName pairs.now }
    ensures { result ≡ has_name name.now pairs.now }
{
    text_by(pairs, name).is_some()
}

/// The place of the package of that name.
pub(crate) fn package_by(packages: &[Package], name: &Text) -> Option<usize>
    requires { AscendingNames packages.now }
    ensures { MatchOption result
        (IsNoName packages.now name.now) (IsNamedAt packages.now name.now) }
{
    match packages.binary_search_by(|package| package.name.cmp(name)) {
        Ok(place) => Some(place),
        Err(_) => None,
    }
}

/// The text by which the manifest depends on the name.
#[tactic(auto, unfolding(crate::specs::Edges::dep_text))]
pub(crate) fn dep_text<'a>(manifest: &'a Manifest, name: &Text) -> Option<&'a Text>
    requires { AreAscending manifest.now }
    ensures { option_copied result ≡ dep_text manifest.now name.now }
{
    if let Some(text) = text_by(&manifest.optional, name) {
        return Some(text);
    }
    if let Some(text) = text_by(&manifest.deps, name) {
        return Some(text);
    }
    text_by(&manifest.dev, name)
}

pub(crate) fn is_peer(manifest: &Manifest, name: &Text) -> bool
    requires { AreAscending manifest.now }
    ensures { result ≡ is_peer manifest.now name.now }
{
    has_name(&manifest.peer, name) && !has_name(&manifest.deps, name)
}

/// Whether the manifest's text for the package's name makes an edge to it.
#[tactic(auto, unfolding(crate::specs::Edges::links))]
pub(crate) fn links(alloc: Global, manifest: &Manifest, member: &Package) -> Result<bool, SpaceErr>
    requires { AreAscending manifest.now }
    ensures value { IfOk result (λ is. is ≡ links manifest.now member.now) }
    ensures memory { OnlyMemory result }
{
    match dep_text(manifest, &member.name) {
        Some(text) => is_edge(alloc, text.as_str(), &member.manifest.version),
        None => Ok(false),
    }
}
