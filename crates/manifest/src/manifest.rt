// The manifest of the root or of a package.
ghost use Rattle.std.specs.Prelude.{◌≡◌, ◌==◌, ◌&&◌, IfOk, MatchResult, None};
ghost use Rattle.std.specs.List.{list_any, starts_with};
ghost use Rattle.json_view.specs.Answer.{data_of};
ghost use Rattle.manifest.specs.Faults.{is_package_name, name_fault, manager_fault, given_fault};
ghost use Rattle.manifest.specs.declared.manifest.TheConstants.{HASH};
ghost use Rattle.manifest.specs.Manifest.{manifest_of, AreAscending, Reads};
ghost use Rattle.manifest.specs.Steps.{FindsAll, MayFault};

use crate::ManifestErr;
use crate::parts::{is_object_at, manager_at, map_at, text_at, workspaces_at, wrong};
use json_view::{Shape, View};
use rel_path::{Pairs, Text, Texts};
use std::alloc::Global;

// What parts a package's name from a task's in `package#task`.
const HASH: u8 = b'#';

/// What a task runner reads of a `package.json`. A map or list that is missing is empty.
#[derive(Debug, Drop)]
pub struct Manifest {
    /// The name. The root's is kept as it stands, a package's is one that a package may have.
    pub name: Option<Text>,
    pub version: Option<Text>,
    /// The scripts by name; this and the maps below ascend by name.
    pub scripts: Pairs,
    /// `dependencies`, names with their ranges.
    pub deps: Pairs,
    /// `devDependencies`.
    pub dev: Pairs,
    /// `optionalDependencies`.
    pub optional: Pairs,
    /// `peerDependencies`.
    pub peer: Pairs,
    /// The globs of the folders that are packages, as they are written.
    pub workspaces: Texts,
    /// Whether `workspaces` is an object, with these globs at `/workspaces/packages`.
    pub object_form: bool,
}

impl Manifest {
    /// Reads a `package.json`, the root's or a package's.
    ///
    /// The refusals come in this order: `NotJson`; `WrongKind`, of several the one with the least pointer by its
    /// bytes; `NoName`, for a package alone: its name is missing, empty, `//`, or has a `#` in it; `OtherManager`, for
    /// the root alone: `packageManager` does not start with `npm@`. What is wanted is an object at the top, texts at
    /// `name`, `version` and the root's `packageManager`, objects of texts at `scripts` and the four maps of
    /// dependencies, and at `workspaces` an array of texts, or an object with such an array at `packages`.
    pub fn read(alloc: Global, bytes: &[u8], root: bool) -> Result<Manifest, ManifestErr>
        ensures manifest { Reads (manifest_of root bytes.now) result }
        ensures ascending { IfOk result AreAscending }
    {
        let view = View::read(alloc, bytes)?;
        let (manifest, manager) = parts_at(alloc, &view, root)?;
        check_given(root, &manifest.name, manager)?;
        Ok(manifest)
    }
}

// All parts, and the package manager that the root names. They are read in the order of their pointers, so that the
// first that is wrong is the one with the least pointer.
fn parts_at(alloc: Global, view: &View, root: bool) -> Result<(Manifest, Option<Text>), ManifestErr>
    ensures found { FindsAll root (data_of view.now) result }
    ensures ascending { IfOk result (λ r. AreAscending r.0) }
{
    if !is_object_at(view, "") {
        return Err(wrong(alloc, "", Shape::Object));
    }
    let deps = map_at(alloc, view, "/dependencies")?;
    let dev = map_at(alloc, view, "/devDependencies")?;
    let name = text_at(alloc, view, "/name")?;
    let optional = map_at(alloc, view, "/optionalDependencies")?;
    let manager = manager_at(alloc, view, root)?;
    let peer = map_at(alloc, view, "/peerDependencies")?;
    let scripts = map_at(alloc, view, "/scripts")?;
    let version = text_at(alloc, view, "/version")?;
    let workspaces = workspaces_at(alloc, view)?;
    let object_form = is_object_at(view, "/workspaces");
    let manifest = Manifest {
        name,
        version,
        scripts,
        deps,
        dev,
        optional,
        peer,
        workspaces,
        object_form,
    };
    Ok((manifest, manager))
}

fn has_hash(name: &[u8]) -> bool
    ensures { result ≡ list_any (λ b. b == HASH) name.now }
{
    name.iter().any(|b| *b == HASH)
}

fn is_package_name(name: &str) -> bool
    ensures { result ≡ is_package_name name.now }
{
    !name.is_empty() && name != "//" && !has_hash(name.as_bytes())
}

fn check_name(name: &Option<Text>) -> Result<(), ManifestErr>
    ensures { MatchResult result (λ _. name_fault name.now ≡ None)
        (MayFault (name_fault name.now)) }
{
    if let Some(name) = name {
        if is_package_name(name.as_str()) {
            return Ok(());
        }
    }
    Err(ManifestErr::NoName)
}

fn check_manager(manager: Option<Text>) -> Result<(), ManifestErr>
    ensures { MatchResult result (λ _. manager_fault manager ≡ None)
        (MayFault (manager_fault manager)) }
{
    match manager {
        Some(text) => {
            if text.as_str().as_bytes().starts_with(b"npm@") {
                return Ok(());
            }
            Err(ManifestErr::OtherManager { text })
        }
        None => Ok(()),
    }
}

// What is tried of texts: the root's package manager, a package's name.
fn check_given(root: bool, name: &Option<Text>, manager: Option<Text>) -> Result<(), ManifestErr>
    ensures { MatchResult result (λ _. given_fault root name.now manager ≡ None)
        (MayFault (given_fault root name.now manager)) }
{
    if root {
        check_manager(manager)
    } else {
        check_name(name)
    }
}
