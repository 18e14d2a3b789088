// The packages that a core names.
ghost use Rattle.std.specs.Prelude.{◌≡◌, ◌<◌, IfOk, IfErr, None, length, IsOkUnless};
ghost use Rattle.std.specs.List.{list_any};
ghost use Rattle.workspaces.specs.Lists.{places, passes_at};
ghost use Rattle.filters.specs.Selection.{is_in_core, has_name, missing_name};
ghost use Rattle.filters.specs.Steps.{MayMiss};

use crate::FilterErr;
use crate::filter::Core;
use rel_path::{Places, Text};
use std::alloc::Global;
use workspaces::Packages;

/// Whether the core names the package.
fn is_in_core(core: &Core, packages: &Packages, p: u32) -> bool
    requires { p < length packages.now.packages }
    ensures { result ≡ passes_at (is_in_core core.now) packages.now.packages p }
{
    match core {
        Core::Folder(glob) => glob.matches(packages.folder(p)),
        Core::Name(name) => packages.name(p) == name,
        Core::Pattern(pattern) => {
            let name = packages.name(p);
            wildcards::spells(pattern.as_str().as_bytes(), name.as_str().as_bytes())
        }
    }
}

/// The packages that the core names.
pub(crate) fn core_places(
    alloc: Global,
    core: &Core,
    packages: &Packages,
) -> Result<Places, FilterErr>
    ensures value { IfOk result
        (λ found. found ≡ places (is_in_core core.now) packages.now.packages) }
    ensures memory { IsOkUnless result FilterErr.OutOfMemory }
{
    let mut found = Places::new(alloc);
    for p in 0..packages.count() {
        if is_in_core(core, packages, p) {
            found.push(p)?;
        }
    }
    Ok(found)
}

fn is_named(packages: &Packages, name: &Text, p: u32) -> bool
    requires { p < length packages.now.packages }
    ensures { result ≡ passes_at (has_name name.now) packages.now.packages p }
{
    packages.name(p) == name
}

/// Whether a package has the name.
fn has_package(packages: &Packages, name: &Text) -> bool
    ensures { result ≡ list_any (has_name name.now) packages.now.packages }
{
    for p in 0..packages.count() {
        if is_named(packages, name, p) {
            return true;
        }
    }
    false
}

/// Refuses a name that no package has.
pub(crate) fn check_name(core: &Core, packages: &Packages) -> Result<(), FilterErr>
    ensures value { IfOk result (λ u. missing_name packages.now.packages core.now ≡ None) }
    ensures err { IfErr result (MayMiss (missing_name packages.now.packages core.now)) }
{
    match core {
        Core::Name(name) if !has_package(packages, name) => Err(FilterErr::NoPackage {
            name: name.copy()?,
        }),
        _ => Ok(()),
    }
}
