// The parts of a manifest, each read by itself.
ghost use Rattle.std.specs.Prelude.{◌≡◌, codes, IfOk, Some};
ghost use Rattle.json_view.specs.Answer.{data_of};
ghost use Rattle.json_view.specs.Look.{texts_in};
ghost use Rattle.json_view.specs.Pairs.{AscendByName};
ghost use Rattle.manifest.specs.Parts.{text_part, map_part, manager_part, packages_of, workspaces_part, is_object_at};
ghost use Rattle.manifest.specs.Steps.{Finds, MayFault};

use crate::ManifestErr;
use json_view::{JsonErr, Shape, View, wrong_kind};
use rel_path::{Pairs, Text, Texts};
use std::alloc::Global;

/// The text at the pointer.
pub(crate) fn text_at(
    alloc: Global,
    view: &View,
    pointer: &str,
) -> Result<Option<Text>, ManifestErr>
    ensures { Finds (text_part pointer.now (data_of view.now)) result }
{
    match view.text_at(alloc, pointer) {
        Ok(text) => Ok(text),
        Err(error) => Err(ManifestErr::from(error)),
    }
}

/// The package manager that the root names.
pub(crate) fn manager_at(
    alloc: Global,
    view: &View,
    root: bool,
) -> Result<Option<Text>, ManifestErr>
    ensures { Finds (manager_part root (data_of view.now)) result }
{
    if root {
        return text_at(alloc, view, "/packageManager");
    }
    Ok(None)
}

/// The object of texts at the pointer.
pub(crate) fn map_at(alloc: Global, view: &View, pointer: &str) -> Result<Pairs, ManifestErr>
    ensures found { Finds (map_part pointer.now (data_of view.now)) result }
    ensures ascending { IfOk result AscendByName }
{
    match view.pairs_at(alloc, pointer) {
        Ok(None) => Ok(Pairs::new(alloc)),
        Ok(Some(pairs)) => Ok(pairs),
        Err(error) => Err(ManifestErr::from(error)),
    }
}

/// Whether an object stands at the pointer.
pub(crate) fn is_object_at(view: &View, pointer: &str) -> bool
    ensures { result ≡ is_object_at pointer.now (data_of view.now) }
{
    match view.value_at(pointer) {
        Ok(Some(value)) => value.is_object(),
        _ => false,
    }
}

/// The error for something else at the pointer than what is wanted, or for want of memory.
pub(crate) fn wrong(alloc: Global, pointer: &str, wanted: Shape) -> ManifestErr
    ensures { MayFault (Some (ManifestErr.WrongKind pointer.now wanted)) result }
{
    ManifestErr::from(wrong_kind(alloc, pointer, wanted))
}

// The array `packages` of an object `workspaces`.
fn packages_at(alloc: Global, view: &View) -> Result<Texts, ManifestErr>
    ensures { Finds (packages_of (texts_in (codes "/workspaces/packages") (data_of view.now)))
        result }
{
    match view.texts_at(alloc, "/workspaces/packages") {
        Ok(Some(texts)) => Ok(texts),
        Ok(None) => Err(wrong(alloc, "/workspaces/packages", Shape::Texts)),
        Err(error) => Err(ManifestErr::from(error)),
    }
}

/// The globs of the folders that are packages: an array, or the one of an object.
pub(crate) fn workspaces_at(alloc: Global, view: &View) -> Result<Texts, ManifestErr>
    ensures { Finds (workspaces_part (data_of view.now)) result }
{
    match view.texts_at(alloc, "/workspaces") {
        Ok(Some(texts)) => Ok(texts),
        Ok(None) => Ok(Texts::new(alloc)),
        Err(JsonErr::OutOfMemory) => Err(ManifestErr::OutOfMemory),
        Err(error) => {
            if is_object_at(view, "/workspaces") {
                return packages_at(alloc, view);
            }
            Err(ManifestErr::from(error))
        }
    }
}
