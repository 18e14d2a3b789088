// The value of a lockfile without some of its entries.
ghost use Rattle.std.specs.Prelude.{◌≡◌, Some, IfOk};
ghost use Rattle.std.specs.Option.{option_map};
ghost use Rattle.std.specs.List.Sorted.{IsSorted};
ghost use Rattle.serde_json.specs.View.{view, members_view};
ghost use Rattle.rel_path.specs.Paths.{name_cmp};
ghost use Rattle.npm_lock.specs.Cut.{is_in, folder_of, passes, keeps, picked, cut_entry, cut_top, cut};

use rel_path::{Text, Texts};
use serde_json::{Map, Value};
use std::alloc::{AllocError, Global};
use std::cmp::Ordering;

fn sorted(texts: &Texts) -> Result<Vec<Text>, AllocError>
    ensures sorted { IfOk result (λ sorted. IsSorted name_cmp sorted.items) }
    ensures same { IfOk result (λ sorted. is_in sorted.items ≡ is_in texts.now) }
{
    let mut sorted = texts.copy()?.into_vec();
    sorted.sort()?;
    Ok(sorted)
}

// The texts ascend.
fn contains(texts: &[Text], text: &str) -> bool
    requires { IsSorted name_cmp texts.now }
    ensures { result ≡ is_in texts.now text.now }
{
    let compare = |other: &Text| -> Ordering
        ensures { result ≡ name_cmp other.now text.entry.now }
    { other.as_str().cmp(text) };
    texts.binary_search_by(compare).is_ok()
}

// The folder that an entry leads to, if it is a link.
#[tactic(auto, unfolding(crate::specs::Cut::folder_of))]
fn folder_of(value: &Value) -> Option<&str>
    ensures { option_map (λ s. s.now) result ≡ folder_of (view value.now) }
{
    let link = value.get("link").and_then(Value::as_bool);
    if link.unwrap_or(false) {
        value.get("resolved").and_then(Value::as_str)
    } else {
        None
    }
}

fn leads_to(folders: &[Text], value: &Value) -> bool
    requires { IsSorted name_cmp folders.now }
    ensures { result ≡ passes (is_in folders.now) (folder_of (view value.now)) }
{
    match folder_of(value) {
        None => false,
        Some(folder) => contains(folders, folder),
    }
}

fn keeps(folders: &[Text], locations: &[Text], location: &str, value: &Value) -> bool
    requires folders { IsSorted name_cmp folders.now }
    requires locations { IsSorted name_cmp locations.now }
    ensures { result ≡ keeps (is_in folders.now) (is_in locations.now) location.now
        (view value.now) }
{
    location.is_empty()
        || contains(folders, location)
        || leads_to(folders, value)
        || contains(locations, location)
}

fn cut_packages(
    alloc: Global,
    packages: &Map<String, Value>,
    folders: &[Text],
    locations: &[Text],
) -> Result<Map<String, Value>, AllocError>
    requires folders { IsSorted name_cmp folders.now }
    requires locations { IsSorted name_cmp locations.now }
    ensures { IfOk result (λ cut. members_view cut.entries
        ≡ picked (cut_entry (is_in folders.now) (is_in locations.now))
        (members_view packages.now.entries)) }
{
    let mut cut = Map::new(alloc);
    for (location, value) in packages.iter() {
        if keeps(folders, locations, location.as_str(), value) {
            let name = location.clone()?;
            drop(cut.insert(name, value.clone()?)?);
        }
    }
    Ok(cut)
}

fn cut_member(
    alloc: Global,
    name: &str,
    value: &Value,
    folders: &[Text],
    locations: &[Text],
) -> Result<Value, AllocError>
    requires folders { IsSorted name_cmp folders.now }
    requires locations { IsSorted name_cmp locations.now }
    ensures { IfOk result (λ now. Some (view now)
        ≡ cut_top (is_in folders.now) (is_in locations.now) name.now (view value.now)) }
{
    if name != "packages" {
        return value.clone();
    }
    match value.as_object() {
        None => value.clone(),
        Some(packages) => Ok(Value::Object(cut_packages(alloc, packages, folders, locations)?)),
    }
}

fn cut_members(
    alloc: Global,
    top: &Map<String, Value>,
    folders: &[Text],
    locations: &[Text],
) -> Result<Map<String, Value>, AllocError>
    requires folders { IsSorted name_cmp folders.now }
    requires locations { IsSorted name_cmp locations.now }
    ensures { IfOk result (λ cut. members_view cut.entries
        ≡ picked (cut_top (is_in folders.now) (is_in locations.now))
        (members_view top.now.entries)) }
{
    let mut cut = Map::new(alloc);
    for (name, value) in top.iter() {
        let member = cut_member(alloc, name.as_str(), value, folders, locations)?;
        let name = name.clone()?;
        drop(cut.insert(name, member)?);
    }
    Ok(cut)
}

/// The value with the top keys, and of `packages` the root's entry, the entries of the folders, the links that lead
/// to them, and the locations.
pub(crate) fn cut_value(
    alloc: Global,
    value: &Value,
    folders: &Texts,
    locations: &Texts,
) -> Result<Value, AllocError>
    ensures cut { IfOk result (λ now. view now ≡ cut folders.now locations.now (view value.now)) }
{
    let folders = sorted(folders)?;
    let locations = sorted(locations)?;
    match value.as_object() {
        None => Ok(value.clone()?),
        Some(top) => Ok(Value::Object(cut_members(
            alloc,
            top,
            folders.as_slice(),
            locations.as_slice(),
        )?)),
    }
}
