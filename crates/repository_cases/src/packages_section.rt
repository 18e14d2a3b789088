// Workspaces: which folders are packages, and what depends on what.
ghost use Rattle.std.specs.Prelude.{◌≡◌, ◌<◌, ◌∷◌, [], IfOk, length};
ghost use Rattle.manifest.specs.Manifest.{AreAscending};

use crate::repositories::files_of;
use anyhow::{Result, bail};
use case_files::{answers, inputs};
use manifest::Manifest;
use rel_path::{Places, RelPath, Text};
use serde_json::{Value, json};
use std::alloc::Global;
use tree_dev::MemTree;
use tree_walk::walk;
use workspaces::{Needs, Packages, SpaceErr, discover, is_edge};

fn root_of(alloc: Global, case: &Value) -> Result<Manifest>
    ensures { IfOk result AreAscending }
{
    let files = inputs::value(case, "files")?;
    let bytes = inputs::bytes(alloc, files, "package.json")?;
    Ok(Manifest::read(alloc, bytes.as_slice(), true)?)
}

fn space_of(alloc: Global, case: &Value) -> Result<Result<Packages, SpaceErr>> {
    let root = root_of(alloc, case)?;
    let mut tree = MemTree::new(alloc, files_of(alloc, case)?, Vec::new(alloc));
    let Ok(walk) = walk(alloc, &mut tree) else {
        bail!("the tree is not walked");
    };
    Ok(discover(alloc, &mut tree, root, &walk))
}

fn two_folders(alloc: Global, name: &str, first: &RelPath, second: &RelPath) -> Result<Value> {
    let first = answers::path(alloc, first)?;
    let second = answers::path(alloc, second)?;
    Ok(json!(in alloc; {"error": name, "folders": [first, second]})?)
}

fn name_twice(alloc: Global, name: &Text, first: &RelPath, second: &RelPath) -> Result<Value> {
    let first = answers::path(alloc, first)?;
    let second = answers::path(alloc, second)?;
    Ok(json!(in alloc; {"error": "NameTwice", "name": name.as_str(), "folders": [first, second]})?)
}

fn no_manifest(alloc: Global, path: &RelPath) -> Result<Value> {
    let path = answers::path(alloc, path)?;
    Ok(json!(in alloc; {"error": "Manifest", "path": path})?)
}

fn refusal(alloc: Global, error: &SpaceErr) -> Result<Value> {
    match error {
        SpaceErr::Glob { pointer, fault } => {
            let fault = answers::printed(alloc, fault)?;
            Ok(json!(in alloc; {"error": "Glob", "at": pointer.as_str(), "fault": fault})?)
        }
        SpaceErr::Manifest { path, fault: _ } => no_manifest(alloc, path),
        SpaceErr::Inside { outer, inner } => two_folders(alloc, "Inside", outer, inner),
        SpaceErr::NameTwice {
            name,
            first,
            second,
        } => name_twice(alloc, name, first, second),
        SpaceErr::TooLarge { path: _ } => bail!("a manifest is too large"),
        SpaceErr::Failed => bail!("the tree failed"),
        SpaceErr::OutOfMemory => bail!("out of memory"),
    }
}

fn package(alloc: Global, space: &Packages, p: u32) -> Result<Value>
    requires { p < length space.now.packages }
{
    let folder = answers::path(alloc, space.folder(p))?;
    Ok(json!(in alloc; [space.name(p).as_str(), folder])?)
}

fn packages(alloc: Global, space: &Packages) -> Result<Value> {
    let mut values = Vec::new(alloc);
    for p in 0..space.count() {
        values.push(package(alloc, space, p)?)?;
    }
    Ok(Value::Array(values))
}

/// The names of the packages with these numbers.
pub fn names_at(alloc: Global, space: &Packages, places: &Places) -> Result<Value> {
    let mut names = Vec::new(alloc);
    for place in places.as_slice() {
        if *place >= space.count() {
            bail!("no package has the number {place}");
        }
        names.push(answers::text(alloc, space.name(*place).as_str())?)?;
    }
    Ok(Value::Array(names))
}

fn one_place(alloc: Global, p: u32) -> Result<Places>
    ensures { IfOk result (λ places. places ≡ p ∷ []) }
{
    let mut places = Places::new(alloc);
    places.push(p)?;
    Ok(places)
}

fn needs_value(alloc: Global, needs: &Needs) -> Result<Value> {
    let hard = answers::texts(alloc, needs.hard.as_slice())?;
    let soft = answers::texts(alloc, needs.soft.as_slice())?;
    Ok(json!(in alloc; {"hard": hard, "soft": soft})?)
}

fn below(alloc: Global, space: &Packages, p: u32) -> Result<Value>
    requires { p < length space.now.packages }
{
    let set = one_place(alloc, p)?;
    names_at(alloc, space, &space.below(alloc, &set)?)
}

fn above(alloc: Global, space: &Packages, p: u32) -> Result<Value>
    requires { p < length space.now.packages }
{
    let set = one_place(alloc, p)?;
    names_at(alloc, space, &space.above(alloc, &set)?)
}

// What a package depends on, what it needs from outside, and what edges reach from it and back.
fn edges_of(alloc: Global, space: &Packages, p: u32) -> Result<Value>
    requires { p < length space.now.packages }
{
    let edges = names_at(alloc, space, space.edges(p))?;
    let needs = needs_value(alloc, space.needs(p))?;
    let below = below(alloc, space, p)?;
    let above = above(alloc, space, p)?;
    Ok(
        json!(in alloc; {"package": space.name(p).as_str(), "edges": edges, "needs": needs, "below": below, "above": above})?,
    )
}

fn root_edges(alloc: Global, space: &Packages) -> Result<Value> {
    let edges = names_at(alloc, space, space.edges(space.count()))?;
    let needs = needs_value(alloc, space.needs(space.count()))?;
    Ok(json!(in alloc; {"root": true, "edges": edges, "needs": needs})?)
}

fn edges(alloc: Global, space: &Packages) -> Result<Value> {
    let mut rows = Vec::new(alloc);
    for p in 0..space.count() {
        rows.push(edges_of(alloc, space, p)?)?;
    }
    rows.push(root_edges(alloc, space)?)?;
    Ok(Value::Array(rows))
}

fn found(alloc: Global, case: &Value, call: &str) -> Result<Value> {
    match space_of(alloc, case)? {
        Err(error) => refusal(alloc, &error),
        Ok(space) if call == "edges" => edges(alloc, &space),
        Ok(space) => packages(alloc, &space),
    }
}

fn edge(alloc: Global, case: &Value) -> Result<Value> {
    let version = match inputs::optional(case, "version") {
        None => None,
        Some(version) => Some(inputs::own_text(alloc, version)?),
    };
    let is = is_edge(alloc, inputs::text(case, "dependency")?, &version)?;
    Ok(Value::Bool(is))
}

pub fn answer(alloc: Global, case: &Value) -> Result<Value> {
    match inputs::text(case, "call")? {
        "packages" => found(alloc, case, "packages"),
        "edges" => found(alloc, case, "edges"),
        "is edge" => edge(alloc, case),
        _ => bail!("no such call"),
    }
}
