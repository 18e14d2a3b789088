// Trees in memory, call by call: files, the walk, and what a task owns.
ghost use Rattle.device_cases.specs.Quiet.{IsQuiet};

use crate::artifacts::files_of;
use crate::parts;
use anyhow::{Result, anyhow};
use cache_api::owns_all;
use capture::{CapErr, clear, restore, take};
use case_files::{answers, inputs};
use globs::{GlobList, GlobLists, OutSet};
use rel_path::{Bytes, Files, RelPath, Text};
use serde_json::{Value, json};
use std::alloc::Global;
use tree_dev::{DevErr, Entry, Found, MemTree, Tree};
use tree_walk::{WalkErr, walk};

// What stands in a file of which a case gives the path alone.
const CONTENT: &[u8] = b"1234";

const LOG: &[u8] = b"log";

// Every file of the cases is smaller.
const LIMIT: u64 = 100;

fn device_fault(alloc: Global, error: DevErr) -> Result<Value> {
    match error {
        DevErr::Failed => answers::error(alloc, "Failed"),
        DevErr::OutOfMemory => Err(anyhow!("out of memory")),
    }
}

fn at_path(alloc: Global, name: &str, path: &RelPath) -> Result<Value> {
    let path = answers::path(alloc, path)?;
    Ok(json!(in alloc; {"error": name, "at": path})?)
}

fn walk_fault(alloc: Global, error: WalkErr) -> Result<Value> {
    match error {
        WalkErr::TooDeep { path } => at_path(alloc, "TooDeep", &path),
        WalkErr::TooMany => answers::error(alloc, "TooMany"),
        WalkErr::Failed => answers::error(alloc, "Failed"),
        WalkErr::OutOfMemory => Err(anyhow!("out of memory")),
    }
}

fn owned_fault(alloc: Global, error: CapErr) -> Result<Value> {
    match error {
        CapErr::Shared { path } => at_path(alloc, "Shared", &path),
        CapErr::TooLarge { path } => at_path(alloc, "TooLarge", &path),
        CapErr::Failed => answers::error(alloc, "Failed"),
        CapErr::OutOfMemory => Err(anyhow!("out of memory")),
    }
}

// Files of which a number is the name, from 0 on.
fn numbered(alloc: Global, count: u64) -> Result<Files> {
    let mut files = Files::new(alloc);
    for number in 0..count {
        let name = Text::from_string(number.to_string(alloc)?);
        let path = RelPath::read(alloc, name.as_str())?;
        files.push((path, Bytes::read(alloc, b"")?))?;
    }
    Ok(files)
}

fn files_at(alloc: Global, paths: &[Value]) -> Result<Files> {
    let mut files = Files::new(alloc);
    for path in paths {
        let path = inputs::as_path(alloc, inputs::as_text(path)?)?;
        files.push((path, Bytes::read(alloc, CONTENT)?))?;
    }
    Ok(files)
}

fn files_in(alloc: Global, case: &Value) -> Result<Files> {
    if inputs::optional(case, "numbered").is_some() {
        return numbered(alloc, inputs::number(case, "numbered")?);
    }
    if inputs::optional(case, "paths").is_some() {
        return files_at(alloc, inputs::list(case, "paths")?);
    }
    files_of(alloc, inputs::list(case, "files")?)
}

fn tree_of(alloc: Global, case: &Value) -> Result<MemTree> {
    let mut fails = Vec::new(alloc);
    for number in inputs::list(case, "fails")? {
        fails.push(number.as_u64().unwrap_or(u64::MAX))?;
    }
    Ok(MemTree::new(alloc, files_in(alloc, case)?, fails))
}

fn outs_of(alloc: Global, call: &Value) -> Result<OutSet> {
    let mut others = GlobLists::new(alloc);
    for list in inputs::list(call, "others")? {
        let globs = inputs::as_texts(alloc, inputs::as_list(list)?)?;
        others.push(GlobList::read(alloc, &globs)?)?;
    }
    Ok(OutSet {
        folder: inputs::path(alloc, call, "folder")?,
        mine: GlobList::read(alloc, &inputs::texts(alloc, call, "outputs")?)?,
        others,
    })
}

fn name_of(alloc: Global, entry: &Entry) -> Result<Value> {
    let mut name = String::from_str(alloc, entry.name.as_str())?;
    if entry.folder {
        name.push('/')?;
    }
    Ok(Value::String(name))
}

fn list<T: Tree>(alloc: Global, tree: &mut T, folder: &RelPath) -> Result<Value>
    requires { IsQuiet (T.state tree.old) }
    ensures { IsQuiet (T.state tree.new) }
{
    let found = match tree.list(alloc, folder) {
        Ok(found) => found,
        Err(error) => return device_fault(alloc, error),
    };
    let mut names = Vec::new(alloc);
    for entry in found.as_slice() {
        names.push(name_of(alloc, entry)?)?;
    }
    Ok(Value::Array(names))
}

fn read<T: Tree>(alloc: Global, tree: &mut T, path: &RelPath, limit: u64) -> Result<Value>
    requires { IsQuiet (T.state tree.old) }
    ensures { IsQuiet (T.state tree.new) }
{
    match tree.read(alloc, path, limit) {
        Ok(Found::Absent) => Ok(Value::Null),
        Ok(Found::TooLong) => answers::error(alloc, "TooLong"),
        Ok(Found::Here(bytes)) => answers::bytes(alloc, bytes.as_slice()),
        Err(error) => device_fault(alloc, error),
    }
}

fn write<T: Tree>(alloc: Global, tree: &mut T, path: &RelPath, bytes: &[u8]) -> Result<Value>
    requires { IsQuiet (T.state tree.old) }
    ensures { IsQuiet (T.state tree.new) }
{
    match tree.write(alloc, path, bytes) {
        Ok(()) => answers::text(alloc, "ok"),
        Err(error) => device_fault(alloc, error),
    }
}

fn remove<T: Tree>(alloc: Global, tree: &mut T, path: &RelPath) -> Result<Value>
    requires { IsQuiet (T.state tree.old) }
    ensures { IsQuiet (T.state tree.new) }
{
    match tree.remove(alloc, path) {
        Ok(()) => answers::text(alloc, "ok"),
        Err(error) => device_fault(alloc, error),
    }
}

fn walked<T: Tree>(alloc: Global, tree: &mut T) -> Result<Value>
    requires { IsQuiet (T.state tree.old) }
    ensures { IsQuiet (T.state tree.new) }
{
    match walk(alloc, tree) {
        Ok(paths) => answers::paths(alloc, paths.as_slice()),
        Err(error) => walk_fault(alloc, error),
    }
}

// How many paths are walked, the first and the last of them.
fn walked_ends<T: Tree>(alloc: Global, tree: &mut T) -> Result<Value>
    requires { IsQuiet (T.state tree.old) }
    ensures { IsQuiet (T.state tree.new) }
{
    match walk(alloc, tree) {
        Ok(paths) => ends(alloc, paths.as_slice()),
        Err(error) => walk_fault(alloc, error),
    }
}

fn ends(alloc: Global, paths: &[RelPath]) -> Result<Value> {
    let (Some(first), Some(last)) = (paths.first(), paths.last()) else {
        return Ok(Value::Null);
    };
    let (first, last) = (answers::path(alloc, first)?, answers::path(alloc, last)?);
    Ok(json!(in alloc; [paths.len(), first, last])?)
}

fn cleared<T: Tree>(alloc: Global, tree: &mut T, outs: &OutSet) -> Result<Value>
    requires { IsQuiet (T.state tree.old) }
    ensures { IsQuiet (T.state tree.new) }
{
    match clear(alloc, tree, outs) {
        Ok(()) => answers::text(alloc, "ok"),
        Err(error) => owned_fault(alloc, error),
    }
}

fn taken_paths(alloc: Global, files: &[(RelPath, Bytes)]) -> Result<Value> {
    let mut paths = Vec::new(alloc);
    for file in files {
        paths.push(answers::path(alloc, &file.0)?)?;
    }
    Ok(Value::Array(paths))
}

fn taken<T: Tree>(alloc: Global, tree: &mut T, outs: &OutSet, limit: u64) -> Result<Value>
    requires { IsQuiet (T.state tree.old) }
    ensures { IsQuiet (T.state tree.new) }
{
    match take(alloc, tree, outs, LOG, limit) {
        Ok(artifact) => taken_paths(alloc, artifact.files.as_slice()),
        Err(error) => owned_fault(alloc, error),
    }
}

// Takes what a task left in one tree and puts it into another.
fn restored<T: Tree>(alloc: Global, from: &mut T, to: &mut T, outs: &OutSet) -> Result<Value>
    requires from { IsQuiet (T.state from.old) }
    requires to { IsQuiet (T.state to.old) }
    ensures to { IsQuiet (T.state to.new) }
{
    let artifact = match take(alloc, from, outs, LOG, LIMIT) {
        Ok(artifact) => artifact,
        Err(error) => return owned_fault(alloc, error),
    };
    if !owns_all(outs, artifact.files.as_slice()) {
        return answers::error(alloc, "not owned");
    }
    match restore(alloc, to, outs, &artifact) {
        Ok(()) => answers::text(alloc, "ok"),
        Err(error) => owned_fault(alloc, error),
    }
}

fn on_files<T: Tree>(alloc: Global, tree: &mut T, call: &Value) -> Result<Value>
    requires { IsQuiet (T.state tree.old) }
    ensures { IsQuiet (T.state tree.new) }
{
    let path = inputs::path(alloc, call, "path")?;
    match inputs::text(call, "call")? {
        "list" => list(alloc, tree, &path),
        "read" => read(alloc, tree, &path, inputs::number(call, "limit")?),
        "write" => write(alloc, tree, &path, &parts::bytes(alloc, call, "bytes")?),
        "remove" => remove(alloc, tree, &path),
        _ => Err(anyhow!("no such call")),
    }
}

fn on_owned(alloc: Global, tree: &mut MemTree, call: &Value) -> Result<Value>
    requires { IsQuiet (⟦<MemTree as Tree>⟧.state tree.old) }
    ensures { IsQuiet (⟦<MemTree as Tree>⟧.state tree.new) }
{
    let outs = outs_of(alloc, call)?;
    match inputs::text(call, "call")? {
        "clear" => cleared(alloc, tree, &outs),
        "take" => taken(alloc, tree, &outs, inputs::number(call, "limit")?),
        "restore" => restored(alloc, &mut tree_of(alloc, call)?, tree, &outs),
        _ => Err(anyhow!("no such call")),
    }
}

fn call_of(alloc: Global, tree: &mut MemTree, call: &Value) -> Result<Value>
    requires { IsQuiet (⟦<MemTree as Tree>⟧.state tree.old) }
    ensures { IsQuiet (⟦<MemTree as Tree>⟧.state tree.new) }
{
    match inputs::text(call, "call")? {
        "walk" => walked(alloc, tree),
        "walk ends" => walked_ends(alloc, tree),
        "count" => Ok(Value::from(tree.files().as_slice().len() as u64)),
        "clear" | "take" | "restore" => on_owned(alloc, tree, call),
        _ => on_files(alloc, tree, call),
    }
}

/// What each of the calls answers.
pub fn answer(alloc: Global, case: &Value) -> Result<Value> {
    let mut tree = tree_of(alloc, case)?;
    let mut found = Vec::new(alloc);
    for call in inputs::list(case, "calls")? {
        found.push(call_of(alloc, &mut tree, call)?)?;
    }
    Ok(Value::Array(found))
}
