// The line of each refusal.
ghost use Rattle.std.specs.Prelude.{◌≡◌, ◌++◌, IfOk, string_bytes, codes, decimal};
ghost use Rattle.refusals.specs.Refusals.{refusal_text, file_word, store_words, line_of};
ghost use Rattle.page.specs.Tasks.{path_text};

use crate::faults::{config_fault, glob_fault, lock_fault, manifest_fault, words_fault};
use crate::{Refusal, StoreFile};
use page::{joined, task_name};
use rel_path::limits::MAX_FILES;
use rel_path::{Bytes, RelPath, Text};
use std::alloc::{AllocError, Global};
use turbo_config::{TaskId, TaskIds};

fn behind(alloc: Global, front: &str, text: &str) -> Result<String, AllocError>
    ensures text { IfOk result (λ line. string_bytes line ≡ front.now ++ text.now) }
{
    Ok(format!(in alloc; "{front}{text}")?)
}

fn with_number(alloc: Global, front: &str, number: u64) -> Result<String, AllocError>
    ensures text { IfOk result (λ text. string_bytes text ≡ front.now ++ decimal number) }
{
    Ok(format!(in alloc; "{front}{number}")?)
}

fn with_path(alloc: Global, front: &str, path: &RelPath) -> Result<String, AllocError>
    ensures text { IfOk result (λ text. string_bytes text ≡ front.now ++ path_text path.now) }
{
    let path = path.text(alloc)?;
    behind(alloc, front, path.as_str())
}

fn too_many(alloc: Global) -> Result<String, AllocError>
    ensures text { IfOk result (λ text. string_bytes text ≡ refusal_text Refusal.TooMany) }
{
    Ok(format!(in alloc; "more than {MAX_FILES} files")?)
}

// What is wrong with a file.
fn of_file(alloc: Global, path: &RelPath, fault: &str) -> Result<String, AllocError>
    ensures text { IfOk result (λ text. string_bytes text
        ≡ path_text path.now ++ (codes ": " ++ fault.now)) }
{
    let path = path.text(alloc)?;
    let path = path.as_str();
    Ok(format!(in alloc; "{path}: {fault}")?)
}

// Two packages of which one lies inside the other.
fn inside(alloc: Global, outer: &RelPath, inner: &RelPath) -> Result<String, AllocError>
    ensures text { IfOk result (λ text. string_bytes text
        ≡ refusal_text (Refusal.Inside outer.now inner.now)) }
{
    let outer = outer.text(alloc)?;
    let outer = outer.as_str();
    let inner = inner.text(alloc)?;
    let inner = inner.as_str();
    Ok(format!(in alloc; "package {inner} lies inside {outer}")?)
}

fn name_twice(
    alloc: Global,
    name: &Text,
    first: &RelPath,
    second: &RelPath,
) -> Result<String, AllocError>
    ensures text { IfOk result (λ text. string_bytes text
        ≡ refusal_text (Refusal.NameTwice name.now first.now second.now)) }
{
    let name = name.as_str();
    let first = first.text(alloc)?;
    let first = first.as_str();
    let second = second.text(alloc)?;
    let second = second.as_str();
    Ok(format!(in alloc; "name {name} in {first} and {second}")?)
}

// What is wrong with a text of a file.
fn at_pointer(
    alloc: Global,
    path: &RelPath,
    pointer: &Text,
    fault: &str,
) -> Result<String, AllocError>
    ensures text { IfOk result (λ text. string_bytes text
        ≡ path_text path.now ++ (codes ": " ++ (pointer.now ++ (codes ": " ++ fault.now)))) }
{
    let path = path.text(alloc)?;
    let path = path.as_str();
    let pointer = pointer.as_str();
    Ok(format!(in alloc; "{path}: {pointer}: {fault}")?)
}

fn no_dependency(alloc: Global, task: &TaskId, text: &Text) -> Result<String, AllocError>
    ensures text { IfOk result (λ line. string_bytes line
        ≡ refusal_text (Refusal.NoSuchDependency task.now text.now)) }
{
    let task = task_name(alloc, task)?;
    let task = task.as_str();
    let text = text.as_str();
    Ok(format!(in alloc; "{task}: no dependency {text}")?)
}

fn cycle(alloc: Global, tasks: &TaskIds) -> Result<String, AllocError>
    ensures text { IfOk result
        (λ text. string_bytes text ≡ refusal_text (Refusal.Cycle tasks.now)) }
{
    let tasks = joined(alloc, " -> ", tasks.as_slice())?;
    behind(alloc, "cycle: ", tasks.as_str())
}

fn persistent(alloc: Global, task: &TaskId) -> Result<String, AllocError>
    ensures text { IfOk result (λ text. string_bytes text
        ≡ refusal_text (Refusal.Persistent task.now)) }
{
    let task = task_name(alloc, task)?;
    behind(alloc, "persistent task ", task.as_str())
}

fn lock_missing(alloc: Global, from: &Text, name: &Text) -> Result<String, AllocError>
    ensures text { IfOk result (λ text. string_bytes text
        ≡ refusal_text (Refusal.LockMissing from.now name.now)) }
{
    let from = from.as_str();
    let name = name.as_str();
    Ok(format!(in alloc; "lock: {name} not found from {from}")?)
}

fn file_word(file: StoreFile) -> &'static str
    ensures { result.now ≡ file_word file }
{
    match file {
        StoreFile::Store => "store",
        StoreFile::Spare => "spare",
        StoreFile::Second => "remote",
        StoreFile::Shared => "shared",
    }
}

fn store_words(file: StoreFile) -> &'static str
    ensures { result.now ≡ store_words file }
{
    match file {
        StoreFile::Store => "store",
        StoreFile::Spare => "spare store",
        StoreFile::Second => "remote store",
        StoreFile::Shared => "shared store",
    }
}

fn no_store(alloc: Global, file: StoreFile) -> Result<String, AllocError>
    ensures text { IfOk result (λ text. string_bytes text
        ≡ refusal_text (Refusal.NotAStore file)) }
{
    let file = file_word(file);
    Ok(format!(in alloc; "the {file} file is no store")?)
}

fn damaged(alloc: Global, file: StoreFile, at: u64) -> Result<String, AllocError>
    ensures text { IfOk result (λ text. string_bytes text
        ≡ refusal_text (Refusal.Damaged file at)) }
{
    let store = store_words(file);
    Ok(format!(in alloc; "the {store} is damaged at {at}")?)
}

fn no_room(alloc: Global, need: u64, free: u64) -> Result<String, AllocError>
    ensures text { IfOk result (λ text. string_bytes text
        ≡ refusal_text (Refusal.NoRoom need free)) }
{
    Ok(format!(in alloc; "no room: {need} needed, {free} free")?)
}

fn refusal_text(alloc: Global, refusal: &Refusal) -> Result<String, AllocError>
    ensures text { IfOk result (λ text. string_bytes text ≡ refusal_text refusal.now) }
{
    match refusal {
        Refusal::Words(fault) => behind(alloc, "words: ", words_fault(alloc, *fault)?.as_str()),
        Refusal::NoManifest => behind(alloc, "package.json is missing", ""),
        Refusal::Manifest { path, fault } => {
            of_file(alloc, path, manifest_fault(alloc, fault)?.as_str())
        }
        Refusal::Lock(fault) => {
            behind(
                alloc,
                "package-lock.json: ",
                lock_fault(alloc, fault)?.as_str(),
            )
        }
        Refusal::TooDeep { path } => with_path(alloc, "too deep: ", path),
        Refusal::TooMany => too_many(alloc),
        Refusal::Inside { outer, inner } => inside(alloc, outer, inner),
        Refusal::NameTwice {
            name,
            first,
            second,
        } => name_twice(alloc, name, first, second),
        Refusal::Config { path, fault } => {
            of_file(alloc, path, config_fault(alloc, fault)?.as_str())
        }
        Refusal::Glob {
            path,
            pointer,
            fault,
        } => { at_pointer(alloc, path, pointer, glob_fault(alloc, *fault)?.as_str()) }
        Refusal::Filter { word } => behind(alloc, "filter: ", word.as_str()),
        Refusal::NoPackage { name } => behind(alloc, "no package ", name.as_str()),
        Refusal::NoSuchTask { name } => behind(alloc, "no task ", name.as_str()),
        Refusal::NoSuchDependency { task, text } => no_dependency(alloc, task, text),
        Refusal::Cycle { tasks } => cycle(alloc, tasks),
        Refusal::Persistent { task } => persistent(alloc, task),
        Refusal::LockMissing { from, name } => lock_missing(alloc, from, name),
        Refusal::TooLarge { path } => with_path(alloc, "too large: ", path),
        Refusal::TooMuch { bytes } => with_number(alloc, "inputs too large: ", *bytes),
        Refusal::NotAStore { file } => no_store(alloc, *file),
        Refusal::Damaged { file, at } => damaged(alloc, *file, *at),
        Refusal::OutTaken { path } => with_path(alloc, "already there: ", path),
        Refusal::NoRoom { need, free } => no_room(alloc, *need, *free),
        Refusal::LastGeneration => behind(alloc, "last generation", ""),
    }
}

/// The line that says why a command line is refused.
pub fn fault_text(alloc: Global, refusal: &Refusal) -> Result<Bytes, AllocError>
    ensures text { IfOk result (λ bytes. bytes ≡ line_of (refusal_text refusal.now)) }
{
    let text = refusal_text(alloc, refusal)?;
    let text = text.as_str();
    let line = format!(in alloc; "turbo: {text}\n")?;
    Ok(Bytes::from_vec(line.into_bytes()))
}
