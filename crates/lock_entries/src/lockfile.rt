// The entries of a lockfile's value, or why it is none.
ghost use Rattle.std.specs.Prelude.{◌≡◌, ◌<◌, ◌^◌, length, Some, None, IfOk, MatchResult, option_map};
ghost use Rattle.serde_json.specs.View.{view, members_view};
ghost use Rattle.serde_json.specs.Find.{as_object};
ghost use Rattle.lock_entries.specs.Errors.{MayRefuse, Accepts};
ghost use Rattle.lock_entries.specs.Entries.{entries_of, least_wrong};
ghost use Rattle.lock_entries.specs.Least.{lesser_by};
ghost use Rattle.lock_entries.specs.Lockfile.{top_refusal, as_whole, version_refusal, number_refusal, packages_refusal, packages_of, lock_refusal, entries_in, wrong_of, Ascend};
ghost use Rattle.lock_entries.specs.declared.error.LockErr.TheVariants.{WrongKind};

use crate::floats::least_float;
use crate::parts::{Wrong, entry_of};
use crate::{Entry, LockErr};
use json_view::{JsonErr, Shape, wrong_kind};
use serde_json::{Map, Value};
use std::alloc::Global;

// The `lockfileVersion` that is read.
const LOCKFILE_VERSION: i128 = 3;

// The error for a wrong kind at the pointer, or for want of memory.
fn wrong(alloc: Global, pointer: &str, wanted: Shape) -> LockErr
    ensures { MayRefuse (Some (WrongKind pointer.now wanted)) result }
{
    LockErr::from(wrong_kind(alloc, pointer, wanted))
}

fn check_top(alloc: Global, value: &Value) -> Result<(), LockErr>
    ensures { MatchResult result (λ _. top_refusal (as_object (view value.now)) ≡ None)
        (MayRefuse (top_refusal (as_object (view value.now)))) }
{
    if value.is_object() {
        Ok(())
    } else {
        Err(wrong(alloc, "", Shape::Object))
    }
}

fn as_whole(value: &Value) -> Option<i128>
    ensures { result ≡ as_whole (view value.now) }
{
    value.as_number()?.as_i128()
}

#[tactic(auto, unfolding(crate::specs::Lockfile::version_refusal))]
fn check_version(alloc: Global, value: &Value) -> Result<(), LockErr>
    ensures { MatchResult result (λ _. version_refusal (view value.now) ≡ None)
        (MayRefuse (version_refusal (view value.now))) }
{
    match value.get("lockfileVersion").and_then(as_whole) {
        None => Err(wrong(alloc, "/lockfileVersion", Shape::Whole)),
        Some(n) => {
            if n == LOCKFILE_VERSION {
                Ok(())
            } else {
                Err(LockErr::Version { n })
            }
        }
    }
}

#[tactic(auto, unfolding(crate::specs::Lockfile::number_refusal))]
fn check_numbers(alloc: Global, value: &Value) -> Result<(), LockErr>
    ensures { MatchResult result (λ _. number_refusal (view value.now) ≡ None)
        (MayRefuse (number_refusal (view value.now))) }
{
    match least_float(alloc, value)? {
        None => Ok(()),
        Some(pointer) => Err(LockErr::Number { pointer }),
    }
}

/// The object `packages` of a lockfile's value.
pub fn packages_of(value: &Value) -> Option<&Map<String, Value>>
    ensures { option_map (λ m. members_view m.now.entries) result ≡ packages_of (view value.now) }
{
    value.get("packages")?.as_object()
}

fn lesser(first: Option<Wrong>, second: Wrong) -> Wrong
    ensures { Some result ≡ lesser_by (λ wrong. wrong.pointer) first (Some second) }
{
    match first {
        None => second,
        Some(first) => {
            if first.pointer > second.pointer {
                second
            } else {
                first
            }
        }
    }
}

fn entries_of(alloc: Global, packages: &Map<String, Value>) -> Result<Vec<Entry>, LockErr>
    ensures entries { Accepts (wrong_of (least_wrong (members_view packages.now.entries)))
        (λ entries. entries.items ≡ entries_of (members_view packages.now.entries)) result }
    ensures ascend { IfOk result (λ entries. Ascend entries.items) }
{
    let mut entries = Vec::new(alloc);
    let mut least = None;
    for (location, value) in packages.iter() {
        match entry_of(alloc, location.as_str(), value) {
            Ok(entry) => entries.push(entry)?,
            Err(JsonErr::WrongKind { pointer, wanted }) => {
                least = Some(lesser(least, Wrong { pointer, wanted }));
            }
            Err(_) => return Err(LockErr::OutOfMemory),
        }
    }
    match least {
        None => Ok(entries),
        Some(Wrong { pointer, wanted }) => Err(LockErr::WrongKind { pointer, wanted }),
    }
}

#[tactic(auto, unfolding(crate::specs::Lockfile::packages_refusal))]
fn entries_under(alloc: Global, value: &Value) -> Result<Vec<Entry>, LockErr>
    ensures entries { Accepts (packages_refusal (view value.now))
        (λ entries. entries.items ≡ entries_in (view value.now)) result }
    ensures ascend { IfOk result (λ entries. Ascend entries.items) }
{
    match packages_of(value) {
        None => Err(wrong(alloc, "/packages", Shape::Object)),
        Some(packages) => entries_of(alloc, packages),
    }
}

/// The entries of a lockfile's value, ascending by location, or the first reason why the value is no lockfile of
/// version 3: the top is no object; `lockfileVersion` is missing or no whole number, or is not 3; a number anywhere
/// is not whole or needs more than 64 bits (the least pointer of those); `packages` is missing, or something in it
/// has the wrong kind (the least pointer of those). An entry is an object, its `link` a flag, its `dependencies`,
/// `optionalDependencies` and `peerDependencies` objects of texts, and where `link` is true, `resolved` is a text.
/// 2^32 entries or more are refused for want of memory.
pub fn read_entries(alloc: Global, value: &Value) -> Result<Vec<Entry>, LockErr>
    ensures entries { Accepts (lock_refusal (view value.now))
        (λ entries. entries.items ≡ entries_in (view value.now)) result }
    ensures ascend { IfOk result (λ entries. Ascend entries.items) }
    ensures few { IfOk result (λ entries. length entries.items < 2 ^ 32) }
{
    check_top(alloc, value)?;
    check_version(alloc, value)?;
    check_numbers(alloc, value)?;
    let entries = entries_under(alloc, value)?;
    if entries.len() > u32::MAX as usize {
        return Err(LockErr::OutOfMemory);
    }
    Ok(entries)
}
