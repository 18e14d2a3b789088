// The parts of one entry, and the entry.
ghost use Rattle.std.specs.Prelude.{◌≡◌, ◌⊎◌, ◌++◌, None, IsSome, IfOk, OnOk, MatchResult, map, IsOkUnless};
ghost use Rattle.serde_json.specs.View.{view};
ghost use Rattle.serde_json.specs.Find.{as_object};
ghost use Rattle.json_view.specs.declared.error.JsonErr.TheVariants.{WrongKind, OutOfMemory};
ghost use Rattle.json_view.specs.Pairs.{pairs_of, MayFail};
ghost use Rattle.lock_entries.specs.Entries.{entry_pointer, member_pointer, IsNoObject, pairs_under, is_link, link_in, is_optional, soft_name, needed_name, names_of, entry_of};

use crate::{Entry, Name, Names};
use json_view::{JsonErr, Shape, pairs_of, pointer_to};
use rel_path::{Pairs, Text};
use serde_json::Value;
use std::alloc::{AllocError, Global};

/// A pointer at which something else than the shape stands.
#[derive(Drop)]
pub(crate) struct Wrong {
    pub pointer: Text,
    pub wanted: Shape,
}

// The pointer to the entry. Errors alone have pointers, so that an entry that reads takes no memory for any.
fn entry_pointer(alloc: Global, location: &str) -> Result<Text, JsonErr>
    ensures pointer { IfOk result (λ at. at ≡ entry_pointer location.now) }
    ensures memory { IsOkUnless result JsonErr.OutOfMemory }
{
    pointer_to(alloc, "/packages", location)
}

// The pointer to the member of the entry.
fn member_pointer(alloc: Global, location: &str, key: &str) -> Result<Text, JsonErr>
    ensures pointer { IfOk result (λ at. at ≡ member_pointer location.now key.now) }
    ensures memory { IsOkUnless result JsonErr.OutOfMemory }
{
    let at = entry_pointer(alloc, location)?;
    pointer_to(alloc, at.as_str(), key)
}

// The error for a wrong kind under the key, or for want of memory.
fn wrong_under(alloc: Global, location: &str, key: &str, wanted: Shape) -> JsonErr
    ensures { (result ≡ OutOfMemory)
        ⊎ (result ≡ WrongKind (member_pointer location.now key.now) wanted) }
{
    match member_pointer(alloc, location, key) {
        Ok(pointer) => JsonErr::WrongKind { pointer, wanted },
        Err(error) => error,
    }
}

fn check_object(alloc: Global, location: &str, value: &Value) -> Result<(), JsonErr>
    ensures { MatchResult result (λ _. IsSome (as_object (view value.now)))
        (λ e. (e ≡ OutOfMemory) ⊎ IsNoObject (entry_pointer location.now) (view value.now) e) }
{
    if value.is_object() {
        return Ok(());
    }
    let pointer = entry_pointer(alloc, location)?;
    Err(JsonErr::WrongKind {
        pointer,
        wanted: Shape::Object,
    })
}

// The names, with their texts, of the value under the key. What is no object of texts is read once more, for the
// pointer of the error.
fn pairs_at(alloc: Global, location: &str, key: &str, value: &Value) -> Result<Pairs, JsonErr>
    ensures { MayFail (pairs_of (member_pointer location.now key.now) (view value.now)) result }
{
    if let Ok(pairs) = pairs_of(alloc, "", value) {
        return Ok(pairs);
    }
    let at = member_pointer(alloc, location, key)?;
    pairs_of(alloc, at.as_str(), value)
}

// The names, with their texts, in the map of that key.
#[tactic(auto, unfolding(crate::specs::Entries::pairs_under))]
fn pairs_under(alloc: Global, location: &str, key: &str, entry: &Value) -> Result<Pairs, JsonErr>
    ensures { MayFail (pairs_under (entry_pointer location.now) key.now (view entry.now)) result }
{
    match entry.get(key) {
        None => Ok(Pairs::new(alloc)),
        Some(value) => pairs_at(alloc, location, key, value),
    }
}

#[tactic(auto, unfolding(crate::specs::Entries::is_link))]
fn is_link(alloc: Global, location: &str, entry: &Value) -> Result<bool, JsonErr>
    ensures { MayFail (is_link (entry_pointer location.now) (view entry.now)) result }
{
    match entry.get("link") {
        None => Ok(false),
        Some(value) => match value.as_bool() {
            None => Err(wrong_under(alloc, location, "link", Shape::Flag)),
            Some(link) => Ok(link),
        },
    }
}

// The folder that a link leads to.
#[tactic(auto, unfolding(crate::specs::Entries::link_in))]
fn link_in(
    alloc: Global,
    link: bool,
    location: &str,
    entry: &Value,
) -> Result<Option<Text>, JsonErr>
    ensures { MayFail (link_in link (entry_pointer location.now) (view entry.now)) result }
{
    if !link {
        return Ok(None);
    }
    match entry.get("resolved").and_then(Value::as_str) {
        None => Err(wrong_under(alloc, location, "resolved", Shape::Text)),
        Some(folder) => Ok(Some(Text::read(alloc, folder)?)),
    }
}

fn is_optional(entry: &Value, name: &str) -> bool
    ensures { result ≡ is_optional (view entry.now) name.now }
{
    match entry.get("optionalDependencies") {
        None => false,
        Some(optional) => optional.get(name).is_some(),
    }
}

fn push_needed(names: &mut Names, entry: &Value, needed: Pairs) -> Result<(), AllocError>
    ensures pushed { OnOk result
        (names.new ≡ names.old ++ map (needed_name (view entry.now)) needed) }
{
    for (text, _) in needed.into_vec()? {
        let soft = is_optional(entry, text.as_str());
        names.push(Name { text, soft })?;
    }
    Ok(())
}

fn push_soft(names: &mut Names, pairs: Pairs) -> Result<(), AllocError>
    ensures pushed { OnOk result (names.new ≡ names.old ++ map soft_name pairs) }
{
    for (text, _) in pairs.into_vec()? {
        names.push(Name { text, soft: true })?;
    }
    Ok(())
}

fn names_of(
    alloc: Global,
    entry: &Value,
    needed: Pairs,
    optional: Pairs,
    peers: Pairs,
) -> Result<Names, AllocError>
    ensures names { IfOk result (λ names. names ≡ names_of (view entry.now) needed optional peers) }
{
    let mut names = Names::new(alloc);
    push_needed(&mut names, entry, needed)?;
    push_soft(&mut names, optional)?;
    push_soft(&mut names, peers)?;
    Ok(names)
}

/// What the member of `packages` at the location says.
#[tactic(auto, unfolding(crate::specs::Entries::entry_of))]
pub(crate) fn entry_of(alloc: Global, location: &str, value: &Value) -> Result<Entry, JsonErr>
    ensures { MayFail (entry_of location.now (view value.now)) result }
{
    check_object(alloc, location, value)?;
    let needed = pairs_under(alloc, location, "dependencies", value)?;
    let is_link = is_link(alloc, location, value)?;
    let optional = pairs_under(alloc, location, "optionalDependencies", value)?;
    let peers = pairs_under(alloc, location, "peerDependencies", value)?;
    let link = link_in(alloc, is_link, location, value)?;
    let names = names_of(alloc, value, needed, optional, peers)?;
    let location = Text::read(alloc, location)?;
    Ok(Entry {
        location,
        link,
        names,
    })
}
