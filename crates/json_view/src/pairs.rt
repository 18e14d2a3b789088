// Objects of texts.
ghost use Rattle.std.specs.Prelude.{◌≡◌, Some, None, IfOk, IsOkUnless};
ghost use Rattle.serde_json.specs.View.{view, members_view};
ghost use Rattle.json_view.specs.Pairs.{text_members, other_members, lesser, least_pointer, pairs_of, MayFail, AscendByName};

use crate::look::wrong_kind;
use crate::{JsonErr, Shape, pointer_to};
use rel_path::{Pairs, Text, Texts};
use serde_json::{Map, Value};
use std::alloc::{AllocError, Global};

/// The names and texts of an object of texts, ascending by name, where the object is what stands at the
/// pointer. `WrongKind` comes for something else than an object, and at the least pointer to a member that
/// is no text.
#[tactic(auto, unfolding(crate::specs::Pairs::pairs_of))]
pub fn pairs_of(alloc: Global, pointer: &str, value: &Value) -> Result<Pairs, JsonErr>
    ensures pairs { MayFail (pairs_of pointer.now (view value.now)) result }
    ensures ascending { IfOk result AscendByName }
{
    let Some(members) = value.as_object() else {
        return Err(wrong_kind(alloc, pointer, Shape::Object));
    };
    let others = other_members(alloc, members)?;
    match least_pointer(alloc, pointer, others.as_slice())? {
        None => Ok(text_members(alloc, members)?),
        Some(pointer) => Err(JsonErr::WrongKind {
            pointer,
            wanted: Shape::Text,
        }),
    }
}

// The names of the members that are no texts.
fn other_members(alloc: Global, members: &Map<String, Value>) -> Result<Texts, AllocError>
    ensures names { IfOk result
        (λ names. names ≡ other_members (members_view members.now.entries)) }
{
    let mut names = Texts::new(alloc);
    for (name, value) in members.iter() {
        if value.as_str().is_none() {
            names.push(Text::read(alloc, name.as_str())?)?;
        }
    }
    Ok(names)
}

// The members that are texts.
fn text_members(alloc: Global, members: &Map<String, Value>) -> Result<Pairs, AllocError>
    ensures pairs { IfOk result (λ pairs. pairs ≡ text_members (members_view members.now.entries)) }
    ensures ascending { IfOk result AscendByName }
{
    let mut pairs = Pairs::new(alloc);
    for (name, value) in members.iter() {
        if let Some(text) = value.as_str() {
            pairs.push((Text::read(alloc, name.as_str())?, Text::read(alloc, text)?))?;
        }
    }
    Ok(pairs)
}

// The lesser of a pointer and another, if there is one.
fn lesser(pointer: Text, other: Option<Text>) -> Text
    ensures { result ≡ lesser pointer other }
{
    match other {
        None => pointer,
        Some(other) => { if pointer > other { other } else { pointer } }
    }
}

// The least of the pointers to members of these names.
fn least_pointer(alloc: Global, pointer: &str, names: &[Text]) -> Result<Option<Text>, JsonErr>
    ensures least { IfOk result (λ least. least ≡ least_pointer pointer.now names.now) }
    ensures memory { IsOkUnless result JsonErr.OutOfMemory }
{
    let mut least = None;
    let mut rest = names;
    while let Some((name, before)) = rest.split_last() {
        let at = pointer_to(alloc, pointer, name.as_str())?;
        least = Some(lesser(at, least));
        rest = before;
    }
    Ok(least)
}
