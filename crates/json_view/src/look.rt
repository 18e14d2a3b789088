// What the look-ups of a view share.
ghost use Rattle.std.specs.Prelude.{◌≡◌, IfOk, map, string_bytes};
ghost use Rattle.std.specs.BTreeMap.{keys};
ghost use Rattle.std.specs.List.Sorted.{IsStrictlySortedBy};
ghost use Rattle.std.specs.Cmp.Lexicographic.{slice_cmp};
ghost use Rattle.std.specs.Ordering.{nat_cmp};
ghost use Rattle.serde_json.specs.View.{items_view};
ghost use Rattle.json_view.specs.Look.{texts_of};
ghost use Rattle.json_view.specs.Answer.{IsWrong};

use crate::{JsonErr, Shape};
use rel_path::{Text, Texts};
use serde_json::{Map, Value};
use std::alloc::{AllocError, Global};

/// The texts of a list of strings; None where something else is among them.
pub fn texts_of(alloc: Global, items: &[Value]) -> Result<Option<Texts>, AllocError>
    ensures texts { IfOk result (λ texts. texts ≡ texts_of (items_view items.now)) }
{
    let mut texts = Texts::new(alloc);
    for value in items {
        match value.as_str() {
            None => return Ok(None),
            Some(text) => texts.push(Text::read(alloc, text)?)?,
        }
    }
    Ok(Some(texts))
}

// The names of an object's members, in their order.
pub(crate) fn keys_of(alloc: Global, members: &Map<String, Value>) -> Result<Texts, AllocError>
    ensures keys { IfOk result (λ texts. texts ≡ map string_bytes (keys members.now)) }
    ensures ascending { IfOk result (IsStrictlySortedBy (slice_cmp nat_cmp)) }
{
    let mut keys = Texts::new(alloc);
    for key in members.keys() {
        keys.push(Text::read(alloc, key.as_str())?)?;
    }
    Ok(keys)
}

/// That something else than the shape stands at the pointer, or that memory is wanting for the pointer.
pub fn wrong_kind(alloc: Global, pointer: &str, wanted: Shape) -> JsonErr
    ensures { IsWrong pointer.now wanted result }
{
    match Text::read(alloc, pointer) {
        Ok(pointer) => JsonErr::WrongKind { pointer, wanted },
        Err(_) => JsonErr::OutOfMemory,
    }
}
