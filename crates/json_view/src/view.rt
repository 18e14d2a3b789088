// A JSON text that was read, and what stands at its pointers.
ghost use Rattle.std.specs.Prelude.{◌≡◌, IfOk, IfSome, Ok, Err, MatchResult};
ghost use Rattle.std.specs.Option.{option_map};
ghost use Rattle.std.specs.List.Sorted.{IsStrictlySortedBy};
ghost use Rattle.std.specs.Cmp.Lexicographic.{slice_cmp};
ghost use Rattle.std.specs.Ordering.{nat_cmp};
ghost use Rattle.serde_json.specs.View.{view};
ghost use Rattle.json_view.specs.Reading.{reading, behind_mark};
ghost use Rattle.json_view.specs.Look.{text_in, texts_in, flag_in, whole_in, keys_in, value_in, Else};
ghost use Rattle.json_view.specs.Pointer.{AreNamesAt};
ghost use Rattle.json_view.specs.Pairs.{pairs_in, MayFail, AscendByName};
ghost use Rattle.json_view.specs.Answer.{data_of, Reads, Answers};

use crate::look::{keys_of, texts_of, wrong_kind};
use crate::pairs::pairs_of;
use crate::{JsonErr, Shape};
use rel_path::{Pairs, Text, Texts};
use serde_json::Value;
use std::alloc::Global;

const MARK: &[u8] = b"\xEF\xBB\xBF";

/// A JSON text that was read. Contracts see it by `data_of` as the value that it shows.
///
/// Where an object names a member twice, the last value counts. Pointers are those of RFC 6901; one
/// that is no pointer, as a text that does not begin with `/`, has nothing at it.
#[derive(Drop)]
pub struct View {
    value: Value,
}

impl View {
    /// Reads a JSON text (RFC 8259). One byte order mark in front is read over. `NotJson` comes for
    /// bytes that are not UTF-8, for arrays and objects that nest more than 127 deep, and for a
    /// number that is too large for a float.
    pub fn read(alloc: Global, bytes: &[u8]) -> Result<View, JsonErr>
        ensures { Reads (reading bytes.now) result }
    {
        match Value::from_slice(alloc, behind_mark(bytes)) {
            Ok(value) => Ok(View { value }),
            Err(error) => {
                if error.is_memory() {
                    return Err(JsonErr::OutOfMemory);
                }
                Err(JsonErr::NotJson)
            }
        }
    }

    /// The string at the pointer.
    #[tactic(auto, unfolding(crate::specs::Look::text_in))]
    pub fn text_at(&self, alloc: Global, pointer: &str) -> Result<Option<Text>, JsonErr>
        ensures { Answers (text_in pointer.now (data_of self.now)) pointer.now Shape.Text result }
    {
        match self.value.pointer(pointer) {
            None => Ok(None),
            Some(value) => match value.as_str() {
                None => Err(wrong_kind(alloc, pointer, Shape::Text)),
                Some(text) => Ok(Some(Text::read(alloc, text)?)),
            },
        }
    }

    /// The strings of the array at the pointer.
    #[tactic(auto, unfolding(crate::specs::Look::texts_in))]
    pub fn texts_at(&self, alloc: Global, pointer: &str) -> Result<Option<Texts>, JsonErr>
        ensures { Answers (texts_in pointer.now (data_of self.now)) pointer.now Shape.Texts result }
    {
        match self.value.pointer(pointer) {
            None => Ok(None),
            Some(value) => match value.as_array() {
                None => Err(wrong_kind(alloc, pointer, Shape::Texts)),
                Some(items) => match texts_of(alloc, items.as_slice())? {
                    None => Err(wrong_kind(alloc, pointer, Shape::Texts)),
                    Some(texts) => Ok(Some(texts)),
                },
            },
        }
    }

    /// The flag at the pointer. Memory is taken for `WrongKind` alone.
    #[tactic(auto, unfolding(crate::specs::Look::flag_in))]
    pub fn flag_at(&self, alloc: Global, pointer: &str) -> Result<Option<bool>, JsonErr>
        ensures answer { Answers (flag_in pointer.now (data_of self.now)) pointer.now Shape.Flag
            result }
        ensures memory { result ≡ Err JsonErr.OutOfMemory
            → flag_in pointer.now (data_of self.now) ≡ Else }
    {
        match self.value.pointer(pointer) {
            None => Ok(None),
            Some(value) => match value.as_bool() {
                None => Err(wrong_kind(alloc, pointer, Shape::Flag)),
                Some(flag) => Ok(Some(flag)),
            },
        }
    }

    /// The whole number at the pointer. Memory is taken for `WrongKind` alone.
    #[tactic(auto, unfolding(crate::specs::Look::whole_in))]
    pub fn whole_at(&self, alloc: Global, pointer: &str) -> Result<Option<u64>, JsonErr>
        ensures answer { Answers (whole_in pointer.now (data_of self.now)) pointer.now Shape.Whole
            result }
        ensures memory { result ≡ Err JsonErr.OutOfMemory
            → whole_in pointer.now (data_of self.now) ≡ Else }
    {
        match self.value.pointer(pointer) {
            None => Ok(None),
            Some(value) => match value.as_u64() {
                None => Err(wrong_kind(alloc, pointer, Shape::Whole)),
                Some(whole) => Ok(Some(whole)),
            },
        }
    }

    /// The names of the members of the object at the pointer, ascending by their bytes, each once.
    #[tactic(auto, unfolding(crate::specs::Look::keys_in))]
    pub fn keys_at(&self, alloc: Global, pointer: &str) -> Result<Option<Texts>, JsonErr>
        ensures answer { Answers (keys_in pointer.now (data_of self.now)) pointer.now Shape.Object
            result }
        ensures ascending { IfOk result (λ o. IfSome o (IsStrictlySortedBy (slice_cmp nat_cmp))) }
        ensures exact { IfOk result (λ o. IfSome o (AreNamesAt (data_of self.now) pointer.now)) }
    {
        match self.value.pointer(pointer) {
            None => Ok(None),
            Some(value) => match value.as_object() {
                None => Err(wrong_kind(alloc, pointer, Shape::Object)),
                Some(members) => Ok(Some(keys_of(alloc, members)?)),
            },
        }
    }

    /// The names and texts of the object of texts at the pointer, ascending by name. `WrongKind` comes for
    /// something else than an object, and at the least pointer to a member that is no text.
    #[tactic(auto, unfolding(crate::specs::Pairs::pairs_in))]
    pub fn pairs_at(&self, alloc: Global, pointer: &str) -> Result<Option<Pairs>, JsonErr>
        ensures pairs { MayFail (pairs_in pointer.now (data_of self.now)) result }
        ensures ascending { IfOk result (λ o. IfSome o AscendByName) }
    {
        match self.value.pointer(pointer) {
            None => Ok(None),
            Some(value) => Ok(Some(pairs_of(alloc, pointer, value)?)),
        }
    }

    /// The value at the pointer, of whatever kind. It is never an error, and takes no memory.
    #[tactic(auto, unfolding(crate::specs::Look::value_in))]
    pub fn value_at(&self, pointer: &str) -> Result<Option<&Value>, JsonErr>
        ensures { MatchResult result
            (λ found. option_map (λ v. view v.now) found ≡ value_in pointer.now (data_of self.now))
            (λ e. ⊥) }
    {
        Ok(self.value.pointer(pointer))
    }

    /// The value itself.
    pub fn into_value(self) -> Value
        ensures { view result ≡ data_of self }
    {
        self.value
    }
}

// The bytes behind a byte order mark in front, or all.
fn behind_mark(bytes: &[u8]) -> &[u8]
    ensures { result.now ≡ behind_mark bytes.now }
{
    match bytes.strip_prefix(MARK) {
        Some(rest) => rest,
        None => bytes,
    }
}
