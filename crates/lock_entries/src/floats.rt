// Numbers that no 64 bits hold: `serde_json` has them as floats.
ghost use Rattle.std.specs.Prelude.{◌≡◌, [], IfOk, Some, None, decimal, string_bytes, IsOkUnless};
ghost use Rattle.serde_json.specs.View.{view, items_view, members_view};
ghost use Rattle.serde_json.specs.Written.{has_float, items_have_float, members_have_float};
ghost use Rattle.lock_entries.specs.Least.{lesser_by, least_by};
ghost use Rattle.lock_entries.specs.Floats.{floats, item_floats, member_floats, least_float};
ghost use Rattle.lock_entries.specs.declared.error.LockErr.TheVariants.{OutOfMemory};

use crate::LockErr;
use json_view::pointer_to;
use rel_path::Text;
use serde_json::{Map, Value};
use std::alloc::{AllocError, Global};

/// The least pointer to a float in the value.
#[tactic(auto, unfolding(crate::specs::Floats::least_float))]
pub(crate) fn least_float(alloc: Global, value: &Value) -> Result<Option<Text>, LockErr>
    ensures least { IfOk result (λ least. least ≡ least_float (view value.now)) }
    ensures memory { IsOkUnless result OutOfMemory }
{
    least_at(alloc, "", value)
}

// Whether a float stands somewhere in the value. It takes no memory.
#[cycle(has_float)]
fn has_float(value: &Value) -> bool
    ensures { result ≡ has_float (view value.now) }
{
    match value {
        Value::Null => false,
        Value::Bool(_) => false,
        Value::Number(number) => number.is_f64(),
        Value::String(_) => false,
        Value::Array(items) => any_item(items),
        Value::Object(members) => any_member(members),
    }
}

#[cycle(has_float)]
fn any_item(items: &Vec<Value>) -> bool
    ensures { result ≡ items_have_float (items_view items.now.items) }
{
    for item in items {
        if has_float(item) {
            return true;
        }
    }
    false
}

#[cycle(has_float)]
fn any_member(members: &Map<String, Value>) -> bool
    ensures { result ≡ members_have_float (members_view members.now.entries) }
{
    for (_, member) in members.iter() {
        if has_float(member) {
            return true;
        }
    }
    false
}

fn lesser(first: Option<Text>, second: Option<Text>) -> Option<Text>
    ensures { result ≡ lesser_by (λ pointer. pointer) first second }
{
    match first {
        None => second,
        Some(p) => match second {
            None => Some(p),
            Some(q) => { if p > q { Some(q) } else { Some(p) } }
        },
    }
}

fn number_text(alloc: Global, number: usize) -> Result<String, AllocError>
    ensures { IfOk result (λ text. string_bytes text ≡ decimal number) }
{
    format!(in alloc; "{number}")
}

// The least pointer to a float in a value that stands at the pointer.
#[cycle(least_at)]
fn least_at(alloc: Global, at: &str, value: &Value) -> Result<Option<Text>, LockErr>
    ensures least { IfOk result (λ least.
        least ≡ least_by (λ pointer. pointer) (floats at.now (view value.now))) }
    ensures memory { IsOkUnless result OutOfMemory }
{
    match value {
        Value::Null => Ok(None),
        Value::Bool(_) => Ok(None),
        Value::Number(number) => {
            if number.is_f64() {
                Ok(Some(Text::read(alloc, at)?))
            } else {
                Ok(None)
            }
        }
        Value::String(_) => Ok(None),
        Value::Array(items) => least_of_items(alloc, at, items),
        Value::Object(members) => least_of_members(alloc, at, members),
    }
}

#[cycle(least_at)]
fn least_of_items(alloc: Global, at: &str, items: &Vec<Value>) -> Result<Option<Text>, LockErr>
    ensures least { IfOk result (λ least.
        least ≡ least_by (λ pointer. pointer) (item_floats at.now 0 (items_view items.now.items))) }
    ensures memory { IsOkUnless result OutOfMemory }
{
    let mut least = None;
    for (i, item) in items.iter().enumerate() {
        if has_float(item) {
            let number = number_text(alloc, i)?;
            let pointer = pointer_to(alloc, at, number.as_str())?;
            let found = least_at(alloc, pointer.as_str(), item)?;
            least = lesser(least, found);
        }
    }
    Ok(least)
}

#[cycle(least_at)]
fn least_of_members(
    alloc: Global,
    at: &str,
    members: &Map<String, Value>,
) -> Result<Option<Text>, LockErr>
    ensures least { IfOk result (λ least.
        least ≡ least_by (λ pointer. pointer)
        (member_floats at.now (members_view members.now.entries))) }
    ensures memory { IsOkUnless result OutOfMemory }
{
    let mut least = None;
    for (name, member) in members.iter() {
        if has_float(member) {
            let pointer = pointer_to(alloc, at, name.as_str())?;
            let found = least_at(alloc, pointer.as_str(), member)?;
            least = lesser(least, found);
        }
    }
    Ok(least)
}
