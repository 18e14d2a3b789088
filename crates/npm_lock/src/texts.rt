// The entries as `serde_json` writes them without blanks, each written once.
ghost use Rattle.std.specs.Prelude.{◌≡◌, false, None, Some, IsSome, IfOk, codes};
ghost use Rattle.serde_json.specs.View.{view};
ghost use Rattle.serde_json.specs.Find.{get};
ghost use Rattle.serde_json.specs.Written.{has_float};
ghost use Rattle.lock_entries.specs.Lockfile.{entries_in, lock_refusal};
ghost use Rattle.lock_entries.specs.declared.entry.Entry.{Entry};
ghost use Rattle.npm_lock.specs.Externals.{text_in, texts_in};
ghost use Rattle.npm_lock.specs.Sets.{Has};

use lock_entries::Entry;
use rel_path::{Text, Texts};
use serde_json::Value;
use std::alloc::{AllocError, Global};

// The value of `packages`.
fn packages(value: &Value) -> &Value
    requires { lock_refusal (view value.now) ≡ None }
    ensures value { Some (view result.now) ≡ get (codes "packages") (view value.now) }
    ensures whole { has_float (view result.now) ≡ false }
    ensures there { (e : Entry) → Has (entries_in (view value.now)) e
        → IsSome (get e.location (view result.now)) }
{
    match value.get("packages") {
        Some(packages) => packages,
        None => unreachable!(),
    }
}

// The text of the entry at a location.
#[tactic(auto, unfolding(crate::specs::Externals::text_in))]
fn text_of(alloc: Global, packages: &Value, location: &str) -> Result<Text, AllocError>
    requires there { IsSome (get location.now (view packages.now)) }
    requires whole { has_float (view packages.now) ≡ false }
    ensures { IfOk result (λ text. text ≡ text_in (Some (view packages.now)) location.now) }
{
    match packages.get(location) {
        Some(value) => Ok(Text::from_string(value.to_string(alloc)?)),
        None => unreachable!(),
    }
}

fn texts_of(alloc: Global, packages: &Value, entries: &[Entry]) -> Result<Texts, AllocError>
    requires there { (e : Entry) → Has entries.now e
        → IsSome (get e.location (view packages.now)) }
    requires whole { has_float (view packages.now) ≡ false }
    ensures { IfOk result (λ texts. texts ≡ texts_in (Some (view packages.now)) entries.now) }
{
    let mut texts = Texts::new(alloc);
    for entry in entries {
        texts.push(text_of(alloc, packages, entry.location.as_str())?)?;
    }
    Ok(texts)
}

/// The text of each entry of a lockfile's value.
pub(crate) fn entry_texts(
    alloc: Global,
    value: &Value,
    entries: &[Entry],
) -> Result<Texts, AllocError>
    requires accepted { lock_refusal (view value.now) ≡ None }
    requires read { entries.now ≡ entries_in (view value.now) }
    ensures { let packages = get (codes "packages") (view value.now) in
        IfOk result (λ texts. texts ≡ texts_in packages entries.now) }
{
    texts_of(alloc, packages(value), entries)
}
