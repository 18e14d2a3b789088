// What items say.
ghost use Rattle.std.specs.Prelude.{◌≡◌, ◌++◌, IfOk, OnOk, IsOkUnless, option_to_list};
ghost use Rattle.cli_words.specs.Orders.{name_of, names_in, has_names, extra_in, use_of, first_use, is_used, value_of_use, values_in};
ghost use Rattle.cli_words.specs.Seen.{seen, use_seen, item_seen, all_seen};
ghost use Rattle.cli_words.specs.declared.error.WordsErr.TheVariants.{OutOfMemory};

use crate::WordsErr;
use crate::items::{Item, Placed};
use rel_path::{Text, Texts};
use std::alloc::Global;

/// The value, if any, of an option with this place.
fn use_of<'a>(place: u8, item: &Item<'a>) -> Option<Option<&'a str>>
    ensures { use_seen result ≡ use_of place (item_seen item.now) }
{
    match item {
        Item::Used {
            place: other,
            value,
            ..
        } => { if *other == place { Some(*value) } else { None } }
        Item::Bare(_) | Item::Extra(_) | Item::Stray => None,
    }
}

/// The first option with this place.
#[tactic(auto, unfolding(crate::specs::Orders::first_use))]
pub(crate) fn first_use<'a>(place: u8, items: &[Placed<'a>]) -> Option<Option<&'a str>>
    ensures { use_seen result ≡ first_use place (all_seen items.now) }
{
    for placed in items {
        if let Some(value) = use_of(place, &placed.item) {
            return Some(value);
        }
    }
    None
}

pub(crate) fn is_used(place: u8, items: &[Placed]) -> bool
    ensures { result ≡ is_used place (all_seen items.now) }
{
    first_use(place, items).is_some()
}

fn push_some(alloc: Global, texts: &mut Vec<Text>, text: Option<&str>) -> Result<(), WordsErr>
    ensures pushed { OnOk result
        (texts.new.items ≡ texts.old.items ++ option_to_list (seen text.entry)) }
    ensures memory { IsOkUnless result OutOfMemory }
{
    if let Some(text) = text {
        let text = String::from_str(alloc, text)?;
        texts.push(Text::from_string(text))?;
    }
    Ok(())
}

fn name_of<'a>(item: &Item<'a>) -> Option<&'a str>
    ensures { seen result ≡ name_of (item_seen item.now) }
{
    match item {
        Item::Bare(name) => Some(*name),
        Item::Used { .. } | Item::Extra(_) | Item::Stray => None,
    }
}

fn value_of_use<'a>(place: u8, item: &Item<'a>) -> Option<&'a str>
    ensures { seen result ≡ value_of_use place (item_seen item.now) }
{
    use_of(place, item)?
}

/// Whether a bare word stands there.
pub(crate) fn has_names(items: &[Placed]) -> bool
    ensures { result ≡ has_names (all_seen items.now) }
{
    for placed in items {
        if name_of(&placed.item).is_some() {
            return true;
        }
    }
    false
}

/// The bare words.
#[tactic(auto, unfolding(crate::specs::Orders::names_in))]
pub(crate) fn names_in(alloc: Global, items: &[Placed]) -> Result<Texts, WordsErr>
    ensures value { IfOk result (λ names. names ≡ names_in (all_seen items.now)) }
    ensures memory { IsOkUnless result OutOfMemory }
{
    let mut names = Vec::new(alloc);
    for placed in items {
        push_some(alloc, &mut names, name_of(&placed.item))?;
    }
    Ok(Texts::from_vec(names))
}

/// The values of the options with this place.
#[tactic(auto, unfolding(crate::specs::Orders::values_in))]
pub(crate) fn values_in(alloc: Global, place: u8, items: &[Placed]) -> Result<Texts, WordsErr>
    ensures value { IfOk result (λ values. values ≡ values_in place (all_seen items.now)) }
    ensures memory { IsOkUnless result OutOfMemory }
{
    let mut values = Vec::new(alloc);
    for placed in items {
        push_some(alloc, &mut values, value_of_use(place, &placed.item))?;
    }
    Ok(Texts::from_vec(values))
}

/// The words behind `--`.
#[tactic(auto, unfolding(crate::specs::Orders::extra_in))]
fn extra_of<'a>(items: &[Placed<'a>]) -> &'a [Text]
    ensures { result.now ≡ extra_in (all_seen items.now) }
{
    for placed in items {
        if let Item::Extra(words) = placed.item {
            return words;
        }
    }
    &[]
}

/// The words behind `--`.
pub(crate) fn extra_in(alloc: Global, items: &[Placed]) -> Result<Texts, WordsErr>
    ensures value { IfOk result (λ extra. extra ≡ extra_in (all_seen items.now)) }
    ensures memory { IsOkUnless result OutOfMemory }
{
    Ok(Texts::from_vec(extra_of(items).to_vec(alloc)?))
}
