// Cutting words into items.
ghost use Rattle.std.specs.Prelude.{◌≡◌, ◌<◌, ◌≤◌, ◌+◌, ◌^◌, IfOk, IsOkUnless, length};
ghost use Rattle.cli_words.specs.Grammar.{option_in, value_of, next_value, first_item, items};
ghost use Rattle.cli_words.specs.Seen.{seen, option_seen, item_seen, all_seen};
ghost use Rattle.cli_words.specs.declared.error.WordsErr.TheVariants.{OutOfMemory};

use crate::WordsErr;
use crate::cuts::{begins_with, cut_at};
use crate::options::{Command, takes_word};
use key_table::{Kind, Row};
use rel_path::Text;
use std::alloc::Global;

/// The length of the spellings that have no value behind a `=`: `-F` and `--`.
const SHORT: usize = 2;

/// What a word is, with the words behind it that belong to it.
#[derive(Clone, Copy)]
pub(crate) enum Item<'a> {
    /// It begins with no `-`.
    Bare(&'a str),
    /// An option, with its value where one is given.
    Used {
        kind: Kind,
        place: u8,
        value: Option<&'a str>,
    },
    /// `--`, with all words behind it.
    Extra(&'a [Text]),
    /// It begins with `-` and is no option.
    Stray,
}

/// An item with the place of its first word.
#[derive(Clone, Copy)]
pub(crate) struct Placed<'a> {
    pub(crate) at: u64,
    pub(crate) item: Item<'a>,
}

/// The option that the word is, and the value behind its `=`.
#[tactic(auto, unfolding(crate::specs::Grammar::option_in))]
fn option_in(command: Command, word: &str) -> Option<(Row, Option<&str>)>
    ensures { option_seen result ≡ option_in command word.now }
{
    let (name, value) = cut_at(word, '=');
    if value.is_some() && name.len() <= SHORT {
        return None;
    }
    let row = command.option_named(name)?;
    Some((row, value))
}

/// The next word where it may be a value.
fn next_value(words: &[Text]) -> Option<&str>
    ensures { seen result ≡ next_value words.now }
{
    let next = words.first()?;
    if next.as_str() == "--" {
        return None;
    }
    Some(next.as_str())
}

/// The value of an option, and how many words behind it that takes.
fn value_of<'a>(kind: Kind, value: Option<&'a str>, words: &'a [Text]) -> (Option<&'a str>, usize)
    ensures value { seen result.0 ≡ (value_of kind (seen value.entry) words.now).0 }
    ensures taken { result.1 ≡ (value_of kind (seen value.entry) words.now).1 }
    ensures fewer { result.1 ≤ length words.now }
{
    if value.is_some() || !takes_word(kind) {
        return (value, 0);
    }
    match next_value(words) {
        Some(next) => (Some(next), 1),
        None => (None, 0),
    }
}

/// The item that begins with this word, and how many of the words behind it belong to it.
#[tactic(auto, unfolding(crate::specs::Grammar::first_item))]
fn first_item<'a>(command: Command, word: &'a str, words: &'a [Text]) -> (Item<'a>, usize)
    ensures item { item_seen result.0 ≡ (first_item command word.now words.now).0 }
    ensures taken { result.1 ≡ (first_item command word.now words.now).1 }
    ensures fewer { result.1 ≤ length words.now }
{
    if !begins_with(word, b'-') {
        return (Item::Bare(word), 0);
    }
    let Some((row, value)) = option_in(command, word) else {
        return (Item::Stray, 0);
    };
    if row.kind == Kind::Top {
        return (Item::Extra(words), words.len());
    }
    let (value, taken) = value_of(row.kind, value, words);
    let item = Item::Used {
        kind: row.kind,
        place: row.place,
        value,
    };
    (item, taken)
}

/// The items of the words, of which the first has this place.
pub(crate) fn items<'a>(
    alloc: Global,
    command: Command,
    words: &'a [Text],
    first: u64,
) -> Result<Vec<Placed<'a>>, WordsErr>
    requires { first + length words.now < 2 ^ 64 }
    ensures value { IfOk result (λ found. all_seen found.items ≡ items command first words.now) }
    ensures memory { IsOkUnless result OutOfMemory }
{
    let mut found = Vec::new(alloc);
    let mut rest = words;
    let mut at = first;
    while let Some((word, more)) = rest.split_first() {
        let (item, taken) = first_item(command, word.as_str(), more);
        found.push(Placed { at, item })?;
        rest = &more[taken..];
        at += 1 + taken as u64;
    }
    Ok(found)
}
