// The first fault in items.
ghost use Rattle.std.specs.Prelude.{◌≡◌, []};
ghost use Rattle.cli_words.specs.Orders.{excludes, is_again, fault_of, first_fault, fault_in};
ghost use Rattle.cli_words.specs.Seen.{item_seen, all_seen};

use crate::WordsErr;
use crate::items::{Item, Placed};
use crate::options::{CACHE, Command, SHARED, may_repeat};
use crate::uses::{has_names, is_used};
use crate::values::is_allowed;
use key_table::Kind;

/// Whether the option does not go with one of the items before. Each of `--shared` and `--cache` says which stores there are.
fn excludes(place: u8, before: &[Placed]) -> bool
    ensures { result ≡ excludes place (all_seen before.now) }
{
    match place {
        SHARED => is_used(CACHE, before),
        CACHE => is_used(SHARED, before),
        _ => false,
    }
}

/// Whether the option stands again where it may stand once.
fn is_again(kind: Kind, place: u8, before: &[Placed]) -> bool
    ensures { result ≡ is_again kind place (all_seen before.now) }
{
    !may_repeat(kind) && is_used(place, before)
}

/// The fault of the item, behind those before.
fn fault_of(command: Command, before: &[Placed], at: u64, item: &Item) -> Option<WordsErr>
    ensures { result ≡ fault_of command (all_seen before.now) at (item_seen item.now) }
{
    match *item {
        Item::Bare(_) if command.takes_names() => None,
        Item::Bare(_) | Item::Stray => Some(WordsErr::Unknown { at }),
        Item::Extra(_) => None,
        Item::Used { kind, place, value } => {
            if is_again(kind, place, before) {
                return Some(WordsErr::Twice { at });
            }
            if !is_allowed(place, value) || excludes(place, before) {
                return Some(WordsErr::BadValue { at });
            }
            None
        }
    }
}

#[tactic(auto, unfolding(crate::specs::Orders::first_fault))]
fn first_fault(command: Command, items: &[Placed]) -> Option<WordsErr>
    ensures { result ≡ first_fault command [] (all_seen items.now) }
{
    for i in 0..items.len() {
        let placed = &items[i];
        if let Some(fault) = fault_of(command, &items[..i], placed.at, &placed.item) {
            return Some(fault);
        }
    }
    None
}

/// The first fault in the items of a command. That no name stands there comes last.
#[tactic(auto, unfolding(crate::specs::Orders::fault_in))]
pub(crate) fn fault_in(command: Command, items: &[Placed]) -> Option<WordsErr>
    ensures { result ≡ fault_in command (all_seen items.now) }
{
    if let Some(fault) = first_fault(command, items) {
        return Some(fault);
    }
    if command.takes_names() && !has_names(items) {
        return Some(WordsErr::NoTask);
    }
    None
}
