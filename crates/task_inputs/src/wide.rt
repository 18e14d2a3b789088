// What the globs of the root in lists of inputs match, found once for each list.
ghost use Rattle.std.specs.Prelude.{◌≡◌, ◌<◌, ◌^◌, length, position, IfOk, IfSome, OnOk, Some};
ghost use Rattle.listing.specs.Memory.{OnlyMemory};
ghost use Rattle.workspaces.specs.Lists.{places};
ghost use Rattle.input_entries.specs.Entries.{any_wide, entries_of};
ghost use Rattle.task_inputs.specs.Facts.{IsList};
ghost use Rattle.task_inputs.specs.WideLists.{AreWide, has_inputs, places_by, wide_by};

use crate::files::add_place;
use input_entries::{InputGlob, InputList, any_wide, has_wide};
use listing::ListErr;
use rel_path::{RelPath, Texts};
use std::alloc::Global;

/// A list of inputs, and the places of the walked files that one of its globs of the root matches, ascending.
#[derive(Drop)]
pub(crate) struct Wide {
    pub inputs: Texts,
    pub places: Vec<u32>,
}

/// The places of the walked files that one of these globs of the root matches.
fn wide_places(alloc: Global, walk: &[RelPath], globs: &[InputGlob]) -> Result<Vec<u32>, ListErr>
    requires few { length walk.now < 2 ^ 32 }
    ensures places { IfOk result (λ found. found.items ≡ places (any_wide globs.now) walk.now) }
    ensures memory { OnlyMemory result }
{
    let mut found = Vec::new(alloc);
    for (place, path) in walk.iter().enumerate() {
        add_place(&mut found, place as u32, any_wide(globs, path))?;
    }
    Ok(found)
}

/// The number of the list of these inputs, if it is among the lists.
fn known_number(lists: &[Wide], inputs: &Texts) -> Option<usize>
    ensures { result ≡ position (has_inputs inputs.now) lists.now }
{
    lists
        .iter()
        .position(|list| list.inputs.as_slice() == inputs.as_slice())
}

/// The number of the list of these inputs, which has these globs. Where it is not among the lists yet, it is put behind
/// them, with the places that its globs of the root match.
fn number_of(
    alloc: Global,
    walk: &[RelPath],
    lists: &mut Vec<Wide>,
    inputs: &Texts,
    globs: &[InputGlob],
) -> Result<usize, ListErr>
    requires few { length walk.now < 2 ^ 32 }
    requires globs { globs.now ≡ entries_of inputs.now }
    requires lists { AreWide walk.now lists.old.items }
    ensures lists { OnOk result (AreWide walk.now lists.new.items) }
    ensures below { IfOk result (λ number. number < length lists.new.items) }
    ensures places { IfOk result (λ number. places_by lists.new.items (Some number)
        ≡ places (any_wide globs.now) walk.now) }
    ensures memory { OnlyMemory result }
{
    if let Some(number) = known_number(lists, inputs) {
        return Ok(number);
    }
    let number = lists.len();
    let places = wide_places(alloc, walk, globs)?;
    let inputs = inputs.copy()?;
    lists.push(Wide { inputs, places })?;
    Ok(number)
}

/// The number of a list of inputs, which was read already, among the lists, if it has a glob of the root.
pub(crate) fn list_number(
    alloc: Global,
    walk: &[RelPath],
    lists: &mut Vec<Wide>,
    inputs: &Option<Texts>,
    read: &Option<InputList>,
) -> Result<Option<usize>, ListErr>
    requires few { length walk.now < 2 ^ 32 }
    requires read { IsList inputs.now read.now }
    requires lists { AreWide walk.now lists.old.items }
    ensures lists { OnOk result (AreWide walk.now lists.new.items) }
    ensures below { IfOk result
        (λ number. IfSome number (λ n. n < length lists.new.items)) }
    ensures places { IfOk result (λ number. places_by lists.new.items number
        ≡ places (wide_by read.now) walk.now) }
    ensures memory { OnlyMemory result }
{
    let (Some(texts), Some(list)) = (inputs, read) else {
        return Ok(None);
    };
    if !has_wide(&list.globs) {
        return Ok(None);
    }
    Ok(Some(number_of(alloc, walk, lists, texts, &list.globs)?))
}

/// The places that stand by the list of this number. Where there is none, there are no places.
pub(crate) fn places_by(lists: &[Wide], number: Option<usize>) -> &[u32]
    requires { IfSome number (λ n. n < length lists.now) }
    ensures { result.now ≡ places_by lists.now number }
{
    match number {
        None => &[],
        Some(number) => lists[number].places.as_slice(),
    }
}
