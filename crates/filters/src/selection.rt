// Which packages filters select.
ghost use Rattle.std.specs.Prelude.{◌≡◌, ◌<◌, ◌^◌, ℕ, None, Some, IfOk, IfErr, length, map, IsOkUnless};
ghost use Rattle.std.specs.List.Sorted.{IsStrictlySortedBy};
ghost use Rattle.std.specs.Ordering.{nat_cmp};
ghost use Rattle.workspaces.specs.Reach.{is_in, AreBelow};
ghost use Rattle.filters.specs.Words.{filter_of};
ghost use Rattle.filters.specs.Selection.{AreSelected, AreSelectedBy, first_missing, word_fault, words_fault};
ghost use Rattle.filters.specs.Steps.{MayMiss, MayRefuse};
ghost use Rattle.filters.specs.Sides.{AddsTo, AreSides, is_included, is_chosen};
ghost use Rattle.workspaces.specs.Marks.{is_marked};

use crate::FilterErr;
use crate::cores::check_name;
use crate::filter::Filter;
use crate::marks::mark;
use crate::taken::taken;
use rel_path::{Places, Text, Texts};
use std::alloc::Global;
use workspaces::{Packages, marked};

/// What filters took: those without `!`, and those with one.
#[derive(Drop)]
struct Sides {
    included: Vec<bool>,
    excluded: Vec<bool>,
    only_excludes: bool,
}

/// Adds what a filter takes to its side.
fn add(sides: &mut Sides, excludes: bool, taken: &[u32])
    requires included { AreBelow (length sides.old.included.items) taken.now }
    requires excluded { AreBelow (length sides.old.excluded.items) taken.now }
    ensures { AddsTo excludes taken.now sides.old sides.new }
{
    if excludes {
        mark(sides.excluded.as_mut_slice(), taken, true);
    } else {
        mark(sides.included.as_mut_slice(), taken, true);
        sides.only_excludes = false;
    }
}

/// What all filters took.
fn sides_of(alloc: Global, filters: &[Filter], packages: &Packages) -> Result<Sides, FilterErr>
    ensures value { IfOk result (AreSides packages.now.packages filters.now) }
    ensures few { IfOk result (λ sides. length packages.now.packages < 2 ^ 32) }
    ensures memory { IsOkUnless result FilterErr.OutOfMemory }
{
    let count = packages.count() as usize;
    let mut sides = Sides {
        included: vec![in alloc; false; count]?,
        excluded: vec![in alloc; false; count]?,
        only_excludes: true,
    };
    for filter in filters {
        let taken = taken(alloc, filter, packages)?;
        add(&mut sides, filter.excludes, taken.as_slice());
    }
    Ok(sides)
}

/// The marks on what is included, or on all packages.
fn included_marks(alloc: Global, included: Vec<bool>, all: bool) -> Result<Vec<bool>, FilterErr>
    ensures same { IfOk result (λ marks. length marks.items ≡ length included.items) }
    ensures marks { IfOk result
        (λ marks. (p : ℕ) → is_marked marks.items p ≡ is_included all included.items p) }
    ensures memory { IsOkUnless result FilterErr.OutOfMemory }
{
    if all {
        let count = included.as_slice().len();
        Ok(vec![in alloc; true; count]?)
    } else {
        Ok(included)
    }
}

/// What is included and not excluded, ascending.
fn chosen(alloc: Global, sides: Sides) -> Result<Places, FilterErr>
    requires few { length sides.included.items < 2 ^ 32 }
    requires same { length sides.excluded.items ≡ length sides.included.items }
    ensures ascend { IfOk result (IsStrictlySortedBy nat_cmp) }
    ensures chosen { IfOk result (λ found. (p : ℕ) → is_in found p ≡ is_chosen sides p) }
    ensures memory { IsOkUnless result FilterErr.OutOfMemory }
{
    let excluded = marked(alloc, sides.excluded.as_slice())?;
    let mut marks = included_marks(alloc, sides.included, sides.only_excludes)?;
    mark(marks.as_mut_slice(), excluded.as_slice(), false);
    Ok(marked(alloc, marks.as_slice())?)
}

/// What filters select that have no name that is missing.
fn selected_by(alloc: Global, filters: &[Filter], packages: &Packages) -> Result<Places, FilterErr>
    ensures value { IfOk result (AreSelected packages.now.packages filters.now) }
    ensures memory { IsOkUnless result FilterErr.OutOfMemory }
{
    let sides = sides_of(alloc, filters, packages)?;
    chosen(alloc, sides)
}

fn check_names(filters: &[Filter], packages: &Packages) -> Result<(), FilterErr>
    ensures value { IfOk result (λ u. first_missing packages.now.packages filters.now ≡ None) }
    ensures err { IfErr result (MayMiss (first_missing packages.now.packages filters.now)) }
{
    for filter in filters {
        check_name(&filter.core, packages)?;
    }
    Ok(())
}

/// The packages that the filters select, ascending: what those without `!` take, or all packages where there is none,
/// without what those with `!` take. `NoPackage` comes exactly where the core of a filter is a plain name that no
/// package has, also behind a `!`; of several the first in the order of the filters.
pub fn select(alloc: Global, filters: &[Filter], packages: &Packages) -> Result<Places, FilterErr>
    ensures value { IfOk result (AreSelected packages.now.packages filters.now) }
    ensures named { IfOk result (λ found. first_missing packages.now.packages filters.now ≡ None) }
    ensures err { IfErr result (MayMiss (first_missing packages.now.packages filters.now)) }
{
    check_names(filters, packages)?;
    selected_by(alloc, filters, packages)
}

/// The filter of a word, whose name is not missing.
fn checked_filter(alloc: Global, word: &Text, packages: &Packages) -> Result<Filter, FilterErr>
    ensures value { IfOk result (λ filter. filter_of word.now ≡ Some filter) }
    ensures whole { IfOk result (λ filter. word_fault packages.now.packages word.now ≡ None) }
    ensures err { IfErr result (MayRefuse (word_fault packages.now.packages word.now)) }
{
    let filter = Filter::read(alloc, word)?;
    check_name(&filter.core, packages)?;
    Ok(filter)
}

fn checked_filters(
    alloc: Global,
    words: &[Text],
    packages: &Packages,
) -> Result<Vec<Filter>, FilterErr>
    ensures value { IfOk result
        (λ filters. map filter_of words.now ≡ map (λ filter. Some filter) filters.items) }
    ensures whole { IfOk result (λ filters. words_fault packages.now.packages words.now ≡ None) }
    ensures err { IfErr result (MayRefuse (words_fault packages.now.packages words.now)) }
{
    let mut filters = Vec::new(alloc);
    for word in words {
        filters.push(checked_filter(alloc, word, packages)?)?;
    }
    Ok(filters)
}

/// The packages that the filters of the words select, ascending; all packages where there is no word. Each word is
/// tried for `Unreadable` and then for `NoPackage` before the next, and the first fault is answered.
pub fn selected(alloc: Global, words: &Texts, packages: &Packages) -> Result<Places, FilterErr>
    ensures value { IfOk result (AreSelectedBy packages.now.packages words.now) }
    ensures whole { IfOk result (λ found. words_fault packages.now.packages words.now ≡ None) }
    ensures err { IfErr result (MayRefuse (words_fault packages.now.packages words.now)) }
{
    let filters = checked_filters(alloc, words.as_slice(), packages)?;
    selected_by(alloc, filters.as_slice(), packages)
}
