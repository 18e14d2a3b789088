// The bounds that a comparator stands for.
ghost use Rattle.std.specs.Prelude.{◌≡◌, ◌++◌, ◌==◌, ◌∷◌, [], not, length, IfOk, OnOk, IsOkUnless};
ghost use Rattle.semver.specs.Identifiers.{pre_text};
ghost use Rattle.npm_range.specs.Limits.{release_of};
ghost use Rattle.npm_range.specs.Grammar.{AreSmall};
ghost use Rattle.npm_range.specs.Table as spec;

use crate::comparator::{Numbers, Operator};
use crate::error::RangeErr;
use crate::limit::{Bound, Relation};
use semver::{BuildMetadata, Prerelease, Version};
use std::alloc::Global;

/// The version of these numbers that is no pre-release.
fn final_of(major: u64, minor: u64, patch: u64) -> Version
    ensures { release_of result ≡ spec.final major minor patch }
{
    Version::new(major, minor, patch)
}

/// The pre-release `0` of these numbers, before which none of them comes.
fn least(alloc: Global, major: u64, minor: u64, patch: u64) -> Result<Version, RangeErr>
    ensures value { IfOk result (λ v. release_of v ≡ spec.least major minor patch) }
    ensures memory { IsOkUnless result RangeErr.OutOfMemory }
{
    let Ok(pre) = Prerelease::new(alloc, "0") else {
        return Err(RangeErr::OutOfMemory);
    };
    Ok(tagged(major, minor, patch, pre))
}

fn tagged(major: u64, minor: u64, patch: u64, pre: Prerelease) -> Version
    ensures { release_of result ≡ (major, minor, patch, pre_text pre) }
{
    Version {
        major,
        minor,
        patch,
        pre,
        build: BuildMetadata::empty(),
    }
}

/// A bound that the text gives.
fn written(relation: Relation, version: Version) -> Bound
    ensures { result ≡ record {
      relation = relation;
      release = release_of version;
      tagged = not (length (release_of version).3 == 0);
    } }
{
    let has_pre = !version.pre.is_empty();
    Bound::new(relation, version, has_pre)
}

fn add(set: &mut Vec<Bound>, bound: Bound) -> Result<(), RangeErr>
    ensures value { OnOk result (set.new.items ≡ set.old.items ++ bound ∷ []) }
    ensures memory { IsOkUnless result RangeErr.OutOfMemory }
{
    set.push(bound)?;
    Ok(())
}

fn add_from(set: &mut Vec<Bound>, low: Version) -> Result<(), RangeErr>
    ensures value { OnOk result (set.new.items ≡ set.old.items ++ spec.from (release_of low)) }
    ensures memory { IsOkUnless result RangeErr.OutOfMemory }
{
    add(set, Bound::new(Relation::From, low, false))
}

fn add_below(set: &mut Vec<Bound>, high: Version) -> Result<(), RangeErr>
    ensures value { OnOk result (set.new.items ≡ set.old.items ++ spec.below (release_of high)) }
    ensures memory { IsOkUnless result RangeErr.OutOfMemory }
{
    add(set, Bound::new(Relation::Below, high, false))
}

fn add_written(set: &mut Vec<Bound>, relation: Relation, version: Version) -> Result<(), RangeErr>
    ensures value { OnOk result
        (set.new.items ≡ set.old.items ++ spec.written relation (release_of version)) }
    ensures memory { IsOkUnless result RangeErr.OutOfMemory }
{
    add(set, written(relation, version))
}

fn add_between(set: &mut Vec<Bound>, low: Version, high: Version) -> Result<(), RangeErr>
    ensures value { OnOk result
        (set.new.items ≡ set.old.items ++ spec.between (release_of low) (release_of high)) }
    ensures memory { IsOkUnless result RangeErr.OutOfMemory }
{
    add_from(set, low)?;
    add_below(set, high)
}

fn add_up_from(set: &mut Vec<Bound>, low: Version, high: Version) -> Result<(), RangeErr>
    ensures value { OnOk result
        (set.new.items ≡ set.old.items ++ spec.up_from (release_of low) (release_of high)) }
    ensures memory { IsOkUnless result RangeErr.OutOfMemory }
{
    add_written(set, Relation::From, low)?;
    add_below(set, high)
}

fn add_none(alloc: Global, set: &mut Vec<Bound>) -> Result<(), RangeErr>
    ensures value { OnOk result (set.new.items ≡ set.old.items ++ spec.none) }
    ensures memory { IsOkUnless result RangeErr.OutOfMemory }
{
    add_below(set, least(alloc, 0, 0, 0)?)
}

/// `=1.2.3`, or an X-range.
fn add_equal(
    alloc: Global,
    set: &mut Vec<Bound>,
    numbers: Numbers,
    pre: Prerelease,
) -> Result<(), RangeErr>
    requires { AreSmall numbers }
    ensures value { OnOk result
        (set.new.items ≡ set.old.items ++ spec.equal numbers (pre_text pre)) }
    ensures memory { IsOkUnless result RangeErr.OutOfMemory }
{
    match numbers {
        Numbers::Any => Ok(()),
        Numbers::Major(a) => add_between(set, final_of(a, 0, 0), least(alloc, a + 1, 0, 0)?),
        Numbers::Minor(a, b) => add_between(set, final_of(a, b, 0), least(alloc, a, b + 1, 0)?),
        Numbers::Full(a, b, c) => add_written(set, Relation::Exactly, tagged(a, b, c, pre)),
    }
}

/// `~1.2.3`: the patch may rise.
fn add_tilde(
    alloc: Global,
    set: &mut Vec<Bound>,
    numbers: Numbers,
    pre: Prerelease,
) -> Result<(), RangeErr>
    requires { AreSmall numbers }
    ensures value { OnOk result
        (set.new.items ≡ set.old.items ++ spec.tilde numbers (pre_text pre)) }
    ensures memory { IsOkUnless result RangeErr.OutOfMemory }
{
    match numbers {
        Numbers::Any => Ok(()),
        Numbers::Major(a) => add_between(set, final_of(a, 0, 0), least(alloc, a + 1, 0, 0)?),
        Numbers::Minor(a, b) => add_between(set, final_of(a, b, 0), least(alloc, a, b + 1, 0)?),
        Numbers::Full(a, b, c) => add_up_from(
            set,
            tagged(a, b, c, pre),
            least(alloc, a, b + 1, 0)?,
        ),
    }
}

/// The least version that `^` with two numbers leaves out.
fn after_two(alloc: Global, a: u64, b: u64) -> Result<Version, RangeErr>
    requires { AreSmall (Numbers.Minor a b) }
    ensures value { IfOk result (λ v. release_of v ≡ spec.kept_two a b) }
    ensures memory { IsOkUnless result RangeErr.OutOfMemory }
{
    if a == 0 {
        least(alloc, 0, b + 1, 0)
    } else {
        least(alloc, a + 1, 0, 0)
    }
}

/// The least version that `^` with three numbers leaves out.
fn after_three(alloc: Global, a: u64, b: u64, c: u64) -> Result<Version, RangeErr>
    requires { AreSmall (Numbers.Full a b c) }
    ensures value { IfOk result (λ v. release_of v ≡ spec.kept_three a b c) }
    ensures memory { IsOkUnless result RangeErr.OutOfMemory }
{
    if a > 0 {
        least(alloc, a + 1, 0, 0)
    } else if b > 0 {
        least(alloc, 0, b + 1, 0)
    } else {
        least(alloc, 0, 0, c + 1)
    }
}

/// `^1.2.3`: what stands right of the first number that is not zero may rise.
fn add_caret(
    alloc: Global,
    set: &mut Vec<Bound>,
    numbers: Numbers,
    pre: Prerelease,
) -> Result<(), RangeErr>
    requires { AreSmall numbers }
    ensures value { OnOk result
        (set.new.items ≡ set.old.items ++ spec.caret numbers (pre_text pre)) }
    ensures memory { IsOkUnless result RangeErr.OutOfMemory }
{
    match numbers {
        Numbers::Any => Ok(()),
        Numbers::Major(a) => add_between(set, final_of(a, 0, 0), least(alloc, a + 1, 0, 0)?),
        Numbers::Minor(a, b) => add_between(set, final_of(a, b, 0), after_two(alloc, a, b)?),
        Numbers::Full(a, b, c) => add_up_from(
            set,
            tagged(a, b, c, pre),
            after_three(alloc, a, b, c)?,
        ),
    }
}

/// `>1.2.3`; `>1.2` leaves all of 1.2 out.
fn add_above(
    alloc: Global,
    set: &mut Vec<Bound>,
    numbers: Numbers,
    pre: Prerelease,
) -> Result<(), RangeErr>
    requires { AreSmall numbers }
    ensures value { OnOk result
        (set.new.items ≡ set.old.items ++ spec.above numbers (pre_text pre)) }
    ensures memory { IsOkUnless result RangeErr.OutOfMemory }
{
    match numbers {
        Numbers::Any => add_none(alloc, set),
        Numbers::Major(a) => add_from(set, final_of(a + 1, 0, 0)),
        Numbers::Minor(a, b) => add_from(set, final_of(a, b + 1, 0)),
        Numbers::Full(a, b, c) => add_written(set, Relation::Above, tagged(a, b, c, pre)),
    }
}

/// `>=1.2.3`.
fn add_at_least(set: &mut Vec<Bound>, numbers: Numbers, pre: Prerelease) -> Result<(), RangeErr>
    ensures value { OnOk result
        (set.new.items ≡ set.old.items ++ spec.at_least numbers (pre_text pre)) }
    ensures memory { IsOkUnless result RangeErr.OutOfMemory }
{
    match numbers {
        Numbers::Any => Ok(()),
        Numbers::Major(a) => add_from(set, final_of(a, 0, 0)),
        Numbers::Minor(a, b) => add_from(set, final_of(a, b, 0)),
        Numbers::Full(a, b, c) => add_written(set, Relation::From, tagged(a, b, c, pre)),
    }
}

/// `<1.2.3`.
fn add_under(
    alloc: Global,
    set: &mut Vec<Bound>,
    numbers: Numbers,
    pre: Prerelease,
) -> Result<(), RangeErr>
    requires { AreSmall numbers }
    ensures value { OnOk result
        (set.new.items ≡ set.old.items ++ spec.under numbers (pre_text pre)) }
    ensures memory { IsOkUnless result RangeErr.OutOfMemory }
{
    match numbers {
        Numbers::Any => add_none(alloc, set),
        Numbers::Major(a) => add_below(set, least(alloc, a, 0, 0)?),
        Numbers::Minor(a, b) => add_below(set, least(alloc, a, b, 0)?),
        Numbers::Full(a, b, c) => add_written(set, Relation::Below, tagged(a, b, c, pre)),
    }
}

/// `<=1.2.3`; `<=1.2` takes all of 1.2.
fn add_at_most(
    alloc: Global,
    set: &mut Vec<Bound>,
    numbers: Numbers,
    pre: Prerelease,
) -> Result<(), RangeErr>
    requires { AreSmall numbers }
    ensures value { OnOk result
        (set.new.items ≡ set.old.items ++ spec.at_most numbers (pre_text pre)) }
    ensures memory { IsOkUnless result RangeErr.OutOfMemory }
{
    match numbers {
        Numbers::Any => Ok(()),
        Numbers::Major(a) => add_below(set, least(alloc, a + 1, 0, 0)?),
        Numbers::Minor(a, b) => add_below(set, least(alloc, a, b + 1, 0)?),
        Numbers::Full(a, b, c) => add_written(set, Relation::UpTo, tagged(a, b, c, pre)),
    }
}

/// Adds the bounds that the operator with these numbers and this pre-release stands for.
#[tactic(auto, unfolding(crate::specs::Table::bounds))]
pub(crate) fn add_bounds(
    alloc: Global,
    set: &mut Vec<Bound>,
    operator: Operator,
    numbers: Numbers,
    pre: Prerelease,
) -> Result<(), RangeErr>
    requires { AreSmall numbers }
    ensures value { OnOk result
        (set.new.items ≡ set.old.items ++ spec.bounds operator numbers (pre_text pre)) }
    ensures memory { IsOkUnless result RangeErr.OutOfMemory }
{
    match operator {
        Operator::Equal => add_equal(alloc, set, numbers, pre),
        Operator::Tilde => add_tilde(alloc, set, numbers, pre),
        Operator::Caret => add_caret(alloc, set, numbers, pre),
        Operator::Above => add_above(alloc, set, numbers, pre),
        Operator::AtLeast => add_at_least(set, numbers, pre),
        Operator::Below => add_under(alloc, set, numbers, pre),
        Operator::AtMost => add_at_most(alloc, set, numbers, pre),
    }
}
