// The versions and partial versions in a range.
ghost use Rattle.std.specs.Prelude.{◌≡◌, ◌≢◌, ◌≤◌, ◌<◌, ◌⊎◌, Some, None, true, false, IfOk, IfErr, IfSome, OnOk, MatchOption};
ghost use Rattle.std.specs.List.{list_all};
ghost use Rattle.std.specs.Char.{is_ascii_digit};
ghost use Rattle.semver.specs.Grammar.{has_leading_zero, is_build, is_pre_release};
ghost use Rattle.std.specs.Str.Parse.{digits_value};
ghost use Rattle.semver.specs.Identifiers.{pre_text};
ghost use Rattle.semver.specs.Parse.{memory_error};
ghost use Rattle.npm_range.specs.Refusal.{MayRefuse};
ghost use Rattle.npm_range.specs.Grammar as spec;

use crate::characters::{ASTERISK, DOT, HYPHEN, LARGE_X, PLUS, SMALL_X, VERSION_MARK};
use crate::comparator::Numbers;
use crate::error::RangeErr;
use semver::{BuildMetadata, Error, Prerelease};
use std::alloc::{AllocError, Global};

/// The largest whole number up to which JavaScript tells all, as npm reads no larger one.
const LARGEST: u64 = 9_007_199_254_740_991;

/// The text before the first such character, and that behind it where there is one.
fn cut(text: &str, mark: char) -> (&str, Option<&str>)
    requires { mark < 128 }
    ensures before { result.0.now ≡ spec.before mark text.now }
    ensures behind { spec.seen result.1 ≡ spec.behind mark text.now }
{
    match text.split_once(mark) {
        Some((before, behind)) => (before, Some(behind)),
        None => (text, None),
    }
}

/// The text without this character at its front.
pub(crate) fn without(text: &str, mark: char) -> &str
    requires { mark < 128 }
    ensures { result.now ≡ spec.without mark text.now }
{
    text.strip_prefix(mark).unwrap_or(text)
}

fn is_wild(text: &str) -> bool
    ensures { result ≡ spec.is_wild text.now }
{
    matches!(text.as_bytes(), [SMALL_X | LARGE_X | ASTERISK])
}

fn are_digits(text: &str) -> bool
    ensures { result ≡ list_all is_ascii_digit text.now }
{
    text.as_bytes().iter().all(|b| b.is_ascii_digit())
}

fn has_leading_zero(text: &str) -> bool
    ensures { result ≡ has_leading_zero text.now }
{
    match text.as_bytes().split_first() {
        Some((first, rest)) => *first == b'0' && !rest.is_empty(),
        None => false,
    }
}

/// The number that the digits write, which has no leading zero and is not too large.
fn number(text: &str) -> Option<u64>
    ensures { MatchOption result (spec.is_number text.now ≡ false)
        (λ n. (spec.is_number text.now ≡ true) × (n ≡ digits_value 10 text.now)
        × (n ≤ spec.largest)) }
{
    if !are_digits(text) || has_leading_zero(text) {
        return None;
    }
    match text.parse::<u64>() {
        Ok(number) if number <= LARGEST => Some(number),
        _ => None,
    }
}

/// A part between dots: `None` for any number.
#[tactic(auto, unfolding(crate::specs::Grammar::part))]
fn part(text: &str) -> Option<Option<u64>>
    ensures value { result ≡ spec.part text.now }
    ensures small { IfSome result (λ found. IfSome found (λ n. n ≤ spec.largest)) }
{
    if is_wild(text) {
        return Some(None);
    }
    Some(Some(number(text)?))
}

/// The numbers up to the first part that is open.
fn filled(major: Option<u64>, minor: Option<u64>, patch: Option<u64>) -> Numbers
    requires small { IfSome major (λ n. n ≤ spec.largest) × IfSome minor (λ n. n ≤ spec.largest)
        × IfSome patch (λ n. n ≤ spec.largest) }
    ensures value { result ≡ spec.filled major minor patch }
    ensures small { spec.AreSmall result }
{
    match (major, minor, patch) {
        (Some(a), Some(b), Some(c)) => Numbers::Full(a, b, c),
        (Some(a), Some(b), None) => Numbers::Minor(a, b),
        (Some(a), None, _) => Numbers::Major(a),
        (None, _, _) => Numbers::Any,
    }
}

/// The same of a text that may be missing.
fn cut_some(text: Option<&str>, mark: char) -> (Option<&str>, Option<&str>)
    requires { mark < 128 }
    ensures before { spec.seen result.0 ≡ spec.before_in mark (spec.seen text.entry) }
    ensures behind { spec.seen result.1 ≡ spec.behind_in mark (spec.seen text.entry) }
{
    match text {
        Some(text) => {
            let (before, behind) = cut(text, mark);
            (Some(before), behind)
        }
        None => (None, None),
    }
}

fn part_or_any(text: Option<&str>) -> Option<Option<u64>>
    ensures value { result ≡ spec.part_or_any (spec.seen text.entry) }
    ensures small { IfSome result (λ found. IfSome found (λ n. n ≤ spec.largest)) }
{
    match text {
        Some(text) => part(text),
        None => Some(None),
    }
}

/// The numbers of one to three parts between dots, and whether there are three.
#[tactic(auto, unfolding(crate::specs::Grammar::numbers))]
fn numbers(core: &str) -> Option<(Numbers, bool)>
    ensures value { MatchOption result (spec.numbers core.now ≡ None)
        (λ r. (spec.numbers core.now ≡ Some r.0) × (r.1 ≡ spec.is_three core.now)) }
    ensures small { IfSome result (λ r. spec.AreSmall r.0) }
{
    let (major, rest) = cut(core, DOT);
    let (minor, patch) = cut_some(rest, DOT);
    let is_three = patch.is_some();
    let (major, minor, patch) = (part(major)?, part_or_any(minor)?, part_or_any(patch)?);
    Some((filled(major, minor, patch), is_three))
}

/// Want of memory, or no range, as the error of a reader says.
fn refusal(error: Error) -> RangeErr
    ensures { (result ≡ RangeErr.OutOfMemory)
        ⊎ ((result ≡ RangeErr.NotARange) × (error ≢ memory_error)) }
{
    if error == Error::from(AllocError) {
        RangeErr::OutOfMemory
    } else {
        RangeErr::NotARange
    }
}

/// Whether the text is build metadata that is not empty; where it is missing that is well.
fn check_build(alloc: Global, allowed: bool, build: Option<&str>) -> Result<(), RangeErr>
    ensures ok { OnOk result (spec.is_tag is_build allowed (spec.seen build.entry) ≡ true) }
    ensures err { IfErr result
        (λ e. (e ≡ RangeErr.OutOfMemory)
        ⊎ ((e ≡ RangeErr.NotARange)
        × (spec.is_tag is_build allowed (spec.seen build.entry) ≡ false))) }
{
    let Some(text) = build else {
        return Ok(());
    };
    if !allowed || text.is_empty() {
        return Err(RangeErr::NotARange);
    }
    match BuildMetadata::new(alloc, text) {
        Ok(_build) => Ok(()),
        Err(error) => Err(refusal(error)),
    }
}

/// The pre-release that the text is; none where it is missing.
fn read_pre(alloc: Global, allowed: bool, pre: Option<&str>) -> Result<Prerelease, RangeErr>
    ensures ok { IfOk result (λ p. (pre_text p ≡ spec.or_empty (spec.seen pre.entry))
        × (spec.is_tag is_pre_release allowed (spec.seen pre.entry) ≡ true)) }
    ensures err { IfErr result
        (λ e. (e ≡ RangeErr.OutOfMemory)
        ⊎ ((e ≡ RangeErr.NotARange)
        × (spec.is_tag is_pre_release allowed (spec.seen pre.entry) ≡ false))) }
{
    let Some(text) = pre else {
        return Ok(Prerelease::empty());
    };
    if !allowed || text.is_empty() {
        return Err(RangeErr::NotARange);
    }
    match Prerelease::new(alloc, text) {
        Ok(pre) => Ok(pre),
        Err(error) => Err(refusal(error)),
    }
}

/// The pre-release of a full version.
fn kept(numbers: Numbers, pre: Prerelease) -> Prerelease
    ensures { pre_text result ≡ spec.kept numbers (pre_text pre) }
{
    match numbers {
        Numbers::Full(_, _, _) => pre,
        _ => Prerelease::empty(),
    }
}

/// The numbers and the pre-release of a version or partial version.
#[tactic(auto, unfolding(crate::specs::Grammar::version, crate::specs::Grammar::tagged))]
pub(crate) fn read_version(alloc: Global, word: &str) -> Result<(Numbers, Prerelease), RangeErr>
    ensures ok { IfOk result (λ v. spec.version word.now ≡ Some (v.0, pre_text v.1)) }
    ensures small { IfOk result (λ v. spec.AreSmall v.0) }
    ensures err { IfErr result (MayRefuse (spec.version word.now)) }
{
    let (front, build) = cut(without(word, VERSION_MARK), PLUS);
    let (core, pre) = cut(front, HYPHEN);
    let Some((numbers, is_full)) = numbers(core) else {
        return Err(RangeErr::NotARange);
    };
    check_build(alloc, is_full, build)?;
    let pre = read_pre(alloc, is_full, pre)?;
    Ok((numbers, kept(numbers, pre)))
}
