// Classes, from `[` to `]`.
ghost use Rattle.std.specs.Prelude.{◌≡◌, ◌<◌, ◌∷◌, ℕ, [], length, IfOk, IfSome, MatchOption, Some, None, true, false};
ghost use Rattle.glob_syntax.specs.Marks.{is_plain};
ghost use Rattle.glob_syntax.specs.Classes.{negates, has_member, ends_class, members, class_of};
ghost use Rattle.glob_syntax.specs.Tokens.{has_end, closes, class_token, tokens_of};

use crate::atom::Class;
use crate::mark::Mark;
use std::alloc::{AllocError, Global};

/// Which signs negate a class where they stand first in it.
#[derive(Clone, Copy, Debug)]
pub enum Negation {
    /// `!`
    ExclamationMark,
    /// `!` and `^`
    ExclamationMarkOrCircumflex,
}

fn negates(negation: Negation, mark: &Mark) -> bool
    ensures { result ≡ negates negation mark.now }
{
    match negation {
        Negation::ExclamationMark => mark.is_plain('!'),
        Negation::ExclamationMarkOrCircumflex => mark.is_plain('!') || mark.is_plain('^'),
    }
}

/// Whether the characters of a class so far have a member, so that a `]` ends it.
fn has_member(negation: Negation, body: &[Mark]) -> bool
    ensures { result ≡ has_member negation body.now }
{
    match body {
        [] => false,
        [only] => !negates(negation, only),
        _ => true,
    }
}

/// Whether the mark is the `]` that ends the class with this behind its `[`.
pub fn ends_class(negation: Negation, body: &[Mark], mark: &Mark) -> bool
    ensures { result ≡ ends_class negation body.now mark.now }
{
    mark.is_plain(']') && has_member(negation, body)
}

/// Whether a `]` comes before a `/`.
pub(crate) fn has_end(marks: &[Mark]) -> bool
    ensures { result ≡ has_end marks.now }
{
    for mark in marks {
        if mark.is_slash() {
            return false;
        }
        if mark.is_plain(']') {
            return true;
        }
    }
    false
}

/// The ranges that the members of a class write.
fn read_members(alloc: Global, body: &[Mark]) -> Result<Vec<(char, char)>, AllocError>
    ensures { IfOk result (λ r. r.items ≡ members body.now) }
{
    let mut ranges = Vec::new(alloc);
    let mut rest = body;
    while let Some((first, behind)) = rest.split_first() {
        match behind {
            [dash, last, more @ ..] if dash.is_plain('-') => {
                ranges.push((first.character, last.character))?;
                rest = more;
            }
            _ => {
                ranges.push((first.character, first.character))?;
                rest = behind;
            }
        }
    }
    Ok(ranges)
}

/// The class with this between its `[` and `]`.
pub fn class_of(alloc: Global, negation: Negation, body: &[Mark]) -> Result<Class, AllocError>
    ensures { IfOk result (λ r. r ≡ class_of negation body.now) }
{
    match body {
        [first, inside @ ..] if negates(negation, first) => {
            let ranges = read_members(alloc, inside)?;
            Ok(Class::new(true, ranges))
        }
        _ => {
            let ranges = read_members(alloc, body)?;
            Ok(Class::new(false, ranges))
        }
    }
}

/// The class whose `[` stands before the marks, and what follows its `]`; none where it is open.
pub(crate) fn read_class<'a>(
    alloc: Global,
    marks: &'a [Mark],
) -> Result<Option<(Class, &'a [Mark])>, AllocError>
    ensures class { IfOk result
        (λ r. MatchOption r (closes [] marks.now ≡ false)
        (λ read. (closes [] marks.now ≡ true)
        × ((at : ℕ) → tokens_of (Some (at, [])) marks.now
        ≡ class_token at read.0 ∷ tokens_of None read.1.now))) }
    ensures shorter { IfOk result (λ r. IfSome r (λ read. length read.1.now < length marks.now)) }
{
    let mut body = Vec::new(alloc);
    let mut rest = marks;
    while let Some((mark, behind)) = rest.split_first() {
        if mark.is_slash() {
            return Ok(None);
        }
        if ends_class(Negation::ExclamationMark, &body, mark) {
            let class = class_of(alloc, Negation::ExclamationMark, &body)?;
            return Ok(Some((class, behind)));
        }
        body.push(*mark)?;
        rest = behind;
    }
    Ok(None)
}
