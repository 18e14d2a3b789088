// The rules of an ignore file.
ghost use Rattle.std.specs.Prelude.{◌≡◌, ◌++◌, OnOk, IfOk, MatchOption, Some, None};
ghost use Rattle.std.specs.Option.{option_to_list};
ghost use Rattle.std.specs.List.{list_any};
ghost use Rattle.glob_syntax.specs.Marks.{is_slash};
ghost use Rattle.ignore_rules.specs.Marks.{dangles, without_first_slash};
ghost use Rattle.ignore_rules.specs.Rules.{cut_end, rule_from, rule_in, rule_of, rules_of};

use crate::line::{behind_mark, split_line, trimmed, without_return};
use crate::part::Parts;
use crate::sign::read_signs;
use glob_syntax::{Mark, read_marks};
use std::alloc::{AllocError, Global};
use std::str;

/// The place of the first character of a line.
const FIRST_PLACE: u64 = 0;

/// A rule: what the last of them says that takes a path decides it.
#[derive(Debug, Drop)]
pub(crate) struct Rule {
    /// It includes again what it takes.
    pub again: bool,
    /// It takes folders alone.
    pub folders_only: bool,
    /// Its parts take the path below the folder of its file, and not the name at the end of that path alone.
    pub anchored: bool,
    pub parts: Parts,
}

fn has_slash(marks: &[Mark]) -> bool
    ensures { result ≡ list_any is_slash marks.now }
{
    marks.iter().any(|mark| mark.is_slash())
}

/// Whether a `\` quotes nothing where this ends a pattern, once a trailing `/` is taken off.
fn dangles(mark: &Mark) -> bool
    ensures { result ≡ dangles mark.now }
{
    mark.is_plain('\\') || mark.quoted && mark.is_slash()
}

/// The pattern without a `/` at its front.
fn without_first_slash(marks: &[Mark]) -> &[Mark]
    ensures { result.now ≡ without_first_slash marks.now }
{
    match marks {
        [first, behind @ ..] if first.is_plain('/') => behind,
        _ => marks,
    }
}

/// Whether the pattern takes folders alone, and what is left of it without a `/` at its end; none where a `\` at its
/// end quotes nothing.
fn cut_end(marks: &[Mark]) -> Option<(bool, &[Mark])>
    ensures { MatchOption result (cut_end marks.now ≡ None)
        (λ r. cut_end marks.now ≡ Some (r.0, r.1.now)) }
{
    let Some((last, front)) = marks.split_last() else {
        return Some((false, marks));
    };
    if dangles(last) {
        return None;
    }
    if last.is_plain('/') {
        Some((true, front))
    } else {
        Some((false, marks))
    }
}

/// The rule whose pattern the marks write; none where it takes nothing.
fn rule_from(alloc: Global, again: bool, marks: &[Mark]) -> Result<Option<Rule>, AllocError>
    ensures { IfOk result (λ r. r ≡ rule_from again marks.now) }
{
    let Some((folders_only, pattern)) = cut_end(marks) else {
        return Ok(None);
    };
    let anchored = has_slash(pattern);
    let Some(signs) = read_signs(alloc, without_first_slash(pattern))? else {
        return Ok(None);
    };
    if signs.is_empty() {
        return Ok(None);
    }
    let parts = Parts::read(alloc, signs)?;
    Ok(Some(Rule {
        again,
        folders_only,
        anchored,
        parts,
    }))
}

/// The rule that the characters of a line write, without spaces at their end.
fn rule_in(alloc: Global, marks: &[Mark]) -> Result<Option<Rule>, AllocError>
    ensures { IfOk result (λ r. r ≡ rule_in marks.now) }
{
    match marks {
        [first, ..] if first.is_plain('#') => Ok(None),
        [first, behind @ ..] if first.is_plain('!') => rule_from(alloc, true, behind),
        _ => rule_from(alloc, false, marks),
    }
}

fn rule_of(alloc: Global, line: &[u8]) -> Result<Option<Rule>, AllocError>
    ensures { IfOk result (λ r. r ≡ rule_of line.now) }
{
    match str::from_utf8(without_return(line)) {
        Ok(text) => {
            let _len = text.len();
            let marks = read_marks(alloc, FIRST_PLACE, text)?;
            rule_in(alloc, trimmed(&marks))
        }
        Err(_) => Ok(None),
    }
}

/// Adds the rule that the line writes, if it writes one.
fn push_rule(alloc: Global, line: &[u8], rules: &mut Vec<Rule>) -> Result<(), AllocError>
    ensures { OnOk result (rules.new.items ≡ rules.old.items ++ option_to_list (rule_of line.now)) }
{
    if let Some(rule) = rule_of(alloc, line)? {
        rules.push(rule)?;
    }
    Ok(())
}

/// The rules that the lines write, in their order.
pub(crate) fn read_rules(alloc: Global, bytes: &[u8]) -> Result<Vec<Rule>, AllocError>
    ensures { IfOk result (λ r. r.items ≡ rules_of bytes.now) }
{
    let mut rules = Vec::new(alloc);
    let mut rest = behind_mark(bytes);
    while let Some((line, behind)) = split_line(rest) {
        push_rule(alloc, line, &mut rules)?;
        rest = behind;
    }
    push_rule(alloc, rest, &mut rules)?;
    Ok(rules)
}
