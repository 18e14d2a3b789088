// The signs of a pattern.
ghost use Rattle.std.specs.Prelude.{◌≡◌, IfOk, MatchOption, Some, None};
ghost use Rattle.ignore_rules.specs.Signs.{plain_atom, sign_of, signs_from};

use glob_syntax::{Atom, Mark, Negation, class_of, ends_class};
use std::alloc::{AllocError, Global};

/// git takes `^` for `!` in front of a class.
const NEGATION: Negation = Negation::ExclamationMarkOrCircumflex;

/// What one character of a pattern, or one class, says.
#[derive(Debug, Drop)]
pub(crate) enum Sign {
    /// `/`, and whether a `\` quotes it.
    Slash { quoted: bool },
    Atom(Atom),
}

fn plain_atom(c: char) -> Atom
    ensures { result ≡ plain_atom c }
{
    match c {
        '*' => Atom::Star,
        '?' => Atom::One,
        _ => Atom::Char(c),
    }
}

/// What a character says that begins no class.
fn sign_of(mark: &Mark) -> Sign
    ensures { result ≡ sign_of mark.now }
{
    if mark.is_slash() {
        Sign::Slash {
            quoted: mark.quoted,
        }
    } else if mark.quoted {
        Sign::Atom(Atom::Char(mark.character))
    } else {
        Sign::Atom(plain_atom(mark.character))
    }
}

/// The signs of a pattern, or none where a class does not end.
pub(crate) fn read_signs(alloc: Global, marks: &[Mark]) -> Result<Option<Vec<Sign>>, AllocError>
    ensures { IfOk result (λ r. MatchOption r (signs_from None marks.now ≡ None)
        (λ signs. signs_from None marks.now ≡ Some signs.items)) }
{
    let mut signs = Vec::new(alloc);
    let mut body = Vec::new(alloc);
    let mut inside = false;
    let mut rest = marks;
    while let Some((mark, behind)) = rest.split_first() {
        if !inside {
            if mark.is_plain('[') {
                inside = true;
                body = Vec::new(alloc);
            } else {
                signs.push(sign_of(mark))?;
            }
        } else if ends_class(NEGATION, &body, mark) {
            let class = class_of(alloc, NEGATION, &body)?;
            signs.push(Sign::Atom(Atom::OneOf(class)))?;
            inside = false;
        } else {
            body.push(*mark)?;
        }
        rest = behind;
    }
    if inside {
        return Ok(None);
    }
    Ok(Some(signs))
}
