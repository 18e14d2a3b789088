// The tokens of a glob.
ghost use Rattle.std.specs.Prelude.{◌≡◌, ◌<◌, ◌∷◌, length, IsTrue, IfOk, IfSome, MatchOption, None, false};
ghost use Rattle.glob_syntax.specs.Tokens.{has_end, token_of, token_with, sign_of, plain_sign, tokens_of, is_slash_sign, is_dot, is_star_sign};

use crate::atom::Atom;
use crate::class::{has_end, read_class};
use crate::mark::Mark;
use std::alloc::{AllocError, Global};

/// What one token of a glob's text says.
#[derive(Debug, Drop)]
pub(crate) enum Sign {
    /// `{`
    Open,
    /// `}`
    Close,
    /// `,`
    Comma,
    /// `/`
    Slash,
    /// A `[` whose class is open.
    OpenClass,
    Atom(Atom),
}

/// A token, and the place of its first character.
#[derive(Debug, Drop)]
pub(crate) struct Token {
    pub at: u64,
    pub sign: Sign,
}

impl Token {
    pub fn is_slash(&self) -> bool
        ensures { result ≡ is_slash_sign self.now.sign }
    {
        matches!(self.sign, Sign::Slash)
    }

    /// Whether it is the character `.`, quoted or not.
    pub fn is_dot(&self) -> bool
        ensures { result ≡ is_dot self.now.sign }
    {
        match &self.sign {
            Sign::Atom(Atom::Char(c)) => *c == '.',
            _ => false,
        }
    }

    pub fn is_star(&self) -> bool
        ensures { result ≡ is_star_sign self.now.sign }
    {
        match &self.sign {
            Sign::Atom(atom) => atom.is_star(),
            _ => false,
        }
    }
}

fn plain_sign(c: char) -> Sign
    ensures { result ≡ plain_sign c }
{
    match c {
        '{' => Sign::Open,
        '}' => Sign::Close,
        ',' => Sign::Comma,
        '[' => Sign::OpenClass,
        '*' => Sign::Atom(Atom::Star),
        '?' => Sign::Atom(Atom::One),
        _ => Sign::Atom(Atom::Char(c)),
    }
}

/// What a character says that begins no class.
fn sign_of(mark: &Mark) -> Sign
    ensures { result ≡ sign_of mark.now }
{
    if mark.is_slash() {
        Sign::Slash
    } else if mark.quoted {
        Sign::Atom(Atom::Char(mark.character))
    } else {
        plain_sign(mark.character)
    }
}

/// The class that begins at the mark, and what follows it. None is looked for where none can end.
fn class_at<'a>(
    alloc: Global,
    mark: &Mark,
    behind: &'a [Mark],
    none_ends: bool,
) -> Result<Option<(Sign, &'a [Mark])>, AllocError>
    requires { IsTrue none_ends → has_end (mark.now ∷ behind.now) ≡ false }
    ensures tokens { IfOk result
        (λ r. MatchOption r (tokens_of None (mark.now ∷ behind.now)
        ≡ token_of mark.now ∷ tokens_of None behind.now)
        (λ read. tokens_of None (mark.now ∷ behind.now)
        ≡ token_with mark.now.at read.0 ∷ tokens_of None read.1.now)) }
    ensures shorter { IfOk result (λ r. IfSome r (λ read. length read.1.now < length behind.now)) }
{
    if none_ends || !mark.is_plain('[') {
        return Ok(None);
    }
    let Some((class, after)) = read_class(alloc, behind)? else {
        return Ok(None);
    };
    Ok(Some((Sign::Atom(Atom::OneOf(class)), after)))
}

/// The tokens of a text. Behind an open class the next `[` are not tried up to a `/`, so that the time stays linear.
pub(crate) fn read_tokens(alloc: Global, marks: &[Mark]) -> Result<Vec<Token>, AllocError>
    ensures { IfOk result (λ r. r.items ≡ tokens_of None marks.now) }
{
    let mut tokens = Vec::new(alloc);
    let mut none_ends = false;
    let mut rest = marks;
    while let Some((mark, behind)) = rest.split_first() {
        let at = mark.at;
        match class_at(alloc, mark, behind, none_ends)? {
            Some((sign, after)) => {
                tokens.push(Token { at, sign })?;
                none_ends = false;
                rest = after;
            }
            None => {
                let sign = sign_of(mark);
                tokens.push(Token { at, sign })?;
                none_ends = !mark.is_slash()
                    && (none_ends || mark.is_plain('[') && !has_end(behind));
                rest = behind;
            }
        }
    }
    Ok(tokens)
}
