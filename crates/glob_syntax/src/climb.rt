// Components `..` among the alternatives of a glob, found from the back without making the alternatives.
ghost use Rattle.std.specs.Prelude.{◌≡◌};
ghost use Rattle.glob_syntax.specs.Climbs.{least, climb_of};
ghost use Rattle.glob_syntax.specs.Pieces.{seen};
ghost use Rattle.glob_syntax.specs.Outlook.{before_part, before_parts};

use crate::piece::{Piece, Tokens};
use crate::token::Token;

/// What the alternatives of the end of a glob say to the token before them.
#[derive(Clone, Copy)]
struct Outlook {
    /// There is an alternative.
    any: bool,
    /// The first component of one is empty.
    ends: bool,
    /// The first component of one is `.`.
    dot_ends: bool,
    /// The least place of a component `..`.
    begins: Option<u64>,
    /// The same, where the first component of each does not count.
    goes_on: Option<u64>,
}

const NOWHERE: Outlook = Outlook {
    any: false,
    ends: false,
    dot_ends: false,
    begins: None,
    goes_on: None,
};

const END: Outlook = Outlook {
    any: true,
    ends: true,
    dot_ends: false,
    begins: None,
    goes_on: None,
};

fn least(a: Option<u64>, b: Option<u64>) -> Option<u64>
    ensures { result ≡ least a b }
{
    match (a, b) {
        (None, b) => b,
        (Some(a), None) => Some(a),
        (Some(a), Some(b)) => Some(a.min(b)),
    }
}

impl Outlook {
    ghost use Rattle.glob_syntax.specs.Outlook.{either_of, behind_of};

    /// Of two lists of alternatives together.
    fn either(self, other: Outlook) -> Outlook
        ensures { result ≡ either_of self other }
    {
        Outlook {
            any: self.any || other.any,
            ends: self.ends || other.ends,
            dot_ends: self.dot_ends || other.dot_ends,
            begins: least(self.begins, other.begins),
            goes_on: least(self.goes_on, other.goes_on),
        }
    }

    /// Of the alternatives with the token in front of each.
    fn behind(self, token: &Token) -> Outlook
        ensures { result ≡ behind_of token.now self }
    {
        let slash = token.is_slash();
        let dot = token.is_dot();
        let goes_on = if slash { self.begins } else { self.goes_on };
        let here = if dot && self.dot_ends {
            Some(token.at)
        } else {
            None
        };
        Outlook {
            any: self.any,
            ends: slash && self.any,
            dot_ends: dot && self.ends,
            begins: least(here, goes_on),
            goes_on,
        }
    }
}

/// The outlook of the part, with what is behind it.
fn before_part(part: &[&Token], later: Outlook) -> Outlook
    ensures { result ≡ before_part (seen part.now) later }
{
    let mut outlook = later;
    let mut left = part.len();
    while left > 0 {
        left -= 1;
        outlook = outlook.behind(part[left]);
    }
    outlook
}

/// The outlook of the parts of a piece, with what is behind it.
fn before_parts(parts: &[Tokens], later: Outlook) -> Outlook
    ensures { result ≡ before_parts parts.now later }
{
    let mut outlook = NOWHERE;
    let mut left = parts.len();
    while left > 0 {
        left -= 1;
        outlook = before_part(parts[left].as_slice(), later).either(outlook);
    }
    outlook
}

/// The least place of a component `..` of some alternative.
pub(crate) fn climb_of(pieces: &[Piece]) -> Option<u64>
    ensures { result ≡ climb_of pieces.now }
{
    let mut outlook = END;
    let mut left = pieces.len();
    while left > 0 {
        left -= 1;
        outlook = before_parts(pieces[left].parts(), outlook);
    }
    outlook.begins
}
