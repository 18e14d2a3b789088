// What is wrong with the braces and classes of a glob.
ghost use Rattle.std.specs.Prelude.{◌≡◌, ◌≤◌, ◌+◌, length, false};
ghost use Rattle.glob_syntax.specs.Braces.{has_close, parts_from, brace_fault};

use crate::error::GlobErr;
use crate::token::{Sign, Token};
use rel_path::limits::MAX_ALTERNATIVES;

/// Whether a `}` comes.
pub(crate) fn has_close(tokens: &[Token]) -> bool
    ensures { result ≡ has_close tokens.now }
{
    for token in tokens {
        if let Sign::Close = token.sign {
            return true;
        }
    }
    false
}

/// How many parts stand before the next `}`.
fn parts_from(tokens: &[Token]) -> u128
    ensures parts { result ≡ parts_from tokens.now }
    ensures bound { result ≤ length tokens.now + 1 }
{
    let _len = tokens.len();
    let mut parts = 1;
    for token in tokens {
        match token.sign {
            Sign::Close => return parts,
            Sign::Comma => parts += 1,
            _ => {}
        }
    }
    parts
}

/// The first fault of the braces and classes.
pub(crate) fn brace_fault(tokens: &[Token]) -> Option<GlobErr>
    ensures { result ≡ brace_fault false 1 tokens.now }
{
    let _len = tokens.len();
    let mut inside = false;
    let mut alternatives = 1u128;
    let mut rest = tokens;
    while let Some((token, behind)) = rest.split_first() {
        let at = token.at;
        match token.sign {
            Sign::Open => {
                if inside {
                    return Some(GlobErr::Nested { at });
                }
                if !has_close(behind) {
                    return Some(GlobErr::OpenBrace { at });
                }
                alternatives *= parts_from(behind);
                if alternatives > MAX_ALTERNATIVES {
                    return Some(GlobErr::Wide { at });
                }
                inside = true;
            }
            Sign::Close => inside = false,
            Sign::OpenClass => return Some(GlobErr::OpenClass { at }),
            _ => {}
        }
        rest = behind;
    }
    None
}
