// The characters of a text, and which of them are quoted.
ghost use Rattle.std.specs.Prelude.{◌≡◌, ◌+◌, ◌<◌, ◌^◌, ◌∷◌, [], IfOk, IfSome, IsUtf8, MatchOption, length, ◌&&◌, ◌==◌};
ghost use Rattle.std.specs.Str.{chars};
ghost use Rattle.glob_syntax.specs.Characters.{backslash};
ghost use Rattle.glob_syntax.specs.Marks.{marks_of, is_plain, is_slash, NotQuoting};

use rel_path::split_first_char;
use std::alloc::{AllocError, Global};

/// A character, the place where it is written (that of the `\` where one quotes it), and whether one does.
#[derive(Clone, Copy, Debug)]
pub struct Mark {
    pub at: u64,
    pub quoted: bool,
    pub character: char,
}

impl Mark {
    /// Whether it is this character, and no `\` quotes it.
    pub fn is_plain(&self, c: char) -> bool
        ensures { result ≡ is_plain c self.now }
    {
        !self.quoted && self.character == c
    }

    /// A quoted `/` separates components as a plain one does.
    pub fn is_slash(&self) -> bool
        ensures { result ≡ is_slash self.now }
    {
        self.character == '/'
    }
}

/// The character that the one before it quotes, and what follows.
fn quoted_by(c: char, behind: &str) -> Option<(char, &str)>
    ensures quoted { MatchOption result (NotQuoting c (chars behind.now))
        (λ r. (c ≡ backslash) × (chars behind.now ≡ r.0 ∷ chars r.1.now)) }
    ensures text { IfSome result (λ r. IsUtf8 r.1.now) }
{
    if c == '\\' {
        split_first_char(behind)
    } else {
        None
    }
}

/// The characters of a text that begins at the place.
pub fn read_marks(alloc: Global, start: u64, text: &str) -> Result<Vec<Mark>, AllocError>
    requires { start + length text.now < 2 ^ 64 }
    ensures { IfOk result (λ r. r.items ≡ marks_of start (chars text.now)) }
{
    let mut marks = Vec::new(alloc);
    let mut at = start;
    let mut rest = text;
    while let Some((c, behind)) = split_first_char(rest) {
        match quoted_by(c, behind) {
            Some((character, after)) => {
                marks.push(Mark {
                    at,
                    quoted: true,
                    character,
                })?;
                at += 2;
                rest = after;
            }
            None => {
                marks.push(Mark {
                    at,
                    quoted: false,
                    character: c,
                })?;
                at += 1;
                rest = behind;
            }
        }
    }
    Ok(marks)
}
