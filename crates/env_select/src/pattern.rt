// Patterns of names.
ghost use Rattle.std.specs.Prelude.{◌≡◌, IfOk};
ghost use Rattle.env_select.specs.Patterns.{is_quoted, sign_of, signs_of, is_star, takes_byte, spells_name};

use std::alloc::{AllocError, Global};
use std::marker::Model;
use wildcards::Item;

/// One step of a pattern.
#[derive(Clone, Copy, Debug)]
pub(crate) enum Sign {
    /// Any run of bytes: `*`.
    Star,
    /// This byte.
    Byte(u8),
}

impl Item<u8> for Sign {
    ghost is_run = { is_star };

    ghost takes = { takes_byte };

    fn is_run(&self) -> bool {
        matches!(self, Sign::Star)
    }

    fn takes(&self, byte: &u8) -> bool {
        match self {
            Sign::Star => false,
            Sign::Byte(own) => *byte == *own,
        }
    }
}

/// A pattern, which contracts see as the list of its signs.
#[derive(Debug, Drop)]
pub(crate) struct Pattern {
    signs: Vec<Sign>,
}

impl Model for Pattern {
    ghost use Rattle.std.specs.Prelude.{List};
    ghost use Rattle.env_select.specs.declared.pattern.Sign.{Sign};

    ghost Value = { List Sign };

    ghost view = { λ p. p.signs.items };
}

impl Pattern {
    /// The pattern that the bytes write.
    pub fn read(alloc: Global, text: &[u8]) -> Result<Pattern, AllocError>
        ensures { IfOk result (λ pattern. pattern ≡ signs_of text.now) }
    {
        let signs = read_signs(alloc, text)?;
        Ok(Pattern { signs })
    }

    fn signs(&self) -> &[Sign]
        ensures { result.now ≡ self.now }
    {
        self.signs.as_slice()
    }

    pub fn matches(&self, name: &[u8]) -> bool
        ensures { result ≡ spells_name self.now name.now }
    {
        wildcards::spells(self.signs(), name)
    }
}

/// Whether the first of two bytes quotes the second.
fn is_quoted(first: u8, second: u8) -> bool
    ensures { result ≡ is_quoted first second }
{
    first == b'\\' && (second == b'*' || second == b'!')
}

fn sign_of(byte: u8) -> Sign
    ensures { result ≡ sign_of byte }
{
    if byte == b'*' {
        Sign::Star
    } else {
        Sign::Byte(byte)
    }
}

fn read_signs(alloc: Global, text: &[u8]) -> Result<Vec<Sign>, AllocError>
    ensures { IfOk result (λ r. r.items ≡ signs_of text.now) }
{
    let mut signs = Vec::new(alloc);
    let mut rest = text;
    while let Some((byte, behind)) = rest.split_first() {
        match behind {
            [quoted, more @ ..] if is_quoted(*byte, *quoted) => {
                signs.push(Sign::Byte(*quoted))?;
                rest = more;
            }
            _ => {
                signs.push(sign_of(*byte))?;
                rest = behind;
            }
        }
    }
    Ok(signs)
}
