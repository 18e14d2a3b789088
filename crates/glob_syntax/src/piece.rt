// The pieces of a glob: what stands between braces, and the parts in them.
ghost use Rattle.std.specs.Prelude.{◌≡◌, ◌∷◌, ◌++◌, [], IfOk, OnOk, false};
ghost use Rattle.glob_syntax.specs.Braces.{has_close};
ghost use Rattle.glob_syntax.specs.Pieces.{seen, pieces_of};

use crate::braces::has_close;
use crate::token::{Sign, Token};
use std::alloc::{AllocError, Global};
use std::marker::Model;

/// Tokens of a glob, one after another, which contracts see as their list.
#[derive(Drop)]
pub(crate) struct Tokens<'a> {
    tokens: Vec<&'a Token>,
}

impl<'a> Model for Tokens<'a> {
    ghost use Rattle.std.specs.Prelude.{List, map};
    ghost use Rattle.glob_syntax.specs.declared.token.Token.{Token};

    ghost Value = { List Token };

    ghost view = { λ l. map (λ t. t.now) l.tokens.items };
}

impl<'a> Tokens<'a> {
    pub fn new(alloc: Global) -> Tokens<'a>
        ensures { result ≡ [] }
    {
        Tokens {
            tokens: Vec::new(alloc),
        }
    }

    pub fn push(&mut self, token: &'a Token) -> Result<(), AllocError>
        ensures { OnOk result (self.new ≡ self.old ++ token.now ∷ []) }
    {
        self.tokens.push(token)?;
        Ok(())
    }

    pub fn append(&mut self, other: &Tokens<'a>) -> Result<(), AllocError>
        ensures { OnOk result (self.new ≡ self.old ++ other.now) }
    {
        self.tokens.extend_from_slice(&other.tokens)?;
        Ok(())
    }

    pub fn copied(&self) -> Result<Tokens<'a>, AllocError>
        ensures { IfOk result (λ copy. copy ≡ self.now) }
    {
        let tokens = self.tokens.clone()?;
        Ok(Tokens { tokens })
    }

    pub fn as_slice(&self) -> &[&'a Token]
        ensures { seen result.now ≡ self.now }
    {
        self.tokens.as_slice()
    }
}

/// What may stand at one place of a glob, which contracts see as the list of its parts: those of a pair of braces,
/// or the one part that stands between two pairs.
#[derive(Drop)]
pub(crate) struct Piece<'a> {
    parts: Vec<Tokens<'a>>,
}

impl<'a> Model for Piece<'a> {
    ghost use Rattle.std.specs.Prelude.{List};
    ghost use Rattle.glob_syntax.specs.declared.token.Token.{Token};

    ghost Value = { List (List Token) };

    ghost view = { λ p. p.parts.items };
}

impl<'a> Piece<'a> {
    pub fn parts(&self) -> &[Tokens<'a>]
        ensures { result.now ≡ self.now }
    {
        self.parts.as_slice()
    }
}

/// Whether a `}` comes. `closes` is false only where none comes, so that many `{` without one are not each looked behind.
fn comes_close(closes: bool, behind: &[Token]) -> bool
    requires { closes ≡ false → has_close behind.now ≡ false }
    ensures { result ≡ has_close behind.now }
{
    closes && has_close(behind)
}

/// The pieces of a glob.
pub(crate) fn read_pieces<'a>(
    alloc: Global,
    tokens: &'a [Token],
) -> Result<Vec<Piece<'a>>, AllocError>
    ensures { IfOk result (λ r. r.items ≡ pieces_of false [] [] tokens.now) }
{
    let mut pieces = Vec::new(alloc);
    let mut inside = false;
    let mut closes = true;
    let mut parts = Vec::new(alloc);
    let mut part = Tokens::new(alloc);
    let mut rest = tokens;
    while let Some((token, behind)) = rest.split_first() {
        match token.sign {
            Sign::Comma if inside => {
                parts.push(part)?;
                part = Tokens::new(alloc);
            }
            Sign::Close if inside => {
                parts.push(part)?;
                pieces.push(Piece { parts })?;
                inside = false;
                parts = Vec::new(alloc);
                part = Tokens::new(alloc);
            }
            Sign::Open if !inside => {
                closes = comes_close(closes, behind);
                if closes {
                    parts.push(part)?;
                    pieces.push(Piece { parts })?;
                    inside = true;
                    parts = Vec::new(alloc);
                    part = Tokens::new(alloc);
                } else {
                    part.push(token)?;
                }
            }
            _ => part.push(token)?,
        }
        rest = behind;
    }
    parts.push(part)?;
    pieces.push(Piece { parts })?;
    Ok(pieces)
}
