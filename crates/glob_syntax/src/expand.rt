// The alternatives of a glob.
ghost use Rattle.std.specs.Prelude.{◌≡◌, ◌++◌, [], IfOk, OnOk, map};
ghost use Rattle.glob_syntax.specs.Pieces.{each_then, alternatives_of};

use crate::piece::{Piece, Tokens};
use std::alloc::{AllocError, Global};

/// The line followed by the part.
fn followed_by<'a>(line: &Tokens<'a>, part: &Tokens<'a>) -> Result<Tokens<'a>, AllocError>
    ensures { IfOk result (λ r. r ≡ line.now ++ part.now) }
{
    let mut longer = line.copied()?;
    longer.append(part)?;
    Ok(longer)
}

/// Adds the line followed by each of the parts.
fn push_each<'a>(
    line: &Tokens<'a>,
    parts: &[Tokens<'a>],
    longer: &mut Vec<Tokens<'a>>,
) -> Result<(), AllocError>
    ensures { OnOk result (longer.new.items
        ≡ longer.old.items ++ map (λ part. line.now ++ part) parts.now) }
{
    for part in parts {
        longer.push(followed_by(line, part)?)?;
    }
    Ok(())
}

/// Puts the part behind each of the lines.
fn append_to_each<'a>(lines: &mut Vec<Tokens<'a>>, part: &Tokens<'a>) -> Result<(), AllocError>
    ensures { OnOk result (lines.new.items ≡ map (λ line. line ++ part.now) lines.old.items) }
{
    for line in lines.iter_mut() {
        line.append(part)?;
    }
    Ok(())
}

/// Each of the lines, followed by each of the parts, as copies.
fn each_then<'a>(
    alloc: Global,
    lines: &[Tokens<'a>],
    parts: &[Tokens<'a>],
) -> Result<Vec<Tokens<'a>>, AllocError>
    ensures { IfOk result (λ r. r.items ≡ each_then lines.now parts.now) }
{
    let mut longer = Vec::new(alloc);
    for line in lines {
        push_each(line, parts, &mut longer)?;
    }
    Ok(longer)
}

/// Each of the lines, followed by each of the parts. A single part takes no copies, so that many of them take no more
/// time than their tokens.
fn lengthen<'a>(
    alloc: Global,
    lines: &mut Vec<Tokens<'a>>,
    parts: &[Tokens<'a>],
) -> Result<(), AllocError>
    ensures { OnOk result (lines.new.items ≡ each_then lines.old.items parts.now) }
{
    match parts {
        [part] => append_to_each(lines, part)?,
        _ => *lines = each_then(alloc, lines, parts)?,
    }
    Ok(())
}

/// The alternatives that the pieces give.
pub(crate) fn expand<'a>(alloc: Global, pieces: &[Piece<'a>]) -> Result<Vec<Tokens<'a>>, AllocError>
    ensures { IfOk result (λ r. r.items ≡ alternatives_of pieces.now) }
{
    let mut lines = Vec::new(alloc);
    lines.push(Tokens::new(alloc))?;
    for piece in pieces {
        lengthen(alloc, &mut lines, piece.parts())?;
    }
    Ok(lines)
}
