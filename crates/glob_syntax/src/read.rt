// Reading a text as a glob.
ghost use Rattle.std.specs.Prelude.{◌≡◌, ◌+◌, ◌<◌, ◌^◌, length, IfOk, IfErr, None};
ghost use Rattle.std.specs.Str.{chars};
ghost use Rattle.glob_syntax.specs.Faults.{first_fault, earlier, place_of, pieces_in};
ghost use Rattle.glob_syntax.specs.Reading.{fault_at, glob_from, MayRefuse};

use crate::braces::brace_fault;
use crate::climb::climb_of;
use crate::error::GlobErr;
use crate::expand::expand;
use crate::mark::read_marks;
use crate::part::{Alternative, read_lines};
use crate::piece::{Piece, read_pieces};
use crate::token::{Token, read_tokens};
use std::alloc::Global;

fn place_of(fault: &GlobErr) -> u64
    ensures { result ≡ place_of fault.now }
{
    match fault {
        GlobErr::OpenClass { at } => *at,
        GlobErr::OpenBrace { at } => *at,
        GlobErr::Nested { at } => *at,
        GlobErr::Climbs { at } => *at,
        GlobErr::Wide { at } => *at,
        GlobErr::OutOfMemory => 0,
    }
}

fn earlier(fault: Option<GlobErr>, climb: Option<u64>) -> Option<GlobErr>
    ensures { result ≡ earlier fault climb }
{
    match (fault, climb) {
        (None, None) => None,
        (None, Some(at)) => Some(GlobErr::Climbs { at }),
        (Some(fault), None) => Some(fault),
        (Some(fault), Some(at)) => {
            if at < place_of(&fault) {
                Some(GlobErr::Climbs { at })
            } else {
                Some(fault)
            }
        }
    }
}

/// The fault with the least place.
#[tactic(auto, unfolding(crate::specs::Faults::first_fault))]
fn first_fault(tokens: &[Token], pieces: &[Piece]) -> Option<GlobErr>
    requires { pieces.now ≡ pieces_in tokens.now }
    ensures { result ≡ first_fault tokens.now }
{
    earlier(brace_fault(tokens), climb_of(pieces))
}

/// The alternatives of the glob that the text writes. `start` is the place of its first character in what was written
/// whole, from which the places in errors count. Of several faults the one with the least place is answered.
#[tactic(auto, unfolding(crate::specs::Reading::fault_at, crate::specs::Reading::glob_from))]
pub fn read_alternatives(alloc: Global, start: u64, text: &str) -> Result<Vec<Alternative>, GlobErr>
    requires { start + length text.now < 2 ^ 64 }
    ensures ok { IfOk result (λ r. r.items ≡ glob_from start (chars text.now)) }
    ensures whole { IfOk result (λ r. fault_at start (chars text.now) ≡ None) }
    ensures err { IfErr result (MayRefuse (fault_at start (chars text.now))) }
{
    let marks = read_marks(alloc, start, text)?;
    let tokens = read_tokens(alloc, &marks)?;
    let pieces = read_pieces(alloc, &tokens)?;
    if let Some(fault) = first_fault(&tokens, &pieces) {
        return Err(fault);
    }
    let lines = expand(alloc, &pieces)?;
    let alternatives = read_lines(alloc, &lines)?;
    Ok(alternatives)
}
