// Going over the parts of a text.
ghost use Rattle.std.specs.Prelude.{◌≡◌, ◌<◌, ◌∷◌, [], IfSome, IfNone};
ghost use Rattle.artifact_reader.specs.Parts.{IsWell, AreWell, span_of};
ghost use Rattle.artifact_reader.specs.Cursors.{left_in, IsTaken, AreOver};

use crate::Part;

/// What is left of the parts of a text.
#[derive(Clone, Copy)]
pub(crate) struct Cursor<'a> {
    // What is left of the part whose front was taken.
    front: Option<Part<'a>>,
    rest: &'a [Part<'a>],
}

impl<'a> Cursor<'a> {
    pub(crate) fn new(parts: &'a [Part<'a>]) -> Cursor<'a>
        ensures { left_in result ≡ parts.now }
    {
        Cursor {
            front: None,
            rest: parts,
        }
    }

    /// The next part, and those behind it.
    fn pop(self) -> Option<(Part<'a>, &'a [Part<'a>])>
        ensures some { IfSome result (λ p. left_in self.entry ≡ p.0 ∷ p.1.now) }
        ensures none { IfNone result (left_in self.entry ≡ []) }
    {
        if let Some(part) = self.front {
            return Some((part, self.rest));
        }
        let (part, rest) = self.rest.split_first()?;
        Some((*part, rest))
    }

    /// The next bytes of the text that stand together, as many as there are and as are asked for, and what is left then.
    pub(crate) fn next(self, most: u64) -> Option<(Part<'a>, Cursor<'a>)>
        requires well { AreWell (left_in self) }
        requires most { 0 < most }
        ensures some { IfSome result (λ p. IsTaken most (left_in self.entry) p.0 (left_in p.1)) }
        ensures none { IfNone result (AreOver (left_in self.entry)) }
    {
        let mut cursor = self;
        while let Some((part, rest)) = cursor.pop() {
            if part.span().len > 0 {
                return Some(cut(part, rest, most));
            }
            cursor = Cursor::new(rest);
        }
        None
    }
}

/// The front of a part before others, at most so many bytes of it, and what is left then.
fn cut<'a>(part: Part<'a>, rest: &'a [Part<'a>], most: u64) -> (Part<'a>, Cursor<'a>)
    requires well { IsWell part }
    requires rest { AreWell rest.now }
    requires some { 0 < (span_of part).len }
    requires most { 0 < most }
    ensures { IsTaken most (part.entry ∷ rest.now) result.0 (left_in result.1) }
{
    if part.span().len <= most {
        return (part, Cursor::new(rest));
    }
    let (taken, left) = part.split(most);
    let cursor = Cursor {
        front: Some(left),
        rest,
    };
    (taken, cursor)
}
