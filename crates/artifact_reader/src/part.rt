// Parts of a text.
ghost use Rattle.std.specs.Prelude.{◌≡◌, ◌<◌, ◌≤◌, ◌+◌, ◌-◌, ◌^◌, ◌++◌, List, ℕ, length};
ghost use Rattle.artifact_reader.specs.Parts.{IsWell, IsOf, span_of, is_known, at_span};

use rel_path::Span;

/// A part of a text that stands in a store: where, and its bytes where they were read.
#[derive(Clone, Copy, Debug)]
pub enum Part<'a> {
    Known(&'a [u8], Span),
    Unknown(Span),
}

impl<'a> Part<'a> {
    /// Where it stands.
    pub fn span(self) -> Span
        ensures { result ≡ span_of self.entry }
    {
        match self {
            Part::Known(_, span) => span,
            Part::Unknown(span) => span,
        }
    }

    /// Its first bytes, so many, and the others.
    pub(crate) fn split(self, n: u64) -> (Part<'a>, Part<'a>)
        requires well { IsWell self }
        requires inside { n ≤ (span_of self).len }
        ensures well { IsWell result.0 × IsWell result.1 }
        ensures lens { ((span_of result.0).len ≡ n)
            × ((span_of result.1).len ≡ (span_of self.entry).len - n) }
        ensures same { (is_known result.0 ≡ is_known self.entry)
            × (is_known result.1 ≡ is_known self.entry) }
        ensures both { (low : ℕ) (text : List ℕ) → length text < 2 ^ 64 → IsOf low text self.entry
            → IsOf low text result.0 × IsOf low text result.1
            × (at_span text (span_of self.entry)
            ≡ at_span text (span_of result.0) ++ at_span text (span_of result.1)) }
    {
        let span = self.span();
        let front = Span {
            at: span.at,
            len: n,
        };
        // Where the text is not told nothing bounds the sum.
        let back = Span {
            at: span.at.saturating_add(n),
            len: span.len - n,
        };
        match self {
            Part::Known(bytes, _) => {
                let (first, rest) = bytes.split_at(n as usize);
                (Part::Known(first, front), Part::Known(rest, back))
            }
            Part::Unknown(_) => (Part::Unknown(front), Part::Unknown(back)),
        }
    }
}
