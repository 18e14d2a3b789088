// What the items of a pattern take.
ghost use Rattle.std.specs.Prelude.{◌≡◌, ◌∷◌, [], List, drop, MatchOption};

/// A list that is gone over from its first element on.
pub trait Elements: Copy {
    type Element;

    ghost elements: { Self → List Self.Element };

    fn first(&self) -> Option<&Self::Element>
        ensures { MatchOption result (elements self.now ≡ [])
            (λ first. elements self.now ≡ first.now ∷ drop 1 (elements self.now)) };

    /// What stands behind the first element; nothing behind none.
    fn behind(&self) -> Self
        ensures { elements result ≡ drop 1 (elements self.now) };
}

impl<'a, T> Elements for &'a [T] {
    type Element = T;

    ghost elements = { λ slice. slice.now };

    fn first(&self) -> Option<&T> {
        let slice: &'a [T] = *self;
        slice.first()
    }

    fn behind(&self) -> &'a [T] {
        match self.split_first() {
            Some((_, behind)) => behind,
            None => *self,
        }
    }
}
