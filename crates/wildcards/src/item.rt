// The items of a pattern.
ghost use Rattle.std.specs.Prelude.{◌≡◌, Bool};

/// An item of a pattern over elements of a type.
pub trait Item<E> {
    ghost is_run: { Self → Bool };

    ghost takes: { Self → E → Bool };

    /// Whether it takes any number of elements.
    fn is_run(&self) -> bool
        ensures { result ≡ is_run self.now };

    /// Whether it takes this one element. What a run answers does not count.
    fn takes(&self, element: &E) -> bool
        ensures { result ≡ takes self.now element.now };
}
