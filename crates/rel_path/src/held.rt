// A vector that is owned, or shared by all copies of it.
ghost use Rattle.std.specs.Prelude.{◌≡◌, IfOk, IfErr};
ghost use Rattle.rel_path.specs.Held.{items_of};

use std::alloc::{AllocError, Global};
use std::rc::Rc;

#[derive(Clone, Debug)]
pub(crate) enum Held<T> {
    Own(Vec<T>),
    Shared(Rc<Vec<T>>),
}

impl<T: Drop> Held<T> {
    pub(crate) fn as_slice(&self) -> &[T]
        ensures { result.now ≡ items_of self.now }
    {
        match self {
            Held::Own(items) => items.as_slice(),
            Held::Shared(items) => items.as_ref().as_slice(),
        }
    }

    pub(crate) fn share(self, alloc: Global) -> Result<Held<T>, AllocError>
        ensures { IfOk result (λ shared. items_of shared ≡ items_of self) }
    {
        match self {
            Held::Own(items) => Ok(Held::Shared(Rc::new(alloc, items)?)),
            Held::Shared(items) => Ok(Held::Shared(items)),
        }
    }

    /// The vector that is owned, or the one that copies share.
    pub(crate) fn unshared(self) -> Result<Vec<T>, Rc<Vec<T>>>
        ensures own { IfOk result (λ own. own.items ≡ items_of self) }
        ensures shared { IfErr result (λ shared. shared.value.items ≡ items_of self) }
    {
        match self {
            Held::Own(items) => Ok(items),
            Held::Shared(items) => Err(items),
        }
    }

    pub(crate) fn set(&mut self, items: Vec<T>)
        ensures { items_of self.new ≡ items.items }
    {
        *self = Held::Own(items);
    }
}

// By hand, so that whoever lets go of a list has one call here and no choice between the two.
impl<T: Drop> Drop for Held<T> {
    fn drop(self) {
        match self {
            Held::Own(items) => drop(items),
            Held::Shared(items) => drop(items),
        }
    }
}
