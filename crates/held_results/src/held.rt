// A cache that holds results back: making it and taking it apart.
ghost use Rattle.std.specs.Prelude.{◌≡◌, ◌≤◌, [], IsTrue, sum_by};
ghost use Rattle.cache_api.specs.Cache.{AllLast, ample};
ghost use Rattle.held_results.specs.declared.held.TheConstants.{HELD_BYTES};
ghost use Rattle.held_results.specs.Due.{due_pairs};

use crate::due::Due;
use cache_api::Cache;
use std::alloc::Global;

/// What is due may want so many bytes of room, and is put where it would want more.
pub const HELD_BYTES: u64 = 16 * 1024 * 1024;

/// A cache over another one, which keeps results in memory and puts several at once.
#[derive(Drop)]
pub struct Held<C: Cache> {
    pub(crate) inner: C,
    // What was handed over since the cache below was put into.
    pub(crate) due: Vec<Due>,
    // Room that is ample for what is due.
    pub(crate) taken: u64,
    // Whether each call that put what is due went well.
    pub(crate) whole: bool,
    pub ghost counted: { taken ≡ sum_by ample (due_pairs due.items) },
    pub ghost few: { taken ≤ HELD_BYTES },
    // Nothing is due in the cache below, and whatever others take it has room for what is due here.
    pub ghost rests: { IsTrue whole → IsTrue (C.state inner).whole → C.tells
        → AllLast (C.state inner) × (taken ≤ (C.state inner).sure) },
}

impl<C: Cache> Held<C> {
    ghost use Rattle.held_results.specs.Held.{below_of, held_pairs, state_of};

    /// Over this cache, in which nothing is due.
    pub fn new(alloc: Global, inner: C) -> Held<C>
        requires { C.tells → AllLast (C.state inner) }
        ensures below { below_of result ≡ inner }
        ensures none { held_pairs result ≡ [] }
        ensures whole { (state_of result).whole ≡ (C.state inner).whole }
    {
        Held {
            inner,
            due: Vec::new(alloc),
            taken: 0,
            whole: true,
        }
    }

    /// The cache below, as the last call left it. What is still due is lost.
    pub fn into_inner(self) -> C
        ensures below { result ≡ below_of self }
        ensures all { C.tells → AllLast (state_of self)
            → (C.state result).pairs ≡ (state_of self).pairs }
        ensures whole { IsTrue (state_of self).whole → IsTrue (C.state result).whole }
    {
        self.inner
    }
}
