// A cache over two stores: making it and taking it apart.
ghost use Rattle.std.specs.Prelude.{◌≡◌, ◌&&◌, true, IsTrue};
ghost use Rattle.relay_store.specs.Access.{IsAccessOf};
ghost use Rattle.relay_store.specs.Agree.{Agree, Leads};
ghost use Rattle.relay_store.specs.Parts.{more_of};

use crate::part::Part;
use artifact_store::Store;
use cli_words::Access;
use store_dev::StoreDevice;

/// The side of a hit in the local store.
pub const LOCAL: u8 = 0;

/// The side of a hit in the second store.
pub const SECOND: u8 = 1;

/// A cache over two stores, of which one may be missing. It keeps both by value.
///
/// Its pairs are the first pairs of both stores, those of the store that a look-up asks first
/// standing last, and behind them what it has put. The local store is asked first where it is put
/// into, and else the second one.
#[derive(Drop)]
pub struct Relay<S: StoreDevice, R: StoreDevice> {
    pub(crate) local: Part<S>,
    pub(crate) second: Part<R>,
    pub(crate) access: Access,
    // How many pairs it has put. Where it may no longer be used, a store may have more.
    pub(crate) added: u64,
    // Whether each store that is put into has these and no more.
    pub(crate) whole: bool,
    pub ghost serves: { IsAccessOf access local.store second.store },
    pub ghost agrees: { IsTrue whole → S.tells → R.tells → Agree access added local second },
    pub ghost leads: { S.tells → R.tells → (access.local_puts && access.second_puts) ≡ true
        → Leads (more_of local) (more_of second) },
}

impl<S: StoreDevice, R: StoreDevice> Relay<S, R> {
    ghost use Rattle.std.specs.Prelude.{◌++◌, Some};
    ghost use Rattle.relay_store.specs.Stores.{state_in};
    ghost use Rattle.relay_store.specs.Relays.{first_pairs, state_of, stores_of, all_pairs};
    ghost use Rattle.relay_store.specs.Relays.{local_more, second_more};
    ghost use Rattle.relay_store.specs.Laws.{GoesOn};

    /// A cache over these stores. A store is there exactly where it is read, what is put into is
    /// also read, and one at least is put into.
    pub fn new(local: Option<Store<S>>, second: Option<Store<R>>, access: Access) -> Relay<S, R>
        requires access { IsAccessOf access local second }
        requires local { IsTrue (state_in local).whole }
        requires second { IsTrue (state_in second).whole }
        ensures stores { stores_of result ≡ (local, second) }
        ensures access { (state_of result).base.access ≡ access }
        ensures whole { IsTrue (state_of result).whole }
        ensures pairs { S.tells → R.tells
            → (state_of result).pairs ≡ all_pairs access local second }
        ensures local_pairs { (told : S.tells)
            → (state_of result).base.local.first told ≡ (state_in local).pairs }
        ensures second_pairs { (told : R.tells)
            → (state_of result).base.second.first told ≡ (state_in second).pairs }
    {
        Relay {
            local: Part::new(local),
            second: Part::new(second),
            access,
            added: 0,
            whole: true,
        }
    }

    /// Whether it may be used. It is so from the start until a call that puts pairs fails.
    pub fn whole(&self) -> bool
        ensures { result ≡ (state_of self.now).whole }
    {
        self.whole && (self.local.whole() && self.second.whole())
    }

    /// The stores, as the last call left them.
    pub fn parts(self) -> (Option<Store<S>>, Option<Store<R>>)
        ensures stores { result ≡ stores_of self }
        ensures whole { IsTrue (state_of self).whole
            → IsTrue (state_in result.0).whole × IsTrue (state_in result.1).whole }
        // While the relay may be used, a store that is put into has what the relay put behind the
        // store's first pairs, and no other store has more than those.
        ensures local { (t : S.tells) (u : R.tells) → IsTrue (state_of self).whole
            → GoesOn (state_of self).base.access.local_puts
            (first_pairs (state_of self).base t u) ((state_of self).base.local.first t)
            (λ pairs. pairs ≡ (state_of self).pairs) (Some (state_in result.0).pairs) }
        ensures second { (t : S.tells) (u : R.tells) → IsTrue (state_of self).whole
            → GoesOn (state_of self).base.access.second_puts
            (first_pairs (state_of self).base t u) ((state_of self).base.second.first u)
            (λ pairs. pairs ≡ (state_of self).pairs) (Some (state_in result.1).pairs) }
        // Whatever its calls answered, each store has its first pairs, and the second one leads.
        ensures local_more { (told : S.tells) → (state_in result.0).pairs
            ≡ (state_of self).base.local.first told ++ local_more self }
        ensures second_more { (told : R.tells) → (state_in result.1).pairs
            ≡ (state_of self).base.second.first told ++ second_more self }
        ensures leads { S.tells → R.tells → ((state_of self).base.access.local_puts
            && (state_of self).base.access.second_puts) ≡ true
            → Leads (local_more self) (second_more self) }
    {
        (self.local.store, self.second.store)
    }
}
