// Which stores an order to run uses.
ghost use Rattle.std.specs.Prelude.{◌≡◌};
ghost use Rattle.run_orders.specs.Uses.{uses_of};

use cli_words::RunOrder;

/// Which stores a run uses.
#[derive(Clone, Copy, Debug, PartialEq, Eq)]
pub enum Uses {
    /// The current one of the store and the spare one.
    Current,
    /// The second store, and that one beside it, where it is read.
    Second,
    /// The shared file.
    Shared,
}

/// Which stores the order asks for.
pub fn uses_of(order: &RunOrder) -> Uses
    ensures { result ≡ uses_of order.now }
{
    if order.shared {
        return Uses::Shared;
    }
    if order.access.second_reads {
        return Uses::Second;
    }
    Uses::Current
}
