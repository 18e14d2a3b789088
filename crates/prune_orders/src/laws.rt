// What the definitions settle. Who calls a law, knows it.
ghost use Rattle.prune_orders.specs.Laws.{OnceLaw};

/// A repository is pruned, or one reason refuses it.
pub fn once_law()
    ensures { OnceLaw }
{}
