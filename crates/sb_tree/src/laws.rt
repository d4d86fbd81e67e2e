//! The laws of trees over versions.
ghost use Rattle.sb_tree.specs.Laws.{BalancedTreeIsLow, EmptyTreeStands, PagesAreThere, StandsByItsPages, StandsInAnyOrder};

/// Proves what holds of every tree that stands; it does nothing when it runs.
pub fn tree_laws()
    ensures by_its_pages { StandsByItsPages }
    ensures in_map { PagesAreThere }
    ensures any_order { StandsInAnyOrder }
    ensures low { BalancedTreeIsLow }
    ensures empty { EmptyTreeStands }
{}
