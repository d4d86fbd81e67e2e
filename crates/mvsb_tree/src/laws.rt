//! The laws of multiversion trees.
ghost use Rattle.mvsb_tree.specs.Gone.{DamageIsThere, DroppedPagesWereThere};
ghost use Rattle.mvsb_tree.specs.Laws.{BalanceByItsPages, BalancedTreeIsLow, EmptyTreeIsBalanced, EmptyTreeStands, PagesAreThere, StandsByItsPages, StandsInAnyOrder};

use sb_tree::tree_laws;

/// Proves what holds of every tree that stands; it does nothing when it runs.
pub fn mv_laws()
    ensures by_its_pages { StandsByItsPages }
    ensures in_map { PagesAreThere }
    ensures any_order { StandsInAnyOrder }
    ensures empty { EmptyTreeStands }
    ensures balance { BalanceByItsPages }
    ensures empty_balance { EmptyTreeIsBalanced }
    ensures low { BalancedTreeIsLow }
{
    tree_laws();
}

/// Proves what the clauses of a call that frees pages say of the map at the call itself. They speak of each map from which
/// this one may have come by losing other pages; this one itself is one of these. It does nothing when it runs.
pub fn freed_laws()
    ensures dropped { DroppedPagesWereThere }
    ensures damaged { DamageIsThere }
{}
