//! The laws of forests: a function here does nothing, and its contract is the law.
ghost use Rattle.corner_forest.specs.Laws.{EmptyForestStands, EntryStandsAnywhere, FirstPagesAreTakenOnce, ForestPagesAreThere, ForestStandsByItsPages, TreesCountTheirPoints};

use dom_index::DomIndex;

/// What holds of every forest that stands.
pub fn forest_laws<X: DomIndex>()
    ensures empty { EmptyForestStands X.DomIndex }
    ensures anywhere { EntryStandsAnywhere X.DomIndex }
    ensures by_its_pages { ForestStandsByItsPages X.DomIndex }
    ensures in_map { ForestPagesAreThere X.DomIndex }
    ensures first_pages { FirstPagesAreTakenOnce }
    ensures counted { TreesCountTheirPoints X.DomIndex }
{
    X::index_laws();
}
