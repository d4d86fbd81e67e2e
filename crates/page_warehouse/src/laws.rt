//! What is so of every disk that holds a history.
ghost use Rattle.page_warehouse.specs.Laws.{HoldsByPages, HoldsForQueries, HoldsOneHistory, HoldsTreesByPages, NewHoldsNothing, TableTells};
ghost use Rattle.page_warehouse.specs.Table.{TablesKeepLives};

use dom_index::DomIndex;
use history_laws::table_tells_history;
use object_table::table_laws;
use page_space::{created_holds as created_space_holds, holds_one};
use redo_journal::settling_laws;

/// Proves that a new warehouse holds the empty history; it does nothing when it runs.
pub fn created_holds<X: DomIndex>()
    ensures { NewHoldsNothing X.DomIndex }
{
    X::index_laws();
    table_laws();
    created_space_holds();
}

/// Proves that a disk holds a history by the pages that it stands for, and that queries need less; it does
/// nothing when it runs.
pub fn holding_laws<X: DomIndex>()
    ensures queries { HoldsForQueries X.DomIndex }
    ensures by_pages { HoldsByPages X.DomIndex }
    ensures trees_by_pages { HoldsTreesByPages X.DomIndex }
{
    settling_laws();
}

/// Proves that the object table of a disk that holds a history tells that history, so that a disk holds one at
/// most; it does nothing when it runs.
pub fn table_tells<X: DomIndex>()
    ensures table { TableTells X.DomIndex }
    ensures one { HoldsOneHistory X.DomIndex }
{
    table_tells_history();
    holds_one();
}

/// Proves that the object table of a disk that holds a history keeps its lives, ascending by id and then by
/// life; it does nothing when it runs.
pub fn tables_keep_lives<X: DomIndex>()
    ensures { TablesKeepLives X.DomIndex }
{
    table_laws();
}
