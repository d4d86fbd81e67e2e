//! Whole examples, computed from the definitions.
ghost use Rattle.history_laws.specs.Worked.{OrderIsNoMatter, TableIsTold, VersionsAreCut};

/// A table with adds, a move, a withdrawal, an add again and a version without changes tells its history.
pub fn a_table_is_told()
    ensures { TableIsTold }
{}

/// The rows of a table tell the same in another order.
pub fn order_is_no_matter()
    ensures { OrderIsNoMatter }
{}

/// The last version says how many batches are told.
pub fn versions_are_cut()
    ensures { VersionsAreCut }
{}
