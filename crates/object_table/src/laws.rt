//! The laws of object tables.
ghost use Rattle.object_table.specs.Laws.{EarlierLivesAreFirst, EmptyTableStands, EnteredIsLast, EnteredIsMore, LastInAnyOrder, LastIsGreatest, LivesAscend, NoLastNoLife, PagesAreThere, StandsByItsPages, StandsForOneList, TableIsLow, WithdrawnInAnyOrder, WithdrawnIsLast};

/// Proves what holds of every table that stands; it does nothing when it runs.
pub fn table_laws()
    ensures by_its_pages { StandsByItsPages }
    ensures in_map { PagesAreThere }
    ensures one_list { StandsForOneList }
    ensures ascend { LivesAscend }
    ensures empty { EmptyTableStands }
    ensures low { TableIsLow }
    ensures first_lives { EarlierLivesAreFirst }
{}

/// Proves which life of an id is the last one, at first and after each change; it does nothing when it
/// runs. An id is live where its last life is not withdrawn.
pub fn last_life_laws()
    ensures greatest { LastIsGreatest }
    ensures none { NoLastNoLife }
    ensures entered { EnteredIsLast }
    ensures more { EnteredIsMore }
    ensures withdrawn { WithdrawnIsLast }
    ensures in_any_order { LastInAnyOrder }
    ensures withdrawn_in_any_order { WithdrawnInAnyOrder }
{}
