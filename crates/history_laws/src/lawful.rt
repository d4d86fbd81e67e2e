//! Which histories are lawful.
ghost use Rattle.history_laws.specs.Lawful.{AcceptedRowsAreLawful, LawfulGrows, LawfulBegins, StagingChangesNoRefusal};

/// Rows that fit, at most 4096, and that have no first refusal are a lawful batch of a history.
pub fn accepted_batches_are_lawful()
    ensures { AcceptedRowsAreLawful }
{}

/// A lawful history with a lawful batch put last is lawful, and so is each front of a lawful history.
pub fn histories_grow_by_lawful_batches()
    ensures grows { LawfulGrows }
    ensures begins { LawfulBegins }
{}

/// Adds and withdrawals one by one have no refusal exactly where the rows that stage them have none, a
/// withdrawal and an add of its id that follows it being one row there.
pub fn staging_changes_no_refusal()
    ensures { StagingChangesNoRefusal }
{}
