//! The history that a table of lives tells.
ghost use Rattle.history_laws.specs.Telling.{LivesNameChanges, OneHistoryIsTold, TableTellsHistory};

use crate::{lives_are_alone, staging_changes_no_refusal};

/// The lives of a lawful history, in any order, tell that history, up to its last version. So no two lawful
/// histories with the same last version have the same lives.
pub fn table_tells_history()
    ensures told { TableTellsHistory }
    ensures one { OneHistoryIsTold }
{
    lives_are_alone();
    staging_changes_no_refusal();
}

/// The lives of a lawful history name its changes: by event number, these are its adds and withdrawals with
/// their versions.
pub fn lives_name_changes()
    ensures named { LivesNameChanges }
{
    lives_are_alone();
    staging_changes_no_refusal();
}
