//! What the rows of a history make.
ghost use Rattle.history_text.specs.Rebuilt.{RowsRebuild};

use history_laws::staging_changes_no_refusal;

/// Proves that the rows of a lawful history, read by a new warehouse with the same params, make this history, and that each commit
/// is replied with its version; it does nothing when it runs.
pub fn rows_rebuild()
    ensures { RowsRebuild }
{
    staging_changes_no_refusal();
}
