//! What an object table tells of ids.
ghost use Rattle.page_warehouse.specs.Ids.{LivesEndWithTheGreatest, TableTellsIds};

use history_laws::last_lives_tell;
use object_table::{last_life_laws, table_laws};

/// The lives of a history end with the greatest of each id. So a table that keeps them tells of each id, by its last
/// life, whether it was added and whether it is live.
pub fn table_tells_ids()
    ensures greatest { LivesEndWithTheGreatest }
    ensures ids { TableTellsIds }
{
    table_laws();
    last_life_laws();
    last_lives_tell();
}
