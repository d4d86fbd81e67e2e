//! What the object table tells of ids, for the first refusal of a batch.
ghost use Rattle.std.specs.Prelude.{◌≡◌};
ghost use Rattle.page_warehouse.specs.Ids.{life_told};

use bw_types::{Dated, Tree};
use object_table::{Form, find, find_old};
use page_disk::Disk;
use page_space::Space;
use ports::PageFault;
use session_book::{Life, Seen};

/// The committed table of a space, in its form.
#[derive(Drop)]
pub(crate) struct TableSeen<D: Disk> {
    pub(crate) space: Space<D>,
    pub(crate) form: Form,
    pub(crate) table: Tree,
}

// What the last life of an id says of the id.
fn told(last: Option<Dated>) -> Life
    ensures { result ≡ life_told last }
{
    match last {
        None => Life::Never,
        Some(last) if last.withdrawn == 0 => Life::Live,
        Some(_) => Life::Withdrawn,
    }
}

impl<D: Disk> Seen for TableSeen<D> {
    ghost use Rattle.std.specs.Prelude.{◌≡◌, IsTrue, List, refl};
    ghost use Rattle.bw_types.specs.declared.dated.Dated.{Dated};
    ghost use Rattle.page_warehouse.specs.Ids.{life_told};
    ghost use Rattle.object_table.specs.Lives.{last_life, table_lives};
    ghost use Rattle.object_table.specs.Stands.{TableStands};
    ghost use Rattle.page_space.specs.Shown.{begun_of, disk_of, map_of};

    // The table stands for some lives.
    ghost tells = { λ seen. IsTrue (D.tells (disk_of seen.space)) × ((kept : List Dated) × TableStands seen.form (map_of seen.space) seen.table kept) };

    ghost life_of = { λ seen id. life_told (last_life id (table_lives seen.form (map_of seen.space) seen.table)) };

    ghost faults = { λ seen. D.faults (disk_of seen.space) };

    // A page is damaged only where the table stands for none.
    ghost may_blame = { λ seen page. IsTrue (D.tells (disk_of seen.space)) × ((kept : List Dated) × TableStands seen.form (map_of seen.space) seen.table kept) → ⊥ };

    // The space, the form and the table are as they were.
    ghost stays = { λ old new. (begun_of new.space ≡ begun_of old.space) × (new.form ≡ old.form) × (new.table ≡ old.table) };

    fn life(&mut self, id: u64) -> Result<Life, PageFault> {
        match self.form {
            Form::ByLives => Ok(told(find(&mut self.space, &self.table, id)?)),
            Form::ByIds => Ok(told(find_old(&mut self.space, &self.table, id)?)),
        }
    }

    ghost stays_alone = { λ s. (refl, refl, refl) };

    ghost stays_on = { λ s t u first second. (Prim.cc, Prim.cc, Prim.cc) };
}
