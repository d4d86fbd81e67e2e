//! All lives of a history, gathered from the object table.
ghost use Rattle.std.specs.Prelude.{◌≡◌, ◌≢◌, ◌≤◌, ℕ, true, IfOk, Err};
ghost use Rattle.bw_types.specs.History.{History};
ghost use Rattle.bw_types.specs.Lives.{lives};
ghost use Rattle.ports.specs.Count.{Rose};
ghost use Rattle.warehouse.specs.Left.{IsAsBefore};
ghost use Rattle.page_warehouse.specs.Shown.{HasNewForm, HoldsHistory, disk_charge, disk_in, meta_in, params_in};

use crate::gathering::GatherFault;
use crate::laws::tables_keep_lives;
use crate::state::Warehouse;
use bw_types::Dated;
use dom_index::DomIndex;
use page_disk::Disk;
use std::alloc::Global;

/// All lives of the history of a warehouse, in order of adding.
///
/// The warehouse and its disk stay as they were. It takes memory for a list of the lives.
///
/// `Disk` comes only where the count of faults rose, `Damaged` only where the disk holds no history.
pub fn gather_lives<D: Disk, X: DomIndex>(
    alloc: Global,
    house: &mut Warehouse<D, X>,
) -> Result<Vec<Dated>, GatherFault>
    ensures lives { IfOk result (λ found. (h : History) → HoldsHistory D.Disk X.DomIndex true (disk_in house.old) (params_in house.old) h
        → found.items ≡ lives h) }
    ensures kept { IsAsBefore params_in disk_in (HoldsHistory D.Disk X.DomIndex) (HasNewForm D.Disk) D.tells D.image D.moments (disk_charge D.Disk) house.old house.new }
    ensures meta { meta_in house.new ≡ meta_in house.old }
    ensures sound { (h : History) (page : ℕ) → HoldsHistory D.Disk X.DomIndex true (disk_in house.old) (params_in house.old) h
        → result ≢ Err (GatherFault.Damaged page) }
    ensures disk { result ≡ Err GatherFault.Disk → Rose (D.faults (disk_in house.old)) (D.faults (disk_in house.new)) }
    ensures faults { D.faults (disk_in house.old) ≤ D.faults (disk_in house.new) }
{
    tables_keep_lives::<X>();
    let mut found = Vec::new(alloc);
    let mut after = None;
    loop {
        let leaf = house.walk_leaf(after)?;
        let Some(last) = leaf.as_slice().last().copied() else {
            break;
        };
        after = Some((last.object.id, last.life));
        found.extend_from_slice(leaf.as_slice())?;
    }
    found.sort_unstable_by_key(|dated| dated.add_event);
    Ok(found)
}
