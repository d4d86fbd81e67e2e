//! `export`: the history of the warehouse on a disk, as rows that rebuild it.
ghost use Rattle.std.specs.Prelude.{◌≡◌, ◌≢◌, ℕ, ◌≤◌, ◌++◌, ◌⊎◌, true, IsTrue};
ghost use Rattle.ports.specs.Count.{Rose};
ghost use Rattle.bw_types.specs.History.{History};
ghost use Rattle.history_text.specs.Rebuilt.{Rebuilds};
ghost use Rattle.history_text.specs.Rows.{rows_of};
ghost use Rattle.page_disk.specs.declared.disk.Area.{Area as AreaName};
ghost use Rattle.page_warehouse.specs.Shown.{HasNewForm, HoldsHistory, disk_charge, disk_in, meta_in, params_in};
ghost use Rattle.ports.specs.Written.{WritesPart};
ghost use Rattle.warehouse.specs.Left.{IsAsBefore};
ghost use Rattle.boxsum.specs.Ends.{ends_export};
ghost use Rattle.boxsum.specs.Ran.{Exports, PrintsSome};

use crate::status::{Ran, Status};
use dom_index::DomIndex;
use history_text::{rows_rebuild, write_history};
use page_disk::Disk;
use page_space::holds_one;
use page_warehouse::{Warehouse, gather, holding_laws};
use ports::Sink;
use redo_journal::settling_laws;
use std::alloc::Global;

/// Opens the warehouse on the disk and prints the rows that rebuild its history.
pub(crate) fn export_on<X: DomIndex + Drop, D: Disk + Drop, K: Sink>(
    alloc: Global,
    disk: D,
    sink: &mut K,
) -> Ran<D>
    ensures exports { Exports D.Disk K.Sink X.DomIndex disk sink.old sink.new result }
    ensures may_end { IsTrue (ends_export result.status) }
    ensures write_fault { result.status ≡ Status.WriteFault → Rose (K.faults sink.old) (K.faults sink.new) }
    ensures disk_fault { result.status ≡ Status.DiskFault → Rose (D.faults disk) (D.faults result.disk) }
    ensures tells { D.tells result.disk ≡ D.tells disk }
    ensures faults { D.faults disk ≤ D.faults result.disk }
{
    settling_laws();
    holds_one();
    holding_laws::<X>();
    let mut house = match Warehouse::<D, X>::open_on(alloc, disk) {
        Ok(house) => house,
        Err(refused) => {
            return Ran {
                status: Status::from(refused.fault),
                disk: refused.disk,
            };
        }
    };
    let status = put_rows::<X, D, K>(alloc, &mut house, sink);
    Ran {
        status,
        disk: house.into_disk(),
    }
}

// Puts the rows that rebuild the history of the warehouse, once all of it is gathered.
fn put_rows<X: DomIndex + Drop, D: Disk + Drop, K: Sink>(
    alloc: Global,
    house: &mut Warehouse<D, X>,
    sink: &mut K,
) -> Status
    ensures fine { (h : History) → HoldsHistory D.Disk X.DomIndex true (disk_in house.old) (params_in house.old) h → result ≡ Status.Fine → IsTrue (K.tells sink.old)
        → IsTrue (K.tells sink.new) × (K.written sink.new ≡ K.written sink.old ++ rows_of (params_in house.old) h) }
    ensures rebuilds { (h : History) → HoldsHistory D.Disk X.DomIndex true (disk_in house.old) (params_in house.old) h → result ≡ Status.Fine → Rebuilds (params_in house.old) h }
    // Whatever the disk holds.
    ensures some { PrintsSome K.Sink sink.old sink.new result (params_in house.old) (meta_in house.old) }
    ensures part { (h : History) → HoldsHistory D.Disk X.DomIndex true (disk_in house.old) (params_in house.old) h → IsTrue (K.tells sink.old) → IsTrue (K.tells sink.new)
        → WritesPart (K.written sink.old) (K.written sink.new) (rows_of (params_in house.old) h) }
    ensures silent { result ≢ Status.Fine → result ≢ Status.WriteFault → sink.new ≡ sink.old }
    ensures kept { IsAsBefore params_in disk_in (HoldsHistory D.Disk X.DomIndex) (HasNewForm D.Disk) D.tells D.image D.moments (disk_charge D.Disk) house.old house.new }
    ensures pages { (page : ℕ) → result ≢ Status.Damaged AreaName.Journal page }
    ensures undamaged { (h : History) (area : AreaName) (page : ℕ) → HoldsHistory D.Disk X.DomIndex true (disk_in house.old) (params_in house.old) h → result ≢ Status.Damaged area page }
    ensures may_end { IsTrue (ends_export result) × (result ≢ Status.NoWarehouse) }
    ensures write_fault { result ≡ Status.WriteFault → Rose (K.faults sink.old) (K.faults sink.new) }
    ensures disk_fault { result ≡ Status.DiskFault → Rose (D.faults (disk_in house.old)) (D.faults (disk_in house.new)) }
    ensures faults { D.faults (disk_in house.old) ≤ D.faults (disk_in house.new) }
{
    rows_rebuild();
    let params = house.params();
    let last = house.last();
    let events = match gather(alloc, house) {
        Ok(events) => events,
        Err(fault) => return Status::from(fault),
    };
    match write_history(&params, &events, last, sink) {
        Ok(()) => Status::Fine,
        Err(_) => Status::WriteFault,
    }
}
