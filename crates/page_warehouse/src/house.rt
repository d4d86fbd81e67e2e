//! The warehouse as the machine of rows and replies sees it.

use crate::committing::Judged;
use crate::state::Warehouse;
use bw_types::{Params, Query, Row};
use dom_index::DomIndex;
use history_laws::accepted_batches_are_lawful;
use page_disk::{Disk, crash_laws};
use session_book::BookFault;
use warehouse::{Committed, House, QueryFault};

impl<D: Disk + Drop, X: DomIndex + Drop> House for Warehouse<D, X> {
    type Device = D;

    ghost use Rattle.page_disk.specs.Image.{Image as DiskImage};
    ghost use Rattle.page_disk.specs.Moment.{Moment, MayBeLeftNow, MayBeLeftSince, clock_of};
    ghost use Rattle.std.specs.Prelude.{List};
    ghost use Rattle.page_warehouse.specs.Costs.{query_cost};
    ghost use Rattle.page_warehouse.specs.Holds.{Holds};
    ghost use Rattle.page_warehouse.specs.Needs.{LacksPages, RisesWithin, batch_need};
    ghost use Rattle.page_warehouse.specs.Shown.{HasNewForm, HoldsHistory, disk_charge, disk_in, params_in};

    ghost Image = { DiskImage };

    ghost Moments = { List Moment };

    ghost params = { λ house. params_in house };

    ghost device = { λ house. disk_in house };

    ghost stands = { λ whole disk params h. HoldsHistory D.Disk X.DomIndex whole disk params h };

    ghost tells = { λ disk. D.tells disk };

    ghost image = { λ disk. D.image disk };

    ghost moments = { λ disk. D.moments disk };

    ghost clock = { clock_of };

    ghost now = { MayBeLeftNow };

    ghost since = { MayBeLeftSince };

    ghost keeps = { λ x params h. Holds X.DomIndex x params h };

    ghost reads = { λ disk. D.reads disk };

    ghost faults = { λ disk. D.faults disk };

    ghost lacks_pages = { λ disk params h rows. LacksPages (D.image disk) params h rows };

    ghost is_current = { λ disk. HasNewForm D.Disk disk };

    ghost charge = { λ disk. disk_charge D.Disk disk };

    ghost need = { batch_need };

    ghost rises_within = { λ disk params h rows after. RisesWithin (D.image disk) params h rows (D.image after) };

    ghost cost = { λ params h query. query_cost X.cost params h query };

    fn params(&self) -> Params {
        Warehouse::params(self)
    }

    fn last(&self) -> u32 {
        Warehouse::last(self)
    }

    fn query(&mut self, query: &Query, version: u32) -> Result<i128, QueryFault> {
        Warehouse::query(self, query, version)
    }

    fn commit(self, rows: &[Row]) -> Committed<Self, D> {
        accepted_batches_are_lawful();
        crash_laws();
        self.is_settled();
        let Judged { house, found } = self.judge(rows);
        match found {
            Ok(refusal) => match refusal {
                None => house.put(rows),
                Some(refusal) => Committed::Refused { house, refusal },
            },
            Err(fault) => match fault {
                BookFault::NoMemory => Committed::NoMemory { house },
                BookFault::Damaged(page) => Committed::Damaged { house, page },
                BookFault::Disk => Committed::Disk {
                    device: house.into_disk(),
                },
            },
        }
    }

    fn into_device(self) -> D {
        self.into_disk()
    }
}
