//! The desk of grids: it answers rows that ask for grids, line by line.
ghost use Rattle.std.specs.Prelude.{◌≡◌, ◌≢◌, ◌+◌, ◌≤◌, ◌++◌, ℕ, false, Err, IfErr, IsTrue, OnErr, OnOk, Some};
ghost use Rattle.bw_types.specs.History.{History};
ghost use Rattle.ports.specs.Count.{Rose};
ghost use Rattle.csv_rows.specs.Replies.{reply_text};
ghost use Rattle.warehouse.specs.Left.{IsAsBefore};
ghost use Rattle.page_warehouse.specs.Shown.{HasNewForm, HoldsHistory, disk_charge, disk_in, params_in};
ghost use Rattle.grid_report.specs.Desk.{house_of};
ghost use Rattle.grid_report.specs.GridCosts.{row_cost};
ghost use Rattle.grid_report.specs.GridReplies.{replies_to_row};
ghost use Rattle.grid_report.specs.Grids.{grid_fits};

use crate::replies::put_grid;
use crate::{GridFault, GridRow, grid, read_grid};
use csv_rows::{Reply, RowReader};
use dom_index::DomIndex;
use page_disk::Disk;
use page_warehouse::Warehouse;
use row_machine::{RespondFault, Responder};
use std::alloc::Global;

/// A warehouse, and where its rows are read.
#[derive(Drop)]
pub struct GridDesk<D: Disk, X: DomIndex> {
    pub(crate) house: Warehouse<D, X>,
    pub(crate) rows: RowReader,
}

impl<D: Disk, X: DomIndex> GridDesk<D, X> {
    ghost use Rattle.grid_report.specs.Desk.{house_of};

    /// The desk over a warehouse.
    pub fn new(alloc: Global, house: Warehouse<D, X>) -> GridDesk<D, X>
        ensures { house_of result ≡ house }
    {
        GridDesk {
            house,
            rows: RowReader::new(alloc),
        }
    }

    /// Gives back the warehouse.
    pub fn into_house(self) -> Warehouse<D, X>
        ensures { result ≡ house_of self }
    {
        let GridDesk { house, rows: _ } = self;
        house
    }
}

impl<D: Disk, X: DomIndex> Responder for GridDesk<D, X> {
    ghost use Rattle.page_warehouse.specs.Shown.{disk_in};
    ghost use Rattle.grid_report.specs.Desk.{HouseIsAsBefore, StandsFor, Told, house_of};
    ghost use Rattle.grid_report.specs.GridCosts.{grid_line_cost};
    ghost use Rattle.grid_report.specs.GridReplies.{grid_replies};

    ghost Facts = { Told };

    ghost stands = { λ desk told. StandsFor D.Disk X.DomIndex desk told };

    ghost reply = { λ told number line. grid_replies told.params told.history number line };

    ghost cost = { λ told line. grid_line_cost X.cost told.params told.history line };

    ghost reads = { λ desk. D.reads (disk_in (house_of desk)) };

    ghost faults = { λ desk. D.faults (disk_in (house_of desk)) };

    ghost as_before = { λ old new. HouseIsAsBefore D.Disk X.DomIndex old new };

    fn respond(
        &mut self,
        alloc: Global,
        number: u64,
        line: &[u8],
        ahead: &[u8],
        replies: &mut Vec<u8>,
    ) -> Result<(), RespondFault> {
        let params = self.house.params();
        let Ok(row) = read_grid(&mut self.rows, alloc, line, ahead, &params) else {
            return Err(RespondFault::NoMemory);
        };
        match row {
            None => put_reply(alloc, Reply::Bad { line: number }, replies),
            Some(row) => answer_row(alloc, &mut self.house, number, &row, replies),
        }
    }

    fn respond_laws() {}
}

// Puts the replies to a row, which stands in the line with this number, behind those that are there.
fn answer_row<D: Disk, X: DomIndex>(
    alloc: Global,
    house: &mut Warehouse<D, X>,
    number: u64,
    row: &GridRow,
    replies: &mut Vec<u8>,
) -> Result<(), RespondFault>
    requires { IsTrue (grid_fits (params_in house.old) row.now.grid) }
    ensures replies { OnOk result ((h : History) → HoldsHistory D.Disk X.DomIndex false (disk_in house.old) (params_in house.old) h
        → replies.new.items ≡ replies.old.items ++ replies_to_row (params_in house.old) h number (Some row.now)) }
    ensures unsaid { OnErr result (replies.new.items ≡ replies.old.items) }
    ensures kept { IsAsBefore params_in disk_in (HoldsHistory D.Disk X.DomIndex) (HasNewForm D.Disk) D.tells D.image D.moments (disk_charge D.Disk) house.old house.new }
    ensures sound { (h : History) (page : ℕ) → HoldsHistory D.Disk X.DomIndex false (disk_in house.old) (params_in house.old) h
        → result ≢ Err (RespondFault.Damaged page) }
    ensures reads { (h : History) → HoldsHistory D.Disk X.DomIndex false (disk_in house.old) (params_in house.old) h
        → D.reads (disk_in house.new) ≤ D.reads (disk_in house.old) + row_cost X.cost (params_in house.old) h (Some row.now) }
    ensures disk { result ≡ Err RespondFault.Disk → Rose (D.faults (disk_in house.old)) (D.faults (disk_in house.new)) }
    ensures faults { D.faults (disk_in house.old) ≤ D.faults (disk_in house.new) }
{
    let params = house.params();
    let version = row.version.unwrap_or(house.last());
    match grid(alloc, house, &row.grid, version) {
        Ok(values) => match put_grid(alloc, &params, &row.grid, version, &values, replies) {
            Ok(()) => Ok(()),
            Err(_) => Err(RespondFault::NoMemory),
        },
        Err(GridFault::NoVersion(_)) => {
            put_reply(alloc, Reply::NoVersion { line: number }, replies)
        }
        Err(GridFault::Disk) => Err(RespondFault::Disk),
        Err(GridFault::Damaged(page)) => Err(RespondFault::Damaged(page)),
        Err(GridFault::NoMemory) => Err(RespondFault::NoMemory),
    }
}

// Puts a reply of one line behind those that are there.
fn put_reply(alloc: Global, reply: Reply, replies: &mut Vec<u8>) -> Result<(), RespondFault>
    ensures put { OnOk result (replies.new.items ≡ replies.old.items ++ reply_text reply) }
    ensures unsaid { OnErr result (replies.new.items ≡ replies.old.items) }
    ensures memory { IfErr result (λ fault. fault ≡ RespondFault.NoMemory) }
{
    let Ok(text) = format!(in alloc; "{reply}") else {
        return Err(RespondFault::NoMemory);
    };
    match replies.extend_from_slice(text.as_bytes()) {
        Ok(()) => Ok(()),
        Err(_) => Err(RespondFault::NoMemory),
    }
}
