//! `report`: the grids that lines ask for, of the warehouse on a disk.
ghost use Rattle.std.specs.Prelude.{◌≡◌, ◌≢◌, ◌+◌, ◌<◌, ◌≤◌, ◌^◌, ℕ, false, IsTrue, [], length};
ghost use Rattle.ports.specs.Count.{Rose};
ghost use Rattle.bw_types.specs.History.{History};
ghost use Rattle.grid_report.specs.GridCosts.{grid_line_cost};
ghost use Rattle.grid_report.specs.GridReplies.{grid_replies};
ghost use Rattle.page_warehouse.specs.Shown.{HasNewForm, HoldsHistory, disk_charge, disk_in, params_in};
ghost use Rattle.row_machine.specs.Answering.{AnswersLines};
ghost use Rattle.row_machine.specs.Serving.{IsFlushed};
ghost use Rattle.warehouse.specs.Left.{IsAsBefore};
ghost use Rattle.boxsum.specs.Ends.{ends_report};
ghost use Rattle.boxsum.specs.Ran.{HasCause, ReportRan};

use crate::status::{Ran, Status};
use dom_index::DomIndex;
use grid_report::GridDesk;
use page_disk::Disk;
use page_space::holds_one;
use page_warehouse::{Warehouse, holding_laws};
use ports::{Sink, Source};
use redo_journal::settling_laws;
use row_machine::{Ending, answer_lines};
use std::alloc::Global;

/// Opens the warehouse on the disk and answers the grids that the lines of the source ask for.
pub(crate) fn report_on<X: DomIndex + Drop, D: Disk + Drop, S: Source, K: Sink>(
    alloc: Global,
    disk: D,
    source: &mut S,
    sink: &mut K,
) -> Ran<D>
    ensures ran { ReportRan D.Disk S.Source K.Sink X.DomIndex disk source.old source.new sink.old sink.new result }
    ensures may_end { IsTrue (ends_report result.status) }
    ensures causes { HasCause D.Disk S.Source K.Sink X.DomIndex disk source.old source.new sink.old sink.new result }
    ensures tells { D.tells result.disk ≡ D.tells disk }
    ensures faults { D.faults disk ≤ D.faults result.disk }
{
    settling_laws();
    holds_one();
    holding_laws::<X>();
    let house = match Warehouse::<D, X>::open_on(alloc, disk) {
        Ok(house) => house,
        Err(refused) => {
            return Ran {
                status: Status::from(refused.fault),
                disk: refused.disk,
            };
        }
    };
    let answered = answer_grids(alloc, house, source, sink);
    Ran {
        status: Status::from(answered.ending),
        disk: answered.house.into_disk(),
    }
}

// How the lines were answered, and the warehouse.
#[derive(Drop)]
struct Answered<D: Disk, X: DomIndex> {
    ending: Ending,
    house: Warehouse<D, X>,
}

// Answers the lines of the source from a warehouse.
fn answer_grids<X: DomIndex + Drop, D: Disk + Drop, S: Source, K: Sink>(
    alloc: Global,
    house: Warehouse<D, X>,
    source: &mut S,
    sink: &mut K,
) -> Answered<D, X>
    ensures answers { IsTrue (S.tells source.old) → (h : History) → HoldsHistory D.Disk X.DomIndex false (disk_in house) (params_in house) h
        → AnswersLines (grid_replies (params_in house) h) (grid_line_cost X.cost (params_in house) h) (K.tells sink.old) (K.tells sink.new) (S.tells source.new)
        (S.left source.old) (S.left source.new) result.ending (K.written sink.old) (K.written sink.new) (D.reads (disk_in house)) (D.reads (disk_in result.house)) }
    ensures kept { IsAsBefore params_in disk_in (HoldsHistory D.Disk X.DomIndex) (HasNewForm D.Disk) D.tells D.image D.moments (disk_charge D.Disk) house result.house }
    ensures sound { (h : History) (page : ℕ) → HoldsHistory D.Disk X.DomIndex false (disk_in house) (params_in house) h → result.ending ≢ Ending.Damaged page }
    ensures at_end { result.ending ≡ Ending.Fine → IsTrue (S.tells source.old) → (S.left source.new ≡ []) × (length (S.left source.old) < 2 ^ 40) }
    ensures tells { IsFlushed result.ending → IsTrue (K.tells sink.old) → IsTrue (K.tells sink.new) }
    ensures read_fault { result.ending ≡ Ending.ReadFault → Rose (S.faults source.old) (S.faults source.new) }
    ensures write_fault { result.ending ≡ Ending.WriteFault → Rose (K.faults sink.old) (K.faults sink.new) }
    ensures disk_fault { result.ending ≡ Ending.DiskFault → Rose (D.faults (disk_in house)) (D.faults (disk_in result.house)) }
    ensures input_limit { (taken : ℕ) → result.ending ≡ Ending.InputLimit taken → (taken ≡ 2 ^ 40)
        × (IsTrue (S.tells source.old) → length (S.left source.old) ≡ 2 ^ 40 + length (S.left source.new)) }
    ensures no_page { (allotted : ℕ) → result.ending ≢ Ending.PageLimit allotted }
    ensures faults { D.faults (disk_in house) ≤ D.faults (disk_in result.house) }
{
    let mut desk = GridDesk::new(alloc, house);
    let ending = answer_lines(alloc, &mut desk, source, sink);
    Answered {
        ending,
        house: desk.into_house(),
    }
}
