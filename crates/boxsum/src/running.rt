//! The top call.
ghost use Rattle.std.specs.Prelude.{◌≡◌, ◌≢◌, ◌≤◌, ◌⊎◌, ℕ, Some, IsTrue, map, string_bytes};
ghost use Rattle.command_words.specs.declared.command.Command.{Command as CommandName};
ghost use Rattle.ports.specs.Count.{Rose};
ghost use Rattle.bw_types.specs.declared.params.Params.{Params};
ghost use Rattle.bw_types.specs.Fits.{IsInRange};
ghost use Rattle.page_warehouse.specs.Created.{IsNew};
ghost use Rattle.boxsum.specs.Ends.{ends_run, ends_scratch};
ghost use Rattle.command_words.specs.Command.{command_of};
ghost use Rattle.boxsum.specs.OneDisk.{asks_one_disk, command_on_one};
ghost use Rattle.boxsum.specs.Ran.{AnswersFromNothing, Carried, Compacts, HasCause, HasPortCause, MakesEmpty, RunRan, SpanRunRan, first_of, second_of};
ghost use Rattle.boxsum.specs.Spanning.{Derives};

use crate::checking::check_on;
use crate::compaction::compact_on;
use crate::derivation::spans_on;
use crate::export::export_on;
use crate::index::Index;
use crate::report::report_on;
use crate::sample::sample_on;
use crate::span_run::span_run_on;
use crate::status::{Ran, RanTwo, Status};
use bw_types::Params;
use command_words::{Command, WordsFault, read_words};
use dom_index::DomIndex;
use page_disk::Disk;
use page_space::holds_one;
use page_warehouse::{Created, Warehouse, create, created_holds, holding_laws};
use ports::{Sink, Source};
use redo_journal::settling_laws;
use row_machine::{Desk, ends_laws, machine_laws, serve};
use std::alloc::Global;
use warehouse::ListHouse;

/// Carries out the command that the words ask for, on the disk, over the source and the sink.
///
/// `create` makes an empty warehouse on the disk. `run` opens the warehouse there and answers the rows of the
/// source; `scratch` answers them over a history in memory, which begins empty. `sample` makes a warehouse, loads rows that are
/// drawn, and writes a summary. `report` answers the grids that the lines of the source ask for. `export` prints the rows that rebuild the
/// history of the warehouse on the disk. `check` tells whether the disk holds a history, and if not, which part of it is broken first. What `run`, `scratch` and `report` write is the text that the definitions give for all the bytes
/// that the source has left, cut in whatever pieces; where the run ends early it is a part of that text, from its beginning. The disk goes in by value, and comes back at every end.
/// `compact`, `spans` and `spanrun` need a second disk: here they are no commands.
///
/// What the words ask for, what each command leaves, and with which statuses it may end, is the record `Carried` of specs/Ran.antt.
pub fn run<D: Disk + Drop, S: Source, K: Sink>(
    alloc: Global,
    words: &[String],
    disk: D,
    source: &mut S,
    sink: &mut K,
) -> Ran<D>
    ensures carried { Carried D.Disk S.Source K.Sink ⟦<Index as DomIndex>⟧ disk source.old source.new sink.old sink.new result (command_on_one (map string_bytes words.now)) }
{
    machine_laws();
    match read_words(alloc, words) {
        Ok(Command::Create(params)) => create_on::<Index, D>(disk, &params),
        Ok(Command::Run) => run_on::<Index, D, S, K>(alloc, disk, source, sink),
        Ok(Command::Scratch(params)) => Ran {
            status: scratch_on(alloc, &params, source, sink),
            disk,
        },
        Ok(Command::Sample { start, count }) => {
            sample_on::<Index, D, K>(alloc, disk, start, count, sink)
        }
        Ok(Command::Report) => report_on::<Index, D, S, K>(alloc, disk, source, sink),
        Ok(Command::Export) => export_on::<Index, D, K>(alloc, disk, sink),
        Ok(Command::Check) => check_on::<Index, D, K>(alloc, disk, sink),
        Ok(_) | Err(WordsFault::Usage) => Ran {
            status: Status::Usage,
            disk,
        },
        Err(WordsFault::NoMemory) => Ran {
            status: Status::NoMemory,
            disk,
        },
    }
}

/// Carries out the command that the words ask for where there are two disks.
///
/// `compact` reads the warehouse on the first disk, and writes its history from a version on to the second, which has to be empty; its
/// record is `Compacts` of specs/Ran.antt. `spans` reads the warehouse on the first disk, and writes the spans of all its versions to the
/// second; its record is `Derives` of specs/Spanning.antt. `spanrun` answers the lines of the source from the spans on the second disk, and
/// does not call the first; its record is `SpanRunRan` of specs/Ran.antt. The other commands are those of [`run`]. They work on the first
/// disk and do not call the second.
pub fn run_two<D: Disk + Drop, E: Disk + Drop, S: Source, K: Sink>(
    alloc: Global,
    words: &[String],
    disk: D,
    second: E,
    source: &mut S,
    sink: &mut K,
) -> RanTwo<D, E>
    ensures carried { IsTrue (asks_one_disk (command_of (map string_bytes words.now)))
        → Carried D.Disk S.Source K.Sink ⟦<Index as DomIndex>⟧ disk source.old source.new sink.old sink.new (first_of result) (command_of (map string_bytes words.now))
        × (result.second ≡ second) }
    ensures compacts { (version : ℕ) → command_of (map string_bytes words.now) ≡ Some (CommandName.Compact version)
        → (source.new ≡ source.old) × Compacts D.Disk E.Disk K.Sink ⟦<Index as DomIndex>⟧ disk second sink.old sink.new result version }
    ensures derives { command_of (map string_bytes words.now) ≡ Some CommandName.Spans
        → (source.new ≡ source.old) × Derives D.Disk E.Disk K.Sink ⟦<Index as DomIndex>⟧ disk second sink.old sink.new result }
    ensures span_run { command_of (map string_bytes words.now) ≡ Some CommandName.SpanRun
        → (result.disk ≡ disk) × SpanRunRan E.Disk S.Source K.Sink ⟦<Index as DomIndex>⟧ second source.old source.new sink.old sink.new (second_of result) }
{
    machine_laws();
    match read_words(alloc, words) {
        Ok(Command::Compact { version }) => {
            compact_on::<Index, D, E, K>(alloc, disk, second, version, sink)
        }
        Ok(Command::Spans) => spans_on::<Index, D, E, K>(alloc, disk, second, sink),
        Ok(Command::SpanRun) => {
            let Ran {
                status,
                disk: second,
            } = span_run_on::<Index, E, S, K>(alloc, second, source, sink);
            RanTwo {
                status,
                disk,
                second,
            }
        }
        Err(WordsFault::NoMemory) => RanTwo {
            status: Status::NoMemory,
            disk,
            second,
        },
        Ok(_) | Err(WordsFault::Usage) => {
            let Ran { status, disk } = run(alloc, words, disk, source, sink);
            RanTwo {
                status,
                disk,
                second,
            }
        }
    }
}

// Makes an empty warehouse on a disk that has none.
pub(crate) fn create_on<X: DomIndex, D: Disk + Drop>(disk: D, params: &Params) -> Ran<D>
    requires range { IsInRange params.now }
    requires dims { params.now.dims ≤ X.DIMS }
    ensures makes { MakesEmpty D.Disk disk result X.DomIndex params.now }
    ensures fresh { result.status ≡ Status.Fine → IsTrue (D.tells disk) → IsNew params.now (D.image result.disk) }
    ensures tells { D.tells result.disk ≡ D.tells disk }
    ensures faults { D.faults disk ≤ D.faults result.disk }
    ensures disk_fault { result.status ≡ Status.DiskFault → Rose (D.faults disk) (D.faults result.disk) }
    ensures may_end { (result.status ≡ Status.Fine) ⊎ ((result.status ≡ Status.AlreadyThere) ⊎ (result.status ≡ Status.DiskFault)) }
{
    created_holds::<X>();
    match create(disk, params) {
        Created::Done(disk) => Ran {
            status: Status::Fine,
            disk,
        },
        Created::AlreadyThere(disk) => Ran {
            status: Status::AlreadyThere,
            disk,
        },
        Created::Disk(disk) => Ran {
            status: Status::DiskFault,
            disk,
        },
    }
}

// Opens the warehouse on the disk and answers the rows of the source.
pub(crate) fn run_on<X: DomIndex + Drop, D: Disk + Drop, S: Source, K: Sink>(
    alloc: Global,
    disk: D,
    source: &mut S,
    sink: &mut K,
) -> Ran<D>
    ensures ran { RunRan D.Disk S.Source K.Sink X.DomIndex disk source.old source.new sink.old sink.new result }
    ensures may_end { IsTrue (ends_run result.status) }
    ensures causes { HasCause D.Disk S.Source K.Sink X.DomIndex disk source.old source.new sink.old sink.new result }
    ensures tells { D.tells result.disk ≡ D.tells disk }
    ensures faults { D.faults disk ≤ D.faults result.disk }
{
    ends_laws::<Warehouse<D, X>>();
    machine_laws();
    settling_laws();
    holds_one();
    holding_laws::<X>();
    let house = match Warehouse::<D, X>::open_on(alloc, disk) {
        Ok(house) => house,
        Err(refused) => {
            return Ran {
                status: Status::from(refused.fault),
                disk: refused.disk,
            };
        }
    };
    let desk = Desk::new(alloc, house);
    let ran = serve(alloc, desk, source, sink);
    Ran {
        status: Status::from(ran.ending),
        disk: ran.device,
    }
}

// Answers the rows of the source over a history in memory, which begins empty.
fn scratch_on<S: Source, K: Sink>(
    alloc: Global,
    params: &Params,
    source: &mut S,
    sink: &mut K,
) -> Status
    requires { IsInRange params.now }
    ensures answers { AnswersFromNothing S.Source K.Sink source.old source.new sink.old sink.new result params.now }
    ensures may_end { IsTrue (ends_scratch result) }
    ensures causes { HasPortCause S.Source K.Sink source.old source.new sink.old sink.new result }
{
    ends_laws::<ListHouse>();
    machine_laws();
    let desk = Desk::new(alloc, ListHouse::new(alloc, params));
    Status::from(serve(alloc, desk, source, sink).ending)
}
