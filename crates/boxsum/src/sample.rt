//! `sample`: a warehouse that is loaded with rows that are drawn, and the summary of what they are answered.
ghost use Rattle.std.specs.Prelude.{◌≡◌, ◌≢◌, ℕ, ◌+◌, ◌≤◌, ◌++◌, ◌⊎◌, [], true, IsTrue};
ghost use Rattle.std.specs.Int.{int_wrap, w128};
ghost use Rattle.ports.specs.Count.{Rose};
ghost use Rattle.line_reader.specs.Lines.{lines};
ghost use Rattle.csv_rows.specs.Machine.{after, begun, text as text_of};
ghost use Rattle.page_disk.specs.Since.{LeavesOnly};
ghost use Rattle.page_disk.specs.declared.disk.Area.{Area as AreaName};
ghost use Rattle.redo_journal.specs.Settled.{SettlesTo};
ghost use Rattle.page_disk.specs.Image.{PageList};
ghost use Rattle.page_warehouse.specs.Needs.{batch_need, pages_charge};
ghost use Rattle.row_machine.specs.Serving.{lines_need};
ghost use Rattle.page_warehouse.specs.Shown.{HoldsHistory};
ghost use Rattle.ports.specs.Written.{WritesPart};
ghost use Rattle.sample_rows.specs.Generator.{rows};
ghost use Rattle.sample_rows.specs.Summary.{WritesSummary, answers_in as answers_of, sample_params as params_of_sample, summary, summary_with};
ghost use Rattle.boxsum.specs.Ends.{ends_sample};
ghost use Rattle.boxsum.specs.Held.{HoldsBetween, HoldsSurely};
ghost use Rattle.boxsum.specs.Ran.{Samples};
ghost use Rattle.boxsum.specs.Runs.{LacksPagesAmid};
ghost use Rattle.boxsum.specs.Statuses.{status_amid};

use crate::running::{create_on, run_on};
use crate::status::{Ran, Status};
use dom_index::DomIndex;
use page_disk::{Area, Disk};
use ports::{MemSink, MemSource, Sink};
use sample_rows::{answers_in, sample_laws, sample_params, sample_summary, sample_text};
use std::alloc::Global;

/// How many bytes of the rows are handed on at a time.
const PIECE: usize = 65536;

/// Makes a warehouse on a disk that has none, loads the sample, and writes its summary.
pub(crate) fn sample_on<X: DomIndex + Drop, D: Disk + Drop, K: Sink>(
    alloc: Global,
    disk: D,
    start: u64,
    count: u32,
    sink: &mut K,
) -> Ran<D>
    requires { 2 ≤ X.DIMS }
    ensures samples { Samples D.Disk K.Sink X.DomIndex disk sink.old sink.new result start count }
    ensures may_end { IsTrue (ends_sample result.status) }
    ensures write_fault { result.status ≡ Status.WriteFault → Rose (K.faults sink.old) (K.faults sink.new) }
    ensures disk_fault { result.status ≡ Status.DiskFault → Rose (D.faults disk) (D.faults result.disk) }
    ensures tells { D.tells result.disk ≡ D.tells disk }
    ensures faults { D.faults disk ≤ D.faults result.disk }
{
    let Ok(text) = sample_text(alloc, start, count) else {
        return Ran {
            status: Status::NoMemory,
            disk,
        };
    };
    sample_laws();
    let made = create_on::<X, D>(disk, &sample_params());
    match made.status {
        Status::Fine => load::<X, D, K>(alloc, made.disk, text, count, sink),
        _ => made,
    }
}

// Loads rows into the warehouse on the disk, and writes the summary of what they are answered.
fn load<X: DomIndex + Drop, D: Disk + Drop, K: Sink>(
    alloc: Global,
    disk: D,
    text: Vec<u8>,
    count: u32,
    sink: &mut K,
) -> Ran<D>
    ensures may_end { IsTrue (ends_sample result.status) × (result.status ≢ Status.AlreadyThere) }
    ensures fine { HoldsHistory D.Disk X.DomIndex true disk params_of_sample [] → result.status ≡ Status.Fine → IsTrue (K.tells sink.old) →
        IsTrue (K.tells sink.new) × (K.written sink.new ≡ K.written sink.old ++ summary_with count (int_wrap w128 (answers_of (text_of params_of_sample [] text.items)))) }
    ensures kept { HoldsHistory D.Disk X.DomIndex true disk params_of_sample [] → result.status ≡ Status.Fine →
        HoldsSurely D.Disk X.DomIndex params_of_sample (after params_of_sample [] text.items) result.disk }
    ensures part { HoldsHistory D.Disk X.DomIndex true disk params_of_sample [] → IsTrue (K.tells sink.old) → IsTrue (K.tells sink.new) →
        WritesPart (K.written sink.old) (K.written sink.new) (summary_with count (int_wrap w128 (answers_of (text_of params_of_sample [] text.items)))) }
    ensures crashes { HoldsHistory D.Disk X.DomIndex true disk params_of_sample [] →
        LeavesOnly (HoldsBetween X.DomIndex params_of_sample [] (after params_of_sample [] text.items)) (D.moments disk) (D.moments result.disk) }
    ensures silent { result.status ≢ Status.Fine → result.status ≢ Status.WriteFault → sink.new ≡ sink.old }
    ensures form { IsTrue (K.tells sink.old) → IsTrue (K.tells sink.new) → WritesSummary count (K.written sink.old) (K.written sink.new) }
    ensures stays { HoldsHistory D.Disk X.DomIndex true disk params_of_sample [] → result.status ≢ Status.DiskFault →
        IsTrue (D.tells result.disk) × HoldsBetween X.DomIndex params_of_sample [] (after params_of_sample [] text.items) (D.image result.disk) }
    ensures damaged { (area : AreaName) (page : ℕ) → HoldsHistory D.Disk X.DomIndex true disk params_of_sample [] → result.status ≢ Status.Damaged area page }
    ensures limit { (allotted : ℕ) → HoldsHistory D.Disk X.DomIndex true disk params_of_sample [] → result.status ≡ Status.PageLimit allotted →
        LacksPagesAmid X.DomIndex params_of_sample [] text.items (D.image result.disk) allotted }
    ensures enough { (pages : PageList) (allotted : ℕ) → HoldsHistory D.Disk X.DomIndex true disk params_of_sample [] → SettlesTo (D.image disk) pages →
        pages_charge pages + lines_need batch_need params_of_sample 1 (begun []) (lines text.items) ≤ params_of_sample.pages → result.status ≢ Status.PageLimit allotted }
    ensures complete { HoldsHistory D.Disk X.DomIndex true disk params_of_sample [] → (Rose (K.faults sink.old) (K.faults sink.new) → ⊥) →
        result.status ≢ Status.DiskFault → ((allotted : ℕ) → result.status ≢ Status.PageLimit allotted) →
        (result.status ≡ Status.Fine) ⊎ (result.status ≡ Status.NoMemory) }
    ensures write_fault { result.status ≡ Status.WriteFault → Rose (K.faults sink.old) (K.faults sink.new) }
    ensures disk_fault { result.status ≡ Status.DiskFault → Rose (D.faults disk) (D.faults result.disk) }
    ensures tells { D.tells result.disk ≡ D.tells disk }
    ensures faults { D.faults disk ≤ D.faults result.disk }
{
    let mut source = MemSource::new(text, PIECE, Vec::new(alloc));
    let mut replies = MemSink::new(alloc, Vec::new(alloc));
    let ran = run_on::<X, D, MemSource, MemSink>(alloc, disk, &mut source, &mut replies);
    match ran.status {
        Status::Fine => Ran {
            status: put_summary(alloc, count, replies.bytes(), sink),
            disk: ran.disk,
        },
        other => Ran {
            status: amid(other),
            disk: ran.disk,
        },
    }
}

// Writes the summary of what the rows are answered.
fn put_summary<K: Sink>(alloc: Global, count: u32, replies: &[u8], sink: &mut K) -> Status
    ensures may_end { (result ≡ Status.Fine) ⊎ ((result ≡ Status.WriteFault) ⊎ (result ≡ Status.NoMemory)) }
    ensures fine { result ≡ Status.Fine → IsTrue (K.tells sink.old) →
        IsTrue (K.tells sink.new) × (K.written sink.new ≡ K.written sink.old ++ summary_with count (int_wrap w128 (answers_of replies.now))) }
    ensures part { IsTrue (K.tells sink.old) → IsTrue (K.tells sink.new) →
        WritesPart (K.written sink.old) (K.written sink.new) (summary_with count (int_wrap w128 (answers_of replies.now))) }
    ensures silent { result ≡ Status.NoMemory → sink.new ≡ sink.old }
    ensures write_fault { result ≡ Status.WriteFault → Rose (K.faults sink.old) (K.faults sink.new) }
{
    let Ok(summary) = sample_summary(alloc, count, answers_in(replies)) else {
        return Status::NoMemory;
    };
    match sink.put(summary.as_bytes()) {
        Ok(()) => Status::Fine,
        Err(_) => Status::WriteFault,
    }
}

// The status of a sample, by that of the run that loads it. A disk that shows no warehouse where one was just made is damaged. The
// source and the sink lie in memory: what they lack is memory, and the other statuses do not come.
fn amid(status: Status) -> Status
    ensures { result ≡ status_amid status }
{
    match status {
        Status::NoWarehouse => Status::Damaged {
            area: Area::Pages,
            page: 0,
        },
        Status::ReadFault
        | Status::WriteFault
        | Status::InputLimit { .. }
        | Status::Usage
        | Status::AlreadyThere
        | Status::NoVersion { .. } => Status::NoMemory,
        other => other,
    }
}
