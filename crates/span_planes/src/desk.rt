//! The desk of spans: it answers rows that ask for spans, line by line.
ghost use Rattle.std.specs.Prelude.{◌≡◌, ◌≢◌, ◌+◌, ◌≤◌, ◌++◌, ℕ, true, codes, Err, IfErr, OnErr, OnOk, Some};
ghost use Rattle.std.specs.Fmt.{decimal, signed_decimal};
ghost use Rattle.bw_types.specs.Fits.{ends_fit};
ghost use Rattle.bw_types.specs.History.{History};
ghost use Rattle.bw_types.specs.declared.params.Params.{Params};
ghost use Rattle.bw_types.specs.declared.query.Kind.TheVariants.{Sum};
ghost use Rattle.ports.specs.Count.{Rose};
ghost use Rattle.csv_rows.specs.Replies.{reply_text};
ghost use Rattle.span_planes.specs.Asked.{AreAsBefore};
ghost use Rattle.span_planes.specs.Shown.{HoldsSpans, disk_in, params_in};
ghost use Rattle.span_planes.specs.SpanRows.{reply_to_row, row_cost};

use crate::rows::read_span;
use crate::{SpanRow, Spans};
use csv_rows::{Reply, RowReader};
use dom_index::DomIndex;
use page_disk::Disk;
use row_machine::{RespondFault, Responder};
use std::alloc::Global;
use warehouse::QueryFault;

/// Spans, and where their rows are read.
#[derive(Drop)]
pub struct SpanDesk<E: Disk, X: DomIndex> {
    pub(crate) spans: Spans<E, X>,
    pub(crate) rows: RowReader,
}

impl<E: Disk, X: DomIndex> SpanDesk<E, X> {
    ghost use Rattle.span_planes.specs.Desk.{spans_of};

    /// The desk over spans.
    pub fn new(alloc: Global, spans: Spans<E, X>) -> SpanDesk<E, X>
        ensures { spans_of result ≡ spans }
    {
        SpanDesk {
            spans,
            rows: RowReader::new(alloc),
        }
    }

    /// Gives back the spans.
    pub fn into_spans(self) -> Spans<E, X>
        ensures { result ≡ spans_of self }
    {
        let SpanDesk { spans, rows: _ } = self;
        spans
    }
}

impl<E: Disk, X: DomIndex> Responder for SpanDesk<E, X> {
    ghost use Rattle.span_planes.specs.Shown.{disk_in};
    ghost use Rattle.span_planes.specs.Desk.{SpansAreAsBefore, StandsFor, Told, spans_of};
    ghost use Rattle.span_planes.specs.SpanRows.{span_line_cost, span_reply};

    ghost Facts = { Told };

    ghost stands = { λ desk told. StandsFor E.Disk X.DomIndex desk told };

    ghost reply = { λ told number line. span_reply told.params told.history number line };

    ghost cost = { λ told line. span_line_cost X.cost told.params told.history line };

    ghost reads = { λ desk. E.reads (disk_in (spans_of desk)) };

    ghost faults = { λ desk. E.faults (disk_in (spans_of desk)) };

    ghost as_before = { λ old new. SpansAreAsBefore E.Disk X.DomIndex old new };

    fn respond(
        &mut self,
        alloc: Global,
        number: u64,
        line: &[u8],
        ahead: &[u8],
        replies: &mut Vec<u8>,
    ) -> Result<(), RespondFault> {
        let params = self.spans.params();
        let Ok(row) = read_span(&mut self.rows, alloc, line, ahead, &params) else {
            return Err(RespondFault::NoMemory);
        };
        match row {
            None => put_reply(alloc, Reply::Bad { line: number }, replies),
            Some(row) => answer_row(alloc, &mut self.spans, number, &row, replies),
        }
    }

    fn respond_laws() {}
}

// Puts the reply to a row, which stands in the line with this number, behind those that are there.
fn answer_row<E: Disk, X: DomIndex>(
    alloc: Global,
    spans: &mut Spans<E, X>,
    number: u64,
    row: &SpanRow,
    replies: &mut Vec<u8>,
) -> Result<(), RespondFault>
    requires ends { ends_fit (params_in spans.old) row.now.query.low row.now.query.high ≡ true }
    requires sum { row.now.query.kind ≡ Sum }
    ensures replies { OnOk result ((params : Params) (h : History) → HoldsSpans E.Disk X.DomIndex (disk_in spans.old) params h
        → replies.new.items ≡ replies.old.items ++ reply_to_row params h number (Some row.now)) }
    ensures unsaid { OnErr result (replies.new.items ≡ replies.old.items) }
    ensures kept { AreAsBefore E.Disk X.DomIndex spans.old spans.new }
    ensures sound { (params : Params) (h : History) (page : ℕ) → HoldsSpans E.Disk X.DomIndex (disk_in spans.old) params h
        → result ≢ Err (RespondFault.Damaged page) }
    ensures reads { (params : Params) (h : History) → HoldsSpans E.Disk X.DomIndex (disk_in spans.old) params h
        → E.reads (disk_in spans.new) ≤ E.reads (disk_in spans.old) + row_cost X.cost params h (Some row.now) }
    ensures disk { result ≡ Err RespondFault.Disk → Rose (E.faults (disk_in spans.old)) (E.faults (disk_in spans.new)) }
    ensures faults { E.faults (disk_in spans.old) ≤ E.faults (disk_in spans.new) }
{
    let newest = spans.last();
    let first = row.first.unwrap_or(newest);
    let last = row.last.unwrap_or(newest);
    // That a version is not there comes before that the first is above the last.
    let there = (first <= newest) & (last <= newest);
    if !there {
        return put_reply(alloc, Reply::NoVersion { line: number }, replies);
    }
    if first > last {
        return put_reply(alloc, Reply::Bad { line: number }, replies);
    }
    match spans.query(&row.query, first, last) {
        Ok(value) => put_span(alloc, first, last, value, replies),
        Err(QueryFault::Disk) => Err(RespondFault::Disk),
        Err(QueryFault::Damaged(page)) => Err(RespondFault::Damaged(page)),
        // The last version is there.
        Err(QueryFault::NoVersion(_)) => unreachable!(),
    }
}

// Puts the line of a span behind the replies that are there.
fn put_span(
    alloc: Global,
    first: u32,
    last: u32,
    value: i128,
    replies: &mut Vec<u8>,
) -> Result<(), RespondFault>
    ensures put { OnOk result (replies.new.items ≡ replies.old.items
        ++ (codes "spansum," ++ decimal first ++ codes "," ++ decimal last ++ codes "," ++ signed_decimal value ++ codes "\n")) }
    ensures unsaid { OnErr result (replies.new.items ≡ replies.old.items) }
    ensures memory { IfErr result (λ fault. fault ≡ RespondFault.NoMemory) }
{
    let Ok(text) = format!(in alloc; "spansum,{first},{last},{value}\n") else {
        return Err(RespondFault::NoMemory);
    };
    match replies.extend_from_slice(text.as_bytes()) {
        Ok(()) => Ok(()),
        Err(_) => Err(RespondFault::NoMemory),
    }
}

// Puts a reply of one line behind those that are there.
fn put_reply(alloc: Global, reply: Reply, replies: &mut Vec<u8>) -> Result<(), RespondFault>
    ensures put { OnOk result (replies.new.items ≡ replies.old.items ++ reply_text reply) }
    ensures unsaid { OnErr result (replies.new.items ≡ replies.old.items) }
    ensures memory { IfErr result (λ fault. fault ≡ RespondFault.NoMemory) }
{
    let Ok(text) = format!(in alloc; "{reply}") else {
        return Err(RespondFault::NoMemory);
    };
    match replies.extend_from_slice(text.as_bytes()) {
        Ok(()) => Ok(()),
        Err(_) => Err(RespondFault::NoMemory),
    }
}
