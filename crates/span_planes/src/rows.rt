//! Rows that ask for spans, read from lines.
ghost use Rattle.std.specs.Prelude.{◌≡◌, ◌≤◌, IfOk, IfSome, IsTrue};
ghost use Rattle.bw_types.specs.Fits.{IsInRange, query_fits as fits_query};
ghost use Rattle.bw_types.specs.declared.query.Kind.TheVariants.{Sum};
ghost use Rattle.csv_rows.specs.Input.{ends_at as ends_of};
ghost use Rattle.span_planes.specs.SpanRows.{span_of as span_in, span_row};

use crate::SpanRow;
use bw_types::{Kind, Params, Query, query_fits};
use csv_rows::{Fields, NoMemory, RowReader, stored, version};
use std::alloc::Global;

/// Reads a line as a row that asks for a span: `spansum,V1,V2,ql1,qh1,..`.
///
/// None exactly where the line is bad by itself: where it has no fields, another number of them, another word, a field of another form or out of
/// its range, or a low end above its high one.
///
/// What stands in `ahead` changes no answer. Where it begins with the lines that are read next, they are read by the same reader.
pub fn read_span(
    rows: &mut RowReader,
    alloc: Global,
    line: &[u8],
    ahead: &[u8],
    params: &Params,
) -> Result<Option<SpanRow>, NoMemory>
    requires { IsInRange params.now }
    ensures read { IfOk result (λ read. read ≡ span_row params.now line.now) }
    ensures fits { IfOk result (λ read. IfSome read (λ row. IsTrue (fits_query params.now row.query))) }
    ensures sum { IfOk result (λ read. IfSome read (λ row. row.query.kind ≡ Sum)) }
{
    match rows.read_fields(alloc, line, ahead)? {
        None => Ok(None),
        Some(fields) => Ok(span_of(params, &fields)),
    }
}

// What fields spell: the word, the first and the last version, and the ends of the box, dimension by dimension.
fn span_of(params: &Params, fields: &Fields) -> Option<SpanRow>
    requires { IsInRange params.now }
    ensures value { result ≡ span_in params.now fields.now }
    ensures fits { IfSome result (λ row. IsTrue (fits_query params.now row.query)) }
    ensures sum { IfSome result (λ row. row.query.kind ≡ Sum) }
{
    if fields.at(0) != b"spansum".as_slice() {
        return None;
    }
    if fields.len() != 3 + 2 * usize::from(params.dims) {
        return None;
    }
    let first = version(fields.at(1))?;
    let last = version(fields.at(2))?;
    let low = ends_at(params, fields, 3)?;
    let high = ends_at(params, fields, 4)?;
    let query = Query {
        kind: Kind::Sum,
        low,
        high,
    };
    if query_fits(&query, params) {
        Some(SpanRow { first, last, query })
    } else {
        None
    }
}

// The low ends of the box whose first low end is the field at a place, or the high ends from one place further on.
fn ends_at(params: &Params, fields: &Fields, place: usize) -> Option<[u32; 3]>
    requires in_range { IsInRange params.now }
    requires near { place ≤ 4 }
    ensures { result ≡ ends_of params.now fields.now place }
{
    let mut ends = [0; 3];
    for i in 0..usize::from(params.dims) {
        ends[i] = stored(params, fields.at(place + 2 * i))?;
    }
    Some(ends)
}
