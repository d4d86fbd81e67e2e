// Rows read from lines.

ghost use Rattle.std.specs.Prelude.{◌≡◌, ◌<◌, ◌≤◌, IfOk, IfSome, IsTrue, length};
ghost use Rattle.bw_types.specs.Fits.{IsInRange, object_fits as fits_object};
ghost use Rattle.csv_rows.specs.Input.{InputFits, asked as asked_of, fields_of_line, input, object_of as object_at, row_of as row_in, session_alone, session_and_object, staged_object, staged_withdrawal};
ghost use Rattle.bw_types.specs.declared.params.Params.{Params as Bounds};
ghost use Rattle.bw_types.specs.declared.row.Row.TheVariants as row;

use crate::fields::{Fields, NoMemory, cut};
use crate::input::Input;
use crate::parts::{coefficients_at, ends_at, id, session, version, weight};
use crate::row_reader::RowReader;
use bw_types::{Kind, Object, Params, Query, Row, coefficient_count, object_fits, query_fits};
use line_reader::LONGEST_LINE;
use std::alloc::Global;

// The object of an add or a move.
fn object_of(params: &Params, fields: &Fields) -> Option<Object>
    requires { IsInRange params.now }
    ensures value { result ≡ object_at params.now fields.now }
    ensures fits { IfSome result (λ object. IsTrue (fits_object params.now object)) }
{
    let dims = usize::from(params.dims);
    let object = Object {
        id: id(fields.at(2))?,
        low: ends_at(params, fields, 3)?,
        high: ends_at(params, fields, 4)?,
        weight: weight(fields.at(3 + 2 * dims))?,
        coeffs: coefficients_at(params, fields, 4 + 2 * dims)?,
    };
    if object_fits(&object, params) {
        Some(object)
    } else {
        None
    }
}

// The session and the object of an add or a move.
fn staged(params: &Params, fields: &Fields) -> Option<(u8, Object)>
    requires { IsInRange params.now }
    ensures value { result ≡ session_and_object params.now fields.now }
    ensures fits { IfSome result (λ staged. (1 ≤ staged.0) × (staged.0 ≤ 16) × IsTrue (fits_object params.now staged.1)) }
{
    if fields.len() != 4 + 2 * usize::from(params.dims) + coefficient_count(params) {
        return None;
    }
    let session = session(fields.at(1))?;
    let object = object_of(params, fields)?;
    Some((session, object))
}

// An add.
fn add(params: &Params, fields: &Fields) -> Option<Input>
    requires { IsInRange params.now }
    ensures value { result ≡ staged_object params.now fields.now row.Add }
    ensures fits { IfSome result (InputFits params.now) }
{
    let (session, object) = staged(params, fields)?;
    let row = Row::Add(object);
    Some(Input::Stage { session, row })
}

// A move.
fn relocation(params: &Params, fields: &Fields) -> Option<Input>
    requires { IsInRange params.now }
    ensures value { result ≡ staged_object params.now fields.now row.Move }
    ensures fits { IfSome result (InputFits params.now) }
{
    let (session, object) = staged(params, fields)?;
    let row = Row::Move(object);
    Some(Input::Stage { session, row })
}

// A withdrawal.
fn withdrawal(fields: &Fields) -> Option<Input>
    ensures value { result ≡ staged_withdrawal fields.now }
    ensures fits { (params : Bounds) → IfSome result (InputFits params) }
{
    if fields.len() != 3 {
        return None;
    }
    let session = session(fields.at(1))?;
    let row = Row::Withdraw(id(fields.at(2))?);
    Some(Input::Stage { session, row })
}

// The session of a row that has nothing after it.
fn lone_session(fields: &Fields) -> Option<u8>
    ensures value { result ≡ session_alone fields.now }
    ensures within { IfSome result (λ session. (1 ≤ session) × (session ≤ 16)) }
{
    if fields.len() != 2 {
        return None;
    }
    session(fields.at(1))
}

// A query of a kind.
fn query(params: &Params, fields: &Fields, kind: Kind) -> Option<Input>
    requires { IsInRange params.now }
    ensures value { result ≡ asked_of params.now fields.now kind }
    ensures fits { IfSome result (InputFits params.now) }
{
    if fields.len() != 2 + 2 * usize::from(params.dims) {
        return None;
    }
    let version = version(fields.at(1))?;
    let low = ends_at(params, fields, 2)?;
    let high = ends_at(params, fields, 3)?;
    let query = Query { kind, low, high };
    if query_fits(&query, params) {
        Some(Input::Ask { version, query })
    } else {
        None
    }
}

// What fields spell, the first of them being the row's word.
fn row_of(params: &Params, fields: &Fields) -> Option<Input>
    requires { IsInRange params.now }
    ensures value { result ≡ row_in params.now fields.now }
    ensures fits { IfSome result (InputFits params.now) }
{
    let word = fields.at(0);
    if word == b"add".as_slice() {
        add(params, fields)
    } else if word == b"move".as_slice() {
        relocation(params, fields)
    } else if word == b"withdraw".as_slice() {
        withdrawal(fields)
    } else if word == b"commit".as_slice() {
        let session = lone_session(fields)?;
        Some(Input::Commit { session })
    } else if word == b"drop".as_slice() {
        let session = lone_session(fields)?;
        Some(Input::Drop { session })
    } else if word == b"sum".as_slice() {
        query(params, fields, Kind::Sum)
    } else if word == b"count".as_slice() {
        query(params, fields, Kind::Count)
    } else if word == b"integral".as_slice() {
        query(params, fields, Kind::Integral)
    } else {
        None
    }
}

impl RowReader {
    /// Reads a line as a row of input: what the line spells in a warehouse with these params.
    ///
    /// None exactly where the line is bad: where it is longer than 4096 bytes, holds a carriage return
    /// or a line feed, has a field that is not quoted as a whole, has another number of fields than its
    /// word asks for, an unknown word, a field of another form or out of its range, a low end above its
    /// high one, or asks for an integral in a warehouse without a degree.
    ///
    /// What stands in `ahead` changes no answer. Where it begins with the lines that are read next, they
    /// are read by the same reader of `csv`.
    pub fn read_row(
        &mut self,
        alloc: Global,
        line: &[u8],
        ahead: &[u8],
        params: &Params,
    ) -> Result<Option<Input>, NoMemory>
        requires { IsInRange params.now }
        ensures read { IfOk result (λ read. read ≡ input params.now line.now) }
        // A line that is too long takes no memory.
        ensures long { 4096 < length line.now → result ≡ Ok None }
        ensures fits { IfOk result (λ read. IfSome read (InputFits params.now)) }
    {
        match self.read_fields(alloc, line, ahead)? {
            None => Ok(None),
            Some(fields) => Ok(row_of(params, &fields)),
        }
    }

    /// Cuts a line into its fields. None exactly where it has none: where it is longer than 4096 bytes, holds a carriage return or a line
    /// feed, or has a field that is not quoted as a whole.
    ///
    /// What stands in `ahead` changes no answer, as in [`RowReader::read_row`].
    pub fn read_fields(
        &mut self,
        alloc: Global,
        line: &[u8],
        ahead: &[u8],
    ) -> Result<Option<Fields>, NoMemory>
        ensures fields { IfOk result (λ read. read ≡ fields_of_line line.now) }
        // A line that is too long takes no memory.
        ensures long { 4096 < length line.now → result ≡ Ok None }
    {
        if line.len() > LONGEST_LINE {
            return Ok(None);
        }
        cut(self, alloc, line, ahead)
    }
}
