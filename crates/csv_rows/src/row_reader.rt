// One reader of `csv` for many lines.

ghost use Rattle.std.specs.Prelude.{◌≡◌, ◌∷◌, ◌++◌, [], IfOk, OnOk, IsTrue, List, ℕ, Some, is_some};
ghost use Rattle.csv.specs.Reading.{strip_bom};
ghost use Rattle.csv.specs.Records.{fields_of};
ghost use Rattle.csv_rows.specs.Fields.{line_fields};
ghost use Rattle.csv_rows.specs.Feed.{BeginsWithLine, Stands};
ghost use Rattle.std.specs.Io.Cursor.{cursor_remaining};

use crate::fields::{NoMemory, has_fields};
use csv::{ByteRecord, Reader, ReaderBuilder};
use std::alloc::Global;
use std::io::Cursor;
use std::marker::Model;

/// Reads rows by one reader of `csv` over the lines that are at hand: contracts see the text that it
/// is still to read.
#[derive(Drop)]
pub struct RowReader {
    reader: Reader<Cursor<Vec<u8>>>,
    // What the reader reads, and how much of it was read.
    text: Vec<u8>,
    at: usize,
}

impl Model for RowReader {
    ghost use Rattle.std.specs.Prelude.{◌≤◌, List, ℕ, Some, drop, length};
    ghost use Rattle.std.specs.Io.Cursor.{cursor_remaining};
    ghost use Rattle.csv_rows.specs.Feed.{Stands};

    ghost Value = { List ℕ };

    ghost view = { λ r. drop r.at r.text.items };

    ghost invariant = { λ r. (r.at ≤ length r.text.items) × Stands (cursor_remaining (λ v. Some v.items)) r.reader (drop r.at r.text.items) };
}

// Puts a line behind a comma, and a line feed behind it.
fn push_line(text: &mut Vec<u8>, line: &[u8]) -> Result<(), NoMemory>
    ensures { OnOk result (text.new.items ≡ text.old.items ++ 44 ∷ line.now ++ 10 ∷ []) }
{
    text.extend_from_slice(b",")?;
    text.extend_from_slice(line)?;
    text.extend_from_slice(b"\n")?;
    Ok(())
}

// A line, and then those of the lines that some bytes hold which have fields: a line without fields
// is not read.
fn text_of(alloc: Global, line: &[u8], ahead: &[u8]) -> Result<Vec<u8>, NoMemory>
    ensures { IfOk result (λ text. BeginsWithLine text.items line.now) }
{
    let mut text = Vec::with_capacity(alloc, ahead.len().saturating_mul(2))?;
    push_line(&mut text, line)?;
    for next in ahead.split(|byte| *byte == b'\n') {
        let next = next.strip_suffix(b"\r").unwrap_or(next);
        if has_fields(next) {
            push_line(&mut text, next)?;
        }
    }
    Ok(text)
}

// A reader of `csv` at the front of a text.
fn reader_of(alloc: Global, text: Vec<u8>) -> Reader<Cursor<Vec<u8>>>
    requires { strip_bom text.items ≡ text.items }
    ensures { Stands (cursor_remaining (λ v. Some v.items)) result text.items }
{
    ReaderBuilder::new()
        .has_headers(false)
        .flexible(true)
        .from_reader(alloc, Cursor::new(text))
}

// Has a reader of `csv` read nothing any more. It stands apart, since a function pays at its entry
// for a reader among its locals.
#[cold]
#[inline(never)]
fn start_anew(reader: &mut Reader<Cursor<Vec<u8>>>, alloc: Global)
    ensures { Stands (cursor_remaining (λ v. Some v.items)) reader.new [] }
{
    *reader = reader_of(alloc, Vec::new(alloc));
}

impl RowReader {
    // A reader of a text, of which there are two copies.
    fn over(alloc: Global, text: Vec<u8>, copy: Vec<u8>) -> RowReader
        requires same { copy.items ≡ text.items }
        requires no_mark { strip_bom text.items ≡ text.items }
        ensures { result ≡ text.items }
    {
        let reader = reader_of(alloc, copy);
        RowReader {
            reader,
            text,
            at: 0,
        }
    }

    /// A reader with no line at hand.
    pub fn new(alloc: Global) -> RowReader
        ensures { result ≡ [] }
    {
        RowReader::over(alloc, Vec::new(alloc), Vec::new(alloc))
    }

    // Whether this line comes next.
    fn is_next(&self, line: &[u8]) -> bool
        ensures { IsTrue result → BeginsWithLine self.now line.now }
    {
        let Some(behind) = self.text.as_slice()[self.at..].strip_prefix(b",".as_slice()) else {
            return false;
        };
        let Some(after) = behind.strip_prefix(line) else {
            return false;
        };
        after.starts_with(b"\n")
    }

    // Has a line come next, and then the lines that some bytes hold.
    #[cold]
    #[inline(never)]
    fn refill(&mut self, alloc: Global, line: &[u8], ahead: &[u8]) -> Result<(), NoMemory>
        ensures { OnOk result (BeginsWithLine self.new line.now) }
    {
        let text = text_of(alloc, line, ahead)?;
        let copy = text.clone()?;
        *self = RowReader::over(alloc, text, copy);
        Ok(())
    }

    // Has a line come next.
    fn seek(&mut self, alloc: Global, line: &[u8], ahead: &[u8]) -> Result<(), NoMemory>
        ensures { OnOk result (BeginsWithLine self.new line.now) }
    {
        if self.is_next(line) {
            return Ok(());
        }
        self.refill(alloc, line, ahead)
    }

    // An empty field and then the fields of the line that comes next, as `csv` reads them.
    fn take(&mut self, alloc: Global, line: &[u8]) -> Result<ByteRecord, NoMemory>
        requires next { BeginsWithLine self.old line.now }
        requires whole { IsTrue (is_some (line_fields line.now)) }
        ensures { IfOk result (λ row. (contents : List (List ℕ)) → line_fields line.now ≡ Some contents → fields_of row ≡ [] ∷ contents) }
    {
        let mut record = ByteRecord::with_capacity(alloc, line.len(), 16)?;
        if let Ok(true) = self.reader.read_byte_record(&mut record) {
            self.at += line.len() + 2;
            return Ok(record);
        }
        start_anew(&mut self.reader, alloc);
        self.text.clear();
        self.at = 0;
        Err(NoMemory)
    }

    /// An empty field and then the fields of a line that has fields, as `csv` reads them. What stands
    /// in `ahead` changes no answer: where the lines that come next stand there, they are read by the
    /// same reader.
    pub(crate) fn record_of(
        &mut self,
        alloc: Global,
        line: &[u8],
        ahead: &[u8],
    ) -> Result<ByteRecord, NoMemory>
        requires { IsTrue (is_some (line_fields line.now)) }
        ensures { IfOk result (λ row. (contents : List (List ℕ)) → line_fields line.now ≡ Some contents → fields_of row ≡ [] ∷ contents) }
    {
        self.seek(alloc, line, ahead)?;
        self.take(alloc, line)
    }
}
