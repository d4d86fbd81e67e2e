// A line cut into its fields.

ghost use Rattle.std.specs.Prelude.{◌≡◌, ◌∷◌, [], IfOk, Some, List, ℕ, is_some, length, option_map, slice_get};
ghost use Rattle.csv_rows.specs.Fields.{content_of, contents_of, field_at, holds_line_end, line_fields, parts_of};

use crate::row_reader::RowReader;
use csv::ByteRecord;
use std::alloc::{AllocError, Global};
use std::marker::Model;

/// Memory ran out.
#[derive(Clone, Copy, Debug, PartialEq, Eq)]
pub struct NoMemory;

impl From<AllocError> for NoMemory {
    fn from(_error: AllocError) -> NoMemory {
        NoMemory
    }
}

/// The fields of a line, in their order: contracts see the list of their contents.
#[derive(Drop)]
pub struct Fields {
    // An empty field, and then the fields of the line.
    record: ByteRecord,
}

impl Model for Fields {
    ghost use Rattle.std.specs.Prelude.{List, ℕ, drop};
    ghost use Rattle.csv.specs.Records.{fields_of};

    ghost Value = { List (List ℕ) };

    ghost view = { λ inside. drop 1 (fields_of inside.record) };
}

impl Fields {
    /// How many fields there are.
    pub fn len(&self) -> usize
        ensures { result ≡ length self.now }
    {
        self.record.len().saturating_sub(1)
    }

    /// The content of the field at a place, counted from 0, without the quotes round it. None
    /// past the last field.
    pub fn get(&self, place: usize) -> Option<&[u8]>
        ensures { option_map (λ field. field.now) result ≡ slice_get self.now place }
    {
        if place < self.len() {
            self.record.get(place + 1)
        } else {
            None
        }
    }

    /// The content of the field at a place, counted from 0, and no byte past the last field.
    pub fn at(&self, place: usize) -> &[u8]
        ensures { result.now ≡ field_at self.now place }
    {
        self.get(place).unwrap_or(&[])
    }
}

// Whether a part of a line, between two commas, has a content.
fn is_field(part: &[u8]) -> bool
    ensures { result ≡ is_some (content_of part.now) }
{
    if !part.contains(&b'"') {
        return true;
    }
    match part {
        [b'"', inner @ .., b'"'] => !inner.contains(&b'"'),
        _ => false,
    }
}

// Whether a line holds a line feed or a carriage return.
fn has_line_end(line: &[u8]) -> bool
    ensures { result ≡ holds_line_end line.now }
{
    if line.contains(&b'\n') {
        return true;
    }
    line.contains(&b'\r')
}

// Whether each part of a line has a content.
fn has_only_fields(line: &[u8]) -> bool
    ensures { result ≡ is_some (contents_of (parts_of line.now)) }
{
    // Most lines hold no double quote.
    if !line.contains(&b'"') {
        return true;
    }
    line.split(|byte| *byte == b',').all(is_field)
}

/// Whether a line has fields.
pub fn has_fields(line: &[u8]) -> bool
    ensures { result ≡ is_some (line_fields line.now) }
{
    !has_line_end(line) && has_only_fields(line)
}

/// Cuts a line into its fields. None exactly where it has none: where it holds a line feed or a
/// carriage return, or where a part of it holds a double quote and is not in double quotes as a
/// whole.
pub fn cut(
    rows: &mut RowReader,
    alloc: Global,
    line: &[u8],
    ahead: &[u8],
) -> Result<Option<Fields>, NoMemory>
    ensures { IfOk result (λ fields. fields ≡ line_fields line.now) }
{
    if !has_fields(line) {
        return Ok(None);
    }
    let record = rows.record_of(alloc, line, ahead)?;
    Ok(Some(Fields { record }))
}
