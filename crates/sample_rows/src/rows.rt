//! The rows of a sample.
ghost use Rattle.std.specs.Prelude.{◌≡◌, ◌*◌, ◌/◌, ◌++◌, ◌≤◌, IfOk, OnOk, codes};
ghost use Rattle.std.specs.Fmt.{signed_decimal};
ghost use Rattle.sample_rows.specs.Generator.{adds, after_steps, commit_where, commits as commits_of, ends_batch, fields, has_withdrawals, object_row, queries, query_row, rows, withdrawals};

use crate::draws::Draws;
use std::alloc::{AllocError, Global};

/// There was no memory.
#[derive(Clone, Copy, Debug, PartialEq, Eq)]
pub struct NoMemory;

impl From<AllocError> for NoMemory {
    fn from(_error: AllocError) -> NoMemory {
        NoMemory
    }
}

/// How many queries a sample asks.
const QUERIES: u32 = 100;

/// How many commits a sample of so many objects has: one for each thousand objects, and one for the withdrawals.
pub(crate) fn commits(count: u32) -> u32
    ensures { result ≡ commits_of count }
{
    let batches = count / 1000 + u32::from(count % 1000 != 0);
    batches + u32::from(count >= 10)
}

// Puts one more row.
fn put(text: &mut Vec<u8>, row: &[u8]) -> Result<(), NoMemory>
    ensures { OnOk result (text.new.items ≡ text.old.items ++ row.now) }
{
    if text.extend_from_slice(row).is_err() {
        return Err(NoMemory);
    }
    Ok(())
}

// Whether a commit follows the object of this id.
fn is_last_of_batch(count: u32, id: u32) -> bool
    ensures { result ≡ ends_batch count id }
{
    id % 1000 == 0 || id == count
}

fn put_commit(text: &mut Vec<u8>, is_due: bool) -> Result<(), NoMemory>
    ensures { OnOk result (text.new.items ≡ text.old.items ++ commit_where is_due) }
{
    if !is_due {
        return Ok(());
    }
    put(text, b"commit,1\n")
}

// Puts numbers, each with a comma after it.
fn put_fields(alloc: Global, text: &mut Vec<u8>, numbers: &[u32]) -> Result<(), NoMemory>
    ensures { OnOk result (text.new.items ≡ text.old.items ++ fields numbers.now) }
{
    for number in numbers {
        let field = format!(in alloc; "{number},")?;
        put(text, field.as_bytes())?;
    }
    Ok(())
}

// Puts the weight that ends a row.
fn put_weight(alloc: Global, text: &mut Vec<u8>, weight: i64) -> Result<(), NoMemory>
    ensures { OnOk result (text.new.items ≡ text.old.items ++ (signed_decimal weight ++ codes "\n")) }
{
    let field = format!(in alloc; "{weight}\n")?;
    put(text, field.as_bytes())?;
    Ok(())
}

// The row that adds an object.
fn put_object(alloc: Global, text: &mut Vec<u8>, draws: &mut Draws, id: u32) -> Result<(), NoMemory>
    ensures row { OnOk result (text.new.items ≡ text.old.items ++ object_row draws.old.x id) }
    ensures steps { draws.new.x ≡ after_steps draws.old.x 5 }
{
    let (low1, high1) = draws.interval(1000);
    let (low2, high2) = draws.interval(1000);
    let weight = draws.weight();
    put(text, b"add,1,")?;
    put_fields(alloc, text, &[id, low1, high1, low2, high2])?;
    put_weight(alloc, text, weight)?;
    Ok(())
}

// The row that asks a query.
fn put_query(
    alloc: Global,
    text: &mut Vec<u8>,
    draws: &mut Draws,
    last: u32,
) -> Result<(), NoMemory>
    requires { last ≤ 1000000000 }
    ensures row { OnOk result (text.new.items ≡ text.old.items ++ query_row last draws.old.x) }
    ensures steps { draws.new.x ≡ after_steps draws.old.x 5 }
{
    let version = draws.draw() % (last + 1);
    let (low1, high1) = draws.interval(100000);
    let (low2, high2) = draws.interval(100000);
    put(text, b"sum,")?;
    put_fields(alloc, text, &[version, low1, high1, low2])?;
    let end = format!(in alloc; "{high2}\n")?;
    put(text, end.as_bytes())?;
    Ok(())
}

// All objects are added, in batches.
fn put_adds(
    alloc: Global,
    text: &mut Vec<u8>,
    draws: &mut Draws,
    count: u32,
) -> Result<(), NoMemory>
    ensures rows { OnOk result (text.new.items ≡ text.old.items ++ adds draws.old.x count count) }
    ensures steps { OnOk result (draws.new.x ≡ after_steps draws.old.x (5 * count)) }
{
    for number in 0..count {
        let id = number + 1;
        put_object(alloc, text, draws, id)?;
        put_commit(text, is_last_of_batch(count, id))?;
    }
    Ok(())
}

// Each tenth object is withdrawn, in one batch.
fn put_withdrawals(alloc: Global, text: &mut Vec<u8>, count: u32) -> Result<(), NoMemory>
    ensures { OnOk result (text.new.items ≡ text.old.items ++ (withdrawals (count / 10) ++ commit_where (has_withdrawals count))) }
{
    for number in 0..count / 10 {
        let id = 10 * (number + 1);
        let row = format!(in alloc; "withdraw,1,{id}\n")?;
        put(text, row.as_bytes())?;
    }
    put_commit(text, count >= 10)
}

fn put_queries(
    alloc: Global,
    text: &mut Vec<u8>,
    draws: &mut Draws,
    last: u32,
) -> Result<(), NoMemory>
    requires { last ≤ 1000000000 }
    ensures { OnOk result (text.new.items ≡ text.old.items ++ queries last draws.old.x 100) }
{
    for number in 0..QUERIES {
        put_query(alloc, text, draws, last)?;
    }
    Ok(())
}

/// The rows of a sample of so many objects, drawn from this start.
pub fn sample_text(alloc: Global, start: u64, count: u32) -> Result<Vec<u8>, NoMemory>
    ensures { IfOk result (λ text. text.items ≡ rows start count) }
{
    let mut text = Vec::new(alloc);
    let mut draws = Draws { x: start };
    put_adds(alloc, &mut text, &mut draws, count)?;
    put_withdrawals(alloc, &mut text, count)?;
    put_queries(alloc, &mut text, &mut draws, commits(count))?;
    Ok(text)
}
