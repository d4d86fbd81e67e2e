//! The text of a row.
ghost use Rattle.std.specs.Prelude.{◌++◌, codes, take};
ghost use Rattle.std.specs.Fmt.{decimal};
ghost use Rattle.std.specs.List.{flat_map, range_with_len};
ghost use Rattle.bw_types.specs.Fits.{IsInRange, coefficient_count, coordinate};
ghost use Rattle.history_text.specs.Given.{Gives, standing};
ghost use Rattle.history_text.specs.Rows.{ends_text, field, object_text, row_text};

use crate::gathering::{Room, put_piece};
use bw_types::{Object, Params, Row, coefficient_count};
use itoa::Buffer;
use ports::{Failed, Sink};

/// Puts the row, with its line feed.
pub fn put_row<K: Sink>(
    params: &Params,
    row: &Row,
    sink: &mut K,
    room: &mut Room,
) -> Result<(), Failed>
    requires { IsInRange params.now }
    ensures { Gives result
        (standing (K.tells sink.old) (K.written sink.old) (K.faults sink.old) room.old.items)
        (standing (K.tells sink.new) (K.written sink.new) (K.faults sink.new) room.new.items)
        (row_text params.now row.now) }
{
    match row {
        Row::Add(object) => put_change(b"add,1", params, object, sink, room),
        Row::Withdraw(id) => put_withdrawal(*id, sink, room),
        Row::Move(object) => put_change(b"move,1", params, object, sink, room),
    }
}

// Puts the row that begins with this word and has this object.
fn put_change<K: Sink>(
    word: &[u8],
    params: &Params,
    object: &Object,
    sink: &mut K,
    room: &mut Room,
) -> Result<(), Failed>
    requires { IsInRange params.now }
    ensures { Gives result
        (standing (K.tells sink.old) (K.written sink.old) (K.faults sink.old) room.old.items)
        (standing (K.tells sink.new) (K.written sink.new) (K.faults sink.new) room.new.items)
        (word.now ++ object_text params.now object.now ++ codes "\n") }
{
    put_piece(word, sink, room)?;
    put_object(params, object, sink, room)?;
    put_piece(b"\n", sink, room)
}

// Puts the row of a withdrawal.
fn put_withdrawal<K: Sink>(id: u64, sink: &mut K, room: &mut Room) -> Result<(), Failed>
    ensures { Gives result
        (standing (K.tells sink.old) (K.written sink.old) (K.faults sink.old) room.old.items)
        (standing (K.tells sink.new) (K.written sink.new) (K.faults sink.new) room.new.items)
        (codes "withdraw,1," ++ decimal id ++ codes "\n") }
{
    put_piece(b"withdraw,1,", sink, room)?;
    put_id(id, sink, room)?;
    put_piece(b"\n", sink, room)
}

// Puts the fields of the object.
fn put_object<K: Sink>(
    params: &Params,
    object: &Object,
    sink: &mut K,
    room: &mut Room,
) -> Result<(), Failed>
    requires { IsInRange params.now }
    ensures { Gives result
        (standing (K.tells sink.old) (K.written sink.old) (K.faults sink.old) room.old.items)
        (standing (K.tells sink.new) (K.written sink.new) (K.faults sink.new) room.new.items)
        (object_text params.now object.now) }
{
    put_piece(b",", sink, room)?;
    put_id(object.id, sink, room)?;
    put_ends(params, object, sink, room)?;
    put_field(object.weight, sink, room)?;
    put_fields(&object.coeffs[..coefficient_count(params)], sink, room)
}

// Puts the ends of the box, one dimension after the other.
fn put_ends<K: Sink>(
    params: &Params,
    object: &Object,
    sink: &mut K,
    room: &mut Room,
) -> Result<(), Failed>
    requires { IsInRange params.now }
    ensures { Gives result
        (standing (K.tells sink.old) (K.written sink.old) (K.faults sink.old) room.old.items)
        (standing (K.tells sink.new) (K.written sink.new) (K.faults sink.new) room.new.items)
        (flat_map (ends_text params.now object.now) (range_with_len 0 params.now.dims)) }
{
    for dimension in 0..usize::from(params.dims) {
        put_coordinate(params, object.low[dimension], sink, room)?;
        put_coordinate(params, object.high[dimension], sink, room)?;
    }
    Ok(())
}

// Puts the coordinate of a stored number.
fn put_coordinate<K: Sink>(
    params: &Params,
    number: u32,
    sink: &mut K,
    room: &mut Room,
) -> Result<(), Failed>
    ensures { Gives result
        (standing (K.tells sink.old) (K.written sink.old) (K.faults sink.old) room.old.items)
        (standing (K.tells sink.new) (K.written sink.new) (K.faults sink.new) room.new.items)
        (field (coordinate params.now number)) }
{
    put_field(i64::from(number) - i64::from(params.origin), sink, room)
}

// Puts the numbers, one after the other.
fn put_fields<K: Sink>(numbers: &[i64], sink: &mut K, room: &mut Room) -> Result<(), Failed>
    ensures { Gives result
        (standing (K.tells sink.old) (K.written sink.old) (K.faults sink.old) room.old.items)
        (standing (K.tells sink.new) (K.written sink.new) (K.faults sink.new) room.new.items)
        (flat_map field numbers.now) }
{
    for number in numbers {
        put_field(*number, sink, room)?;
    }
    Ok(())
}

// Puts the number, with a comma before it.
fn put_field<K: Sink>(number: i64, sink: &mut K, room: &mut Room) -> Result<(), Failed>
    ensures { Gives result
        (standing (K.tells sink.old) (K.written sink.old) (K.faults sink.old) room.old.items)
        (standing (K.tells sink.new) (K.written sink.new) (K.faults sink.new) room.new.items)
        (field number) }
{
    put_piece(b",", sink, room)?;
    let mut buffer = Buffer::new();
    put_piece(buffer.format(number).as_bytes(), sink, room)
}

// Puts the id.
fn put_id<K: Sink>(id: u64, sink: &mut K, room: &mut Room) -> Result<(), Failed>
    ensures { Gives result
        (standing (K.tells sink.old) (K.written sink.old) (K.faults sink.old) room.old.items)
        (standing (K.tells sink.new) (K.written sink.new) (K.faults sink.new) room.new.items)
        (decimal id) }
{
    let mut buffer = Buffer::new();
    put_piece(buffer.format(id).as_bytes(), sink, room)
}
