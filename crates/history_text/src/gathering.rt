//! Bytes that are gathered and put into a sink many at a time.
ghost use Rattle.std.specs.Prelude.{◌≡◌, [], OnOk};
ghost use Rattle.history_text.specs.Given.{Gives, standing};

use arrayvec::ArrayVec;
use ports::{Failed, Sink};

/// Room for the bytes that are gathered.
pub type Room = ArrayVec<u8, 8192>;

/// Puts the piece behind what is gathered. What is gathered is put where the piece does not fit behind it.
pub fn put_piece<K: Sink>(piece: &[u8], sink: &mut K, room: &mut Room) -> Result<(), Failed>
    ensures { Gives result
        (standing (K.tells sink.old) (K.written sink.old) (K.faults sink.old) room.old.items)
        (standing (K.tells sink.new) (K.written sink.new) (K.faults sink.new) room.new.items)
        piece.now }
{
    if room.try_extend_from_slice(piece).is_ok() {
        return Ok(());
    }
    put_gathered(sink, room)?;
    if room.try_extend_from_slice(piece).is_ok() {
        return Ok(());
    }
    // A piece that is longer than the room is put by itself.
    sink.put(piece)?;
    Ok(())
}

/// Puts all that is gathered.
pub fn put_gathered<K: Sink>(sink: &mut K, room: &mut Room) -> Result<(), Failed>
    ensures gives { Gives result
        (standing (K.tells sink.old) (K.written sink.old) (K.faults sink.old) room.old.items)
        (standing (K.tells sink.new) (K.written sink.new) (K.faults sink.new) room.new.items)
        [] }
    ensures empty { OnOk result (room.new.items ≡ []) }
{
    sink.put(room.as_slice())?;
    room.clear();
    Ok(())
}
