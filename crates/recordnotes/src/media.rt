// The notation of a mediaclk record. A local that holds a place in the room is named by what is put there.
ghost use Rattle.std.specs.Prelude.{cond};
ghost use Rattle.text.specs.Word.{word};
ghost use Rattle.room.specs.Put.{Put};
ghost use Rattle.recordnotes.specs.Notation.{id_note, offset_note, rate_note, direct_note, media_note, media_clock_source_note};

use crate::parts;
use mediarecord::{MediaClock, MediaClockId, MediaClockSource, Rate};

fn put_id_kind(room: &mut [u8], at: usize, src: bool) -> usize
    ensures { Put 4 room.old at (cond src (word "src ") (word "id ")) result room.new }
{
    if src {
        room::put_bytes(room, at, b"src ")
    } else {
        room::put_bytes(room, at, b"id ")
    }
}

fn put_id(room: &mut [u8], at: usize, id: Option<MediaClockId>) -> usize
    ensures { Put 45 room.old at (id_note id) result room.new }
{
    match id {
        None => room::put_byte(room, at, b'-'),
        Some(d) => {
            let to = put_id_kind(room, at, d.src);
            parts::put_place(room, to, d.tag)
        }
    }
}

fn put_offset(room: &mut [u8], at: usize, offset: Option<u32>) -> usize
    ensures { Put 10 room.old at (offset_note offset) result room.new }
{
    match offset {
        None => room::put_byte(room, at, b'-'),
        Some(n) => digits::put_decimal(room, at, n),
    }
}

fn put_rate(room: &mut [u8], at: usize, rate: Option<Rate>) -> usize
    ensures { Put 21 room.old at (rate_note rate) result room.new }
{
    match rate {
        None => room::put_byte(room, at, b'-'),
        Some(r) => {
            let slash = digits::put_decimal(room, at, r.numerator);
            let denominator = room::put_byte(room, slash, b'/');
            digits::put_decimal(room, denominator, r.denominator)
        }
    }
}

fn put_direct(room: &mut [u8], at: usize, offset: Option<u32>, rate: Option<Rate>) -> usize
    ensures { Put 39 room.old at (direct_note offset rate) result room.new }
{
    let first = room::put_bytes(room, at, b"direct ");
    let space = put_offset(room, first, offset);
    let second = room::put_byte(room, space, b' ');
    put_rate(room, second, rate)
}

fn put_clock(room: &mut [u8], at: usize, clock: MediaClock) -> usize
    ensures { Put 87 room.old at (media_note clock) result room.new }
{
    match clock {
        MediaClock::Sender => room::put_bytes(room, at, b"sender"),
        MediaClock::Direct(d) => put_direct(room, at, d.offset, d.rate),
        MediaClock::Ieee1722StreamId(g) => {
            let to = room::put_bytes(room, at, b"stream ");
            digits::put_hex_u64(room, to, g.id)
        }
        MediaClock::Ext(e) => parts::put_extension(room, at, e.name, e.value),
    }
}

pub fn note_media_clock_source(source: MediaClockSource, room: &mut [u8]) -> usize
    ensures { Put 133 room.old 0 (media_clock_source_note source) result room.new }
{
    let space = put_id(room, 0, source.id);
    let to = room::put_byte(room, space, b' ');
    put_clock(room, to, source.clock)
}
