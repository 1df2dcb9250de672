// What the records of both attributes share: a place, and an extension's name and value. The bound in a contract is the sum of what is put: 41 for a
// place, two numbers of at most 20 digits and a `+`, 10 for a number of 32 bits, 16 for an EUI-64, and the words and spaces between.
ghost use Rattle.room.specs.Put.{Put};
ghost use Rattle.recordnotes.specs.Notation.{place_note, value_note, extension_note};

use text::Place;

pub(crate) fn put_place(room: &mut [u8], at: usize, p: Place) -> usize
    ensures { Put 41 room.old at (place_note p) result room.new }
{
    let plus = digits::put_decimal_u64(room, at, p.start as u64);
    let to = room::put_byte(room, plus, b'+');
    digits::put_decimal_u64(room, to, p.len as u64)
}

fn put_value(room: &mut [u8], at: usize, value: Option<Place>) -> usize
    ensures { Put 41 room.old at (value_note value) result room.new }
{
    match value {
        None => room::put_byte(room, at, b'-'),
        Some(p) => put_place(room, at, p),
    }
}

pub(crate) fn put_extension(room: &mut [u8], at: usize, name: Place, value: Option<Place>) -> usize
    ensures { Put 87 room.old at (extension_note name value) result room.new }
{
    let first = room::put_bytes(room, at, b"ext ");
    let space = put_place(room, first, name);
    let second = room::put_byte(room, space, b' ');
    put_value(room, second, value)
}
