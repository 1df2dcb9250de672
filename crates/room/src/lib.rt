// Texts put into lent room, each from a place on, with the place behind it as the answer. A byte whose place lies behind the room's end is
// counted and not stored, so a text is measured by putting it into no room. Counting stops at the last place that there is, which lies behind
// the end of every room: no place overflows, and no byte is stored at a wrong one.
#![tactic(auto)]

ghost use Rattle.std.specs.Prelude.{◌≡◌, ◌+◌, ◌≤◌, [], ◌∷◌, length};
ghost use Rattle.std.proofs.lemmas.List.Edits.{sets};
ghost use Rattle.text.specs.Place.{bytes_at};
ghost use Rattle.room.specs.Put.{Put};

use text::Place;

pub fn put_byte(room: &mut [u8], at: usize, b: u8) -> usize
    ensures { Put 1 room.old at (b ∷ []) result room.new }
{
    if at < room.len() {
        room[at] = b;
        return at + 1;
    }
    at.saturating_add(1)
}

// Stores a text that fits. A copy by the library would test first whether the two overlap.
fn store(room: &mut [u8], at: usize, src: &[u8])
    requires { at + length src.now ≤ length room.old }
    ensures { room.new ≡ sets room.old at src.now }
{
    for (i, b) in src.iter().enumerate() {
        room[at + i] = *b;
    }
}

// Puts a text byte by byte.
fn put_each(room: &mut [u8], at: usize, src: &[u8]) -> usize
    ensures { Put (length src.now) room.old at src.now result room.new }
{
    let mut to = at;
    for b in src {
        to = put_byte(room, to, *b);
    }
    to
}

// A text that fits is stored at once. An end before the start is one that wrapped.
pub fn put_bytes(room: &mut [u8], at: usize, src: &[u8]) -> usize
    ensures { Put (length src.now) room.old at src.now result room.new }
{
    let end = at.wrapping_add(src.len());
    if at <= end && end <= room.len() {
        store(room, at, src);
        return end;
    }
    put_each(room, at, src)
}

// The part of a value at a place.
pub fn put_part(room: &mut [u8], at: usize, value: &[u8], p: Place) -> usize
    ensures { Put (length value.now) room.old at (bytes_at p value.now) result room.new }
{
    put_bytes(room, at, text::part(value, p))
}
