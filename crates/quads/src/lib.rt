// Numbers of four bytes in lent memory, the high byte first.
#![tactic(auto)]

ghost use Rattle.std.specs.Prelude.{◌≡◌};
ghost use Rattle.room.specs.Put.{Put};
ghost use Rattle.quads.specs.Quad.{quad, number_at};

use text::Place;

// The number at a place, or 0 where fewer than four bytes are there.
pub fn number_at(s: &[u8], at: usize) -> u32
    ensures { result ≡ number_at s.now at }
{
    match text::part(s, Place { start: at, len: 4 }) {
        [a, b, c, d, ..] => u32::from_be_bytes([*a, *b, *c, *d]),
        _ => 0,
    }
}

pub fn put_number(room: &mut [u8], at: usize, n: u32) -> usize
    ensures { Put 4 room.old at (quad n) result room.new }
{
    room::put_bytes(room, at, &n.to_be_bytes())
}
