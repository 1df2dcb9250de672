// The text of a mediaclk record. A local that holds a place in the room is named by what is put there. The bound in a contract is the sum of what is
// put: the bytes of the words, 10 for a number, 23 for an EUI-64, and all of the value for each place.
#![tactic(auto, using(room::proofs::Laws::puts))]

ghost use Rattle.std.specs.Prelude.{cond, ◌+◌, ◌*◌, length};
ghost use Rattle.text.specs.Place.{bytes_at};
ghost use Rattle.meaning.specs.Meaning.{src_tag, plain_tag, direct, offset_means, rate_means, id_means, media_means};
ghost use Rattle.meaning.specs.Text.{offset_text, rate_text, id_text, tag_text, media_text, media_clock_source_text};
ghost use Rattle.room.specs.Put.{Put};

use mediarecord::{MediaClock, MediaClockId, MediaClockSource, Rate};
use text::Place;

// `src:` where it is there, and the tag.
fn put_tag(room: &mut [u8], at: usize, value: &[u8], src: bool, tag: Place) -> usize
    ensures { Put (length value.now + 4) room.old at
        (tag_text (cond src (src_tag (bytes_at tag value.now)) (plain_tag (bytes_at tag value.now)))) result room.new }
{
    let to = if src {
        room::put_bytes(room, at, b"src:")
    } else {
        at
    };
    room::put_part(room, to, value, tag)
}

fn put_id(room: &mut [u8], at: usize, value: &[u8], id: Option<MediaClockId>) -> usize
    ensures { Put (length value.now + 8) room.old at (id_text (id_means value.now id)) result room.new }
{
    match id {
        None => at,
        Some(d) => {
            let to = room::put_bytes(room, at, b"id=");
            let space = put_tag(room, to, value, d.src, d.tag);
            room::put_byte(room, space, b' ')
        }
    }
}

fn put_offset(room: &mut [u8], at: usize, offset: Option<u32>) -> usize
    ensures { Put 11 room.old at (offset_text (offset_means offset)) result room.new }
{
    match offset {
        None => at,
        Some(n) => {
            let to = room::put_byte(room, at, b'=');
            digits::put_decimal(room, to, n)
        }
    }
}

fn put_rate(room: &mut [u8], at: usize, rate: Option<Rate>) -> usize
    ensures { Put 27 room.old at (rate_text (rate_means rate)) result room.new }
{
    match rate {
        None => at,
        Some(r) => {
            let numerator = room::put_bytes(room, at, b" rate=");
            let slash = digits::put_decimal(room, numerator, r.numerator);
            let denominator = room::put_byte(room, slash, b'/');
            digits::put_decimal(room, denominator, r.denominator)
        }
    }
}

fn put_direct(room: &mut [u8], at: usize, offset: Option<u32>, rate: Option<Rate>) -> usize
    ensures { Put 44 room.old at (media_text (direct (offset_means offset) (rate_means rate))) result room.new }
{
    let sign = room::put_bytes(room, at, b"direct");
    let space = put_offset(room, sign, offset);
    put_rate(room, space, rate)
}

fn put_clock(room: &mut [u8], at: usize, value: &[u8], clock: MediaClock) -> usize
    ensures { Put (2 * length value.now + 44) room.old at
        (media_text (media_means value.now clock)) result room.new }
{
    match clock {
        MediaClock::Sender => room::put_bytes(room, at, b"sender"),
        MediaClock::Direct(d) => put_direct(room, at, d.offset, d.rate),
        MediaClock::Ieee1722StreamId(g) => {
            let to = room::put_bytes(room, at, b"IEEE1722=");
            digits::put_eui64(room, to, g.id)
        }
        MediaClock::Ext(e) => extension::put_extension(room, at, value, e.name, e.value),
    }
}

// An id has a place and at most 8 bytes, a clock two places or 44 bytes: the bound adds them.
#[tactic(auto, using(room::proofs::Laws::puts), unfolding(meaning::specs::Text::media_clock_source_text, meaning::specs::Text::source_meaning_text, meaning::specs::Meaning::media_meaning))]
pub fn put_source(room: &mut [u8], at: usize, value: &[u8], source: MediaClockSource) -> usize
    ensures { Put (3 * length value.now + 52) room.old at
        (media_clock_source_text value.now source) result room.new }
{
    let to = put_id(room, at, value, source.id);
    put_clock(room, to, value, source.clock)
}
