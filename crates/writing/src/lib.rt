// The two writers: the text of a record, over the value that its places point into, is put into lent room. A value over 1,024 bytes is refused,
// then a place that lies outside the value, then a room that is too short; the room is not touched where the answer is a refusal.
#![tactic(auto)]

ghost use Rattle.std.specs.Prelude.{◌≡◌, ◌≤◌, length};
ghost use Rattle.meaning.specs.Text.{reference_clock_text, media_clock_source_text};
ghost use Rattle.meaning.specs.Inside.{reference_clock_inside, media_clock_source_inside};
ghost use Rattle.writing.specs.Writes.{Writes};

use clock::{ReferenceClock, Refusal, WriteRefusal};
use guard::MOST_VALUE_BYTES;
use mediarecord::MediaClockSource;

// How long the text is: it is put into no room.
fn measure_reference_clock(value: &[u8], clock: ReferenceClock) -> usize
    requires { length value.now ≤ 1024 }
    ensures { result ≡ length (reference_clock_text value.now clock) }
{
    let mut nothing = [0u8; 0];
    reftext::put_clock(&mut nothing, 0, value, clock)
}

pub fn write_reference_clock(
    clock: ReferenceClock,
    value: &[u8],
    room: &mut [u8],
) -> Result<usize, WriteRefusal>
    ensures { Writes value.now (reference_clock_inside value.now clock)
        (reference_clock_text value.now clock) room.old result room.new }
{
    let n = value.len();
    if MOST_VALUE_BYTES < n {
        return Err(WriteRefusal::Value(Refusal::new(1, MOST_VALUE_BYTES, n - MOST_VALUE_BYTES)));
    }
    if !inside::reference::is_clock_inside(value, clock) {
        return Err(WriteRefusal::Outside);
    }
    // a room that is long enough for any record over this value needs no measuring: the bound of `reftext::put_clock`
    let most = 2 * n + 55;
    if most <= room.len() {
        let written = reftext::put_clock(room, 0, value, clock);
        return Ok(written);
    }
    let needed = measure_reference_clock(value, clock);
    if room.len() < needed {
        return Err(WriteRefusal::Room(needed));
    }
    reftext::put_clock(room, 0, value, clock);
    Ok(needed)
}

// How long the text is: it is put into no room.
fn measure_media_clock_source(value: &[u8], source: MediaClockSource) -> usize
    requires { length value.now ≤ 1024 }
    ensures { result ≡ length (media_clock_source_text value.now source) }
{
    let mut nothing = [0u8; 0];
    mediatext::put_source(&mut nothing, 0, value, source)
}

pub fn write_media_clock_source(
    source: MediaClockSource,
    value: &[u8],
    room: &mut [u8],
) -> Result<usize, WriteRefusal>
    ensures { Writes value.now (media_clock_source_inside value.now source)
        (media_clock_source_text value.now source) room.old result room.new }
{
    let n = value.len();
    if MOST_VALUE_BYTES < n {
        return Err(WriteRefusal::Value(Refusal::new(1, MOST_VALUE_BYTES, n - MOST_VALUE_BYTES)));
    }
    if !inside::media::is_source_inside(value, source) {
        return Err(WriteRefusal::Outside);
    }
    // the same: the bound of `mediatext::put_source`
    let most = 3 * n + 52;
    if most <= room.len() {
        let written = mediatext::put_source(room, 0, value, source);
        return Ok(written);
    }
    let needed = measure_media_clock_source(value, source);
    if room.len() < needed {
        return Err(WriteRefusal::Room(needed));
    }
    mediatext::put_source(room, 0, value, source);
    Ok(needed)
}
