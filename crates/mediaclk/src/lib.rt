// What a mediaclk value reads as: the reading rules in their order.
#![tactic(auto, using(crate::proofs::Laws::laws))]

ghost use Rattle.std.specs.Prelude.{◌≡◌, true, false, ◌+◌, ◌≤◌, length};
ghost use Rattle.text.specs.Word.{word, same, starts};
ghost use Rattle.meaning.specs.MediaClock.{extension_media_of, media_clock_of, source_of, read_media_clock_source};
ghost use Rattle.mediaclk.specs.Private.Front.{behind_front, clock_start};

use clock::Refusal;
use mediarecord::{MediaClock, MediaClockExt, MediaClockId, MediaClockSource};

// What stands before the clock, and the place where the clock starts.
#[derive(Clone, Copy)]
struct Front {
    id: Option<MediaClockId>,
    start: usize,
}

// An extension: a name, and a value where there is one.
fn read_extension(p: &[u8], at: usize) -> Result<MediaClock, Refusal>
    requires { at + length p.now ≤ 1024 }
    ensures { result ≡ extension_media_of at p.now }
{
    // it fits, since a value has at most 1,024 bytes here
    let start = at as u32;
    let parts = extension::read_extension(p, start, 22)?;
    Ok(MediaClock::Ext(MediaClockExt {
        name: parts.name,
        value: parts.value,
    }))
}

// `IEEE1722=`, else an extension: the rules behind `sender` and `direct`, neither of which stands here.
fn read_stream_or_extension(p: &[u8], at: usize) -> Result<MediaClock, Refusal>
    requires { (at + length p.now ≤ 1024) × (same p.now (word "sender") ≡ false) × (starts (word "direct") p.now ≡ false) }
    ensures { result ≡ media_clock_of at p.now }
{
    if text::has_prefix(p, b"IEEE1722=") {
        // it fits, since a value has at most 1,024 bytes here
        let start = (at + 9) as u32;
        let stream = stream::read_stream(&p[9..], start)?;
        return Ok(MediaClock::Ieee1722StreamId(stream));
    }
    read_extension(p, at)
}

// `sender`; anything that begins with `direct`; else the other two.
fn read_media_clock(p: &[u8], at: usize) -> Result<MediaClock, Refusal>
    requires { at + length p.now ≤ 1024 }
    ensures { result ≡ media_clock_of at p.now }
{
    if text::is_word(p, b"sender") {
        return Ok(MediaClock::Sender);
    }
    if text::has_prefix(p, b"direct") {
        // it fits, since a value has at most 1,024 bytes here
        let start = (at + 6) as u32;
        let direct = direct::read_direct(&p[6..], start)?;
        return Ok(MediaClock::Direct(direct));
    }
    read_stream_or_extension(p, at)
}

// Behind `id=`: the id up to the first space.
fn read_tagged(v: &[u8]) -> Result<Front, Refusal>
    requires short { length v.now ≤ 1024 }
    requires tagged { starts (word "id=") v.now ≡ true }
    ensures source { behind_front v.now result ≡ source_of v.now }
    ensures within { clock_start result ≤ length v.now }
{
    let n = v.len();
    let end = search::find(&v[3..], b' ') + 3;
    if n <= end {
        return Err(Refusal::new(12, n, 0));
    }
    let id = clockid::read_id(&v[3..end], 3)?;
    Ok(Front {
        id: Some(id),
        start: end + 1,
    })
}

fn read_front(v: &[u8]) -> Result<Front, Refusal>
    requires { length v.now ≤ 1024 }
    ensures source { behind_front v.now result ≡ source_of v.now }
    ensures within { clock_start result ≤ length v.now }
{
    if text::has_prefix(v, b"id=") {
        return read_tagged(v);
    }
    Ok(Front { id: None, start: 0 })
}

// The id first, then the clock: it is read in one place, with an id and without.
fn read_source(v: &[u8]) -> Result<MediaClockSource, Refusal>
    requires { length v.now ≤ 1024 }
    ensures { result ≡ source_of v.now }
{
    let front = read_front(v)?;
    let clock = read_media_clock(&v[front.start..], front.start)?;
    Ok(MediaClockSource {
        id: front.id,
        clock,
    })
}

// The guard first, then the rules.
pub fn read_media_clock_source(value: &[u8]) -> Result<MediaClockSource, Refusal>
    ensures { result ≡ read_media_clock_source value.now }
{
    guard::check_value(value)?;
    read_source(value)
}
