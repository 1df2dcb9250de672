// Lends records to each setter, and prints how each is written before and after every call.
#![tactic(auto)]

ghost use Rattle.std.specs.Prelude.{◌≡◌};
ghost use Rattle.clock.specs.Setters.{with_source_value};
ghost use Rattle.mediarecord.specs.Setters.{with_id, with_media_value, with_offset, with_rate, with_src};

use clock::{ClockSourceExt, ReferenceClock, WriteRefusal};
use console::write_all;
use mediarecord::{Direct, MediaClock, MediaClockExt, MediaClockId, MediaClockSource, Rate};
use std::io;
use std::io::Write;
use text::Place;

// What the places of the records point into.
const VALUE: [u8; 26] = *b"localmac=7C-E9-D3-1B-9A-AF";

// Whatever the record, the value and the setter: a caller that lends its record and returns it gives what the setter leaves of it.
fn lender<R, V, F: FnOnce(&mut R, V)>(mut lent: R, setter: F, value: V) -> R
    requires { (at : _) → at.now ≡ lent → F.pre setter at value }
    ensures { (at : _) × (left : _) × (at.now ≡ lent) × F.post setter at value tt left × (left.now ≡ result) }
{
    setter(&mut lent, value);
    lent
}

fn after_set_source_value(ext: ClockSourceExt, value: Place) -> ClockSourceExt
    ensures { result ≡ with_source_value ext value }
{
    lender(ext, setters::set_source_value, value)
}

fn after_set_id(source: MediaClockSource, id: MediaClockId) -> MediaClockSource
    ensures { result ≡ with_id source id }
{
    lender(source, setters::set_id, id)
}

fn after_set_src_prefix(id: MediaClockId, src: bool) -> MediaClockId
    ensures { result ≡ with_src id src }
{
    lender(id, setters::set_src_prefix, src)
}

fn after_set_offset(direct: Direct, offset: u32) -> Direct
    ensures { result ≡ with_offset direct offset }
{
    lender(direct, setters::set_offset, offset)
}

fn after_set_rate(direct: Direct, rate: Rate) -> Direct
    ensures { result ≡ with_rate direct rate }
{
    lender(direct, setters::set_rate, rate)
}

fn after_set_media_value(ext: MediaClockExt, value: Place) -> MediaClockExt
    ensures { result ≡ with_media_value ext value }
{
    lender(ext, setters::set_media_value, value)
}

fn say_text(
    out: &mut impl Write,
    call: &str,
    room: &[u8],
    wrote: Result<usize, WriteRefusal>,
) -> io::Result<()> {
    write!(out, "{call} -> ")?;
    match wrote {
        Ok(len) => write_all(out, console::front(room, len)),
        Err(_) => write_all(out, b"no"),
    }?;
    write_all(out, b"\n")
}

fn say_source_ext(out: &mut impl Write, call: &str, ext: ClockSourceExt) -> io::Result<()> {
    let mut room = [0u8; 64];
    let wrote = writing::write_reference_clock(ReferenceClock::from(ext), &VALUE, &mut room);
    say_text(out, call, &room, wrote)
}

fn say_source(out: &mut impl Write, call: &str, source: MediaClockSource) -> io::Result<()> {
    let mut room = [0u8; 64];
    let wrote = writing::write_media_clock_source(source, &VALUE, &mut room);
    say_text(out, call, &room, wrote)
}

fn say_id(out: &mut impl Write, call: &str, id: MediaClockId) -> io::Result<()> {
    say_source(
        out,
        call,
        MediaClockSource::with_clock_id(MediaClock::Sender, id),
    )
}

// A value that was absent, and then an empty one.
fn set_source_values(out: &mut impl Write) -> io::Result<()> {
    let ext = ClockSourceExt::new(Place { start: 0, len: 8 });
    say_source_ext(out, "ClockSourceExt::new", ext)?;
    let valued = after_set_source_value(ext, Place { start: 9, len: 17 });
    say_source_ext(out, "set_source_value", valued)?;
    let emptied = after_set_source_value(valued, Place { start: 9, len: 0 });
    say_source_ext(out, "set_source_value", emptied)
}

fn set_media_values(out: &mut impl Write) -> io::Result<()> {
    let ext = MediaClockExt::new(Place { start: 0, len: 8 });
    say_source(out, "MediaClockExt::new", MediaClockSource::from(ext))?;
    let valued = after_set_media_value(ext, Place { start: 9, len: 17 });
    say_source(out, "set_media_value", MediaClockSource::from(valued))?;
    let emptied = after_set_media_value(valued, Place { start: 9, len: 0 });
    say_source(out, "set_media_value", MediaClockSource::from(emptied))
}

fn set_src_prefixes(out: &mut impl Write) -> io::Result<()> {
    let id = MediaClockId::new(Place { start: 0, len: 5 });
    say_id(out, "MediaClockId::new", id)?;
    let flagged = after_set_src_prefix(id, true);
    say_id(out, "set_src_prefix true", flagged)?;
    let plain = after_set_src_prefix(flagged, false);
    say_id(out, "set_src_prefix false", plain)
}

fn set_ids(out: &mut impl Write) -> io::Result<()> {
    let source = MediaClockSource::from_direct_offset(7);
    say_source(out, "MediaClockSource::from_direct_offset 7", source)?;
    let local = MediaClockId::new(Place { start: 0, len: 5 });
    let named = after_set_id(source, local);
    say_source(out, "set_id", named)?;
    let mac = MediaClockId::new_with_src_prefix(Place { start: 5, len: 3 });
    let renamed = after_set_id(named, mac);
    say_source(out, "set_id", renamed)
}

// A rate that is absent stays so.
fn set_offset_alone(out: &mut impl Write) -> io::Result<()> {
    let direct = Direct::new();
    say_source(out, "Direct::new", MediaClockSource::from(direct))?;
    let offset = after_set_offset(direct, 4294967295);
    say_source(out, "set_offset 4294967295", MediaClockSource::from(offset))
}

// An offset that is absent stays so; the last rate is one that no value can have, and nothing is checked.
fn set_rate_and_offset(out: &mut impl Write) -> io::Result<()> {
    let direct = Direct::new();
    say_source(out, "Direct::new", MediaClockSource::from(direct))?;
    let rate = after_set_rate(direct, Rate::new(1, 2));
    say_source(out, "set_rate 1/2", MediaClockSource::from(rate))?;
    let both = after_set_offset(rate, 7);
    say_source(out, "set_offset 7", MediaClockSource::from(both))?;
    let zero = after_set_offset(both, 0);
    say_source(out, "set_offset 0", MediaClockSource::from(zero))?;
    let unchecked = after_set_rate(zero, Rate::new(1, 0));
    say_source(out, "set_rate 1/0", MediaClockSource::from(unchecked))
}

fn main(rt: HostRuntime) -> io::Result<()> {
    let mut stdout = rt.stdout();
    set_source_values(&mut stdout)?;
    set_media_values(&mut stdout)?;
    set_src_prefixes(&mut stdout)?;
    set_ids(&mut stdout)?;
    set_offset_alone(&mut stdout)?;
    set_rate_and_offset(&mut stdout)
}
