// What is printed for one line, put at the front of lent room: the text of an accepted value, the refusal of a refused one, or a fixed word.
#![tactic(auto)]

ghost use Rattle.std.specs.Prelude.{◌≡◌, ◌≤◌, length};
ghost use Rattle.meaning.specs.ReferenceClock.{read_reference_clock};
ghost use Rattle.meaning.specs.MediaClock.{read_media_clock_source};
ghost use Rattle.meaning.specs.Text.{reference_clock_text, media_clock_source_text};
ghost use Rattle.report.specs.Reply.{ok_reply, no_reply, ts_refclk_reply, mediaclk_reply, reply_to};
ghost use Rattle.briefreply.specs.Gives.{Gives};
ghost use Rattle.briefreply.specs.Private.Known.{reply_of};
ghost use Rattle.reply.specs.Private.Parts.{Puts};

use briefreply::{MOST_LINE_BYTES, ReplySize};
use clock::{ReferenceClock, Refusal};
use mediarecord::MediaClockSource;
use report::Kind;

// No answer is longer: `ok `, the text of a value of 1,024 bytes, which may be two bytes longer, and LF.
const MOST_PRINTED: usize = 1030;

// A text that is known, its LF included, put into any room: what it has no place for is counted and not stored.
fn put_known(kind: Kind, text: &[u8], room: &mut [u8]) -> ReplySize
    requires { length text.now ≤ 1030 }
    ensures { Puts (reply_of kind text.now) room.old result room.new }
{
    let len = room::put_bytes(room, 0, text);
    ReplySize { kind, len }
}

#[cold]
fn put_no(refusal: Refusal, room: &mut [u8]) -> ReplySize
    ensures { Puts (no_reply refusal) room.old result room.new }
{
    let len = briefreply::put_refusal(room, refusal);
    ReplySize {
        kind: Kind::Refused,
        len,
    }
}

// `ok `, the text of a record just read, and LF.
fn put_ok_clock(clock: ReferenceClock, value: &[u8], room: &mut [u8]) -> ReplySize
    requires { Ok clock ≡ read_reference_clock value.now }
    ensures { Puts (ok_reply (reference_clock_text value.now clock)) room.old result room.new }
{
    let text = room::put_bytes(room, 0, b"ok ");
    let end = reftext::put_clock(room, text, value, clock);
    let len = room::put_byte(room, end, b'\n');
    ReplySize {
        kind: Kind::Accepted,
        len,
    }
}

fn put_ok_source(source: MediaClockSource, value: &[u8], room: &mut [u8]) -> ReplySize
    requires { Ok source ≡ read_media_clock_source value.now }
    ensures { Puts (ok_reply (media_clock_source_text value.now source)) room.old result room.new }
{
    let text = room::put_bytes(room, 0, b"ok ");
    let end = mediatext::put_source(room, text, value, source);
    let len = room::put_byte(room, end, b'\n');
    ReplySize {
        kind: Kind::Accepted,
        len,
    }
}

fn put_ts_refclk(value: &[u8], room: &mut [u8]) -> ReplySize
    ensures { Puts (ts_refclk_reply value.now) room.old result room.new }
{
    match refclk::read_reference_clock(value) {
        Ok(clock) => put_ok_clock(clock, value, room),
        Err(refusal) => put_no(refusal, room),
    }
}

fn put_mediaclk(value: &[u8], room: &mut [u8]) -> ReplySize
    ensures { Puts (mediaclk_reply value.now) room.old result room.new }
{
    match mediaclk::read_media_clock_source(value) {
        Ok(source) => put_ok_source(source, value, room),
        Err(refusal) => put_no(refusal, room),
    }
}

#[cold]
fn put_reply(line: &[u8], room: &mut [u8]) -> ReplySize
    ensures { Puts (reply_to line.now) room.old result room.new }
{
    if MOST_LINE_BYTES < line.len() {
        return put_known(Kind::Long, b"long\n", room);
    }
    if text::has_prefix(line, b"a=ts-refclk:") {
        return put_ts_refclk(&line[12..], room);
    }
    if text::has_prefix(line, b"a=mediaclk:") {
        return put_mediaclk(&line[11..], room);
    }
    put_known(Kind::Other, b"--\n", room)
}

// The kind and the length of a line's answer, which is put into no room.
fn measure_reply(line: &[u8]) -> ReplySize
    ensures { (result.kind ≡ (reply_to line.now).kind) × (result.len ≡ length (reply_to line.now).says) }
{
    let mut nothing = [0u8; 0];
    put_reply(line, &mut nothing)
}

// Only a room that may be too short costs a second reading.
pub fn reply_to_line(line: &[u8], room: &mut [u8]) -> ReplySize
    ensures { Gives (reply_to line.now) room.old result room.new }
{
    if MOST_PRINTED <= room.len() {
        return put_reply(line, room);
    }
    let measured = measure_reply(line);
    if room.len() < measured.len {
        return measured;
    }
    put_reply(line, room)
}
