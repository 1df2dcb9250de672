// The line of a value, put at the front of lent room: its record and the text that is written of it, or its refusal.
#![tactic(auto)]

ghost use Rattle.std.specs.Prelude.{◌≡◌, ◌≤◌, length};
ghost use Rattle.meaning.specs.ReferenceClock.{read_reference_clock};
ghost use Rattle.meaning.specs.MediaClock.{read_media_clock_source};
ghost use Rattle.meaning.specs.Text.{reference_clock_text, media_clock_source_text};
ghost use Rattle.briefreply.specs.Gives.{Gives};
ghost use Rattle.recordnotes.specs.Notation.{reference_clock_note, media_clock_source_note};
ghost use Rattle.valueline.specs.Line.{ok_line, ts_refclk_line, mediaclk_line};
ghost use Rattle.valueline.specs.Private.Parts.{text_length};

use briefreply::ReplySize;
use clock::{ReferenceClock, WriteRefusal};
use mediarecord::MediaClockSource;
use report::Kind;
use text::Place;

// A record's notation and the text that is written of it are known: `note` and `text`.
fn ok_line(note: &[u8], text: &[u8], room: &mut [u8]) -> ReplySize
    requires short_note { length note.now ≤ 133 }
    requires short_text { length text.now ≤ 1026 }
    ensures { Gives (ok_line note.now text.now) room.old result room.new }
{
    // `ok ` and ` = ` have three bytes each, LF one, and the text two digits for each byte
    let len = note.len() + 2 * text.len() + 7;
    if room.len() < len {
        return ReplySize {
            kind: Kind::Accepted,
            len,
        };
    }
    let first = room::put_bytes(room, 0, b"ok ");
    let sign = room::put_bytes(room, first, note);
    let second = room::put_bytes(room, sign, b" = ");
    let end = digits::put_hex_bytes(room, second, text);
    room::put_byte(room, end, b'\n');
    ReplySize {
        kind: Kind::Accepted,
        len,
    }
}

// How long the text is that was written, or that there was no room for. A record just read is not refused for its value or its places, so 0 is
// never given for these.
#[tactic(auto, unfolding(crate::specs::Private::Parts::text_length))]
fn text_length(wrote: Result<usize, WriteRefusal>) -> usize
    ensures { result ≡ text_length wrote }
{
    match wrote {
        Ok(n) => n,
        Err(WriteRefusal::Room(n)) => n,
        Err(WriteRefusal::Value(_) | WriteRefusal::Outside) => 0,
    }
}

// Of a record just read: an array of 1,026 bytes is long enough for its text.
fn line_of_clock(clock: ReferenceClock, value: &[u8], room: &mut [u8]) -> ReplySize
    requires { Ok clock ≡ read_reference_clock value.now }
    ensures { Gives (ok_line (reference_clock_note clock) (reference_clock_text value.now clock)) room.old result room.new }
{
    let mut notes = [0u8; 109];
    let len = recordnotes::note_reference_clock(clock, &mut notes);
    let note = text::part(&notes, Place { start: 0, len });
    let mut texts = [0u8; 1026];
    let wrote = writing::write_reference_clock(clock, value, &mut texts);
    let len = text_length(wrote);
    let text = text::part(&texts, Place { start: 0, len });
    ok_line(note, text, room)
}

fn line_of_source(source: MediaClockSource, value: &[u8], room: &mut [u8]) -> ReplySize
    requires { Ok source ≡ read_media_clock_source value.now }
    ensures { Gives (ok_line (media_clock_source_note source) (media_clock_source_text value.now source))
        room.old result room.new }
{
    let mut notes = [0u8; 133];
    let len = recordnotes::note_media_clock_source(source, &mut notes);
    let note = text::part(&notes, Place { start: 0, len });
    let mut texts = [0u8; 1026];
    let wrote = writing::write_media_clock_source(source, value, &mut texts);
    let len = text_length(wrote);
    let text = text::part(&texts, Place { start: 0, len });
    ok_line(note, text, room)
}

pub fn line_of_reference_clock(value: &[u8], room: &mut [u8]) -> ReplySize
    ensures { Gives (ts_refclk_line value.now) room.old result room.new }
{
    match refclk::read_reference_clock(value) {
        Ok(clock) => line_of_clock(clock, value, room),
        Err(refusal) => briefreply::reply_to_refusal(refusal, room),
    }
}

pub fn line_of_media_clock_source(value: &[u8], room: &mut [u8]) -> ReplySize
    ensures { Gives (mediaclk_line value.now) room.old result room.new }
{
    match mediaclk::read_media_clock_source(value) {
        Ok(source) => line_of_source(source, value, room),
        Err(refusal) => briefreply::reply_to_refusal(refusal, room),
    }
}
