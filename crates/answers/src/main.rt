// Reads frames from standard input and prints a line for each. A frame is a letter and its values: `r` and a ts-refclk value or `m` and a mediaclk
// value, and the line is the value's; `s` and two ts-refclk values, and the line says whether they name the same clock; `g` and the values of session
// and media, and the line says which governs and where in it the clock is named. A value is its length in two bytes, the high one first, and its bytes.
// A frame that ends early, or that begins with another letter, prints `cut`, and nothing more is read. The last line has the counts. Of a longer input
// the first 4,294,967,295 frames are read.
#![tactic(auto)]

ghost use Rattle.std.specs.Prelude.{◌≡◌, ◌+◌, IfOk};

use briefreply::ReplySize;
use console::write_all;
use frames::{Held, Stop};
use questions::Level;
use report::Kind;
use std::io;
use std::io::{ErrorKind, Read, Write};

const MOST_FRAMES: u64 = 4294967295;

// What is asked, of the values that were read.
#[derive(Clone, Copy)]
enum Ask<'a> {
    Reference(&'a [u8]),
    Media(&'a [u8]),
    Same(&'a [u8], &'a [u8]),
    Governing { session: &'a [u8], media: &'a [u8] },
}

// What came of it: its value was accepted, or refused, or a question was answered.
#[derive(Clone, Copy)]
enum Told {
    Ok,
    No,
    Asked,
}

// A line at the front of the room: what it tells, and its length, which may be more than the room has.
#[derive(Clone, Copy)]
struct Line {
    told: Told,
    len: usize,
}

// How many frames there were, and of each kind, each counted on its own; and whether the last one is cut.
#[derive(Clone, Copy)]
struct Counts {
    frames: u64,
    ok: u64,
    no: u64,
    asked: u64,
    cut: bool,
}

fn read_ask<'a>(
    input: &mut impl Read,
    first: &'a mut [u8],
    second: &'a mut [u8],
) -> Result<Ask<'a>, Stop> {
    let mut head = [0u8; 3];
    frames::read_head(input, &mut head)?;
    let [letter, high, low] = head;
    if !matches!(letter, b'r' | b'm' | b's' | b'g') {
        return Err(Stop::Cut);
    }
    let value = frames::read_bytes(input, first, u16::from_be_bytes([high, low]) as usize)?;
    Ok(match letter {
        b'r' => Ask::Reference(value),
        b'm' => Ask::Media(value),
        b's' => Ask::Same(value, frames::read_value(input, second)?),
        _ => Ask::Governing {
            session: value,
            media: frames::read_value(input, second)?,
        },
    })
}

fn line_of_value(reply: ReplySize) -> Line {
    let told = match reply.kind {
        Kind::Accepted => Told::Ok,
        Kind::Refused | Kind::Other | Kind::Long => Told::No,
    };
    Line {
        told,
        len: reply.len,
    }
}

fn put_same(room: &mut [u8], a: &[u8], b: &[u8]) -> usize {
    if questions::same_clock(a, b) {
        return room::put_bytes(room, 0, b"same\n");
    }
    room::put_bytes(room, 0, b"different\n")
}

fn put_level(room: &mut [u8], level: Level) -> usize {
    match level {
        Level::Session => room::put_bytes(room, 0, b"session "),
        Level::Media => room::put_bytes(room, 0, b"media "),
    }
}

// The length is that of the part itself.
fn put_governing<'a>(room: &mut [u8], session: &'a [u8], media: &'a [u8]) -> usize {
    let part = questions::governing_clock(session, media);
    let found = questions::governing_place(session, media);
    let at = put_level(room, found.level);
    let space = digits::put_decimal_u64(room, at, found.place.start as u64);
    let number = room::put_byte(room, space, b' ');
    let end = digits::put_decimal_u64(room, number, part.len() as u64);
    room::put_byte(room, end, b'\n')
}

fn put_line(ask: Ask, room: &mut [u8]) -> Line {
    match ask {
        Ask::Reference(value) => line_of_value(valueline::line_of_reference_clock(value, room)),
        Ask::Media(value) => line_of_value(valueline::line_of_media_clock_source(value, room)),
        Ask::Same(a, b) => Line {
            told: Told::Asked,
            len: put_same(room, a, b),
        },
        Ask::Governing { session, media } => Line {
            told: Told::Asked,
            len: put_governing(room, session, media),
        },
    }
}

// The line of what is asked is held. Where it does not fit behind what is held, that is printed first.
fn answer(out: &mut impl Write, ask: Ask, room: &mut [u8], held: &mut Held) -> io::Result<Told> {
    let line = put_line(ask, room);
    // never: there is room for the longest line
    if room.len() < line.len {
        return Err(io::Error::from(ErrorKind::WriteZero));
    }
    held.print_for(out, line.len)?;
    write_all(held, &room[..line.len])?;
    Ok(line.told)
}

// Every frame that is counted is one that was accepted, refused or asked.
fn answer_all(input: &mut impl Read, out: &mut impl Write) -> io::Result<Counts>
    ensures { IfOk result (λ c. c.ok + c.no + c.asked ≡ c.frames) }
{
    let mut first = console::large_buffer();
    let mut second = console::large_buffer();
    let mut room = console::large_buffer();
    let mut held = Held::new();
    let mut counts = Counts {
        frames: 0,
        ok: 0,
        no: 0,
        asked: 0,
        cut: false,
    };
    for _ in 0..MOST_FRAMES {
        let ask = match read_ask(input, &mut first, &mut second) {
            Ok(ask) => ask,
            Err(stop) => {
                counts.cut = stop.is_cut()?;
                break;
            }
        };
        match answer(out, ask, &mut room, &mut held)? {
            Told::Ok => counts.ok += 1,
            Told::No => counts.no += 1,
            Told::Asked => counts.asked += 1,
        }
        counts.frames += 1;
    }
    held.print(out)?;
    Ok(counts)
}

fn say_counts(out: &mut impl Write, counts: Counts) -> io::Result<()> {
    if counts.cut {
        write_all(out, b"cut\n")?;
    }
    let Counts {
        frames,
        ok,
        no,
        asked,
        ..
    } = counts;
    writeln!(out, "frames {frames} ok {ok} no {no} asked {asked}")
}

fn main(rt: HostRuntime) -> io::Result<()> {
    let mut stdout = rt.stdout();
    let Ok(counts) = answer_all(&mut rt.stdin(), &mut stdout) else {
        // what was not read or not written whole has no counts, and says so
        let _ = write_all(
            &mut rt.stderr(),
            b"the input could not be read, or the output not written: the counts are left out\n",
        );
        return Ok(());
    };
    say_counts(&mut stdout, counts)
}
