// Calls a constructor, a conversion or a setter of `clock` for each frame of standard input, and prints how the record made is written, or the
// number of its refusal. A frame is the row of the function in docs/ITEMS.md, two bytes of length, 36 of arguments and the value that their
// places point into; no frame has a row of another kind. One that ends early, or is too long, prints `cut`, and no other is read. The last line
// has the counts.
#![tactic(auto)]

mod arguments;
mod media;
mod reference;

use arguments::Arguments;
use clock::{ReferenceClock, Unmade, WriteRefusal};
use console::write_all;
use frames::Stop;
use mediarecord::MediaClockSource;
use std::io;
use std::io::{ErrorKind, Read, Write};

// How many frames are read.
const MOST_FRAMES: u64 = 1000000;

// How many bytes of arguments follow the row and the length.
const ARGUMENTS: usize = 36;

// A call that is asked for: the row of its function, the arguments, and the value that their places point into.
#[derive(Clone, Copy)]
struct Frame<'a> {
    row: u8,
    arguments: Arguments,
    value: &'a [u8],
}

// What was said of a frame.
#[derive(Clone, Copy)]
enum Said {
    Record,
    Refusal,
}

// Why no frame comes, of an input that has no whole one left: it is broken where it goes on for all that. At its end one more read answers 0.
fn at_end(input: &mut impl Read, stop: Stop) -> Stop {
    if let Stop::Broken(error) = stop {
        return Stop::Broken(error);
    }
    match input.read(&mut [0u8; 1]) {
        Ok(0) => stop,
        Ok(_) => Stop::from(io::Error::from(ErrorKind::InvalidData)),
        Err(error) => Stop::from(error),
    }
}

fn read_frame<'a>(input: &mut impl Read, space: &'a mut [u8]) -> Result<Frame<'a>, Stop> {
    let mut head = [0u8; 39];
    frames::read_head(input, &mut head).map_err(|stop| at_end(input, stop))?;
    let behind = arguments::two(&head, 1) as usize;
    if behind < ARGUMENTS {
        return Err(Stop::Cut);
    }
    let value = frames::read_bytes(input, space, behind - ARGUMENTS).map_err(|stop| at_end(
        input, stop,
    ))?;
    Ok(Frame {
        row: head[0],
        arguments: Arguments::of(&head),
        value,
    })
}

fn say_refusal(out: &mut impl Write, why: Unmade) -> io::Result<Said> {
    writeln!(out, "no {}", clock::refusal_number(why))?;
    Ok(Said::Refusal)
}

// No writing is refused of a record whose places lie inside a value that is this short.
fn say_written(
    out: &mut impl Write,
    room: &[u8],
    wrote: Result<usize, WriteRefusal>,
) -> io::Result<Said> {
    let Ok(len) = wrote else {
        write_all(out, b"no\n")?;
        return Ok(Said::Refusal);
    };
    write_all(out, b"ok ")?;
    write_all(out, console::front(room, len))?;
    write_all(out, b"\n")?;
    Ok(Said::Record)
}

fn say_reference(out: &mut impl Write, clock: ReferenceClock, value: &[u8]) -> io::Result<Said> {
    // long enough for any record over a value of 256 bytes
    let mut room = [0u8; 820];
    let wrote = writing::write_reference_clock(clock, value, &mut room);
    say_written(out, &room, wrote)
}

fn say_media(out: &mut impl Write, source: MediaClockSource, value: &[u8]) -> io::Result<Said> {
    let mut room = [0u8; 820];
    let wrote = writing::write_media_clock_source(source, value, &mut room);
    say_written(out, &room, wrote)
}

// The functions of four rows try a domain number.
fn say_call(out: &mut impl Write, frame: Frame) -> io::Result<Said> {
    let Frame {
        row,
        arguments,
        value,
    } = frame;
    match row {
        8 | 42 | 54 | 66 => match reference::tried(row, arguments) {
            Ok(clock) => say_reference(out, clock, value),
            Err(why) => say_refusal(out, why),
        },
        59 | 60 | 62 | 78.. => say_media(out, media::made(row, arguments), value),
        _ => say_reference(out, reference::made(row, arguments), value),
    }
}

fn main(rt: HostRuntime) -> io::Result<()> {
    let mut stdin = rt.stdin();
    let mut stdout = rt.stdout();
    let mut space = [0u8; 256];
    let mut frames: u64 = 0;
    let mut records: u64 = 0;
    for _ in 0..MOST_FRAMES {
        let frame = match read_frame(&mut stdin, &mut space) {
            Ok(frame) => frame,
            Err(Stop::End) => break,
            Err(Stop::Cut) => {
                write_all(&mut stdout, b"cut\n")?;
                break;
            }
            // what was not read whole has no sums, and says so
            Err(Stop::Broken(_)) => {
                let _ = write_all(
                    &mut rt.stderr(),
                    b"the input could not be read: the sums are left out\n",
                );
                return Ok(());
            }
        };
        frames += 1;
        if let Said::Record = say_call(&mut stdout, frame)? {
            records += 1;
        }
    }
    writeln!(
        stdout,
        "frames {frames} ok {records} no {}",
        frames - records
    )
}
