// Reads frames from standard input, each a call of the reader of lines as a serial link would make it, and prints the line of each. A frame is a letter
// and what belongs to it: `s`, a fresh reader; `f`, the room in four bytes, a length in four bytes and a fragment of that length; `x` and the room in four
// bytes, the closing call. Numbers have the high byte first. A call prints how many bytes it filled, and these bytes in base 16, or the number of its
// refusal. A frame that ends early, begins with another letter or asks for too much prints `cut`, and nothing more is read. The last line has the number of
// calls. Of a longer input the first 4,294,967,295 frames are read.
#![tactic(auto)]

ghost use Rattle.std.specs.Prelude.{◌≡◌, length};

use console::write_all;
use frames::{Held, Stop};
use lines::{Fed, State};
use std::io;
use std::io::{Read, Write};

const MOST_CALLS: u64 = 4294967295;

// How many bytes of room a call may lend. A fragment may have as many as a large buffer.
const MOST_ROOM: usize = 400000;

// From so many bytes on what is held is printed: there is room behind them for the digits of a part of what was filled, and for a word.
const MUCH_HELD: usize = 30000;

// So many of the bytes that were filled are printed at a time.
const PART: usize = 16384;

// A fresh reader; a fragment, or the closing call, with so many bytes of room.
#[derive(Clone, Copy)]
enum Call<'a> {
    Start,
    Feed { room: usize, fragment: &'a [u8] },
    Close { room: usize },
}

// How many calls were answered, and whether a cut one follows.
#[derive(Clone, Copy)]
struct Answered {
    calls: u64,
    cut: bool,
}

// A call is lent the front of it.
fn room_space() -> [u8; 400000]
    ensures { 400000 ≡ length result }
{
    [0; 400000]
}

fn read_fragment<'a>(input: &mut impl Read, space: &'a mut [u8]) -> Result<Call<'a>, Stop> {
    let room = frames::read_number(input)? as usize;
    let len = frames::read_number(input)? as usize;
    if MOST_ROOM < room {
        return Err(Stop::Cut);
    }
    let fragment = frames::read_bytes(input, space, len)?;
    Ok(Call::Feed { room, fragment })
}

fn read_closing<'a>(input: &mut impl Read) -> Result<Call<'a>, Stop> {
    let room = frames::read_number(input)? as usize;
    if MOST_ROOM < room {
        return Err(Stop::Cut);
    }
    Ok(Call::Close { room })
}

fn read_call<'a>(input: &mut impl Read, space: &'a mut [u8]) -> Result<Call<'a>, Stop> {
    let mut letter = [0u8; 1];
    frames::read_head(input, &mut letter)?;
    match letter[0] {
        b's' => Ok(Call::Start),
        b'f' => read_fragment(input, space),
        b'x' => read_closing(input),
        _ => Err(Stop::Cut),
    }
}

// The end of a line.
fn end_line(out: &mut impl Write, held: &mut Held) -> io::Result<()> {
    write_all(held, b"\n")?;
    held.print_much(out, MUCH_HELD)
}

// How many bytes were filled, and these in base 16, part by part.
fn hold_filled(out: &mut impl Write, filled: &[u8], held: &mut Held) -> io::Result<()> {
    write!(held, "filled {}", filled.len())?;
    if !filled.is_empty() {
        write_all(held, b" ")?;
    }
    for part in filled.chunks(PART) {
        held.put_hex(part);
        held.print_much(out, MUCH_HELD)?;
    }
    end_line(out, held)
}

// The line of a call.
fn hold_fed(out: &mut impl Write, fed: Fed, room: &[u8], held: &mut Held) -> io::Result<()> {
    match fed.filling {
        Ok(len) => hold_filled(out, console::front(room, len), held),
        Err(why) => {
            write!(held, "no {}", lines::refusal_number(why))?;
            end_line(out, held)
        }
    }
}

// Does a call, which is lent the front of the room, and holds its line. A fresh reader stands beside the memory as the last one left it: its contents do
// no harm.
fn answer(
    out: &mut impl Write,
    call: Call,
    state: &mut State,
    memory: &mut [u8; 4098],
    room: &mut [u8],
    held: &mut Held,
) -> io::Result<()> {
    match call {
        Call::Start => {
            *state = lines::start();
            write_all(held, b"started")?;
            end_line(out, held)
        }
        Call::Feed {
            room: lent,
            fragment,
        } => {
            let most = lent.min(room.len());
            let fed = lines::feed(*state, memory, fragment, &mut room[..most]);
            *state = fed.state;
            hold_fed(out, fed, room, held)
        }
        Call::Close { room: lent } => {
            let most = lent.min(room.len());
            let fed = lines::close(*state, memory, &mut room[..most]);
            *state = fed.state;
            hold_fed(out, fed, room, held)
        }
    }
}

fn answer_all(input: &mut impl Read, out: &mut impl Write) -> io::Result<Answered> {
    let mut memory = lines::open_line();
    let mut space = console::large_buffer();
    let mut room = room_space();
    let mut held = Held::new();
    let mut state = lines::start();
    let mut calls: u64 = 0;
    let mut cut = false;
    for _ in 0..MOST_CALLS {
        let call = match read_call(input, &mut space) {
            Ok(call) => call,
            Err(stop) => {
                cut = stop.is_cut()?;
                break;
            }
        };
        answer(out, call, &mut state, &mut memory, &mut room, &mut held)?;
        calls += 1;
    }
    held.print(out)?;
    Ok(Answered { calls, cut })
}

fn say_calls(out: &mut impl Write, answered: Answered) -> io::Result<()> {
    if answered.cut {
        write_all(out, b"cut\n")?;
    }
    writeln!(out, "calls {}", answered.calls)
}

fn main(rt: HostRuntime) -> io::Result<()> {
    let mut stdout = rt.stdout();
    let Ok(answered) = answer_all(&mut rt.stdin(), &mut stdout) else {
        // what was not read or not written whole has no count, and says so
        let _ = write_all(
            &mut rt.stderr(),
            b"the input could not be read, or the output not written: the count is left out\n",
        );
        return Ok(());
    };
    say_calls(&mut stdout, answered)
}
