// The entry points, called one after another: README.md and docs/LINK.md show the marked lines.
#![tactic(auto)]

ghost use Rattle.std.specs.Prelude.{◌≡◌, length};

use clock::WriteRefusal;
use lines::Fed;
use std::io;
use std::io::Write;

// How many bytes the link brings at a time.
const FRAGMENT: usize = 16;

fn show(out: &mut impl Write, line: &[u8]) -> io::Result<()> {
    console::write_all(out, line)?;
    console::write_all(out, b"\n")
}

fn show_written(
    out: &mut impl Write,
    room: &[u8],
    wrote: Result<usize, WriteRefusal>,
) -> io::Result<()> {
    match wrote {
        Ok(len) => show(out, console::front(room, len)),
        Err(_) => Ok(()),
    }
}

fn show_same(out: &mut impl Write, same: bool) -> io::Result<()> {
    match same {
        true => show(out, b"one clock"),
        false => show(out, b"two clocks"),
    }
}

fn show_fed(out: &mut impl Write, room: &[u8], fed: Fed) -> io::Result<()> {
    match fed.filling {
        Ok(len) => console::write_all(out, console::front(room, len)),
        Err(why) => writeln!(out, "refused with {}", lines::refusal_number(why)),
    }
}

// Room for whatever a call prints: six bytes for each byte of a fragment and of the open line, of which 4,098 are kept.
fn room_for_fragment() -> [u8; 24684]
    ensures { 24684 ≡ length result }
{
    [0; 24684]
}

fn call_on_values<'a>(out: &mut impl Write, value: &'a [u8], other: &'a [u8]) -> io::Result<()> {
    let mut room = [0u8; 1026];
    // What you call: begin
    // a value is read, its record written back, and two values are compared
    let Ok(clock) = refclk::read_reference_clock(value) else {
        return Ok(());
    };
    let wrote = writing::write_reference_clock(clock, value, &mut room);
    show_written(out, &room, wrote)?;
    show_same(out, questions::same_clock(value, other))?;
    show(out, questions::governing_clock(other, value))?;
    // What you call: end
    Ok(())
}

fn call_on_lines(out: &mut impl Write, text: &[u8]) -> io::Result<()> {
    let mut space = room_for_fragment();
    let room: &mut [u8] = &mut space;
    // Lines over a link: begin
    let mut memory = lines::open_line();
    let mut state = lines::start();
    for fragment in text.chunks(FRAGMENT) {
        let fed = lines::feed(state, &mut memory, fragment, room);
        state = fed.state;
        show_fed(out, room, fed)?;
    }
    let last = lines::close(state, &memory, room);
    show_fed(out, room, last)?;
    // Lines over a link: end
    Ok(())
}

fn main(rt: HostRuntime) -> io::Result<()> {
    let mut stdout = rt.stdout();
    call_on_values(
        &mut stdout,
        b"ntp=time.example:+080",
        b"ntp=time.example:80",
    )?;
    call_on_lines(&mut stdout, b"a=mediaclk:direct=+0\ns=demo\n")
}
