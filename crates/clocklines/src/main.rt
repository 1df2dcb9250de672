// Prints an answer for each line of standard input, which is read in fragments, and the totals.
#![tactic(auto)]

ghost use Rattle.std.specs.Prelude.{◌≡◌, ◌≤◌, length};
ghost use Rattle.std.specs.Io.Take.{take_limit};

use console::write_all;
use lines::Unfed;
use std::io;
use std::io::{ErrorKind, Read, Take, Write};

// How many bytes are read at a time at most.
fn fragment() -> [u8; 8192]
    ensures { 8192 ≡ length result }
{
    [0; 8192]
}

// Room for whatever a fragment of 8,192 bytes prints, so that nothing is measured: six bytes for each of its bytes and of the open line's 4,098.
fn output() -> [u8; 73740]
    ensures { 73740 ≡ length result }
{
    [0; 73740]
}

// No call is refused: there is room, and no more is read than a text may have.
fn write_filling(
    out: &mut impl Write,
    room: &[u8],
    filling: Result<usize, Unfed>,
) -> io::Result<()> {
    match filling {
        Ok(len) => write_all(out, console::front(room, len)),
        Err(_) => Err(io::Error::from(ErrorKind::InvalidInput)),
    }
}

// No more bytes are read than a text may have.
fn print_report<R: Read + Drop>(mut input: Take<R>, out: &mut impl Write) -> io::Result<()>
    requires { take_limit input ≤ 4294967295 }
{
    let mut memory = lines::open_line();
    let mut space = fragment();
    let mut room = output();
    let mut state = lines::start();
    for _ in 0..lines::MOST_READ {
        let n = input.read(&mut space)?;
        if n == 0 {
            break;
        }
        let fed = lines::feed(state, &mut memory, &space[..n], &mut room);
        state = fed.state;
        write_filling(out, &room, fed.filling)?;
    }
    let last = lines::close(state, &memory, &mut room);
    write_filling(out, &room, last.filling)
}

fn main(rt: HostRuntime) {
    // of a longer input only so many bytes are read
    let input = rt.stdin().take(lines::MOST_READ as u64);
    if print_report(input, &mut rt.stdout()).is_err() {
        // a report that is not whole has no totals, and says so
        let _ = write_all(
            &mut rt.stderr(),
            b"the input could not be read, or the output not written: the report is not whole\n",
        );
    }
}
