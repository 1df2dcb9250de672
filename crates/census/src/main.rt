// Counts the streams of a session text by their clocks. Standard input is read in fragments and cut into lines; what is counted of a line, and all that
// is printed, is in `roll` and `rolltext`.
#![tactic(auto)]

ghost use Rattle.std.specs.Prelude.{◌≡◌, ◌≤◌, length};
ghost use Rattle.std.specs.Io.Take.{take_limit};

use console::write_all;
use roll::Roll;
use std::io;
use std::io::{Read, Take, Write};

// How many bytes a text may have: of a longer input no more are read.
const MOST_READ: u64 = 4294967295;

// The bytes of the line that has not ended yet, at the front. No more are kept than there is room for: a line of so many is no clock line whatever
// follows.
#[derive(Drop)]
struct OpenLine {
    bytes: [u8; 4098],
    len: usize,
    ghost within: { len ≤ 4098 },
}

impl OpenLine {
    fn new() -> OpenLine {
        OpenLine {
            bytes: [0; 4098],
            len: 0,
        }
    }

    // The line grows by a part.
    fn keep(&mut self, part: &[u8]) {
        let n = part.len().min(self.bytes.len() - self.len);
        self.bytes[self.len..self.len + n].copy_from_slice(&part[..n]);
        self.len += n;
    }

    fn kept(&self) -> &[u8] {
        &self.bytes[..self.len]
    }
}

// The memory of the census.
fn slots() -> [u8; 270000]
    ensures { 270000 ≡ length result }
{
    [0; 270000]
}

// How many bytes are read at a time at most.
fn fragment() -> [u8; 8192]
    ensures { 8192 ≡ length result }
{
    [0; 8192]
}

// Room for all that is printed.
fn output() -> [u8; 272941]
    ensures { 272941 ≡ length result }
{
    [0; 272941]
}

// A line that an LF ended.
fn take_ended(roll: Roll, memory: &mut [u8], raw: &[u8]) -> Roll {
    roll::take_line(
        roll,
        memory,
        console::front(raw, lineend::length_without_cr(raw)),
    )
}

// The open line ends with a part. Where all of it lies in the part, it is taken where it lies.
fn end_line(roll: Roll, memory: &mut [u8], open: &mut OpenLine, part: &[u8]) -> Roll {
    if open.len == 0 {
        return take_ended(roll, memory, part);
    }
    open.keep(part);
    let after = take_ended(roll, memory, open.kept());
    open.len = 0;
    after
}

// A fragment is cut into lines, of which there are no more than bytes, and what is open behind the last one is kept.
#[tactic(auto, using(text::proofs::Cuts::before_le))]
fn cut_fragment(begun: Roll, memory: &mut [u8], open: &mut OpenLine, text: &[u8]) -> Roll {
    let mut roll = begun;
    let mut rest = text;
    for _ in 0..text.len() {
        let (line, [_, left @ ..]) = rest.split_at(search::find_far(rest, b'\n')) else {
            break;
        };
        roll = end_line(roll, memory, open, line);
        rest = left;
    }
    open.keep(rest);
    roll
}

// The end of the text: a last line that no LF ended counts where it is not empty.
fn take_last(roll: Roll, memory: &mut [u8], open: &OpenLine) -> Roll {
    if open.len == 0 {
        return roll;
    }
    roll::take_line(roll, memory, open.kept())
}

// No more bytes are read than a text may have.
fn take_text<R: Read + Drop>(mut input: Take<R>, memory: &mut [u8]) -> io::Result<Roll>
    requires { take_limit input ≤ 4294967295 }
{
    let mut space = fragment();
    let mut open = OpenLine::new();
    let mut roll = roll::start();
    for _ in 0..MOST_READ {
        let n = input.read(&mut space)?;
        if n == 0 {
            break;
        }
        roll = cut_fragment(roll, memory, &mut open, &space[..n]);
    }
    Ok(take_last(roll, memory, &open))
}

// Counts that are not those of the whole text have no totals, and this is said.
fn say_broken(errors: &mut impl Write) {
    let _ = write_all(
        errors,
        b"the input could not be read, or the output not written: the census is not whole\n",
    );
}

// What was counted is printed; where streams were not counted, that is said too. No call is refused but for the number of clocks: the memory is long
// enough, and a text that is read has fewer streams than may be counted.
fn print(out: &mut impl Write, errors: &mut impl Write, roll: Roll, memory: &[u8]) {
    let mut room = output();
    let len = rolltext::put_roll(&mut room, roll, memory);
    if write_all(out, console::front(&room, len)).is_err() {
        say_broken(errors);
    }
    let said = rolltext::put_warning(&mut room, roll.uncounted);
    let _ = write_all(errors, console::front(&room, said));
}

fn main(rt: HostRuntime) {
    let mut memory = slots();
    match take_text(rt.stdin().take(MOST_READ), &mut memory) {
        Ok(roll) => print(&mut rt.stdout(), &mut rt.stderr(), roll, &memory),
        Err(_) => say_broken(&mut rt.stderr()),
    }
}
