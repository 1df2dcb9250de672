// The roll of a session text: each line is taken into a census of the text's streams, and what could not be counted is counted beside it.
#![tactic(auto)]

ghost use Rattle.std.specs.Prelude.{◌≡◌};
ghost use Rattle.roll.specs.Taking.{fresh_roll, uncounted_by, with_line, TakesStream, TakesLine};

use briefreply::MOST_LINE_BYTES;
use counts::Census;
use streams::Uncounted;

// The census of the streams so far; how many lines and how many streams there were, and how many of the streams could not be counted.
#[derive(Clone, Copy)]
pub struct Roll {
    pub census: Census,
    pub lines: u32,
    pub streams: u32,
    pub uncounted: u32,
}

// The roll before any line, beside memory of any contents.
pub fn start() -> Roll
    ensures { result ≡ fresh_roll }
{
    Roll {
        census: counts::start(),
        lines: 0,
        streams: 0,
        uncounted: 0,
    }
}

// 1 for a stream that was not counted.
fn uncounted_by(verdict: Result<(), Uncounted>) -> u32
    ensures { result ≡ uncounted_by verdict }
{
    match verdict {
        Ok(()) => 0,
        Err(_) => 1,
    }
}

// A line that is no stream is one of the lines.
fn take_other(roll: Roll) -> Roll
    ensures { result ≡ with_line roll }
{
    let mut after = roll;
    after.lines = counts::plus(roll.lines, 1);
    after
}

// A stream is counted by its value, or is one of those that could not be.
fn take_stream(roll: Roll, memory: &mut [u8], value: &[u8]) -> Roll
    ensures { TakesStream roll memory.old value.now result memory.new }
{
    let before = roll.census;
    let called = counting::count(before, memory, value);
    let verdict = called.verdict;
    let census = called.census;
    Roll {
        census,
        lines: counts::plus(roll.lines, 1),
        streams: counts::plus(roll.streams, 1),
        uncounted: counts::plus(roll.uncounted, uncounted_by(verdict)),
    }
}

// A line without its end.
pub fn take_line(roll: Roll, memory: &mut [u8], line: &[u8]) -> Roll
    ensures { TakesLine roll memory.old line.now result memory.new }
{
    if MOST_LINE_BYTES < line.len() {
        return take_other(roll);
    }
    if text::has_prefix(line, b"a=ts-refclk:") {
        return take_stream(roll, memory, &line[12..]);
    }
    take_other(roll)
}
