// Reads frames from standard input, each a call of a census, and prints the line of each. A frame is a letter and what belongs to it: `s` and four
// bytes, a fresh census that is lent so many bytes of memory; `c`, `w` or `q` and a value, which is counted, withdrawn, or whose streams are asked
// for; `j` and two values, the first joined into the second; `d` and a byte, the streams of a domain; `t`, the totals. A value is its length in two
// bytes, and its bytes; numbers have the high byte first. A frame that ends early, begins with another letter or asks for too much memory prints
// `cut`, and nothing more is read. The last line has the number of calls. Of a longer input the first 4,294,967,295 frames are read.
#![tactic(auto)]

ghost use Rattle.std.specs.Prelude.{◌≡◌, length};

use console::write_all;
use counts::{Called, Census};
use frames::{Held, Stop};
use std::io;
use std::io::{Read, Write};
use streams::{LEAST_MEMORY, Uncounted};

const MOST_CALLS: u64 = 4294967295;

// How many bytes a census may be lent.
const MOST_MEMORY: usize = 300000;

// From so many bytes on what is held is printed: there is room behind them for the longest line, of 66 bytes.
const MUCH_HELD: usize = 65000;

// A fresh census that is lent so many bytes, or a call of the census that there is, with its values.
#[derive(Clone, Copy)]
enum Call<'a> {
    Start(usize),
    Count(&'a [u8]),
    Withdraw(&'a [u8]),
    Join { from: &'a [u8], into: &'a [u8] },
    StreamsOf(&'a [u8]),
    StreamsIn(u8),
    Totals,
}

// The census that there is, and how many bytes of memory it is lent.
#[derive(Clone, Copy)]
struct Current {
    census: Census,
    lent: usize,
}

// How many calls were answered, and whether a cut one follows.
#[derive(Clone, Copy)]
struct Answered {
    calls: u64,
    cut: bool,
}

// A census is lent the front of it. A fresh one leaves there what the last one left: memory of any contents does no harm.
fn census_memory() -> [u8; 300000]
    ensures { 300000 ≡ length result }
{
    [0; 300000]
}

fn read_start<'a>(input: &mut impl Read) -> Result<Call<'a>, Stop> {
    let lent = frames::read_number(input)? as usize;
    if MOST_MEMORY < lent {
        return Err(Stop::Cut);
    }
    Ok(Call::Start(lent))
}

fn read_domain<'a>(input: &mut impl Read) -> Result<Call<'a>, Stop> {
    let mut domain = [0u8; 1];
    frames::read_more(input, &mut domain)?;
    Ok(Call::StreamsIn(domain[0]))
}

fn read_call<'a>(
    input: &mut impl Read,
    first: &'a mut [u8],
    second: &'a mut [u8],
) -> Result<Call<'a>, Stop> {
    let mut letter = [0u8; 1];
    frames::read_head(input, &mut letter)?;
    match letter[0] {
        b's' => read_start(input),
        b'c' => Ok(Call::Count(frames::read_value(input, first)?)),
        b'w' => Ok(Call::Withdraw(frames::read_value(input, first)?)),
        b'q' => Ok(Call::StreamsOf(frames::read_value(input, first)?)),
        b'j' => Ok(Call::Join {
            from: frames::read_value(input, first)?,
            into: frames::read_value(input, second)?,
        }),
        b'd' => read_domain(input),
        b't' => Ok(Call::Totals),
        _ => Err(Stop::Cut),
    }
}

fn put_refusal(held: &mut Held, why: Uncounted) -> io::Result<()> {
    writeln!(held, "no {}", streams::refusal_number(why))
}

// What a call that may change the census answered: that it was done, or its refusal.
fn put_called(held: &mut Held, census: &mut Census, called: Called, done: &[u8]) -> io::Result<()> {
    *census = called.census;
    match called.verdict {
        Ok(()) => write_all(held, done),
        Err(why) => put_refusal(held, why),
    }
}

fn put_streams(held: &mut Held, asked: Result<u32, Uncounted>) -> io::Result<()> {
    match asked {
        Ok(n) => writeln!(held, "streams {n}"),
        Err(why) => put_refusal(held, why),
    }
}

fn put_totals(held: &mut Held, census: Census, memory: &[u8]) -> io::Result<()> {
    let clocks = asking::clocks(census, memory);
    let streams = asking::clock_sum(census, memory);
    let refused = census.refused;
    writeln!(held, "clocks {clocks} streams {streams} refused {refused}")
}

// Does a call, and holds its line.
fn answer(call: Call, current: &mut Current, memory: &mut [u8], held: &mut Held) -> io::Result<()> {
    // all of it: the memory has as many bytes as may be lent
    let most = current.lent.min(memory.len());
    let memory = &mut memory[..most];
    let census = current.census;
    match call {
        Call::Start(lent) => {
            *current = Current {
                census: counts::start(),
                lent,
            };
            write_all(held, b"started\n")
        }
        Call::Count(value) => put_called(
            held,
            &mut current.census,
            counting::count(census, memory, value),
            b"counted\n",
        ),
        Call::Withdraw(value) => put_called(
            held,
            &mut current.census,
            withdrawing::withdraw(census, memory, value),
            b"withdrawn\n",
        ),
        Call::Join { from, into } => put_called(
            held,
            &mut current.census,
            joining::join(census, memory, from, into),
            b"joined\n",
        ),
        Call::StreamsOf(value) => put_streams(held, asking::streams_of(census, memory, value)),
        Call::StreamsIn(domain) => writeln!(held, "domain {}", counts::in_domain(census, domain)),
        Call::Totals => put_totals(held, census, memory),
    }
}

fn answer_all(input: &mut impl Read, out: &mut impl Write) -> io::Result<Answered> {
    let mut memory = census_memory();
    let mut first = console::large_buffer();
    let mut second = console::large_buffer();
    let mut held = Held::new();
    let mut current = Current {
        census: counts::start(),
        lent: LEAST_MEMORY,
    };
    let mut calls: u64 = 0;
    let mut cut = false;
    for _ in 0..MOST_CALLS {
        let call = match read_call(input, &mut first, &mut second) {
            Ok(call) => call,
            Err(stop) => {
                cut = stop.is_cut()?;
                break;
            }
        };
        answer(call, &mut current, &mut memory, &mut held)?;
        calls += 1;
        held.print_much(out, MUCH_HELD)?;
    }
    held.print(out)?;
    Ok(Answered { calls, cut })
}

fn say_calls(out: &mut impl Write, answered: Answered) -> io::Result<()> {
    if answered.cut {
        write_all(out, b"cut\n")?;
    }
    writeln!(out, "calls {}", answered.calls)
}

fn main(rt: HostRuntime) -> io::Result<()> {
    let mut stdout = rt.stdout();
    let Ok(answered) = answer_all(&mut rt.stdin(), &mut stdout) else {
        // what was not read or not written whole has no count, and says so
        let _ = write_all(
            &mut rt.stderr(),
            b"the input could not be read, or the output not written: the count is left out\n",
        );
        return Ok(());
    };
    say_calls(&mut stdout, answered)
}
