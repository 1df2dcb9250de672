// Joins the clocks of kept censuses that are one today. A kept census is what stands by value beside the memory, and the slots that were used: the
// number of slots in two bytes, the streams and the refused ones in four bytes each, the streams of each of 128 domain numbers in four bytes each, the
// high byte first; then 1,036 bytes for each slot. For each one that is read the lines of its clocks and domain numbers and its sums are printed as it
// came, and then as it is with its clocks joined. One that ends early or has over 255 slots prints `cut`, and nothing more is read. The last line has
// the number of those that were read and all their streams before and after. Of a longer input the first 4,294,967,295 are read.
#![tactic(auto)]

ghost use Rattle.std.specs.Prelude.{◌≡◌, length};

use console::write_all;
use counts::Census;
use frames::Stop;
use std::io;
use std::io::{Read, Write};
use streams::MOST_CLOCKS;

const MOST_CENSUSES: u64 = 4294967295;

// How many bytes a slot has.
const SLOT_SIZE: usize = 1036;

// All streams of censuses before and after, how many censuses there were, and whether a cut one follows. The sums stop at the largest number.
#[derive(Clone, Copy)]
struct Sums {
    censuses: u64,
    before: u64,
    after: u64,
    cut: bool,
}

fn slots() -> [u8; 270000]
    ensures { 270000 ≡ length result }
{
    [0; 270000]
}

// Room for the lines of the clocks and domain numbers, and for the sums.
fn output() -> [u8; 272846]
    ensures { 272846 ≡ length result }
{
    [0; 272846]
}

// The slots, so many bytes, stand at the front of the memory then.
fn read_census(input: &mut impl Read, memory: &mut [u8]) -> Result<Census, Stop> {
    let mut head = [0u8; 522];
    frames::read_head(input, &mut head)?;
    let used = u16::from_be_bytes([head[0], head[1]]);
    if MOST_CLOCKS < used {
        return Err(Stop::Cut);
    }
    frames::read_bytes(input, memory, used as usize * SLOT_SIZE)?;
    let mut domains = [0u32; 128];
    for (i, domain) in domains.iter_mut().enumerate() {
        *domain = quads::number_at(&head, 10 + 4 * i);
    }
    Ok(Census {
        used,
        total: quads::number_at(&head, 2),
        refused: quads::number_at(&head, 6),
        domains,
    })
}

// A word, and a number behind it.
fn put_item(room: &mut [u8], at: usize, word: &[u8], n: u64) -> usize {
    let number = room::put_bytes(room, at, word);
    digits::put_decimal_u64(room, number, n)
}

fn put_sums(room: &mut [u8], at: usize, when: &[u8], census: Census, memory: &[u8]) -> usize {
    let clocks = asking::clocks(census, memory);
    let counted = asking::clock_sum(census, memory);
    let first = room::put_bytes(room, at, when);
    let second = put_item(room, first, b" clocks ", clocks as u64);
    let third = put_item(room, second, b" counted ", counted);
    let fourth = put_item(room, third, b" refused ", census.refused as u64);
    let end = put_item(room, fourth, b" streams ", census.total as u64);
    room::put_byte(room, end, b'\n')
}

fn print_census(
    out: &mut impl Write,
    when: &[u8],
    census: Census,
    memory: &[u8],
    room: &mut [u8],
) -> io::Result<()> {
    let sums = rolltext::put_counts(room, census, memory);
    let end = put_sums(room, sums, when, census, memory);
    write_all(out, console::front(room, end))
}

fn streams_in(census: Census, memory: &[u8]) -> u64 {
    asking::clock_sum(census, memory).saturating_add(u64::from(census.refused))
}

// A uniting is refused for want of memory alone, and there is enough. What follows is printed also where what is before could not be.
fn unite_census(
    out: &mut impl Write,
    census: Census,
    memory: &mut [u8],
    room: &mut [u8],
    sums: &mut Sums,
) -> io::Result<()>
    ensures { sums.new.censuses ≡ sums.old.censuses }
{
    let first = print_census(out, b"before", census, memory, room);
    sums.before = sums.before.saturating_add(streams_in(census, memory));
    let united = uniting::unite(census, memory).census;
    let second = print_census(out, b"after", united, memory, room);
    sums.after = sums.after.saturating_add(streams_in(united, memory));
    first.and(second)
}

fn unite_all(input: &mut impl Read, out: &mut impl Write) -> io::Result<Sums> {
    let mut memory = slots();
    let mut room = output();
    let mut sums = Sums {
        censuses: 0,
        before: 0,
        after: 0,
        cut: false,
    };
    for _ in 0..MOST_CENSUSES {
        let census = match read_census(input, &mut memory) {
            Ok(census) => census,
            Err(stop) => {
                sums.cut = stop.is_cut()?;
                break;
            }
        };
        unite_census(out, census, &mut memory, &mut room, &mut sums)?;
        sums.censuses += 1;
    }
    Ok(sums)
}

fn say_sums(out: &mut impl Write, sums: Sums) -> io::Result<()> {
    if sums.cut {
        write_all(out, b"cut\n")?;
    }
    let Sums {
        censuses,
        before,
        after,
        ..
    } = sums;
    writeln!(out, "censuses {censuses} before {before} after {after}")
}

fn main(rt: HostRuntime) -> io::Result<()> {
    let mut stdout = rt.stdout();
    let Ok(sums) = unite_all(&mut rt.stdin(), &mut stdout) else {
        // what was not read or not written whole has no sums, and says so
        let _ = write_all(
            &mut rt.stderr(),
            b"the input could not be read, or the output not written: the sums are left out\n",
        );
        return Ok(());
    };
    say_sums(&mut stdout, sums)
}
