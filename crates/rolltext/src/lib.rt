// What is printed of a roll: a line for each clock, a line for each domain number that has streams, and the totals.
#![tactic(auto)]

ghost use Rattle.std.specs.Prelude.{◌≡◌, ◌++◌, ◌*◌, ◌≤◌, length};
ghost use Rattle.number.specs.Decimal.{decimal};
ghost use Rattle.meaning.specs.ReferenceClock.{read_reference_clock};
ghost use Rattle.meaning.specs.Text.{reference_clock_text};
ghost use Rattle.room.specs.Put.{Put};
ghost use Rattle.rolltext.specs.Printing.{in_turn, counted_text, clock_line, domain_text, domain_line};
ghost use Rattle.rolltext.specs.Printing.{counts_text, totals_text, totals_line, roll_text, warning_text};
ghost use Rattle.rolltext.specs.Private.Front.{totals_front, totals_most};

use clock::ReferenceClock;
use counts::Census;
use roll::Roll;

// A count, the text of the clock that it is of, and LF.
fn put_counted(room: &mut [u8], at: usize, n: u32, value: &[u8], clock: ReferenceClock) -> usize
    requires { Ok clock ≡ read_reference_clock value.now }
    ensures { Put 1038 room.old at (counted_text n (reference_clock_text value.now clock)) result room.new }
{
    let space = digits::put_decimal(room, at, n);
    let text = room::put_byte(room, space, b' ');
    let end = reftext::put_clock(room, text, value, clock);
    room::put_byte(room, end, b'\n')
}

// The line of a slot.
fn put_clock(room: &mut [u8], at: usize, memory: &[u8], i: u16) -> usize
    ensures { Put 1038 room.old at (clock_line memory.now i) result room.new }
{
    let n = slots::streams_at(memory, i);
    if n == 0 {
        return at;
    }
    let value = slots::value_at(memory, i);
    let read = refclk::read_reference_clock(value);
    let Ok(clock) = read else {
        return at;
    };
    put_counted(room, at, n, value, clock)
}

// The lines of the first slots, from the room's front on.
fn put_clocks(room: &mut [u8], memory: &[u8], used: u16) -> usize
    ensures { Put (used * 1038) room.old 0 (in_turn used (clock_line memory.now)) result room.new }
{
    let mut at: usize = 0;
    let mut i: u16 = 0;
    while i < used {
        at = put_clock(room, at, memory, i);
        i += 1;
    }
    at
}

// A word of at most 11 bytes, and a number of at most 20 digits behind it.
fn put_item(room: &mut [u8], at: usize, word: &[u8], n: u64) -> usize
    requires { length word.now ≤ 11 }
    ensures { Put 31 room.old at (word.now ++ decimal n) result room.new }
{
    let number = room::put_bytes(room, at, word);
    digits::put_decimal_u64(room, number, n)
}

// A domain number, and how many streams have it.
fn put_in_domain(room: &mut [u8], at: usize, number: u64, n: u64) -> usize
    ensures { Put 63 room.old at (domain_text number n) result room.new }
{
    let space = put_item(room, at, b"domain ", number);
    let end = put_item(room, space, b" ", n);
    room::put_byte(room, end, b'\n')
}

// The line of a domain number.
fn put_domain(room: &mut [u8], at: usize, census: Census, number: u8) -> usize
    ensures { Put 63 room.old at (domain_line census number) result room.new }
{
    let n = counts::in_domain(census, number);
    if n == 0 {
        return at;
    }
    put_in_domain(room, at, number as u64, n as u64)
}

// The lines of the domain numbers.
fn put_domains(room: &mut [u8], from: usize, census: Census) -> usize
    ensures { Put (128 * 63) room.old from (in_turn 128 (domain_line census)) result room.new }
{
    let mut at = from;
    let mut number: u8 = 0;
    while number < 128 {
        at = put_domain(room, at, census, number);
        number += 1;
    }
    at
}

// The line of the totals, as far as the clocks.
fn put_front(room: &mut [u8], at: usize, lines: u32, streams: u32, clocks: u32) -> usize
    ensures { Put 93 room.old at (totals_front lines streams clocks) result room.new }
{
    let second = put_item(room, at, b"lines ", lines as u64);
    let third = put_item(room, second, b" streams ", streams as u64);
    put_item(room, third, b" clocks ", clocks as u64)
}

// As far as the refused streams.
fn put_most(
    room: &mut [u8],
    at: usize,
    lines: u32,
    streams: u32,
    clocks: u32,
    counted: u64,
    refused: u32,
) -> usize
    ensures { Put 155 room.old at (totals_most lines streams clocks counted refused) result room.new }
{
    let fourth = put_front(room, at, lines, streams, clocks);
    let fifth = put_item(room, fourth, b" counted ", counted);
    put_item(room, fifth, b" refused ", refused as u64)
}

// The whole line, its numbers given.
fn put_numbers(
    room: &mut [u8],
    at: usize,
    lines: u32,
    streams: u32,
    clocks: u32,
    counted: u64,
    refused: u32,
    uncounted: u32,
) -> usize
    ensures { Put 187 room.old at (totals_text lines streams clocks counted refused uncounted) result room.new }
{
    let sixth = put_most(room, at, lines, streams, clocks, counted, refused);
    let end = put_item(room, sixth, b" uncounted ", uncounted as u64);
    room::put_byte(room, end, b'\n')
}

// The line of the totals.
fn put_totals(room: &mut [u8], at: usize, roll: Roll, memory: &[u8]) -> usize
    ensures { Put 187 room.old at (totals_line roll memory.now) result room.new }
{
    let census = roll.census;
    let clocks = asking::clocks(census, memory);
    let counted = asking::clock_sum(census, memory);
    put_numbers(
        room,
        at,
        roll.lines,
        roll.streams,
        clocks,
        counted,
        census.refused,
        roll.uncounted,
    )
}

// The lines of a census, from the room's front on: at most 1,038 bytes for each of 255 clocks and 63 for each of 128 domain numbers.
pub fn put_counts(room: &mut [u8], census: Census, memory: &[u8]) -> usize
    ensures { Put 272754 room.old 0 (counts_text census memory.now) result room.new }
{
    let domains = put_clocks(room, memory, counts::used_slots(census));
    put_domains(room, domains, census)
}

// All that is printed of a roll, from the room's front on: at most 187 bytes more for the totals.
pub fn put_roll(room: &mut [u8], roll: Roll, memory: &[u8]) -> usize
    ensures { Put 272941 room.old 0 (roll_text roll memory.now) result room.new }
{
    let census = roll.census;
    let totals = put_counts(room, census, memory);
    put_totals(room, totals, roll, memory)
}

// What is said where streams could not be counted.
pub fn put_warning(room: &mut [u8], uncounted: u32) -> usize
    ensures { Put 67 room.old 0 (warning_text uncounted) result room.new }
{
    if uncounted == 0 {
        return 0;
    }
    let number = room::put_bytes(room, 0, b"streams not counted: ");
    let why = digits::put_decimal(room, number, uncounted);
    room::put_bytes(room, why, b", as there are more than 255 clocks\n")
}
