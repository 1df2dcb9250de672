// A clock is joined into another: its streams are then the other's.
#![tactic(auto)]

ghost use Rattle.std.specs.Prelude.{◌≡◌};
ghost use Rattle.counts.specs.Outcome.{Does};
ghost use Rattle.joining.specs.Joining.{Moves, join_slots, Joins};
ghost use Rattle.joining.specs.Private.Clock.{Adds, JoinsClocks};

use clock::ReferenceClock;
use counts::{Called, Census};
use streams::{LEAST_MEMORY, Uncounted};

// The slot j gets the streams of the slot i too. Their number is answered.
fn add_streams(memory: &mut [u8], i: u16, j: u16) -> u32
    ensures { Adds memory.old i j result memory.new }
{
    let others = slots::streams_at(memory, j);
    let n = slots::streams_at(memory, i);
    slots::set_streams(memory, j, counts::plus(others, n));
    n
}

// And the slot i has none then: it is free.
pub fn move_streams(memory: &mut [u8], i: u16, j: u16) -> u32
    ensures { Moves memory.old i j result memory.new }
{
    let n = add_streams(memory, i, j);
    slots::set_streams(memory, i, 0);
    n
}

// The clock of the slot i is joined into that of the slot j.
fn join_slots(
    census: Census,
    memory: &mut [u8],
    i: u16,
    from: ReferenceClock,
    j: u16,
    into: ReferenceClock,
) -> Called
    ensures { Does (join_slots census memory.old i from j into) census memory.old result memory.new }
{
    if i == j {
        return counts::done(census);
    }
    let n = move_streams(memory, i, j);
    let left = counts::take_from_domain(census, naming::domain_number(from), n);
    counts::done(counts::add_to_domain(left, naming::domain_number(into), n))
}

// The clocks of two accepted values.
fn join_clocks(
    census: Census,
    memory: &mut [u8],
    a: &[u8],
    from: ReferenceClock,
    b: &[u8],
    into: ReferenceClock,
) -> Called
    ensures { JoinsClocks census memory.old a.now from b.now into result memory.new }
{
    let used = counts::used_slots(census);
    let i = slots::find(memory, used, a, from);
    if used <= i {
        return counts::refused(census, Uncounted::NoStream);
    }
    let j = slots::find(memory, used, b, into);
    if used <= j {
        return counts::refused(census, Uncounted::NoStream);
    }
    join_slots(census, memory, i, from, j, into)
}

// The clock that a names is joined into the one that b names.
pub fn join(census: Census, memory: &mut [u8], a: &[u8], b: &[u8]) -> Called
    ensures { Joins census memory.old a.now b.now result memory.new }
{
    if memory.len() < LEAST_MEMORY {
        return counts::refused(census, Uncounted::NoMemory);
    }
    let first = refclk::read_reference_clock(a);
    let Ok(from) = first else {
        return counts::refused(census, Uncounted::NoStream);
    };
    let second = refclk::read_reference_clock(b);
    let Ok(into) = second else {
        return counts::refused(census, Uncounted::NoStream);
    };
    join_clocks(census, memory, a, from, b, into)
}
