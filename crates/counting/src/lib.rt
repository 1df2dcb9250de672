// A stream is counted by its value.
#![tactic(auto)]

ghost use Rattle.std.specs.Prelude.{◌≡◌, max};
ghost use Rattle.meaning.specs.ReferenceClock.{read_reference_clock};
ghost use Rattle.counts.specs.Outcome.{done_with, Does};
ghost use Rattle.counting.specs.Counting.{one_refused_more, count_known, count_new, Counts};
ghost use Rattle.counting.specs.Private.Clock.{CountsClock};

use clock::ReferenceClock;
use counts::{Called, Census};
use streams::{LEAST_MEMORY, MOST_CLOCKS, MOST_STREAMS, Uncounted};

// The clock has a slot: one stream more there.
fn count_known(census: Census, memory: &mut [u8], i: u16, clock: ReferenceClock) -> Called
    ensures { Does (count_known census memory.old clock i) census memory.old result memory.new }
{
    let n = slots::streams_at(memory, i);
    slots::set_streams(memory, i, counts::plus(n, 1));
    counts::done(counts::one_more(census, clock))
}

// The first stream of a clock gets a slot.
fn count_new(census: Census, memory: &mut [u8], value: &[u8], clock: ReferenceClock) -> Called
    requires { read_reference_clock value.now ≡ Ok clock }
    ensures { Does (count_new census memory.old value.now clock) census memory.old result memory.new }
{
    let used = counts::used_slots(census);
    let i = slots::find_free(memory, used);
    if MOST_CLOCKS <= i {
        return counts::refused(census, Uncounted::ClocksFull);
    }
    slots::set_slot(memory, i, value, equal::fingerprint(value, clock), 1);
    let mut after = counts::one_more(census, clock);
    after.used = greatest(used, i + 1);
    counts::done(after)
}

fn greatest(a: u16, b: u16) -> u16
    ensures { result ≡ max a b }
{
    if a < b { b } else { a }
}

// A stream of an accepted value.
fn count_clock(census: Census, memory: &mut [u8], value: &[u8], clock: ReferenceClock) -> Called
    requires { read_reference_clock value.now ≡ Ok clock }
    ensures { CountsClock census memory.old value.now clock result memory.new }
{
    let used = counts::used_slots(census);
    let i = slots::find(memory, used, value, clock);
    if i < used {
        return count_known(census, memory, i, clock);
    }
    count_new(census, memory, value, clock)
}

// A stream of a refused value.
fn count_refused(census: Census) -> Called
    ensures { result ≡ done_with (one_refused_more census) }
{
    let mut after = census;
    after.total = counts::plus(census.total, 1);
    after.refused = counts::plus(census.refused, 1);
    counts::done(after)
}

pub fn count(census: Census, memory: &mut [u8], value: &[u8]) -> Called
    ensures { Counts census memory.old value.now result memory.new }
{
    if memory.len() < LEAST_MEMORY {
        return counts::refused(census, Uncounted::NoMemory);
    }
    if MOST_STREAMS <= census.total {
        return counts::refused(census, Uncounted::TotalFull);
    }
    let read = refclk::read_reference_clock(value);
    let Ok(clock) = read else {
        return count_refused(census);
    };
    count_clock(census, memory, value, clock)
}
