// A stream is withdrawn by its value.
#![tactic(auto)]

ghost use Rattle.std.specs.Prelude.{◌≡◌, []};
ghost use Rattle.counts.specs.Outcome.{Does, called_with};
ghost use Rattle.withdrawing.specs.Withdrawing.{withdraw_known, withdraw_refused, Withdraws};
ghost use Rattle.withdrawing.specs.Private.Clock.{WithdrawsClock};

use clock::ReferenceClock;
use counts::{Called, Census};
use streams::{LEAST_MEMORY, Uncounted};

// The clock has a slot: one stream less there. A slot that has none then is free.
fn withdraw_known(census: Census, memory: &mut [u8], i: u16, clock: ReferenceClock) -> Called
    ensures { Does (withdraw_known census memory.old clock i) census memory.old result memory.new }
{
    let n = slots::streams_at(memory, i);
    slots::set_streams(memory, i, counts::minus(n, 1));
    counts::done(counts::one_less(census, clock))
}

// A stream of an accepted value.
fn withdraw_clock(census: Census, memory: &mut [u8], value: &[u8], clock: ReferenceClock) -> Called
    ensures { WithdrawsClock census memory.old value.now clock result memory.new }
{
    let used = counts::used_slots(census);
    let i = slots::find(memory, used, value, clock);
    if i < used {
        return withdraw_known(census, memory, i, clock);
    }
    counts::refused(census, Uncounted::NoStream)
}

// A stream of a refused value.
fn withdraw_refused(census: Census) -> Called
    ensures { result ≡ called_with (withdraw_refused census []) census }
{
    if census.refused == 0 {
        return counts::refused(census, Uncounted::NoStream);
    }
    let mut after = census;
    after.total = counts::minus(census.total, 1);
    after.refused = counts::minus(census.refused, 1);
    counts::done(after)
}

pub fn withdraw(census: Census, memory: &mut [u8], value: &[u8]) -> Called
    ensures { Withdraws census memory.old value.now result memory.new }
{
    if memory.len() < LEAST_MEMORY {
        return counts::refused(census, Uncounted::NoMemory);
    }
    let read = refclk::read_reference_clock(value);
    let Ok(clock) = read else {
        return withdraw_refused(census);
    };
    withdraw_clock(census, memory, value, clock)
}
