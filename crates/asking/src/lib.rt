// The questions that a census answers from its memory.
#![tactic(auto)]

ghost use Rattle.std.specs.Prelude.{◌≡◌};
ghost use Rattle.slots.specs.Slot.{taken_slots, stream_sum};
ghost use Rattle.counts.specs.State.{used_in};
ghost use Rattle.asking.specs.Asking.{AsksStreams};
ghost use Rattle.asking.specs.Private.Clock.{AsksClock};

use clock::ReferenceClock;
use counts::Census;
use streams::{LEAST_MEMORY, Uncounted};

// How many streams a clock has.
fn streams_of_clock(census: Census, memory: &[u8], value: &[u8], clock: ReferenceClock) -> u32
    ensures { AsksClock census memory.now value.now clock result }
{
    let used = counts::used_slots(census);
    let i = slots::find(memory, used, value, clock);
    if i < used {
        return slots::streams_at(memory, i);
    }
    0
}

// How many streams the clock of a value has: none where the value is refused.
pub fn streams_of(census: Census, memory: &[u8], value: &[u8]) -> Result<u32, Uncounted>
    ensures { AsksStreams census memory.now value.now result }
{
    if memory.len() < LEAST_MEMORY {
        return Err(Uncounted::NoMemory);
    }
    let read = refclk::read_reference_clock(value);
    let Ok(clock) = read else {
        return Ok(0);
    };
    Ok(streams_of_clock(census, memory, value, clock))
}

// How many clocks have streams.
pub fn clocks(census: Census, memory: &[u8]) -> u32
    ensures { result ≡ taken_slots memory.now (used_in census) }
{
    slots::count_taken(memory, counts::used_slots(census))
}

// The counts of the clocks, added up.
pub fn clock_sum(census: Census, memory: &[u8]) -> u64
    ensures { result ≡ stream_sum memory.now (used_in census) }
{
    slots::sum_streams(memory, counts::used_slots(census))
}
