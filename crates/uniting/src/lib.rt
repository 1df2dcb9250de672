// The clocks of a census that are one are joined: a census that was filled under a rule that told more clocks apart is one under today's then.
#![tactic(auto)]

ghost use Rattle.std.specs.Prelude.{◌≡◌};
ghost use Rattle.uniting.specs.Uniting.{reprinted, United, Unites};
ghost use Rattle.uniting.specs.Private.Step.{StepFor, UnitesSlot};

use counts::{Called, Census};
use streams::{LEAST_MEMORY, Uncounted};

// What is to be done with a slot: nothing; its streams go to another slot; it gets this fingerprint.
#[derive(Clone, Copy)]
enum Step {
    Stay,
    Move(u16),
    Print(u32),
}

// A slot of a clock that is there before it gives its streams away; any other has the fingerprint of today's rule.
fn step_for(memory: &[u8], i: u16) -> Step
    ensures { StepFor memory.now i result }
{
    if slots::streams_at(memory, i) == 0 {
        return Step::Stay;
    }
    let v = slots::value_at(memory, i);
    let read = refclk::read_reference_clock(v);
    let Ok(clock) = read else {
        return Step::Stay;
    };
    let j = slots::find(memory, i, v, clock);
    if j < i {
        return Step::Move(j);
    }
    Step::Print(equal::fingerprint(v, clock))
}

// A fingerprint is stored only where another one stands.
fn reprint(memory: &mut [u8], i: u16, print: u32)
    ensures { memory.new ≡ reprinted memory.old i print }
{
    if slots::print_at(memory, i) == print {
        return;
    }
    slots::set_print(memory, i, print);
}

fn unite_slot(memory: &mut [u8], i: u16)
    ensures { UnitesSlot memory.old i memory.new }
{
    let step = step_for(memory, i);
    match step {
        Step::Stay => {}
        Step::Move(j) => {
            joining::move_streams(memory, i, j);
        }
        Step::Print(print) => {
            reprint(memory, i, print);
        }
    }
}

// The first so many slots, one after another.
fn unite_slots(memory: &mut [u8], used: u16)
    ensures { United memory.old used memory.new }
{
    let mut i: u16 = 0;
    while i < used {
        unite_slot(memory, i);
        i += 1;
    }
}

// Every two clocks of a census that are one are joined. No count of the census changes by it, since one clock has one domain number.
pub fn unite(census: Census, memory: &mut [u8]) -> Called
    ensures { Unites census memory.old result memory.new }
{
    if memory.len() < LEAST_MEMORY {
        return counts::refused(census, Uncounted::NoMemory);
    }
    let used = counts::used_slots(census);
    unite_slots(memory, used);
    counts::done(census)
}
