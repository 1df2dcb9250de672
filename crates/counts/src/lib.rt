// The state of a census: the counts that stand by value beside its memory, and how they change.
#![tactic(auto)]

ghost use Rattle.std.specs.Prelude.{◌≡◌, ◌-◌};
ghost use Rattle.naming.specs.Domain.{or_none, domain_in};
ghost use Rattle.counts.specs.State.{census as censusOf, fresh_census, used_in, plus as capped, more, less, one_more, one_less, domain_count};
ghost use Rattle.counts.specs.Outcome.{done_with, refused_with};

use clock::ReferenceClock;
use streams::{MOST_CLOCKS, MOST_STREAMS, Uncounted};

// How many slots of the memory were ever used; all streams; those of refused values; those of each domain number.
#[derive(Clone, Copy)]
pub struct Census {
    pub used: u16,
    pub total: u32,
    pub refused: u32,
    pub domains: [u32; 128],
}

// What a call answers, and the census after it.
#[derive(Clone, Copy)]
pub struct Called {
    pub verdict: Result<(), Uncounted>,
    pub census: Census,
}

// The census before any call, beside memory of any contents.
pub fn start() -> Census
    ensures { result ≡ fresh_census }
{
    Census {
        used: 0,
        total: 0,
        refused: 0,
        domains: [0; 128],
    }
}

pub fn done(census: Census) -> Called
    ensures { result ≡ done_with census }
{
    Called {
        verdict: Ok(()),
        census,
    }
}

pub fn refused(census: Census, why: Uncounted) -> Called
    ensures { result ≡ refused_with census why }
{
    Called {
        verdict: Err(why),
        census,
    }
}

// How many slots are looked at.
pub fn used_slots(census: Census) -> u16
    ensures { result ≡ used_in census }
{
    let used = census.used;
    if MOST_CLOCKS < used {
        return MOST_CLOCKS;
    }
    used
}

// Sums and differences of counts stop at the most and at 0, which those of a census from the fresh one on never pass.
pub fn plus(a: u32, b: u32) -> u32
    ensures { result ≡ capped a b }
{
    if MOST_STREAMS - a < b {
        return MOST_STREAMS;
    }
    a + b
}

pub fn minus(a: u32, b: u32) -> u32
    ensures { result ≡ a - b }
{
    if a < b {
        return 0;
    }
    a - b
}

// A domain has n streams more; 128 is none.
pub fn add_to_domain(census: Census, domain: usize, n: u32) -> Census
    ensures { result ≡ censusOf census.used census.total census.refused (more domain n census.domains) }
{
    let mut after = census;
    if domain < 128 {
        let was = after.domains[domain];
        after.domains[domain] = plus(was, n);
        return after;
    }
    after
}

// Or n streams less.
pub fn take_from_domain(census: Census, domain: usize, n: u32) -> Census
    ensures { result ≡ censusOf census.used census.total census.refused (less domain n census.domains) }
{
    let mut after = census;
    if domain < 128 {
        let was = after.domains[domain];
        after.domains[domain] = minus(was, n);
        return after;
    }
    after
}

// One stream of a clock more, or less, in all counts but that of its slot.
pub fn one_more(census: Census, clock: ReferenceClock) -> Census
    ensures { result ≡ one_more (or_none (domain_in clock)) census }
{
    let mut after = add_to_domain(census, naming::domain_number(clock), 1);
    after.total = plus(census.total, 1);
    after
}

pub fn one_less(census: Census, clock: ReferenceClock) -> Census
    ensures { result ≡ one_less (or_none (domain_in clock)) census }
{
    let mut after = take_from_domain(census, naming::domain_number(clock), 1);
    after.total = minus(census.total, 1);
    after
}

// How many streams have clocks with this domain number.
pub fn in_domain(census: Census, number: u8) -> u32
    ensures { result ≡ domain_count census number }
{
    let d = number as usize;
    if 128 <= d {
        return 0;
    }
    census.domains[d]
}
