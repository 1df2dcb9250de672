// What follows `IEEE1722=` in a mediaclk value: the EUI-64 of a stream.
#![tactic(auto)]

ghost use Rattle.std.specs.Prelude.{◌≡◌};
ghost use Rattle.meaning.specs.MediaClock.{broken_number, stream_of};

use clock::{Eui64, Refusal};
use eui64::BrokenRule;

// The number of the refusal for the rule that a text breaks.
fn broken_number(rule: BrokenRule) -> u8
    ensures { result ≡ broken_number rule }
{
    match rule {
        BrokenRule::Length => 19,
        BrokenRule::SegmentLength => 20,
        BrokenRule::SegmentDigits => 21,
    }
}

// The text starts at the place `at` of the whole value. From a place of 32 bits on no place overflows, however long the text is.
pub fn read_stream(p: &[u8], at: u32) -> Result<Eui64, Refusal>
    ensures { result ≡ stream_of at p.now }
{
    match eui64::read_eui64(p) {
        Ok(id) => Ok(Eui64 { id }),
        Err(fault) => {
            let number = broken_number(fault.rule);
            let start = at as usize + fault.place.start;
            Err(Refusal::new(number, start, fault.place.len))
        }
    }
}
