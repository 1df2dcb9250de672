// An EUI-64 as text: 23 bytes, cut at each `-` into segments of two bytes, each a number of base 16.
#![tactic(auto)]

ghost use Rattle.std.specs.Prelude.{◌≡◌, ◌+◌, ◌≤◌, ◌<◌, eqb, length, drop, MatchOption, Err};
ghost use Rattle.text.specs.Find.{before};
ghost use Rattle.number.specs.Hex.{hex_digit};
ghost use Rattle.eui64.specs.Eui64.{high_digit, segment_of, eui64_of, refused};

use text::Place;

// The rule that a text breaks, and where: all of it, or the first segment that breaks it.
#[derive(Debug, Clone, Copy, PartialEq, Eq)]
pub struct Fault {
    pub rule: BrokenRule,
    pub place: Place,
}

#[derive(Debug, Clone, Copy, PartialEq, Eq)]
pub enum BrokenRule {
    Length,
    SegmentLength,
    SegmentDigits,
}

impl Fault {
    fn new(rule: BrokenRule, start: usize, len: usize) -> Fault
        ensures { Err result ≡ refused rule start len }
    {
        let place = Place { start, len };
        Fault { rule, place }
    }
}

// A digit of base 16, in either case of letters.
fn digit(b: u8) -> Option<u8>
    ensures { MatchOption result (16 ≤ hex_digit b) (λ d. (d < 16) × (d ≡ hex_digit b)) }
{
    let value = number::hex_digit(b);
    (value < 16).then_some(value)
}

// The first digit of a segment, where a plus counts nothing.
#[tactic(auto, using(crate::proofs::Laws::laws))]
fn high_digit(b: u8) -> Option<u8>
    ensures { MatchOption result (16 ≤ high_digit b) (λ d. (d < 16) × (d ≡ high_digit b)) }
{
    if b == b'+' { Some(0) } else { digit(b) }
}

#[tactic(auto, using(crate::proofs::Laws::laws))]
fn read_segment(a: u8, b: u8) -> Option<u8>
    ensures { result ≡ segment_of a b }
{
    let high = high_digit(a)?;
    let low = digit(b)?;
    Some(high * 16 + low)
}

// Whether the segment that starts at `at` has two bytes: `-` or the end stands behind them, and no `-` before.
#[tactic(auto, using(crate::proofs::Laws::laws))]
fn has_two_bytes(s: &[u8], at: usize) -> bool
    requires { at + 2 ≤ length s.now }
    ensures { result ≡ eqb (before 45 (drop at s.now)) 2 }
{
    let behind = at + 2;
    s[at] != b'-' && s[at + 1] != b'-' && (s.len() == behind || s[behind] == b'-')
}

#[tactic(auto, using(crate::proofs::Laws::laws))]
pub fn read_eui64(s: &[u8]) -> Result<u64, Fault>
    ensures { result ≡ eui64_of s.now }
{
    if s.len() != 23 {
        return Err(Fault::new(BrokenRule::Length, 0, s.len()));
    }
    let mut id = 0;
    for done in 0..8 {
        let at = done * 3;
        if !has_two_bytes(s, at) {
            let len = search::find(&s[at..], b'-');
            return Err(Fault::new(BrokenRule::SegmentLength, at, len));
        }
        let no_number = Fault::new(BrokenRule::SegmentDigits, at, 2);
        let byte = read_segment(s[at], s[at + 1]).ok_or(no_number)?;
        id = id * 256 + u64::from(byte);
    }
    Ok(id)
}
