// A part of a value together with the place where it starts: cut in two, kept as a place, or refused.
#![tactic(auto)]

ghost use Rattle.std.specs.Prelude.{◌≡◌, ◌+◌, ◌^◌, ◌≤◌, ◌<◌, length, take, drop, true, false, MatchOption, IfSome};
ghost use Rattle.text.specs.Find.{before};
ghost use Rattle.text.specs.Place.{place, PartAt};
ghost use Rattle.text.specs.Word.{starts};
ghost use Rattle.clock.specs.Refusal.{refusal};

use clock::Refusal;
use text::Place;

// The text starts at the place `at` of the whole value. Every place in it fits a usize.
#[derive(Clone, Copy)]
pub struct Part<'a> {
    pub text: &'a [u8],
    pub at: usize,
    ghost fits: { at + length text.now < 2 ^ 64 },
}

impl<'a> Part<'a> {
    // Where it lies in the value.
    pub fn place(self) -> Place
        ensures { result ≡ place self.entry.at (length self.entry.text.now) }
    {
        Place {
            start: self.at,
            len: self.text.len(),
        }
    }

    // The refusal that has all of it as its place.
    pub fn refused(self, number: u8) -> Refusal
        ensures { result ≡ refusal number self.entry.at (length self.entry.text.now) }
    {
        Refusal::new(number, self.at, self.text.len())
    }

    // The first n bytes, or all where there are fewer.
    pub fn front(self, n: usize) -> Part<'a>
        ensures text { (result.at ≡ self.entry.at) × (result.text.now ≡ take n self.entry.text.now) }
        ensures there { PartAt self.entry.text (place 0 n) result.text }
    {
        let n = n.min(self.text.len());
        Part {
            text: &self.text[..n],
            at: self.at,
        }
    }

    // What stands behind the first n bytes: nothing, at the end, where there are fewer.
    pub fn behind(self, n: usize) -> Part<'a>
        ensures text { result.text.now ≡ drop n self.entry.text.now }
        ensures within { n ≤ length self.entry.text.now → result.at ≡ self.entry.at + n }
        ensures over { length self.entry.text.now ≤ n → result.at ≡ self.entry.at + length self.entry.text.now }
        ensures there { PartAt self.entry.text (place n (length self.entry.text.now)) result.text }
    {
        let n = n.min(self.text.len());
        Part {
            text: &self.text[n..],
            at: self.at + n,
        }
    }

    // What stands behind `word`, where the text begins with it.
    #[tactic(auto, using(text::proofs::Cuts::starts_long))]
    pub fn strip_prefix(self, word: &[u8]) -> Option<Part<'a>>
        ensures text { MatchOption result (starts word.now self.entry.text.now ≡ false) (λ p. (starts word.now self.entry.text.now ≡ true)
            × (p.at ≡ self.entry.at + length word.now) × (p.text.now ≡ drop (length word.now) self.entry.text.now)) }
        ensures there { IfSome result (λ p. PartAt self.entry.text (place (length word.now) (length self.entry.text.now)) p.text) }
    {
        if !text::has_prefix(self.text, word) {
            return None;
        }
        Some(self.behind(word.len()))
    }

    // What stands before the first `b`, and what stands behind it; none where there is no `b`.
    pub fn split_once(self, b: u8) -> Option<(Part<'a>, Part<'a>)>
        ensures cases { MatchOption result (length self.entry.text.now ≤ before b self.entry.text.now)
            (λ c. before b self.entry.text.now < length self.entry.text.now) }
        ensures front { IfSome result (λ c. (c.0.at ≡ self.entry.at) × (c.0.text.now ≡ take (before b self.entry.text.now) self.entry.text.now)) }
        ensures behind { IfSome result (λ c. (c.1.at ≡ self.entry.at + (before b self.entry.text.now + 1))
            × (c.1.text.now ≡ drop (before b self.entry.text.now + 1) self.entry.text.now)) }
        ensures there { IfSome result (λ c. PartAt self.entry.text (place 0 (before b self.entry.text.now)) c.0.text
            × PartAt self.entry.text (place (before b self.entry.text.now + 1) (length self.entry.text.now)) c.1.text) }
    {
        let i = search::find(self.text, b);
        if self.text.len() <= i {
            return None;
        }
        Some((self.front(i), self.behind(i + 1)))
    }
}
