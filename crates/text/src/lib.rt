// Texts as bytes: a text is compared with a word, and a part is taken at its place.
#![tactic(auto)]

ghost use Rattle.std.specs.Prelude.{◌≡◌, min};
ghost use Rattle.text.specs.Word.{same, starts, ends_in};
ghost use Rattle.text.specs.Place.{PartAt, bytes_at};

// Where a part of a value lies in it: what a record holds in place of a text.
#[derive(Debug, Clone, Copy, PartialEq, Eq)]
pub struct Place {
    pub start: usize,
    pub len: usize,
}

// The bytes of `s` at a place: those that `s` has.
#[tactic(auto, using(crate::proofs::Laws::laws))]
pub fn part(s: &[u8], p: Place) -> &[u8]
    ensures { PartAt s.entry p result }
{
    let start = p.start.min(s.len());
    let len = p.len.min(s.len() - start);
    &s[start..start + len]
}

// Whether two texts are the same. The slices' own `==` calls the library's comparison, which takes longer for the few bytes of a word.
#[tactic(auto, using(crate::proofs::Laws::laws))]
pub fn is_word(s: &[u8], w: &[u8]) -> bool
    ensures { result ≡ same s.now w.now }
{
    s.len() == w.len() && s.iter().zip(w).all(|(x, y)| x == y)
}

// Whether `s` begins with `w`.
#[tactic(auto, using(crate::proofs::Laws::laws))]
pub fn has_prefix(s: &[u8], w: &[u8]) -> bool
    ensures { result ≡ starts w.now s.now }
{
    w.len() <= s.len() && is_word(&s[..w.len()], w)
}

// Whether `b` is the last byte of `s`.
#[tactic(auto, using(crate::proofs::Laws::laws))]
pub fn ends_in(s: &[u8], b: u8) -> bool
    ensures { result ≡ ends_in b s.now }
{
    matches!(s, [.., last] if *last == b)
}

// Whether two values have the same bytes at a place of each.
#[tactic(auto, using(crate::proofs::Laws::laws))]
pub fn equal_parts(v: &[u8], p: Place, w: &[u8], q: Place) -> bool
    ensures { result ≡ same (bytes_at p v.now) (bytes_at q w.now) }
{
    is_word(part(v, p), part(w, q))
}

// The less of two lengths.
pub fn least(a: usize, b: usize) -> usize
    ensures { result ≡ min a b }
{
    a.min(b)
}
