// A byte or a mark of two bytes is looked for in a text.
#![tactic(auto)]

ghost use Rattle.std.specs.Prelude.{◌≡◌, ◌+◌, ◌≤◌, min, length, drop};
ghost use Rattle.text.specs.Find.{before, before_pair, through_last};
ghost use Rattle.search.specs.Private.Passing.{Passes, Nears};
ghost use Rattle.search.specs.Private.Places.{IsFirstPair, IsLast};

// The first place of `b` among the eight bytes from `i` on: the place behind them where none of them is `b`.
#[tactic(auto, using(crate::proofs::Laws::eight_laws))]
fn find_in_eight(s: &[u8], i: usize, b: u8) -> usize
    requires { i + 8 ≤ length s.now }
    ensures { result ≡ i + min (before b (drop i s.now)) 8 }
{
    for k in 0..8 {
        if s[i + k] == b {
            return i + k;
        }
    }
    i + 8
}

// Passes bytes that are not `b`, eight a turn, and stops at the first `b` or where fewer than eight are left.
#[tactic(auto, using(crate::proofs::Laws::pass_laws))]
fn pass_by_eights(s: &[u8], b: u8) -> usize
    ensures { Passes b s.now result }
{
    let mut i = 0;
    while 8 <= s.len() - i {
        let next = find_in_eight(s, i, b);
        if next < i + 8 {
            return next;
        }
        i = next;
    }
    i
}

// The first place of `b` from `from` on: the end where there is none.
#[tactic(auto, using(crate::proofs::Laws::from_laws))]
fn find_from(s: &[u8], from: usize, b: u8) -> usize
    requires { from ≤ length s.now }
    ensures { result ≡ from + before b (drop from s.now) }
{
    for i in from..s.len() {
        if s[i] == b {
            return i;
        }
    }
    s.len()
}

// How many bytes stand before the first `b`: all of them where there is none.
pub fn find(s: &[u8], b: u8) -> usize
    ensures { result ≡ before b s.now }
{
    find_from(s, pass_by_eights(s, b), b)
}

// Passes bytes that are not `b`, eight a turn by one test, and stops where one of the next eight is `b` or fewer are left. Which of them it is
// is found by its caller: the compiler makes one comparison of the eight tests only where nothing else asks for their answers.
#[tactic(auto, using(crate::proofs::Laws::near_laws))]
fn pass_eights_at_once(s: &[u8], b: u8) -> usize
    ensures { Nears b s.now result }
{
    if s.len() < 8 {
        return 0;
    }
    let last = s.len() - 8;
    let mut i = 0;
    while i <= last {
        let found = (s[i] == b)
            | (s[i + 1] == b)
            | (s[i + 2] == b)
            | (s[i + 3] == b)
            | (s[i + 4] == b)
            | (s[i + 5] == b)
            | (s[i + 6] == b)
            | (s[i + 7] == b);
        if found {
            return i;
        }
        i += 8;
    }
    i
}

// As `find`, and quicker where `b` stands far off.
#[tactic(auto, using(crate::proofs::Laws::far_laws))]
pub fn find_far(s: &[u8], b: u8) -> usize
    ensures { result ≡ before b s.now }
{
    let near = pass_eights_at_once(s, b);
    if 8 <= s.len() - near {
        find_in_eight(s, near, b)
    } else {
        find_from(s, near, b)
    }
}

// The first place where `a` stands and `b` straight behind it.
fn first_pair(s: &[u8], a: u8, b: u8) -> Option<usize>
    ensures { IsFirstPair a b s.now result }
{
    s.windows(2).position(|pair| pair[0] == a && pair[1] == b)
}

// How many bytes stand before the first `a` that has `b` straight behind it: all of them where there is none.
#[tactic(auto, using(crate::proofs::Laws::first_pair_is))]
pub fn find_pair(s: &[u8], a: u8, b: u8) -> usize
    ensures { result ≡ before_pair a b s.now }
{
    first_pair(s, a, b).unwrap_or(s.len())
}

// The last place of `b`.
fn last_place(s: &[u8], b: u8) -> Option<usize>
    ensures { IsLast b s.now result }
{
    s.iter().rposition(|x| *x == b)
}

// How many bytes reach up to the last `b`, itself included: 0 where there is none.
#[tactic(auto, using(crate::proofs::Laws::last_laws))]
pub fn through_last(s: &[u8], b: u8) -> usize
    ensures { result ≡ through_last b s.now }
{
    match last_place(s, b) {
        Some(i) => i + 1,
        None => 0,
    }
}
