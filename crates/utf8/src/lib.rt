// Whether bytes are well-formed UTF-8 (RFC 3629), and where not.
#![tactic(auto)]

ghost use Rattle.std.specs.Prelude.{◌≡◌, List, ◌∷◌, ℕ, Some};
ghost use Rattle.utf8.specs.Utf8.{utf8_char, utf8_of};
ghost use Rattle.utf8.specs.Private.Lead.{goes_on};
ghost use Rattle.utf8.specs.Private.Passes.{Passes, IsFirstHigh, BeginsWith};

// What a first byte asks of the bytes behind it: how many there are, and the range of the first of them, from its least to its greatest.
#[derive(Clone, Copy)]
struct Lead {
    more: usize,
    low: u8,
    high: u8,
}

fn starts(more: usize, low: u8, high: u8) -> Option<Lead>
    ensures { result ≡ Some (record { more = more; low = low; high = high }) }
{
    Some(Lead { more, low, high })
}

// The rows of the grammar, by their first bytes.
fn lead_of(first: u8) -> Option<Lead>
    ensures { (t : List ℕ) → utf8_char (first ∷ t) ≡ goes_on result t }
{
    match first {
        0..=0x7F => starts(0, 0x80, 0xBF),
        0xC2..=0xDF => starts(1, 0x80, 0xBF),
        0xE0 => starts(2, 0xA0, 0xBF),
        0xE1..=0xEC => starts(2, 0x80, 0xBF),
        0xED => starts(2, 0x80, 0x9F),
        0xEE..=0xEF => starts(2, 0x80, 0xBF),
        0xF0 => starts(3, 0x90, 0xBF),
        0xF1..=0xF3 => starts(3, 0x80, 0xBF),
        0xF4 => starts(3, 0x80, 0x8F),
        _ => None,
    }
}

// Passes bytes below 127, eight a turn, and stops where one of the next eight is 127 or more, or fewer are left. (127 and not 128: of eight tests
// of the highest bit the compiler does not make one comparison.)
#[tactic(auto, using(crate::proofs::Laws::laws))]
fn pass_ascii_by_eights(s: &[u8]) -> usize
    ensures { Passes s.now result }
{
    let mut i = 0;
    while 8 <= s.len() - i {
        let high = (0x7F <= s[i])
            | (0x7F <= s[i + 1])
            | (0x7F <= s[i + 2])
            | (0x7F <= s[i + 3])
            | (0x7F <= s[i + 4])
            | (0x7F <= s[i + 5])
            | (0x7F <= s[i + 6])
            | (0x7F <= s[i + 7]);
        if high {
            return i;
        }
        i += 8;
    }
    i
}

// The first byte that is 128 or more.
fn first_high(s: &[u8]) -> Option<usize>
    ensures { IsFirstHigh s.now result }
{
    s.iter().position(|b| !b.is_ascii())
}

// Passes the bytes below 128 at the front: each is a sequence of its own.
#[tactic(auto, using(crate::proofs::Laws::laws))]
fn pass_ascii(s: &[u8]) -> usize
    ensures { Passes s.now result }
{
    let passed = pass_ascii_by_eights(s);
    match first_high(&s[passed..]) {
        Some(more) => passed + more,
        None => s.len(),
    }
}

// How long the sequence is that `s` begins with. None: the text ends inside it, or a byte is no tail, makes an overlong form or a surrogate, or
// leads past U+10FFFF.
#[tactic(auto, using(crate::proofs::Laws::laws))]
fn sequence_length(s: &[u8]) -> Option<usize>
    ensures { BeginsWith s.now result }
{
    let [first, ..] = s else {
        return None;
    };
    let lead = lead_of(*first)?;
    let mut low = lead.low;
    let mut high = lead.high;
    for i in 0..lead.more {
        let tail = *s.get(i + 1)?;
        if tail < low || high < tail {
            return None;
        }
        low = 0x80;
        high = 0xBF;
    }
    Some(lead.more + 1)
}

// Sequence by sequence, the bytes below 128 at one go: `at` is where the present one starts.
#[tactic(auto, using(crate::proofs::Laws::laws))]
pub fn check_utf8(s: &[u8]) -> Result<(), usize>
    ensures { result ≡ utf8_of s.now }
{
    let mut at = pass_ascii(s);
    while at < s.len() {
        at += sequence_length(&s[at..]).ok_or(at)?;
        at += pass_ascii(&s[at..]);
    }
    Ok(())
}
