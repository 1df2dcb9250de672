// Numbers as text: a decimal number up to a limit, and the digits of base 16.
#![tactic(auto)]

ghost use Rattle.std.specs.Prelude.{◌≡◌, ◌+◌, ◌*◌, ◌-◌, ◌≤◌, min};
ghost use Rattle.number.specs.Decimal.{digits_of, number_of};
ghost use Rattle.number.specs.Hex.{hex_digit};

// Why a text is no number: it is empty or a lone plus, a byte of it is no digit, or it is over the limit.
#[derive(Debug, Clone, Copy, PartialEq, Eq)]
pub enum Reason {
    Empty,
    Digit,
    Size,
}

// One digit more, held at one over the limit, so that no length of text overflows.
fn with_digit(value: u64, b: u8, limit: u32) -> u64
    requires { (value ≤ limit + 1) × (48 ≤ b) × (b ≤ 57) }
    ensures { result ≡ min (value * 10 + (b - 48)) (limit + 1) }
{
    let next = value * 10 + u64::from(b - b'0');
    next.min(u64::from(limit) + 1)
}

// One or more digits.
#[tactic(auto, using(crate::proofs::Laws::laws))]
fn read_digits(s: &[u8], limit: u32) -> Result<u32, Reason>
    ensures { result ≡ digits_of limit s.now }
{
    if s.is_empty() {
        return Err(Reason::Empty);
    }
    let mut value = 0;
    for &b in s {
        if !b.is_ascii_digit() {
            return Err(Reason::Digit);
        }
        value = with_digit(value, b, limit);
    }
    if u64::from(limit) < value {
        return Err(Reason::Size);
    }
    Ok(value as u32)
}

// An optional single plus, then one or more digits, leading zeros free, at most `limit`.
#[tactic(auto, using(crate::proofs::Laws::laws))]
pub fn read_number(s: &[u8], limit: u32) -> Result<u32, Reason>
    ensures { result ≡ number_of limit s.now }
{
    match s {
        [b'+', digits @ ..] => read_digits(digits, limit),
        _ => read_digits(s, limit),
    }
}

// The value of a digit of base 16, in either case of letters: 16 for any other byte.
#[tactic(auto, using(crate::proofs::Laws::laws))]
pub fn hex_digit(b: u8) -> u8
    ensures { result ≡ hex_digit b }
{
    match b {
        b'0'..=b'9' => b - b'0',
        b'A'..=b'F' => b - b'A' + 10,
        b'a'..=b'f' => b - b'a' + 10,
        _ => 16,
    }
}
