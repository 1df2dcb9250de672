// Numbers put into lent room as their digits, as `room` puts texts.
#![tactic(auto)]

ghost use Rattle.std.specs.Prelude.{◌≡◌, ◌∷◌, [], ◌*◌, ◌<◌, length};
ghost use Rattle.number.specs.Decimal.{decimal};
ghost use Rattle.number.specs.Hex.{hex_capital, hex_small, hex_capitals, hex_bytes};
ghost use Rattle.eui64.specs.Eui64.{eui64_text};
ghost use Rattle.room.specs.Put.{Put};

// The digits of a number: the last are made first, and stand at the end of `digits` until all are known.
fn put_digits(room: &mut [u8], at: usize, n: u64) -> usize
    ensures { Put (length (decimal n)) room.old at (decimal n) result room.new }
{
    let mut digits = [0u8; 20];
    let mut first: usize = 20;
    let mut left = n;
    while 10 <= left {
        first -= 1;
        digits[first] = b'0' + (left % 10) as u8;
        left /= 10;
    }
    let to = room::put_byte(room, at, b'0' + left as u8);
    room::put_bytes(room, to, &digits[first..])
}

pub fn put_decimal(room: &mut [u8], at: usize, n: u32) -> usize
    ensures { Put 10 room.old at (decimal n) result room.new }
{
    put_digits(room, at, u64::from(n))
}

pub fn put_decimal_u64(room: &mut [u8], at: usize, n: u64) -> usize
    ensures { Put 20 room.old at (decimal n) result room.new }
{
    put_digits(room, at, n)
}

// The digit of base 16 that has the value `d`, a letter as a capital.
fn hex_capital(d: u8) -> u8
    requires { d < 16 }
    ensures { result ≡ hex_capital d }
{
    b"0123456789ABCDEF"[d as usize]
}

// The segments of an EUI-64, the last made first, each with a `-` behind it. The `-` behind the last one is not put.
pub fn put_eui64(room: &mut [u8], at: usize, id: u64) -> usize
    ensures { Put 23 room.old at (eui64_text id) result room.new }
{
    let mut text = [0u8; 24];
    let mut left = id;
    for segment in (0..8usize).rev() {
        let first = segment * 3;
        let b = (left % 256) as u8;
        text[first + 2] = b'-';
        text[first + 1] = hex_capital(b % 16);
        text[first] = hex_capital(b / 16);
        left /= 256;
    }
    room::put_bytes(room, at, &text[..23])
}

// All sixteen digits of base 16 of a number, in capitals.
pub fn put_hex_u64(room: &mut [u8], at: usize, n: u64) -> usize
    ensures { Put 16 room.old at (hex_capitals 16 n) result room.new }
{
    let mut digits = [0u8; 16];
    let mut left = n;
    for place in (0..16usize).rev() {
        digits[place] = hex_capital((left % 16) as u8);
        left /= 16;
    }
    room::put_bytes(room, at, &digits)
}

// The digit of base 16 that has the value `d`, a letter as a small one.
fn hex_small(d: u8) -> u8
    requires { d < 16 }
    ensures { result ≡ hex_small d }
{
    b"0123456789abcdef"[d as usize]
}

fn put_hex_byte(room: &mut [u8], at: usize, b: u8) -> usize
    ensures { Put 2 room.old at (hex_bytes (b ∷ [])) result room.new }
{
    let to = room::put_byte(room, at, hex_small(b / 16));
    room::put_byte(room, to, hex_small(b % 16))
}

// A text in base 16, two small digits a byte.
pub fn put_hex_bytes(room: &mut [u8], at: usize, src: &[u8]) -> usize
    ensures { Put (2 * length src.now) room.old at (hex_bytes src.now) result room.new }
{
    let mut to = at;
    for b in src {
        to = put_hex_byte(room, to, *b);
    }
    to
}
