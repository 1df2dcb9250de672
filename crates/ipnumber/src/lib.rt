// The number of an IP address: its family, and its octets or groups (RFC 4291, section 2.2).
#![tactic(auto)]

ghost use Rattle.std.specs.Prelude.{◌≡◌, ◌+◌, ◌*◌, ◌-◌, ◌≤◌, []};
ghost use Rattle.std.proofs.Math.Seq.{paste};
ghost use Rattle.ipaddr.specs.Number.{ip_address_of};
ghost use Rattle.ipaddr.specs.Private.Value.{valued};
ghost use Rattle.ipnumber.specs.Told.{told};
ghost use Rattle.ipnumber.specs.Private.Holding.{Small, holding, octet_of, group_of, pushed, octets_read, with_pairs, with_last, wide, GroupsRead, six_read};

// The family of an address.
#[derive(Clone, Copy, Debug, PartialEq, Eq)]
pub enum Family {
    V4,
    V6,
}

// The words are four octets, with zeros behind them, or eight groups.
#[derive(Clone, Copy, Debug, PartialEq, Eq)]
pub struct IpNumber {
    pub family: Family,
    pub words: [u16; 8],
}

// The groups read so far, and 0 behind them.
#[derive(Clone, Copy)]
struct Words {
    count: usize,
    words: [u16; 8],
}

// Before the first group.
fn no_words() -> Words
    ensures { result ≡ holding [] }
{
    Words {
        count: 0,
        words: [0; 8],
    }
}

// The value of digits in a base.
fn value(s: &[u8], base: u16) -> u16
    requires { Small base s.now }
    ensures { result ≡ valued base 0 s.now }
{
    let mut v = 0;
    for b in s {
        v = v * base + u16::from(number::hex_digit(*b));
    }
    v
}

// The value of an octet, if `s` is one.
fn octet(s: &[u8]) -> Option<u8>
    ensures { result ≡ octet_of s.now }
{
    if !ipaddr::is_dec_octet(s) {
        return None;
    }
    Some(value(s, 10) as u8)
}

// The value of a group, if `s` is one.
fn group(s: &[u8]) -> Option<u16>
    ensures { result ≡ group_of s.now }
{
    if !ipaddr::is_h16(s) {
        return None;
    }
    Some(value(s, 16))
}

// One word more, if there is room for it.
fn push(w: Words, x: u16) -> Option<Words>
    ensures { result ≡ pushed w x }
{
    let at = w.count;
    if 7 < at {
        return None;
    }
    let mut words = w.words;
    words[at] = x;
    Some(Words {
        count: at + 1,
        words,
    })
}

// The octets of an IPv4address.
fn read_octets(s: &[u8]) -> Option<[u8; 4]>
    ensures { result ≡ octets_read s.now }
{
    let mut octets = [0; 4];
    let mut rest = s;
    for i in 0..3 {
        let n = search::find(rest, b'.');
        if rest.len() <= n {
            return None;
        }
        let next = octet(&rest[..n])?;
        octets[i] = next;
        rest = &rest[n + 1..];
    }
    octets[3] = octet(rest)?;
    Some(octets)
}

// Two octets as one group.
fn paired(high: u8, low: u8) -> u16
    ensures { result ≡ high * 256 + low }
{
    u16::from(high) * 256 + u16::from(low)
}

// Two words more, of the four octets of an IPv4address.
fn push_pairs(w: Words, octets: [u8; 4]) -> Option<Words>
    ensures { result ≡ with_pairs w octets }
{
    let first = push(w, paired(octets[0], octets[1]))?;
    push(first, paired(octets[2], octets[3]))
}

// The last group, for which an IPv4address may stand where `four`: two words then.
fn read_last(w: Words, s: &[u8], four: bool) -> Option<Words>
    ensures { result ≡ with_last four w s.now }
{
    match group(s) {
        Some(x) => push(w, x),
        None if four => push_pairs(w, read_octets(s)?),
        None => None,
    }
}

// The groups of a text with colons between them: none where it is empty. Where `four`, an IPv4address may stand for the last two.
fn read_groups(s: &[u8], four: bool) -> Option<Words>
    ensures { GroupsRead four s.now result }
{
    let mut w = no_words();
    if s.is_empty() {
        return Some(w);
    }
    let mut rest = s;
    let mut n = search::find(s, b':');
    while n < rest.len() {
        let x = group(&rest[..n])?;
        w = push(w, x)?;
        rest = &rest[n + 1..];
        n = search::find(rest, b':');
    }
    read_last(w, rest, four)
}

// The words on the left of a "::", zeros for it, and those on its right: eight together.
fn filled(left: [u16; 8], right: [u16; 8], count: usize) -> [u16; 8]
    requires { count ≤ 8 }
    ensures { result ≡ paste left (8 - count) right count }
{
    let mut words = left;
    words[8 - count..].copy_from_slice(&right[..count]);
    words
}

// The eight groups of an IPv6address.
fn read_six(s: &[u8]) -> Option<[u16; 8]>
    ensures { result ≡ six_read s.now }
{
    let gap = search::find_pair(s, b':', b':');
    if s.len() <= gap {
        let all = read_groups(s, true)?;
        return if all.count == 8 {
            Some(all.words)
        } else {
            None
        };
    }
    let left = read_groups(&s[..gap], false)?;
    let right = read_groups(&s[gap + 2..], true)?;
    if 7 < right.count || 7 - right.count < left.count {
        return None;
    }
    Some(filled(left.words, right.words, right.count))
}

// Four octets with zeros behind them.
fn wide(octets: [u8; 4]) -> [u16; 8]
    ensures { result ≡ wide octets }
{
    let [a, b, c, d] = octets;
    [
        u16::from(a),
        u16::from(b),
        u16::from(c),
        u16::from(d),
        0,
        0,
        0,
        0,
    ]
}

// The number of the address that `s` is, if it is one.
pub fn ip_number(s: &[u8]) -> Option<IpNumber>
    ensures { result ≡ told (ip_address_of s.now) }
{
    // no address begins so, and many hosts do
    if matches!(s, [] | [b'[', ..] | [b'g'..=255, ..]) {
        return None;
    }
    if let Some(octets) = read_octets(s) {
        return Some(IpNumber {
            family: Family::V4,
            words: wide(octets),
        });
    }
    let words = read_six(s)?;
    Some(IpNumber {
        family: Family::V6,
        words,
    })
}
