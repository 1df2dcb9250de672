// Whether a text is an IP address (RFC 3986, section 3.2.2).
#![tactic(auto)]

ghost use Rattle.std.specs.Prelude.{◌≡◌};
ghost use Rattle.number.specs.Hex.{between};
ghost use Rattle.ipaddr.specs.Address.{dec_octet, ipv4address, h16, ipv6address, ip_address};
ghost use Rattle.ipaddr.specs.Private.Groups.{Counted};

// Whether `b` is a byte from `first` to `last`.
pub fn is_between(b: u8, first: u8, last: u8) -> bool
    ensures { result ≡ between first last b }
{
    first <= b && b <= last
}

// Whether `s` is a number from 0 to 255 with no leading zero.
pub fn is_dec_octet(s: &[u8]) -> bool
    ensures { result ≡ dec_octet s.now }
{
    match s {
        [b'0'..=b'9'] => true,
        [b'1'..=b'9', b'0'..=b'9'] => true,
        [b'1', b'0'..=b'9', b'0'..=b'9'] => true,
        [b'2', b'0'..=b'4', b'0'..=b'9'] => true,
        [b'2', b'5', b'0'..=b'5'] => true,
        _ => false,
    }
}

// Whether `s` is an IPv4address.
pub fn is_ipv4_address(s: &[u8]) -> bool
    ensures { result ≡ ipv4address s.now }
{
    let mut rest = s;
    for _ in 0..3_u8 {
        let n = search::find(rest, b'.');
        if rest.len() <= n || !is_dec_octet(&rest[..n]) {
            return false;
        }
        rest = &rest[n + 1..];
    }
    is_dec_octet(rest)
}

// Whether `s` is a group: one to four digits of base 16.
pub fn is_h16(s: &[u8]) -> bool
    ensures { result ≡ h16 s.now }
{
    match s.len() {
        1..=4 => s.iter().all(|b| number::hex_digit(*b) < 16),
        _ => false,
    }
}

// How many groups `s` has, with colons between them, if it is such a text. Where `four`, an IPv4address may stand for the last two.
fn count_groups(s: &[u8], four: bool) -> Option<usize>
    ensures { Counted four s.now result }
{
    if s.is_empty() {
        return Some(0);
    }
    let mut done: usize = 0;
    let mut rest = s;
    let mut n = search::find(s, b':');
    while n < rest.len() {
        if !is_h16(&rest[..n]) {
            return None;
        }
        done += 1;
        rest = &rest[n + 1..];
        n = search::find(rest, b':');
    }
    if is_h16(rest) {
        Some(done + 1)
    } else if four && is_ipv4_address(rest) {
        Some(done + 2)
    } else {
        None
    }
}

// Whether `s` is an IPv6address: eight groups, or at most seven with a "::" for the others.
pub fn is_ipv6_address(s: &[u8]) -> bool
    ensures { result ≡ ipv6address s.now }
{
    let gap = search::find_pair(s, b':', b':');
    if s.len() <= gap {
        return count_groups(s, true) == Some(8);
    }
    let Some(left) = count_groups(&s[..gap], false) else {
        return false;
    };
    let Some(right) = count_groups(&s[gap + 2..], true) else {
        return false;
    };
    right <= 7 && left <= 7 - right
}

// Whether `s` is an IP address.
pub fn is_ip_address(s: &[u8]) -> bool
    ensures { result ≡ ip_address s.now }
{
    // no address begins so, and many hosts do
    if matches!(s, [] | [b'[', ..] | [b'g'..=255, ..]) {
        return false;
    }
    is_ipv4_address(s) || is_ipv6_address(s)
}
