// A number that hosts of one server share, and how texts and numbers are mixed into such a number.
#![tactic(auto)]

ghost use Rattle.std.specs.Prelude.{◌≡◌};
ghost use Rattle.hosts.specs.Server.{folded};
ghost use Rattle.hostprint.specs.Mixed.{mixed, mixed_text};
ghost use Rattle.hostprint.specs.Server.{family_number, print_of_host};

use ipnumber::Family;

// Only the low 32 bits of `k` count.
pub fn mix(n: u32, k: u64) -> u32
    ensures { result ≡ mixed n k }
{
    let sum = n as u64 * 16777619 + k % 4294967296;
    let low = sum % 4294967296;
    low as u32
}

// The bytes of a text, one after another.
pub fn mix_text(n: u32, s: &[u8]) -> u32
    ensures { result ≡ mixed_text n s.now }
{
    s.iter().fold(n, |so_far, b| mix(so_far, u64::from(*b)))
}

// The bytes of a text with small letters.
fn mix_folded(n: u32, s: &[u8]) -> u32
    ensures { result ≡ mixed_text n (folded s.now) }
{
    s.iter()
        .fold(n, |so_far, b| mix(so_far, u64::from(hosts::lower(*b))))
}

// The octets or the groups of an address.
fn mix_words(n: u32, words: [u16; 8]) -> u32
    ensures { result ≡ mixed_text n words }
{
    words
        .iter()
        .fold(n, |so_far, word| mix(so_far, u64::from(*word)))
}

// The number by which a family is known.
fn family_number(family: Family) -> u32
    ensures { result ≡ family_number family }
{
    match family {
        Family::V4 => 4,
        Family::V6 => 6,
    }
}

// A number that hosts of one server share.
pub fn print_of_host(s: &[u8]) -> u32
    ensures { result ≡ print_of_host s.now }
{
    match ipnumber::ip_number(s) {
        Some(number) => mix_words(family_number(number.family), number.words),
        None => mix_folded(0, s),
    }
}
