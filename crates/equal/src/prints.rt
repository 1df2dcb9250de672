// A number that records of one clock share, so that a search compares few records whole.
ghost use Rattle.std.specs.Prelude.{◌≡◌};
ghost use Rattle.std.specs.List.{fold};
ghost use Rattle.hostprint.specs.Mixed.{mixed};
ghost use Rattle.meaning.specs.Meaning.{ref_meaning};
ghost use Rattle.equal.specs.Fingerprint.{mixed_numbers, host_print};
ghost use Rattle.equal.specs.Fingerprint as prints;

use crate::parts;
use crate::parts::Numbers;
use clock::ReferenceClock;

// The print of a host: it goes with `hosts_alike`.
fn host_print(s: &[u8]) -> u32
    ensures { result ≡ host_print s.now }
{
    hostprint::print_of_host(s)
}

fn mix_all(n: u32, numbers: &[u64]) -> u32
    ensures { result ≡ fold mixed n numbers.now }
{
    numbers.iter().fold(n, |n, k| hostprint::mix(n, *k))
}

// Of the second number, which has 64 bits, both halves.
#[tactic(auto, unfolding(crate::specs::Fingerprint::mixed_numbers))]
fn mix_numbers(n: u32, x: Numbers) -> u32
    ensures { result ≡ mixed_numbers n x.kind x.form x.first x.second x.third }
{
    let high = x.second / 4294967296;
    mix_all(
        n,
        &[
            x.kind as u64,
            x.form as u64,
            x.first,
            high,
            x.second,
            x.third,
        ],
    )
}

// A number that ts-refclk records of one clock share.
pub fn fingerprint(v: &[u8], c: ReferenceClock) -> u32
    ensures { result ≡ prints.fingerprint host_print (ref_meaning v.now c) }
{
    let p = parts::clock_parts(c);
    let host = host_print(text::part(v, p.head));
    let named = hostprint::mix_text(host, text::part(v, p.name));
    let numbered = mix_numbers(named, p.numbers);
    hostprint::mix_text(numbered, text::part(v, p.value))
}
