// Whether two records are equal, each over the value that it points into, and a number that records of one clock share. A place that reaches outside
// its value has the bytes that are there.
#![tactic(auto)]

mod parts;
mod prints;

ghost use Rattle.std.specs.Prelude.{◌≡◌};
ghost use Rattle.text.specs.Place.{bytes_at};
ghost use Rattle.meaning.specs.Meaning.{ref_meaning, media_meaning};
ghost use Rattle.equal.specs.Decides.{Decides};
ghost use Rattle.equal.specs.Alike.{hosts_alike, OneClock};
ghost use Rattle.equal.specs.Private.Flat.{same_behind};
ghost use Rattle.equal.specs.Private.Parts.{over};

use clock::ReferenceClock;
use mediarecord::MediaClockSource;
use parts::Parts;
pub use prints::fingerprint;
use text::Place;

// Whether two hosts name one server: the one place where this is decided.
fn hosts_alike(s: &[u8], t: &[u8]) -> bool
    ensures { result ≡ hosts_alike s.now t.now }
{
    hosts::one_server(s, t)
}

fn hosts_at(v: &[u8], p: Place, w: &[u8], q: Place) -> bool
    ensures { result ≡ hosts_alike (bytes_at p v.now) (bytes_at q w.now) }
{
    hosts_alike(text::part(v, p), text::part(w, q))
}

// All but the head.
fn equal_behind(v: &[u8], x: Parts, w: &[u8], y: Parts) -> bool
    ensures { result ≡ same_behind (over v.now x) (over w.now y) }
{
    x.numbers == y.numbers
        && text::equal_parts(v, x.name, w, y.name)
        && text::equal_parts(v, x.value, w, y.value)
}

// Whether two ts-refclk records are equal.
pub fn equal_reference_clocks(v: &[u8], c: ReferenceClock, w: &[u8], d: ReferenceClock) -> bool
    ensures { Decides result (ref_meaning v.now c ≡ ref_meaning w.now d) }
{
    let x = parts::clock_parts(c);
    let y = parts::clock_parts(d);
    text::equal_parts(v, x.head, w, y.head) && equal_behind(v, x, w, y)
}

// Whether two ts-refclk records name the same clock: equal, but for hosts that are two names of one server.
pub fn same_reference_clocks(v: &[u8], c: ReferenceClock, w: &[u8], d: ReferenceClock) -> bool
    ensures { Decides result (OneClock hosts_alike (ref_meaning v.now c) (ref_meaning w.now d)) }
{
    let x = parts::clock_parts(c);
    let y = parts::clock_parts(d);
    hosts_at(v, x.head, w, y.head) && equal_behind(v, x, w, y)
}

// Whether two mediaclk records are equal.
pub fn equal_media_clock_sources(
    v: &[u8],
    m: MediaClockSource,
    w: &[u8],
    n: MediaClockSource,
) -> bool
    ensures { Decides result (media_meaning v.now m ≡ media_meaning w.now n) }
{
    let x = parts::source_parts(m);
    let y = parts::source_parts(n);
    text::equal_parts(v, x.head, w, y.head) && equal_behind(v, x, w, y)
}
