// The two questions about ts-refclk values: whether two name the same clock, and which part names the clock that governs.
#![tactic(auto)]

ghost use Rattle.std.specs.Prelude.{◌≡◌, ◌≤◌, length};
ghost use Rattle.equal.specs.Decides.{Decides};
ghost use Rattle.questions.specs.SameClock.{SameClock};
ghost use Rattle.questions.specs.Governing.{gmid_place, name_place, clock_place, Governing, governing_place};
ghost use Rattle.text.specs.Place.{PartAt};

use clock::{Ntp, NtpServerAddr, Ptp, PtpServer, ReferenceClock};
use text::Place;

// The level of a session text that a value stands at.
#[derive(Clone, Copy, Debug, PartialEq, Eq)]
pub enum Level {
    Session,
    Media,
}

// Which value governs, and the place in it of the part that names the clock.
#[derive(Clone, Copy, Debug, PartialEq, Eq)]
pub struct GoverningPlace {
    pub level: Level,
    pub place: Place,
}

// Whether two values name the same clock. Where the first is refused the second is not read.
#[tactic(auto, using(crate::proofs::Laws::both_accepted))]
pub fn same_clock(a: &[u8], b: &[u8]) -> bool
    ensures { Decides result (SameClock a.now b.now) }
{
    let Ok(c) = refclk::read_reference_clock(a) else {
        return false;
    };
    let Ok(d) = refclk::read_reference_clock(b) else {
        return false;
    };
    equal::same_reference_clocks(a, c, b, d)
}

// Behind the first `:`, up to the next or the end.
#[tactic(auto, using(text::proofs::Cuts::before_le), unfolding(crate::specs::Governing::gmid_place, text::specs::Place::bytes_at))]
fn gmid_place(v: &[u8]) -> Place
    requires { length v.now ≤ 1024 }
    ensures { result ≡ gmid_place v.now }
{
    let start = search::find(v, b':') + 1;
    let rest = Place {
        start,
        len: v.len(),
    };
    let len = search::find(text::part(v, rest), b':');
    Place { start, len }
}

// The host, the GMID text, or the whole value where there is neither.
#[tactic(auto, unfolding(crate::specs::Governing::name_place))]
fn name_place(v: &[u8], clock: ReferenceClock) -> Place
    requires { length v.now ≤ 1024 }
    ensures { result ≡ name_place v.now clock }
{
    match clock {
        ReferenceClock::Ntp(
            Ntp {
                server: NtpServerAddr::HostPort { hostname, .. },
            },
        ) => hostname,
        ReferenceClock::Ptp(
            Ptp {
                server: PtpServer::GmidDomain { .. },
                ..
            },
        ) => gmid_place(v),
        _ => Place {
            start: 0,
            len: v.len(),
        },
    }
}

// Of a refused value its first zero bytes.
#[tactic(auto, using(crate::proofs::Laws::accepted_short), unfolding(crate::specs::Governing::clock_place))]
fn clock_place(v: &[u8]) -> Place
    ensures { result ≡ clock_place v.now }
{
    match refclk::read_reference_clock(v) {
        Ok(clock) => name_place(v, clock),
        Err(_) => Place { start: 0, len: 0 },
    }
}

// The part of a value that names its clock.
fn clock_part(v: &[u8]) -> &[u8]
    ensures { PartAt v.entry (clock_place v.now) result }
{
    text::part(v, clock_place(v))
}

// The media-level value governs unless it has length 0, also where it is refused.
#[tactic(auto, unfolding(crate::specs::Governing::governor))]
pub fn governing_clock<'a>(session: &'a [u8], media: &'a [u8]) -> &'a [u8]
    ensures { Governing session.entry media.entry result }
{
    if media.is_empty() {
        clock_part(session)
    } else {
        clock_part(media)
    }
}

// Where that part stands.
#[tactic(auto, unfolding(crate::specs::Governing::governing_place))]
pub fn governing_place(session: &[u8], media: &[u8]) -> GoverningPlace
    ensures { result ≡ governing_place session.now media.now }
{
    if media.is_empty() {
        GoverningPlace {
            level: Level::Session,
            place: clock_place(session),
        }
    } else {
        GoverningPlace {
            level: Level::Media,
            place: clock_place(media),
        }
    }
}
