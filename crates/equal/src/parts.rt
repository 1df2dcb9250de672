// What a record says, in one shape for both attributes: its kinds and numbers, and the places of its texts. What a record does not have is 0 or
// the empty place. specs/Private/Flat.antt has the columns of each kind.
#![tactic(auto, unfolding(text::specs::Place::bytes_at, meaning::specs::Meaning::ref_meaning, meaning::specs::Meaning::media_meaning))]

ghost use Rattle.std.specs.Prelude.{◌≡◌};
ghost use Rattle.equal.specs.Private.Flat.{or_none};
ghost use Rattle.equal.specs.Private.Parts.{bare, with_numbers, Says, extension_over, ntp_over, server_over};
ghost use Rattle.equal.specs.Private.Parts.{ptp_over, clock_over, direct_over, media_over, source_over};

use clock::{NtpServerAddr, PrivateSource, PtpDomain, PtpServer, PtpVersion, ReferenceClock};
use mediarecord::{Direct, MediaClock, MediaClockId, MediaClockSource};
use text::Place;

// The place of a text that is not there.
const NONE: Place = Place { start: 0, len: 0 };

// Which clock, which form of it, and its numbers in order.
#[derive(Clone, Copy, PartialEq, Eq)]
pub(crate) struct Numbers {
    pub(crate) kind: u8,
    pub(crate) form: u8,
    pub(crate) first: u64,
    pub(crate) second: u64,
    pub(crate) third: u64,
}

// The head is a host or a tag.
#[derive(Clone, Copy)]
pub(crate) struct Parts {
    pub(crate) numbers: Numbers,
    pub(crate) head: Place,
    pub(crate) name: Place,
    pub(crate) value: Place,
}

impl Parts {
    // No numbers, and no texts but the head.
    fn bare(kind: u8, form: u8, head: Place) -> Parts
        ensures { result ≡ bare kind form head }
    {
        let numbers = Numbers {
            kind,
            form,
            first: 0,
            second: 0,
            third: 0,
        };
        Parts {
            numbers,
            head,
            name: NONE,
            value: NONE,
        }
    }

    // The same with these numbers.
    fn with(self, first: u64, second: u64, third: u64) -> Parts
        ensures { result ≡ with_numbers self first second third }
    {
        let numbers = Numbers {
            first,
            second,
            third,
            ..self.numbers
        };
        Parts { numbers, ..self }
    }
}

fn extension_parts(kind: u8, form: u8, head: Place, name: Place, value: Option<Place>) -> Parts
    ensures { Says result (extension_over kind form head name value) }
{
    let bare = Parts::bare(kind, form, head);
    match value {
        None => Parts { name, ..bare },
        Some(value) => Parts {
            name,
            value,
            ..bare.with(1, 0, 0)
        },
    }
}

fn ntp_parts(server: NtpServerAddr) -> Parts
    ensures { Says result (ntp_over server) }
{
    match server {
        NtpServerAddr::Traceable => Parts::bare(0, 0, NONE),
        NtpServerAddr::HostPort { hostname, port } => {
            Parts::bare(1, 0, hostname).with(one_more(port.map(u32::from)), 0, 0)
        }
    }
}

fn server_parts(form: u8, name: Place, server: PtpServer) -> Parts
    ensures { Says result (server_over form name server) }
{
    let bare = Parts {
        name,
        ..Parts::bare(2, form, NONE)
    };
    match server {
        PtpServer::Traceable => bare,
        PtpServer::GmidDomain { gmid, domain: None } => bare.with(1, gmid.id, 0),
        PtpServer::GmidDomain {
            gmid,
            domain: Some(PtpDomain::DomainName { name: value }),
        } => Parts {
            value,
            ..bare.with(2, gmid.id, 0)
        },
        PtpServer::GmidDomain {
            gmid,
            domain: Some(PtpDomain::DomainNumber(n)),
        } => bare.with(3, gmid.id, n as u64),
    }
}

fn ptp_parts(version: PtpVersion, server: PtpServer) -> Parts
    ensures { Says result (ptp_over version server) }
{
    match version {
        PtpVersion::Ieee1588_2002 => server_parts(0, NONE, server),
        PtpVersion::Ieee1588_2008 => server_parts(1, NONE, server),
        PtpVersion::Ieee8021As_2011 => server_parts(2, NONE, server),
        PtpVersion::Ext(name) => server_parts(3, name, server),
    }
}

pub(crate) fn clock_parts(clock: ReferenceClock) -> Parts
    ensures { Says result (clock_over clock) }
{
    match clock {
        ReferenceClock::Ntp(n) => ntp_parts(n.server),
        ReferenceClock::Ptp(p) => ptp_parts(p.version, p.server),
        ReferenceClock::Gps => Parts::bare(3, 0, NONE),
        ReferenceClock::Gal => Parts::bare(4, 0, NONE),
        ReferenceClock::Glonass => Parts::bare(5, 0, NONE),
        ReferenceClock::Local => Parts::bare(6, 0, NONE),
        ReferenceClock::Private(PrivateSource::Standard) => Parts::bare(7, 0, NONE),
        ReferenceClock::Private(PrivateSource::Traceable) => Parts::bare(8, 0, NONE),
        ReferenceClock::Ext(e) => extension_parts(9, 0, NONE, e.name, e.value),
    }
}

// One more than a number that may be absent: 0 where there is none.
fn one_more(n: Option<u32>) -> u64
    ensures { result ≡ or_none n }
{
    n.map_or(0, |n| n as u64 + 1)
}

fn direct_parts(form: u8, head: Place, clock: Direct) -> Parts
    ensures { Says result (direct_over form head clock) }
{
    let bare = Parts::bare(1, form, head);
    let offset = one_more(clock.offset);
    match clock.rate {
        None => bare.with(offset, 0, 0),
        Some(rate) => bare.with(offset, rate.numerator as u64 + 1, rate.denominator as u64),
    }
}

fn media_parts(form: u8, head: Place, clock: MediaClock) -> Parts
    ensures { Says result (media_over form head clock) }
{
    match clock {
        MediaClock::Sender => Parts::bare(0, form, head),
        MediaClock::Direct(d) => direct_parts(form, head, d),
        MediaClock::Ieee1722StreamId(g) => Parts::bare(2, form, head).with(g.id, 0, 0),
        MediaClock::Ext(e) => extension_parts(3, form, head, e.name, e.value),
    }
}

pub(crate) fn source_parts(source: MediaClockSource) -> Parts
    ensures { Says result (source_over source) }
{
    match source.id {
        None => media_parts(0, NONE, source.clock),
        Some(MediaClockId { tag, src: false }) => media_parts(1, tag, source.clock),
        Some(MediaClockId { tag, src: true }) => media_parts(2, tag, source.clock),
    }
}
