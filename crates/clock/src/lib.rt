// The records of ts-refclk, and what both attributes share, under the names of the Rust module clock_signalling. A place stands for each text.
// The constructors and setters are in the module.
#![tactic(auto)]

ghost use Rattle.std.specs.Prelude.{◌≡◌};
ghost use Rattle.clock.specs.Refusal.{refusal, unmade_number};

use text::Place;

mod reference;

// A refusal: the number of the rule that was broken, and the place of what breaks it.
#[derive(Clone, Copy)]
pub struct Refusal {
    pub number: u8,
    pub place: Place,
}

impl Refusal {
    pub fn new(number: u8, start: usize, len: usize) -> Refusal
        ensures { result ≡ refusal number start len }
    {
        Refusal {
            number,
            place: Place { start, len },
        }
    }
}

// Why a constructor makes no record: the domain number that it is given is over 127.
#[derive(Clone, Copy, Debug, PartialEq, Eq)]
pub enum Unmade {
    DomainOver127,
}

// The number of a refusal.
pub fn refusal_number(why: Unmade) -> u8
    ensures { result ≡ unmade_number why }
{
    match why {
        Unmade::DomainOver127 => 10,
    }
}

// What a ts-refclk value names.
#[derive(Clone, Copy)]
pub enum ReferenceClock {
    Ntp(Ntp),
    Ptp(Ptp),
    Gps,
    Gal,
    Glonass,
    Local,
    Private(PrivateSource),
    Ext(ClockSourceExt),
}

#[derive(Clone, Copy)]
pub struct Ntp {
    pub server: NtpServerAddr,
}

#[derive(Clone, Copy)]
pub enum NtpServerAddr {
    HostPort { hostname: Place, port: Option<u16> },
    Traceable,
}

#[derive(Clone, Copy)]
pub struct Ptp {
    pub version: PtpVersion,
    pub server: PtpServer,
}

#[derive(Clone, Copy)]
pub enum PtpVersion {
    Ieee1588_2002,
    Ieee1588_2008,
    Ieee8021As_2011,
    Ext(Place),
}

#[derive(Clone, Copy)]
pub enum PtpServer {
    GmidDomain {
        gmid: Eui64,
        domain: Option<PtpDomain>,
    },
    Traceable,
}

// The eight bytes as one number, the first byte highest.
#[derive(Clone, Copy)]
pub struct Eui64 {
    pub id: u64,
}

// A name belongs to IEEE 1588-2002, a number to IEEE 1588-2008.
#[derive(Clone, Copy)]
pub enum PtpDomain {
    DomainName { name: Place },
    DomainNumber(u8),
}

#[derive(Clone, Copy)]
pub enum PrivateSource {
    Standard,
    Traceable,
}

#[derive(Clone, Copy)]
pub struct ClockSourceExt {
    pub name: Place,
    pub value: Option<Place>,
}

// The value is too long, a place reaches outside it, or the room is shorter than the text, which needs so many bytes.
#[derive(Clone, Copy)]
pub enum WriteRefusal {
    Value(Refusal),
    Outside,
    Room(usize),
}
