// The arguments of a frame, as compare/src/calls.rs lays them out: each function takes those that it needs.
ghost use Rattle.std.specs.Prelude.{◌≤◌};

use clock::{
    ClockSourceExt, Eui64, Ntp, NtpServerAddr, PrivateSource, Ptp, PtpDomain, PtpServer, PtpVersion,
};
use mediarecord::{Direct, MediaClock, MediaClockExt, MediaClockId, MediaClockSource, Rate};
use text::Place;

#[derive(Clone, Copy)]
pub(crate) struct Arguments {
    // A host, a name or a domain name; a value; a tag or a version.
    pub(crate) p: Place,
    pub(crate) q: Place,
    pub(crate) r: Place,
    // The halves of the id.
    pub(crate) high: u32,
    pub(crate) low: u32,
    // An offset, and what its last two bytes and its last one are: a port and a domain number.
    pub(crate) x: u32,
    pub(crate) port: u16,
    pub(crate) domain: u8,
    pub(crate) numerator: u32,
    pub(crate) denominator: u32,
    pub(crate) version: u8,
    pub(crate) src: bool,
    // Which case an argument that is an enum or an option has.
    pub(crate) case: u8,
}

// The bytes from a place on as a number, the first byte highest.
pub(crate) fn two(h: &[u8; 39], at: usize) -> u16
    requires { at ≤ 37 }
{
    u16::from_be_bytes([h[at], h[at + 1]])
}

fn four(h: &[u8; 39], at: usize) -> u32
    requires { at ≤ 35 }
{
    u32::from_be_bytes([h[at], h[at + 1], h[at + 2], h[at + 3]])
}

fn place(h: &[u8; 39], at: usize) -> Place
    requires { at ≤ 35 }
{
    Place {
        start: two(h, at) as usize,
        len: two(h, at + 2) as usize,
    }
}

impl Arguments {
    // From the bytes before a frame's value, of which the first three are the row and the length.
    pub(crate) fn of(h: &[u8; 39]) -> Arguments {
        Arguments {
            p: place(h, 3),
            q: place(h, 7),
            r: place(h, 11),
            high: four(h, 15),
            low: four(h, 19),
            x: four(h, 23),
            port: two(h, 25),
            domain: h[26],
            numerator: four(h, 27),
            denominator: four(h, 31),
            version: h[35],
            src: h[36] != 0,
            case: h[37],
        }
    }

    pub(crate) fn id(self) -> u64 {
        u64::from(self.high) << 32 | u64::from(self.low)
    }

    pub(crate) fn eui(self) -> Eui64 {
        Eui64 { id: self.id() }
    }

    pub(crate) fn rate(self) -> Rate {
        Rate::new(self.numerator, self.denominator)
    }

    // 0 to 2 are the versions of IEEE, in the order of the module, else the version is the text at `r`.
    pub(crate) fn ptp_version(self) -> PtpVersion {
        match self.version {
            0 => PtpVersion::Ieee1588_2002,
            1 => PtpVersion::Ieee1588_2008,
            2 => PtpVersion::Ieee8021As_2011,
            _ => PtpVersion::Ext(self.r),
        }
    }

    // Case 0 a name, else a number, of which nothing is asked.
    pub(crate) fn ptp_domain(self) -> PtpDomain {
        match self.case {
            0 => PtpDomain::DomainName { name: self.p },
            _ => PtpDomain::DomainNumber(self.domain),
        }
    }

    // Case 0 traceable, 1 a GMID alone, else a GMID with the domain number x.
    pub(crate) fn ptp_server(self) -> PtpServer {
        match self.case {
            0 => PtpServer::Traceable,
            1 => PtpServer::from_gmid(self.eui()),
            _ => PtpServer::from_gmid_with_domain(self.eui(), PtpDomain::DomainNumber(self.domain)),
        }
    }

    pub(crate) fn ptp(self) -> Ptp {
        Ptp {
            version: self.ptp_version(),
            server: self.ptp_server(),
        }
    }

    // Case 0 traceable, 1 a host, else a host and a port.
    pub(crate) fn ntp_server(self) -> NtpServerAddr {
        match self.case {
            0 => NtpServerAddr::Traceable,
            1 => NtpServerAddr::from_hostname(self.p),
            _ => NtpServerAddr::from_hostname_with_port(self.p, self.port),
        }
    }

    pub(crate) fn ntp(self) -> Ntp {
        Ntp {
            server: self.ntp_server(),
        }
    }

    // Case 0 standard, else traceable.
    pub(crate) fn private_source(self) -> PrivateSource {
        match self.case {
            0 => PrivateSource::Standard,
            _ => PrivateSource::Traceable,
        }
    }

    // Case 0 the name alone, else with the text at `r` as its value.
    pub(crate) fn source_ext(self) -> ClockSourceExt {
        match self.case {
            0 => ClockSourceExt::new(self.p),
            _ => ClockSourceExt::with_value(self.p, self.r),
        }
    }

    pub(crate) fn media_ext(self) -> MediaClockExt {
        match self.case {
            0 => MediaClockExt::new(self.p),
            _ => MediaClockExt::with_value(self.p, self.r),
        }
    }

    // Case 0 the sender, 1 direct with offset and rate, 2 a stream, else an extension with a value.
    pub(crate) fn media_clock(self) -> MediaClock {
        match self.case {
            0 => MediaClock::Sender,
            1 => MediaClock::from_direct_offset_and_rate(self.x, self.rate()),
            2 => MediaClock::Ieee1722StreamId(self.eui()),
            _ => MediaClock::from_extended_name_with_value(self.p, self.q),
        }
    }

    pub(crate) fn media_clock_id(self) -> MediaClockId {
        MediaClockId {
            src: self.src,
            tag: self.r,
        }
    }

    // Of case 0 without the flag, else with it.
    pub(crate) fn flagged_id(self) -> MediaClockId {
        MediaClockId {
            src: self.case != 0,
            tag: self.r,
        }
    }

    // Of version 0 there is no id, else one without the flag and with the text at `q`.
    pub(crate) fn media_clock_source(self) -> MediaClockSource {
        match self.version {
            0 => MediaClockSource::new(self.media_clock()),
            _ => MediaClockSource::with_clock_id(self.media_clock(), MediaClockId::new(self.q)),
        }
    }

    // Case 0 neither, 1 an offset, 2 a rate, else both; each made of the two halves of the id.
    pub(crate) fn direct(self) -> Direct {
        let rate = Rate::new(self.high, self.low);
        match self.case {
            0 => Direct::new(),
            1 => Direct::with_offset(self.low),
            2 => Direct::with_rate(rate),
            _ => Direct::with_offset_and_rate(self.low, rate),
        }
    }
}
