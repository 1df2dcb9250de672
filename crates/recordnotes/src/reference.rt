// The notation of a ts-refclk record. A local that holds a place in the room is named by what is put there.
ghost use Rattle.room.specs.Put.{Put};
ghost use Rattle.recordnotes.specs.Notation.{port_note, ntp_note, version_note, domain_note, opt_domain_note};
ghost use Rattle.recordnotes.specs.Notation.{server_note, ptp_note, private_note, reference_clock_note};

use crate::parts;
use clock::{NtpServerAddr, PrivateSource, PtpDomain, PtpServer, PtpVersion, ReferenceClock};

fn put_port(room: &mut [u8], at: usize, port: Option<u16>) -> usize
    ensures { Put 10 room.old at (port_note port) result room.new }
{
    match port {
        None => room::put_byte(room, at, b'-'),
        Some(n) => digits::put_decimal(room, at, u32::from(n)),
    }
}

fn put_ntp(room: &mut [u8], at: usize, server: NtpServerAddr) -> usize
    ensures { Put 56 room.old at (ntp_note server) result room.new }
{
    match server {
        NtpServerAddr::Traceable => room::put_bytes(room, at, b"ntp traceable"),
        NtpServerAddr::HostPort { hostname, port } => {
            let host = room::put_bytes(room, at, b"ntp ");
            let space = parts::put_place(room, host, hostname);
            let to = room::put_byte(room, space, b' ');
            put_port(room, to, port)
        }
    }
}

fn put_version(room: &mut [u8], at: usize, version: PtpVersion) -> usize
    ensures { Put 41 room.old at (version_note version) result room.new }
{
    match version {
        PtpVersion::Ieee1588_2002 => room::put_bytes(room, at, b"2002"),
        PtpVersion::Ieee1588_2008 => room::put_bytes(room, at, b"2008"),
        PtpVersion::Ieee8021As_2011 => room::put_bytes(room, at, b"2011"),
        PtpVersion::Ext(p) => parts::put_place(room, at, p),
    }
}

fn put_domain(room: &mut [u8], at: usize, domain: PtpDomain) -> usize
    ensures { Put 46 room.old at (domain_note domain) result room.new }
{
    match domain {
        PtpDomain::DomainName { name } => {
            let to = room::put_bytes(room, at, b"name ");
            parts::put_place(room, to, name)
        }
        PtpDomain::DomainNumber(n) => {
            let to = room::put_bytes(room, at, b"number ");
            digits::put_decimal(room, to, n as u32)
        }
    }
}

fn put_opt_domain(room: &mut [u8], at: usize, domain: Option<PtpDomain>) -> usize
    ensures { Put 46 room.old at (opt_domain_note domain) result room.new }
{
    match domain {
        None => room::put_byte(room, at, b'-'),
        Some(d) => put_domain(room, at, d),
    }
}

fn put_server(room: &mut [u8], at: usize, server: PtpServer) -> usize
    ensures { Put 63 room.old at (server_note server) result room.new }
{
    match server {
        PtpServer::Traceable => room::put_bytes(room, at, b"traceable"),
        PtpServer::GmidDomain { gmid, domain } => {
            let space = digits::put_hex_u64(room, at, gmid.id);
            let to = room::put_byte(room, space, b' ');
            put_opt_domain(room, to, domain)
        }
    }
}

fn put_ptp(room: &mut [u8], at: usize, version: PtpVersion, server: PtpServer) -> usize
    ensures { Put 109 room.old at (ptp_note version server) result room.new }
{
    let first = room::put_bytes(room, at, b"ptp ");
    let space = put_version(room, first, version);
    let second = room::put_byte(room, space, b' ');
    put_server(room, second, server)
}

fn put_private(room: &mut [u8], at: usize, source: PrivateSource) -> usize
    ensures { Put 17 room.old at (private_note source) result room.new }
{
    match source {
        PrivateSource::Standard => room::put_bytes(room, at, b"private"),
        PrivateSource::Traceable => room::put_bytes(room, at, b"private traceable"),
    }
}

pub fn note_reference_clock(clock: ReferenceClock, room: &mut [u8]) -> usize
    ensures { Put 109 room.old 0 (reference_clock_note clock) result room.new }
{
    match clock {
        ReferenceClock::Ntp(n) => put_ntp(room, 0, n.server),
        ReferenceClock::Ptp(p) => put_ptp(room, 0, p.version, p.server),
        ReferenceClock::Gps => room::put_bytes(room, 0, b"gps"),
        ReferenceClock::Gal => room::put_bytes(room, 0, b"gal"),
        ReferenceClock::Glonass => room::put_bytes(room, 0, b"glonass"),
        ReferenceClock::Local => room::put_bytes(room, 0, b"local"),
        ReferenceClock::Private(p) => put_private(room, 0, p),
        ReferenceClock::Ext(e) => parts::put_extension(room, 0, e.name, e.value),
    }
}
